//! The operations on two registers.
ghost use Rattle.std.specs.Prelude.{◌≡◌};
ghost use Rattle.rv_exec.specs.Alu.{alu_of};

use crate::divisions::{quotient, remainder, unsigned_quotient, unsigned_remainder};
use crate::products::{high_product, high_product_mixed, high_product_unsigned};
use slack_base::RegOp;

/// The result of an operation on the registers' words `a` and `b` (RISC-V Unprivileged ISA 20191213, chapters
/// 2.4 and 7).
#[tactic(auto, using(crate::proofs::Readings::signed_words), unfolding(crate::specs::Alu::alu_of))]
pub fn alu(op: RegOp, a: u32, b: u32) -> u32
    ensures { result ≡ alu_of op a b }
{
    match op {
        RegOp::Add => a.wrapping_add(b),
        RegOp::Sub => a.wrapping_sub(b),
        RegOp::And => a & b,
        RegOp::Or => a | b,
        RegOp::Xor => a ^ b,
        RegOp::Slt => u32::from(a.cast_signed() < b.cast_signed()),
        RegOp::Sltu => u32::from(a < b),
        RegOp::Sll => a.wrapping_shl(b),
        RegOp::Srl => a.wrapping_shr(b),
        RegOp::Sra => a.cast_signed().wrapping_shr(b).cast_unsigned(),
        RegOp::Mul => a.wrapping_mul(b),
        RegOp::Mulh => high_product(a, b),
        RegOp::Mulhsu => high_product_mixed(a, b),
        RegOp::Mulhu => high_product_unsigned(a, b),
        RegOp::Div => quotient(a, b),
        RegOp::Divu => unsigned_quotient(a, b),
        RegOp::Rem => remainder(a, b),
        RegOp::Remu => unsigned_remainder(a, b),
    }
}
