//! The results of atomic memory operations.
ghost use Rattle.std.specs.Prelude.{◌≡◌};
ghost use Rattle.rv_exec.specs.Access.{amo_of};

use slack_base::AmoOp;

/// The word that an atomic operation writes, of the old word and the register's word `operand` (RISC-V
/// Unprivileged ISA 20191213, chapter 8.4).
#[tactic(auto, using(crate::proofs::Readings::signed_words), unfolding(crate::specs::Access::amo_of))]
pub fn amo_result(op: AmoOp, old: u32, operand: u32) -> u32
    ensures { result ≡ amo_of op old operand }
{
    match op {
        AmoOp::Amoswap => operand,
        AmoOp::Amoadd => old.wrapping_add(operand),
        AmoOp::Amoxor => old ^ operand,
        AmoOp::Amoand => old & operand,
        AmoOp::Amoor => old | operand,
        AmoOp::Amomin => old.cast_signed().min(operand.cast_signed()).cast_unsigned(),
        AmoOp::Amomax => old.cast_signed().max(operand.cast_signed()).cast_unsigned(),
        AmoOp::Amominu => old.min(operand),
        AmoOp::Amomaxu => old.max(operand),
    }
}
