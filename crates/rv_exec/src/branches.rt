//! The conditions of branches.
ghost use Rattle.std.specs.Prelude.{◌≡◌};
ghost use Rattle.rv_exec.specs.Branch.{is_taken};

use slack_base::BranchOp;

/// Whether a branch on the registers' words `a` and `b` is taken (RISC-V Unprivileged ISA 20191213, chapter
/// 2.5).
#[tactic(auto, using(crate::proofs::Readings::signed_words), unfolding(crate::specs::Branch::is_taken))]
pub fn branch_taken(op: BranchOp, a: u32, b: u32) -> bool
    ensures { result ≡ is_taken op a b }
{
    match op {
        BranchOp::Beq => a == b,
        BranchOp::Bne => a != b,
        BranchOp::Blt => a.cast_signed() < b.cast_signed(),
        BranchOp::Bge => a.cast_signed() >= b.cast_signed(),
        BranchOp::Bltu => a < b,
        BranchOp::Bgeu => a >= b,
    }
}
