//! Where a jump or a branch goes.
ghost use Rattle.std.specs.Prelude.{◌≡◌};
ghost use Rattle.rv_exec.specs.Target.{target_of};

/// The address `from` plus the offset, modulo 2^32 (RISC-V Unprivileged ISA 20191213, chapter 2.5).
#[tactic(auto, using(crate::proofs::Readings::signed_words), unfolding(crate::specs::Target::target_of))]
pub fn target(from: u32, offset: i32) -> u32
    ensures { result ≡ target_of from offset }
{
    from.wrapping_add_signed(offset)
}
