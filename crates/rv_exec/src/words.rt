//! The word of a signed number.
ghost use Rattle.std.specs.Prelude.{◌≡◌};
ghost use Rattle.rv_exec.specs.Words.{word_of};

/// The word of an immediate: its value modulo 2^32, which is its two's complement (RISC-V Unprivileged ISA
/// 20191213, chapter 2.3).
#[tactic(auto, using(crate::proofs::Readings::signed_words))]
pub fn word(value: i32) -> u32
    ensures { result ≡ word_of value }
{
    value.cast_unsigned()
}
