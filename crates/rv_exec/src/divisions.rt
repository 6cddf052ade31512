//! Quotients and remainders, which have an answer for a division by 0 too.
ghost use Rattle.std.specs.Prelude.{◌≡◌};
ghost use Rattle.rv_exec.specs.Alu.{quotient_of, quotient_of_unsigned, remainder_of, remainder_of_unsigned};

/// The quotient of the signed readings, truncated toward zero. By 0 it is all ones.
#[tactic(auto, using(crate::proofs::Readings::signed_words), unfolding(crate::specs::Alu::quotient_of))]
pub fn quotient(a: u32, b: u32) -> u32
    ensures { result ≡ quotient_of a b }
{
    if b == 0 {
        u32::MAX
    } else {
        a.cast_signed()
            .wrapping_div(b.cast_signed())
            .cast_unsigned()
    }
}

/// The quotient of the words. By 0 it is all ones.
#[tactic(auto, unfolding(crate::specs::Alu::quotient_of_unsigned))]
pub fn unsigned_quotient(a: u32, b: u32) -> u32
    ensures { result ≡ quotient_of_unsigned a b }
{
    if b == 0 { u32::MAX } else { a / b }
}

/// The remainder of the signed readings, with the dividend's sign. By 0 it is the dividend.
#[tactic(auto, using(crate::proofs::Readings::signed_words), unfolding(crate::specs::Alu::remainder_of))]
pub fn remainder(a: u32, b: u32) -> u32
    ensures { result ≡ remainder_of a b }
{
    if b == 0 {
        a
    } else {
        a.cast_signed()
            .wrapping_rem(b.cast_signed())
            .cast_unsigned()
    }
}

/// The remainder of the words. By 0 it is the dividend.
#[tactic(auto, unfolding(crate::specs::Alu::remainder_of_unsigned))]
pub fn unsigned_remainder(a: u32, b: u32) -> u32
    ensures { result ≡ remainder_of_unsigned a b }
{
    if b == 0 { a } else { a % b }
}
