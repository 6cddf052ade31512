//! Numbers as they are written.
ghost use Rattle.std.specs.Prelude.{◌≡◌, ◌≤◌};
ghost use Rattle.rv_asm.specs.Numbers.{digits_of, magnitude_of, number_of};

use crate::bytes::without_prefix;
use plain_text::numeral_of;
use slack_base::AsmKind;

/// The number that a text spells: decimal, or `0x` and hexadecimal, with an optional `-`, below 2^32 in size.
#[tactic(auto, unfolding(crate::specs::Numbers::number_of))]
pub(crate) fn number_of(text: &[u8]) -> Result<i64, AsmKind>
    ensures { result ≡ number_of text.now }
{
    match without_prefix(text, b"-") {
        Some(digits) => Ok(-i64::from(magnitude_of(digits)?)),
        None => Ok(i64::from(magnitude_of(text)?)),
    }
}

#[tactic(auto, unfolding(crate::specs::Numbers::magnitude_of))]
fn magnitude_of(text: &[u8]) -> Result<u32, AsmKind>
    ensures { result ≡ magnitude_of text.now }
{
    match without_prefix(text, b"0x") {
        Some(digits) => digits_of(digits, 16),
        None => digits_of(text, 10),
    }
}

/// The number that the digits spell, below 2^32.
fn digits_of(digits: &[u8], radix: u32) -> Result<u32, AsmKind>
    requires low { 2 ≤ radix }
    requires high { radix ≤ 36 }
    ensures { result ≡ digits_of radix digits.now }
{
    numeral_of(digits, radix).ok_or(AsmKind::Operand)
}
