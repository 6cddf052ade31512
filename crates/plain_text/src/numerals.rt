//! Numbers as they are written in digits.
ghost use Rattle.std.specs.Prelude.{◌≡◌, ◌+◌, ◌*◌, ◌^◌, ◌<◌, ◌≤◌};
ghost use Rattle.std.specs.Char.{digit_value};
ghost use Rattle.std.specs.Option.{SomeIff};
ghost use Rattle.plain_text.specs.Numerals.{numeral_of};

/// The number that one digit or more of a radix spell, below 2^32: none where a byte is no digit, or the number is
/// greater. Letters are digits in either case.
#[tactic(auto, unfolding(crate::specs::Numerals::numeral_of))]
pub fn numeral_of(text: &[u8], radix: u32) -> Option<u32>
    requires low { 2 ≤ radix }
    requires high { radix ≤ 36 }
    ensures { result ≡ numeral_of radix text.now }
{
    if text.is_empty() {
        return None;
    }
    let mut number = 0u32;
    for byte in text {
        let Some(longer) = with_digit(number, radix, *byte) else {
            return None;
        };
        number = longer;
    }
    Some(number)
}

/// The number with a digit behind it, below 2^32.
fn with_digit(number: u32, radix: u32, byte: u8) -> Option<u32>
    requires low { 2 ≤ radix }
    requires high { radix ≤ 36 }
    ensures { SomeIff result ((digit_value byte < radix) × (number * radix + digit_value byte < 2 ^ 32)) (number * radix + digit_value byte) }
{
    let digit = char::from(byte).to_digit(radix)?;
    number.checked_mul(radix)?.checked_add(digit)
}
