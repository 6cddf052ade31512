//! Numbers as they are written.
ghost use Rattle.std.specs.Prelude.{◌≡◌, ◌≤◌, IfSome, length};
ghost use Rattle.sim_words.specs.Numerals.{short_numeral, number_of};

use plain_text::numeral_of;

/// The number of an option's value: one to ten decimal digits of a number below 2^32.
#[tactic(auto, unfolding(crate::specs::Numerals::number_of))]
pub(crate) fn number_of(text: &[u8]) -> Option<u32>
    ensures { result ≡ number_of text.now }
{
    short_numeral(text, 10)
}

/// The number that one decimal digit or more, and so many at most, spell, below 2^32.
#[tactic(auto, unfolding(crate::specs::Numerals::short_numeral))]
pub(crate) fn short_numeral(text: &[u8], most: usize) -> Option<u32>
    ensures number { result ≡ short_numeral most text.now }
    ensures short { IfSome result (λ _. length text.now ≤ most) }
{
    if text.len() > most {
        return None;
    }
    numeral_of(text, 10)
}
