//! The four words of a line by their places.
ghost use Rattle.std.specs.Prelude.{◌≡◌, ◌<◌};
ghost use Rattle.mesi_cache.specs.Words.{word_of, with_word};

use slack_base::Words;

/// The word at a place, 0 to 3. It is picked with no jump, since places come in any order.
#[inline]
pub fn word_at(words: &Words, place: u32) -> u32
    requires { place < 4 }
    ensures { result ≡ word_of words.now place }
{
    let Words { w0, w1, w2, w3 } = *words;
    let even = if place < 2 { w0 } else { w2 };
    let odd = if place < 2 { w1 } else { w3 };
    if place % 2 == 0 { even } else { odd }
}

/// The words with another one at a place, 0 to 3.
pub fn with_word(words: &Words, place: u32, value: u32) -> Words
    requires { place < 4 }
    ensures { result ≡ with_word words.now place value }
{
    let mut changed = *words;
    put_word(&mut changed, place, value);
    changed
}

/// Puts another word at a place, 0 to 3.
#[inline]
pub fn put_word(words: &mut Words, place: u32, value: u32)
    requires { place < 4 }
    ensures { words.new ≡ with_word words.old place value }
{
    match place {
        0 => words.w0 = value,
        1 => words.w1 = value,
        2 => words.w2 = value,
        _ => words.w3 = value,
    }
}
