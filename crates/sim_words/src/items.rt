//! The items of a list of steps.
ghost use Rattle.std.specs.Prelude.{◌≡◌, ◌+◌, ◌≤◌, IfSome, length};
ghost use Rattle.sim_words.specs.Items.{step_of, is_times, parts_of, count_of, core_and_count, item_of, GivesParts};
ghost use Rattle.std.specs.List.{position};

use crate::numerals::short_numeral;
use slack_base::Step;

/// A step, and how often it comes.
#[derive(Clone, Copy, Debug, PartialEq, Eq)]
pub(crate) struct Item {
    pub(crate) step: Step,
    pub(crate) count: u32,
}

/// The item that a text spells: a letter, a core of one or two digits, and `x` and one to five digits for how
/// often, or nothing for once.
#[tactic(auto, unfolding(crate::specs::Items::item_of))]
pub(crate) fn item_of(text: &[u8]) -> Option<Item>
    ensures item { result ≡ item_of text.now }
    ensures short { IfSome result (λ item. (length text.now ≤ 9) × (1 ≤ item.count)) }
{
    let [letter, numbers @ ..] = text else {
        return None;
    };
    let (core, count) = core_and_count(numbers)?;
    let step = step_of(core, *letter)?;
    Some(Item { step, count })
}

/// The core and how often.
fn core_and_count(text: &[u8]) -> Option<(u32, u32)>
    ensures numbers { result ≡ core_and_count text.now (parts_of text.now) }
    ensures short { IfSome result (λ numbers. (length text.now ≤ 8) × (1 ≤ numbers.1)) }
{
    match parts_of(text) {
        Some((core, count)) => {
            let core = short_numeral(core, 2)?;
            Some((core, count_of(count)?))
        }
        None => Some((short_numeral(text, 2)?, 1)),
    }
}

/// How often: one to five digits of a number from 1.
#[tactic(auto, unfolding(crate::specs::Items::count_of))]
fn count_of(text: &[u8]) -> Option<u32>
    ensures count { result ≡ count_of text.now }
    ensures short { IfSome result (λ count. (length text.now ≤ 5) × (1 ≤ count)) }
{
    let count = short_numeral(text, 5)?;
    if count >= 1 { Some(count) } else { None }
}

/// What stands before the first `x`, and after it.
#[tactic(auto, unfolding(crate::specs::Items::parts_of))]
fn parts_of(text: &[u8]) -> Option<(&[u8], &[u8])>
    ensures parts { GivesParts result (parts_of text.now) }
    ensures sizes { IfSome result (λ parts. length parts.0.now + 1 + length parts.1.now ≡ length text.now) }
{
    let at = position_of_times(text)?;
    Some((&text[..at], &text[at + 1..]))
}

/// The place of the first `x`.
fn position_of_times(text: &[u8]) -> Option<usize>
    ensures { result ≡ position is_times text.now }
{
    text.iter().position(|byte| *byte == b'x')
}

/// The step of a letter.
fn step_of(core: u32, letter: u8) -> Option<Step>
    ensures { result ≡ step_of core letter }
{
    match letter {
        b't' => Some(Step::Tick { core }),
        b's' => Some(Step::Serve { core }),
        b'p' => Some(Step::Take { core }),
        _ => None,
    }
}
