//! The pairs of an option and a value.
ghost use Rattle.std.specs.Prelude.{◌≡◌, ◌+◌, ◌<◌, [], None, Some, false, length, slice_index_or, drop, MatchResult};
ghost use Rattle.slack_base.specs.Checks.{first_fault, Reads};
ghost use Rattle.sim_words.specs.NewOptions.{IsNewOption, word_fault};
ghost use Rattle.sim_words.specs.Pairs.{pairs_from, pairs_fault, choices_in};

use crate::commands::Command;
use crate::given::Given;
use crate::options::{OptionName, option_of};
use crate::settings::Settings;
use slack_base::{Arg, WordFault};

/// What the words after the first say, which are pairs of an option and a value, or the fault of the first pair
/// that has one.
pub(crate) fn settings_in(command: Command, words: &[Arg]) -> Result<Settings<'_>, WordFault>
    requires { 0 < length words.now }
    ensures { let pairs = pairs_from 1 (drop 1 words.now) in Reads (pairs_fault command [] pairs) (choices_in command pairs) result }
{
    let mut settings = Settings::defaults();
    let mut given = Given::none();
    let mut place = 1;
    while place < words.len() {
        let at = place as u32;
        let option = option_at(command, &given, at, words[place].bytes())?;
        settings = settings.with(option, value_at(words, place + 1), at + 1)?;
        given.add(option);
        place += 2;
    }
    Ok(settings)
}

/// The option of a word at its place, after those that were given, or the word's fault.
fn option_at(
    command: Command,
    given: &Given,
    place: u32,
    word: &[u8],
) -> Result<OptionName, WordFault>
    ensures { let flags = given.now.flags in let fault = word_fault command flags place word.now in
        MatchResult result (IsNewOption fault command flags word.now) (λ f. fault ≡ Some f) }
{
    if !word.starts_with(b"--") {
        return Err(WordFault::Form { place });
    }
    let option = option_of(command, word).ok_or(WordFault::Option { place })?;
    if given.has(option) {
        return Err(WordFault::Twice { place });
    }
    Ok(option)
}

/// The bytes of the word at a place: none where there is no word.
fn value_at(words: &[Arg], place: usize) -> &[u8]
    ensures { result.now ≡ slice_index_or words.now place [] }
{
    match words.get(place) {
        Some(word) => word.bytes(),
        None => &[],
    }
}
