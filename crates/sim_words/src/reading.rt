//! Reading the command words.
ghost use Rattle.std.specs.Prelude.{◌≡◌, ◌≤◌, ◌↔◌, None, Some, Ok, Err, IfOk, IsErrOf, MatchResult};
ghost use Rattle.slack_base.specs.declared.bounds.TheConstants.{GENERATED_MEMORY};
ghost use Rattle.slack_base.specs.Bounds.{settled};
ghost use Rattle.slack_base.specs.Numbers.{numbers_of};
ghost use Rattle.slack_base.specs.declared.faults.WordFault.{WordFault};
ghost use Rattle.sim_words.specs.declared.reading.WordError.TheVariants as errors;
ghost use Rattle.sim_words.specs.OrderValues.{order_value, order_value_in};
ghost use Rattle.sim_words.specs.Reading.{bound_fault, words_of};

use crate::commands::{Command, command_of};
use crate::orders::Order;
use crate::pairs::settings_in;
use crate::settings::Settings;
use crate::steps::steps_of;
use slack_base::{Arg, Config, ConfigFault, GENERATED_MEMORY, OutOfMemory, RawConfig, WordFault};
use std::alloc::Global;
use thiserror::Error;

/// Why command words were not read.
#[derive(Clone, Copy, Debug, PartialEq, Eq, Error)]
pub enum WordError {
    #[error("the words have a fault")]
    Fault(WordFault),
    #[error("out of memory")]
    OutOfMemory,
}

impl From<OutOfMemory> for WordError {
    ghost from_gives = { λ _ e. e ≡ errors.OutOfMemory };

    fn from(_error: OutOfMemory) -> WordError {
        WordError::OutOfMemory
    }
}

/// The order that the words give. The first is the command, and the others are pairs of an option and its
/// value, each option once at most, in any order. Words with a fault are answered by their first fault, and
/// never by want of memory. Places are counted from 0.
pub fn read_words(alloc: Global, words: &[Arg]) -> Result<Order, WordError>
    ensures order { IfOk result (λ order. words_of words.now ≡ Ok (order_value order)) }
    ensures fault { (fault : WordFault) → (IsErrOf result (WordError.Fault fault) ↔ (words_of words.now ≡ Err fault)) }
    ensures room { IfOk result (λ order. order.command ≡ Command.Gen → GENERATED_MEMORY ≤ order.config.memory) }
{
    let request = request_of(words).map_err(WordError::Fault)?;
    let settings = request.settings;
    let steps = steps_of(alloc, settings.steps)?;
    Ok(Order {
        command: request.command,
        config: request.config,
        mode: settings.mode,
        format: settings.format,
        notes: settings.notes,
        check: settings.check,
        seed: settings.seed,
        steps,
    })
}

/// The first fault of the words, if they have one. It takes no memory.
pub fn word_fault(words: &[Arg]) -> Option<WordFault>
    ensures { (fault : WordFault) → ((result ≡ Some fault) ↔ (words_of words.now ≡ Err fault)) }
{
    request_of(words).err()
}

/// Words without a fault.
#[derive(Debug, Drop)]
struct Request<'a> {
    command: Command,
    config: Config,
    settings: Settings<'a>,
}

/// What the words say, or their first fault. It takes no memory.
#[tactic(auto, unfolding(crate::specs::Reading::words_of))]
fn request_of(words: &[Arg]) -> Result<Request<'_>, WordFault>
    ensures contents { let order = words_of words.now in
        MatchResult result (λ r. order ≡ Ok (order_value_in r.command (numbers_of r.config) r.settings)) (λ fault. order ≡ Err fault) }
    ensures room { IfOk result (λ request. request.command ≡ Command.Gen → GENERATED_MEMORY ≤ request.config.memory) }
{
    let Some(word) = words.first() else {
        return Err(WordFault::Empty);
    };
    let command = command_of(word.bytes()).ok_or(WordFault::Command)?;
    let settings = settings_in(command, words)?;
    let config = config_for(command, settings.numbers)?;
    Ok(Request {
        command,
        config,
        settings,
    })
}

/// The configuration of these numbers for a command, or the fault of the first bound that they break.
#[tactic(auto, unfolding(crate::specs::Reading::bound_fault))]
fn config_for(command: Command, numbers: RawConfig) -> Result<Config, WordFault>
    ensures numbers { let fault = bound_fault command numbers in
        MatchResult result (λ config. (fault ≡ None) × (numbers_of config ≡ settled numbers)) (λ f. fault ≡ Some f) }
    ensures room { IfOk result (λ config. command ≡ Command.Gen → GENERATED_MEMORY ≤ config.memory) }
{
    let config = Config::checked(numbers).map_err(WordFault::Bound)?;
    match command {
        Command::Gen if numbers.memory < GENERATED_MEMORY => {
            Err(WordFault::Bound(ConfigFault::Memory {
                given: numbers.memory,
            }))
        }
        _ => Ok(config),
    }
}
