//! What the options say.
ghost use Rattle.std.specs.Prelude.{◌≡◌, None, Some, IfOk, IfErr};
ghost use Rattle.slack_base.specs.Checks.{first_fault, Reads};
ghost use Rattle.sim_words.specs.Settings.{defaults, is_value, value_checks, with_number, with_value};

use crate::numerals::number_of;
use crate::options::{NumberOption, OptionName};
use crate::steps::wrong_item;
use crate::values::{Format, Mode, format_of, mode_of, switch_of};
use slack_base::{RawConfig, WordFault};
use std::marker::Model;

/// What the options say: the numbers before their bounds are tested, and the steps as they are written.
#[derive(Debug, Drop)]
pub(crate) struct Settings<'a> {
    pub(crate) numbers: RawConfig,
    pub(crate) mode: Mode,
    pub(crate) format: Format,
    pub(crate) notes: bool,
    pub(crate) check: bool,
    pub(crate) seed: u32,
    pub(crate) steps: &'a [u8],
}

impl<'a> Model for Settings<'a> {
    ghost use Rattle.sim_words.specs.Settings.{Choices};

    ghost Value = { Choices };

    ghost view = { λ s. record { numbers = s.numbers; mode = s.mode; format = s.format; notes = s.notes; check = s.check; seed = s.seed; steps = s.steps.now } };
}

impl<'a> Settings<'a> {
    /// Where no option is given.
    #[tactic(auto, unfolding(crate::specs::Settings::defaults))]
    pub(crate) fn defaults() -> Settings<'a>
        ensures { result ≡ defaults }
    {
        Settings {
            numbers: RawConfig::DEFAULT,
            mode: Mode::Lockstep,
            format: Format::Text,
            notes: false,
            check: false,
            seed: 1,
            steps: &[],
        }
    }

    /// With the value of an option, at its place, or with the value's fault.
    pub(crate) fn with(
        mut self,
        option: OptionName,
        value: &'a [u8],
        place: u32,
    ) -> Result<Settings<'a>, WordFault>
        ensures { Reads (first_fault (value_checks option place value.now)) (with_value option value.now self.entry) result }
    {
        if !is_value(value) {
            return Err(WordFault::Form { place });
        }
        match option {
            OptionName::Number(number) => {
                let n = number_of(value).ok_or(WordFault::Number { place })?;
                return Ok(self.with_number(number, n));
            }
            OptionName::Mode => self.mode = mode_of(value).ok_or(WordFault::Value { place })?,
            OptionName::Format => self.format = format_of(value).ok_or(WordFault::Value { place })?,
            OptionName::Notes => self.notes = switch_of(value).ok_or(WordFault::Value { place })?,
            OptionName::Check => self.check = switch_of(value).ok_or(WordFault::Value { place })?,
            OptionName::Steps => {
                if let Some(at) = wrong_item(value) {
                    return Err(WordFault::Steps { place, at });
                }
                self.steps = value;
            }
        }
        Ok(self)
    }

    /// With a number of an option.
    fn with_number(mut self, number: NumberOption, n: u32) -> Settings<'a>
        ensures { result ≡ with_number number n self.entry }
    {
        match number {
            NumberOption::Base => self.numbers.base = n,
            NumberOption::Memory => self.numbers.memory = n,
            NumberOption::Cores => self.numbers.cores = n,
            NumberOption::Sets => self.numbers.sets = n,
            NumberOption::Ways => self.numbers.ways = n,
            NumberOption::Buses => self.numbers.buses = n,
            NumberOption::Snoop => self.numbers.snoop = n,
            NumberOption::MemoryDelay => self.numbers.memory_delay = n,
            NumberOption::Transfer => self.numbers.transfer = n,
            NumberOption::Occupancy => self.numbers.occupancy = n,
            NumberOption::Slack => self.numbers.slack = n,
            NumberOption::Interval => self.numbers.interval = n,
            NumberOption::Limit => self.numbers.limit = n,
            NumberOption::Quantum => self.numbers.quantum = n,
            NumberOption::Seed => self.seed = n,
        }
        self
    }
}

/// Whether the word isn't empty and begins with no `-`.
fn is_value(word: &[u8]) -> bool
    ensures { result ≡ is_value word.now }
{
    match word {
        [] => false,
        [byte, ..] => *byte != b'-',
    }
}
