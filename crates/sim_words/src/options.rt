//! The options of the commands.
ghost use Rattle.std.specs.Prelude.{◌≡◌, ◌<◌};
ghost use Rattle.sim_words.specs.Options.{options, option_of, index_of};
ghost use Rattle.sim_words.specs.Tables.{rows_of};

use crate::commands::{Command, CommandSet};
use crate::tables::{Row, entry_in};

/// An option whose value is a number.
#[derive(Clone, Copy, Debug, PartialEq, Eq)]
pub(crate) enum NumberOption {
    Base,
    Memory,
    Cores,
    Sets,
    Ways,
    Buses,
    Snoop,
    MemoryDelay,
    Transfer,
    Occupancy,
    Slack,
    Interval,
    Limit,
    Quantum,
    Seed,
}

/// An option, by the value that it takes.
#[derive(Clone, Copy, Debug, PartialEq, Eq)]
pub(crate) enum OptionName {
    Number(NumberOption),
    Mode,
    Format,
    Notes,
    Check,
    Steps,
}

/// How many options there are.
pub(crate) const OPTION_COUNT: usize = 20;

const EVERY_COMMAND: CommandSet = CommandSet {
    run: true,
    generate: true,
    assemble: true,
    list: true,
    pack: true,
};

const ALL_BUT_ASM: CommandSet = CommandSet {
    run: true,
    generate: true,
    assemble: false,
    list: true,
    pack: true,
};

const RUN_GEN: CommandSet = CommandSet {
    run: true,
    generate: true,
    assemble: false,
    list: false,
    pack: false,
};

const RUN_ALONE: CommandSet = CommandSet {
    run: true,
    generate: false,
    assemble: false,
    list: false,
    pack: false,
};

const GEN_ALONE: CommandSet = CommandSet {
    run: false,
    generate: true,
    assemble: false,
    list: false,
    pack: false,
};

/// Each option by its word, and the commands that have it.
#[rattlefmt::skip]
static OPTIONS: [Row<(OptionName, CommandSet)>; OPTION_COUNT] = [
    (b"--base", (OptionName::Number(NumberOption::Base), EVERY_COMMAND)),
    (b"--memory", (OptionName::Number(NumberOption::Memory), ALL_BUT_ASM)),
    (b"--cores", (OptionName::Number(NumberOption::Cores), RUN_GEN)),
    (b"--sets", (OptionName::Number(NumberOption::Sets), RUN_GEN)),
    (b"--ways", (OptionName::Number(NumberOption::Ways), RUN_GEN)),
    (b"--buses", (OptionName::Number(NumberOption::Buses), RUN_GEN)),
    (b"--snoop", (OptionName::Number(NumberOption::Snoop), RUN_GEN)),
    (b"--memory-delay", (OptionName::Number(NumberOption::MemoryDelay), RUN_GEN)),
    (b"--transfer", (OptionName::Number(NumberOption::Transfer), RUN_GEN)),
    (b"--occupancy", (OptionName::Number(NumberOption::Occupancy), RUN_GEN)),
    (b"--slack", (OptionName::Number(NumberOption::Slack), RUN_GEN)),
    (b"--interval", (OptionName::Number(NumberOption::Interval), RUN_GEN)),
    (b"--limit", (OptionName::Number(NumberOption::Limit), RUN_GEN)),
    (b"--quantum", (OptionName::Number(NumberOption::Quantum), RUN_GEN)),
    (b"--mode", (OptionName::Mode, RUN_GEN)),
    (b"--format", (OptionName::Format, RUN_GEN)),
    (b"--notes", (OptionName::Notes, RUN_GEN)),
    (b"--check", (OptionName::Check, RUN_GEN)),
    (b"--steps", (OptionName::Steps, RUN_ALONE)),
    (b"--seed", (OptionName::Number(NumberOption::Seed), GEN_ALONE)),
];

#[tactic(auto, unfolding(crate::specs::Options::options))]
fn options() -> &'static [Row<(OptionName, CommandSet)>]
    ensures { rows_of result.now ≡ options }
{
    &OPTIONS
}

/// The option of a command that has this word.
#[tactic(auto, unfolding(crate::specs::Options::option_of))]
pub(crate) fn option_of(command: Command, word: &[u8]) -> Option<OptionName>
    ensures { result ≡ option_of command word.now }
{
    let row = entry_in(options(), word)?;
    row.1.has(command).then_some(row.0)
}

impl OptionName {
    /// The option's own number, below `OPTION_COUNT`.
    pub(crate) fn index(self) -> usize
        ensures index { result ≡ index_of self }
        ensures bound { result < 20 }
    {
        match self {
            OptionName::Number(number) => number as usize,
            OptionName::Mode => 15,
            OptionName::Format => 16,
            OptionName::Notes => 17,
            OptionName::Check => 18,
            OptionName::Steps => 19,
        }
    }
}
