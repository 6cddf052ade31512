//! The commands.
ghost use Rattle.std.specs.Prelude.{◌≡◌};
ghost use Rattle.sim_words.specs.Commands.{commands, command_of, has};
ghost use Rattle.sim_words.specs.Tables.{rows_of};

use crate::tables::{Row, entry_in};

/// What the program is asked to do.
#[derive(Clone, Copy, Debug, PartialEq, Eq)]
pub enum Command {
    /// Run an image.
    Run,
    /// Run a generated program.
    Gen,
    /// Assemble a text.
    Asm,
    /// List the instructions of an image.
    List,
    /// Write an image as a packed file.
    Pack,
}

static COMMANDS: [Row<Command>; 5] = [
    (b"run", Command::Run),
    (b"gen", Command::Gen),
    (b"asm", Command::Asm),
    (b"list", Command::List),
    (b"pack", Command::Pack),
];

#[tactic(auto, unfolding(crate::specs::Commands::commands))]
fn commands() -> &'static [Row<Command>]
    ensures { rows_of result.now ≡ commands }
{
    &COMMANDS
}

/// The command of a word.
#[tactic(auto, unfolding(crate::specs::Commands::command_of))]
pub(crate) fn command_of(word: &[u8]) -> Option<Command>
    ensures { result ≡ command_of word.now }
{
    entry_in(commands(), word)
}

/// Some of the commands.
#[derive(Clone, Copy, Debug, PartialEq, Eq)]
pub(crate) struct CommandSet {
    pub(crate) run: bool,
    pub(crate) generate: bool,
    pub(crate) assemble: bool,
    pub(crate) list: bool,
    pub(crate) pack: bool,
}

impl CommandSet {
    /// Whether the command is one of these.
    pub(crate) fn has(self, command: Command) -> bool
        ensures { result ≡ has self command }
    {
        match command {
            Command::Run => self.run,
            Command::Gen => self.generate,
            Command::Asm => self.assemble,
            Command::List => self.list,
            Command::Pack => self.pack,
        }
    }
}
