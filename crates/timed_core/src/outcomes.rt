//! What a cycle of a hart comes to.
ghost use Rattle.std.specs.Prelude.{◌≡◌, ◌↔◌, IsTrue};
ghost use Rattle.timed_core.specs.Outcomes.{asks, ask_of};

use slack_base::{Ask, Id};

/// What is asked for in a cycle, before it has an id; and where nothing is, whether the hart goes on at once.
#[derive(Clone, Copy)]
pub enum Outcome {
    /// Nothing: the hart is ready for its next instruction.
    Ready,
    /// Nothing: the hart is busy or has ended.
    Rests,
    /// A line, to be read.
    Read { line: u32 },
    /// A line, to be owned.
    ReadOwn { line: u32 },
    /// The low byte of this word goes to the console.
    Put { word: u32 },
}

impl Outcome {
    /// Whether the hart is ready for its next instruction.
    #[inline(always)]
    pub fn is_ready(self) -> bool
        ensures { IsTrue result ↔ (self ≡ Outcome.Ready) }
    {
        match self {
            Outcome::Ready => true,
            _ => false,
        }
    }

    /// Whether something is asked for.
    #[inline(always)]
    pub fn asks(self) -> bool
        ensures { result ≡ asks self }
    {
        match self {
            Outcome::Ready | Outcome::Rests => false,
            Outcome::Read { .. } | Outcome::ReadOwn { .. } | Outcome::Put { .. } => true,
        }
    }

    /// The ask with this id, if something is asked for.
    #[inline(always)]
    pub fn ask(self, id: Id) -> Option<Ask>
        ensures { result ≡ ask_of self id }
    {
        match self {
            Outcome::Ready | Outcome::Rests => None,
            Outcome::Read { line } => Some(Ask::Read { id, line }),
            Outcome::ReadOwn { line } => Some(Ask::ReadOwn { id, line }),
            Outcome::Put { word } => Some(Ask::Put {
                id,
                byte: (word % 256) as u8,
            }),
        }
    }
}
