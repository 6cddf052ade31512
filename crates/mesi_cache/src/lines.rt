//! The lines that a cache holds.
ghost use Rattle.std.specs.Prelude.{◌≡◌};
ghost use Rattle.mesi_cache.specs.Lines.{may_write};

use slack_base::Words;

/// The state of a held line, one of the three of MESI that a line in a cache can have: what the cache may do with the
/// line. A line that isn't held is Invalid.
#[derive(Clone, Copy, Debug, PartialEq, Eq)]
pub enum Held {
    /// The line may be read, and not written.
    Shared,
    /// The line may be read and written. It wasn't written since it came.
    Exclusive,
    /// The line may be read and written, and it was written since it came.
    Modified,
}

impl Held {
    /// Whether the cache may write a line in this state.
    pub fn may_write(self) -> bool
        ensures { result ≡ may_write self }
    {
        match self {
            Held::Shared => false,
            Held::Exclusive => true,
            Held::Modified => true,
        }
    }
}

/// A line of memory as a cache holds it.
#[derive(Clone, Copy, Debug, PartialEq, Eq)]
pub struct CacheLine {
    /// The number of the line in memory.
    pub line: u32,
    pub held: Held,
    pub words: Words,
}

/// The line that fell out of its set when another was filled.
pub type Victim = CacheLine;

/// What a cache holds of a line whose number is known.
#[derive(Clone, Copy, Debug, PartialEq, Eq)]
pub struct HeldLine {
    pub held: Held,
    pub words: Words,
}
