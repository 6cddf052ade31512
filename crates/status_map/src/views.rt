//! What an entry of the status map says of its line, and the delays of a bus.

use slack_base::Words;

/// Which cores the entry of a line permits to hold it. What their caches hold meanwhile isn't said: the messages that
/// tell them are on their way.
#[derive(Clone, Copy, Debug, PartialEq, Eq)]
pub enum EntryKind {
    /// None.
    Idle,
    /// These cores, to read it: bit `c` stands for core `c`.
    Shared {
        cores: u16,
    },
    /// This core alone, to read and to write it. It was promised the line, and may have dropped it since.
    Owned {
        core: u8,
    },
    /// Its owner was told to give it up to a core that asked for it, to be owned there (`exclusive`) or shared.
    Moving {
        owner: u8,
        requester: u8,
        exclusive: bool,
    },
}

/// An entry of the status map.
#[derive(Clone, Copy, Debug, PartialEq, Eq)]
pub struct EntryView {
    pub kind: EntryKind,
    /// The cycle from which every core has what it was promised of the line: one past the greatest due of a reply,
    /// 0 at first.
    pub settled: u64,
    /// The words that memory has.
    pub words: Words,
}

/// How many cycles after its grant a post of an ask is due.
#[derive(Clone, Copy, Debug, PartialEq, Eq)]
pub struct Delays {
    /// A snoop, an invalidation or a retry.
    pub snoop: u64,
    /// A reply out of memory.
    pub memory: u64,
    /// A reply with the words of a flush.
    pub transfer: u64,
}
