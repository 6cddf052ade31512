//! What each seat at the clock table knows. No value of these is read by the program but the opening, once.
use std::collections::LinkedList;

/// What the table is told once: how many cores it has, the clock at which all of them begin, and the slack.
#[derive(Clone, Copy)]
pub struct Opening {
    pub cores: u64,
    pub clock: u64,
    pub slack: u64,
}

/// What a seat knows. The overseer's (`oversees`) has in `clock` the clock of the opening, in `seen` global time, in
/// `next` how many pacers were seated, and in `low` the clock of each core as it was last looked at. A pacer's has the
/// `number` of its core, that core's `clock`, and in `seen` global time as it was last observed.
pub struct View {
    pub oversees: bool,
    pub number: u64,
    pub clock: u64,
    pub seen: u64,
    pub slack: u64,
    pub next: u64,
    pub low: LinkedList<u64>,
}
