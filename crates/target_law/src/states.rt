//! The state of a target, and what runs of it end as.

use crate::targets::Target;
use slack_base::{Drift, NoteList, Row, ViolationList};

/// The cores and the channels of a target, each by number, and its clock.
#[derive(Drop)]
pub struct State<T: Target> {
    /// The cycle that comes next.
    pub clock: u64,
    pub cores: Row<T::Core>,
    pub chans: Row<T::Chan>,
}

/// What a drift ended as: the state, its history, and what its monitors recorded.
#[derive(Drop)]
pub struct Drifted<T: Target> {
    pub end: State<T>,
    pub drift: Drift,
    pub seen: ViolationList,
}

/// What a run ended as: the state, and the notes of its intervals.
#[derive(Drop)]
pub struct Bounded<T: Target> {
    pub end: State<T>,
    pub notes: NoteList,
}
