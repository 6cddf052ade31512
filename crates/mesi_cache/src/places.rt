//! Where a cache holds a line.

use crate::lines::Held;

/// Where a line stands in a cache and in which state, found once for all that an access does with it.
#[derive(Clone, Copy, Debug, PartialEq, Eq)]
pub struct Found {
    /// The number of the line in memory.
    pub line: u32,
    /// The number of the set where it belongs.
    pub set: u32,
    /// Its place in the set: 0 is the front.
    pub place: u32,
    pub held: Held,
}
