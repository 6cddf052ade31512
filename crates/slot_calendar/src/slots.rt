//! The slot of an ask.

use slack_base::Id;

/// The slot of an ask on a bus: whose it is, and the cycle at which the ask got the bus.
#[derive(Clone, Copy, Debug, PartialEq, Eq)]
pub struct Slot {
    pub id: Id,
    pub grant: u64,
}
