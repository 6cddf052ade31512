//! The end of the clock table that the manager has.
ghost use Rattle.std.specs.Prelude.{◌≡◌, ◌+◌, ◌<◌, [], ℕ, true, length, vec_len};
ghost use Rattle.std.specs.Arc.{arc_value};
ghost use Rattle.core_gate.specs.Pacing.{HasClockWords};
ghost use Rattle.core_gate.specs.Steps.{IsLeast};

use crate::rules::{ClockWords, Look, Raise};
use crate::views::View;
use atomic_table::Seat;
use std::alloc::Global;
use std::sync::Arc;

/// What raises global time: the clock of each core as it was last looked at, and global time. It may go to another
/// thread.
#[derive(Drop)]
pub struct Overseer {
    pub(crate) words: Arc<ClockWords, Global>,
    pub(crate) seat: Seat<u8, View>,
    pub(crate) lows: Vec<u64>,
    pub(crate) global: u64,
    pub ghost sits: { (seat.table_id ≡ (arc_value words).shared.table_id) × (seat.me.1 ≡ []) },
    pub ghost knows: { (seat.me.0.oversees ≡ true) × (seat.me.0.low ≡ lows.items) × (seat.me.0.seen ≡ global) },
    pub ghost key: { (vec_len lows ≡ (arc_value words).shared.key.cores) × (0 < vec_len lows) },
    pub ghost slack: { seat.me.0.slack ≡ (arc_value words).shared.key.slack },
    pub ghost counts: { HasClockWords (arc_value words).shared.table_id (arc_value words).shared.key },
}

impl Overseer {
    ghost use Rattle.std.specs.Prelude.{◌≡◌, ◌<◌, ◌≤◌, ℕ, max, slice_set, slice_index};
    ghost use Rattle.core_gate.specs.Steps.{IsLeast};
    ghost use Rattle.core_gate.specs.Seats.{cores_of, IsInStep, SameOverseer};

    /// Global time, in cycles.
    pub fn global(&self) -> u64
        ensures { result ≡ self.now.global }
    {
        self.global
    }

    /// Loads the clock of a core, which is in step with global time, and never below what an earlier look at it found. It
    /// takes no memory.
    pub fn look(&mut self, core: u32) -> u64
        requires { core < cores_of self.old }
        ensures lows { self.new.lows.items ≡ slice_set self.old.lows.items core result }
        ensures rises { slice_index self.old.lows.items core ≤ result }
        ensures in_step { IsInStep self.new result }
        ensures global { self.new.global ≡ self.old.global }
        ensures same { SameOverseer self.old self.new }
    {
        let place = core as usize;
        let found = self.words.shared.load::<Look>(&mut self.seat, place + 1);
        self.lows[place] = found;
        found
    }

    /// Stores the least of the clocks last looked at where that is above global time, and answers global time. It takes
    /// no memory.
    pub fn raise(&mut self) -> u64
        ensures global { result ≡ self.new.global }
        ensures raised { (n : ℕ) × IsLeast n self.old.lows.items × (self.new.global ≡ max self.old.global n) }
        ensures rises { self.old.global ≤ self.new.global }
        ensures lows { self.new.lows.items ≡ self.old.lows.items }
        ensures same { SameOverseer self.old self.new }
    {
        let least = least_of(self.lows.as_slice());
        if least > self.global {
            self.words.shared.store::<Raise>(&mut self.seat, 0, least);
            self.global = least;
        }
        self.global
    }
}

/// The least of some numbers.
fn least_of(numbers: &[u64]) -> u64
    requires { 0 < length numbers.now }
    ensures { IsLeast result numbers.now }
{
    match numbers.iter().copied().min() {
        Some(least) => least,
        None => unreachable!(),
    }
}
