//! The end of the clock table that a core has.
ghost use Rattle.std.specs.Prelude.{◌≡◌, ◌+◌, ◌<◌, ◌≤◌, [], false};
ghost use Rattle.std.specs.Arc.{arc_value};
ghost use Rattle.slack_base.specs.declared.bounds.TheConstants.{TOP};
ghost use Rattle.core_gate.specs.Pacing.{HasClockWords};

use crate::rules::{Advance, ClockWords, Observe, Seating};
use crate::views::View;
use atomic_table::Seat;
use slack_base::{OutOfMemory, Row};
use std::alloc::Global;
use std::sync::Arc;

/// Pacers, as a contract sees them in a list.
pub type PacerList = Row<Pacer>;

/// What keeps one core in step: its clock, and global time as it was last seen. The clock is never below what was seen,
/// nor above that plus the slack. It may go to another thread.
#[derive(Drop)]
pub struct Pacer {
    pub(crate) words: Arc<ClockWords, Global>,
    pub(crate) seat: Seat<u8, View>,
    pub(crate) number: u32,
    pub(crate) clock: u64,
    pub(crate) seen: u64,
    pub(crate) slack: u64,
    pub ghost sits: { (seat.table_id ≡ (arc_value words).shared.table_id) × (seat.me.1 ≡ []) },
    pub ghost follows: { (seat.me.0.oversees ≡ false) × (seat.me.0.number ≡ number) × (seat.me.0.slack ≡ slack) },
    pub ghost knows: { (seat.me.0.clock ≡ clock) × (seat.me.0.seen ≡ seen) },
    pub ghost key: { ((arc_value words).shared.key.slack ≡ slack) × (number < (arc_value words).shared.key.cores) },
    pub ghost counts: { HasClockWords (arc_value words).shared.table_id (arc_value words).shared.key },
    pub ghost bounds: { (slack ≤ TOP) × (clock ≤ TOP) },
    pub ghost in_step: { (seen ≤ clock) × (clock ≤ seen + slack) },
}

impl Pacer {
    ghost use Rattle.std.specs.Prelude.{◌≡◌, ◌+◌, ◌<◌, ◌≤◌, ◌↔◌, IsTrue, IfOk};
    ghost use Rattle.std.specs.Arc.{arc_value};
    ghost use Rattle.slack_base.specs.declared.bounds.TheConstants.{TOP};
    ghost use Rattle.core_gate.specs.Pacing.{HasClockWords, IsHosting};
    ghost use Rattle.core_gate.specs.Seats.{IsOpeningPacer, SamePacer};

    /// The pacer of the next core, whose seat is split off the overseer's.
    pub(crate) fn seated(
        words: &Arc<ClockWords, Global>,
        seat: &mut Seat<u8, View>,
        number: u32,
        clock: u64,
        slack: u64,
    ) -> Result<Pacer, OutOfMemory>
        requires counts { HasClockWords (arc_value words.now).shared.table_id (arc_value words.now).shared.key }
        requires key { ((arc_value words.now).shared.key.clock ≡ clock) × ((arc_value words.now).shared.key.slack ≡ slack) }
        requires number { number < (arc_value words.now).shared.key.cores }
        requires bounds { (slack ≤ TOP) × (clock ≤ TOP) }
        requires table { seat.old.table_id ≡ (arc_value words.now).shared.table_id }
        requires hosts { IsHosting (arc_value words.now).shared.key number seat.old.me }
        ensures table { seat.new.table_id ≡ seat.old.table_id }
        ensures hosts { IsHosting (arc_value words.now).shared.key (number + 1) seat.new.me }
        ensures pacer { IfOk result (λ p. IsOpeningPacer (arc_value words.now).shared.table_id number clock slack p) }
    {
        let core = words.shared.split_seat::<Seating>(seat);
        let words = Arc::try_clone(words)?;
        Ok(Pacer {
            words,
            seat: core,
            number,
            clock,
            seen: clock,
            slack,
        })
    }

    /// The number of the core.
    pub fn number(&self) -> u32
        ensures { result ≡ self.now.number }
    {
        self.number
    }

    /// The core's clock, in cycles.
    pub fn clock(&self) -> u64
        ensures { result ≡ self.now.clock }
    {
        self.clock
    }

    /// Global time as it was last observed, in cycles.
    pub fn seen(&self) -> u64
        ensures { result ≡ self.now.seen }
    {
        self.seen
    }

    /// Whether the clock is below what was seen plus the slack.
    pub fn may_advance(&self) -> bool
        ensures { IsTrue result ↔ self.now.clock < self.now.seen + self.now.slack }
    {
        self.clock < self.seen + self.slack
    }

    /// Loads global time, which is never below what was seen before. It takes no memory.
    pub fn observe(&mut self) -> u64
        ensures seen { result ≡ self.new.seen }
        ensures rises { self.old.seen ≤ self.new.seen }
        ensures below { self.new.seen ≤ self.new.clock }
        ensures clock { self.new.clock ≡ self.old.clock }
        ensures same { SamePacer self.old self.new }
    {
        let found = self.words.shared.load::<Observe>(&mut self.seat, 0);
        self.seen = found;
        found
    }

    /// Stores the core's clock, one higher. It takes no memory.
    pub fn advance(&mut self)
        requires ahead { self.old.clock < self.old.seen + self.old.slack }
        requires top { self.old.clock < TOP }
        ensures clock { self.new.clock ≡ self.old.clock + 1 }
        ensures seen { self.new.seen ≡ self.old.seen }
        ensures same { SamePacer self.old self.new }
    {
        let clock = self.clock + 1;
        let word = self.number as usize + 1;
        self.words
            .shared
            .store::<Advance>(&mut self.seat, word, clock);
        self.clock = clock;
    }
}
