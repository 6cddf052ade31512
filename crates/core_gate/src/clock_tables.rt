//! The clock table, and its seats.
ghost use Rattle.std.specs.Prelude.{◌≡◌, ◌+◌, ◌<◌, ◌≤◌, []};
ghost use Rattle.std.specs.Arc.{arc_value};
ghost use Rattle.std.specs.Option.{ForSome};
ghost use Rattle.slack_base.specs.declared.bounds.TheConstants.{TOP};
ghost use Rattle.core_gate.specs.Pacing.{HasClockWords, IsHosting};

use crate::overseers::Overseer;
use crate::pacers::{Pacer, PacerList};
use crate::rules::ClockWords;
use crate::views::{Opening, View};
use atomic_table::Seat;
use slack_base::OutOfMemory;
use std::alloc::Global;
use std::sync::Arc;

/// Global time and the clock of each core, all at one clock at first. Its seats are given out once.
#[derive(Drop)]
pub struct ClockTable {
    pub(crate) words: Arc<ClockWords, Global>,
    pub(crate) seat: Option<Seat<u8, View>>,
    pub(crate) cores: u32,
    pub(crate) clock: u64,
    pub(crate) slack: u64,
    alloc: Global,
    pub ghost key: { (arc_value words).shared.key ≡ record { cores = cores; clock = clock; slack = slack } },
    pub ghost counts: { HasClockWords (arc_value words).shared.table_id (arc_value words).shared.key },
    pub ghost sits: { ForSome seat (λ s. (s.table_id ≡ (arc_value words).shared.table_id) × IsHosting (arc_value words).shared.key 0 s.me) },
    pub ghost bounds: { (0 < cores) × (0 < slack) × (slack ≤ TOP) × (clock ≤ TOP) },
}

impl ClockTable {
    ghost use Rattle.std.specs.Prelude.{◌<◌, ◌≤◌, IfOk};
    ghost use Rattle.slack_base.specs.declared.bounds.TheConstants.{TOP};
    ghost use Rattle.core_gate.specs.Seats.{HasSeats, HasGivenSeats, IsOf, SameTable, AreOpeningPacers, IsOpeningOverseer};

    /// A table of so many cores, with all clocks and global time at one clock, in cycles, and with this slack.
    pub fn make(
        alloc: Global,
        cores: u32,
        clock: u64,
        slack: u64,
    ) -> Result<ClockTable, OutOfMemory>
        requires cores { 0 < cores }
        requires clock { clock ≤ TOP }
        requires slack { (0 < slack) × (slack ≤ TOP) }
        ensures of { IfOk result (λ t. IsOf cores clock slack t) }
        ensures seats { IfOk result (λ t. HasSeats t) }
    {
        let opening = Opening {
            cores: u64::from(cores),
            clock,
            slack,
        };
        let clocks = vec![in alloc; clock; cores as usize + 1]?;
        let (words, seat) = ClockWords::of_words(alloc, clocks.as_slice(), &opening)?;
        let words = Arc::new(alloc, words)?;
        Ok(ClockTable {
            words,
            seat: Some(seat),
            cores,
            clock,
            slack,
            alloc,
        })
    }

    /// The overseer, and one pacer for each core, in the order of cores. They are given once.
    pub fn seats(&mut self) -> Result<(Overseer, PacerList), OutOfMemory>
        requires { HasSeats self.old }
        ensures overseer { IfOk result (λ r. IsOpeningOverseer self.old r.0) }
        ensures pacers { IfOk result (λ r. AreOpeningPacers self.old r.1) }
        ensures given { HasGivenSeats self.new }
        ensures same { SameTable self.old self.new }
    {
        let Some(mut seat) = self.seat.take() else {
            unreachable!()
        };
        let mut pacers = PacerList::new(self.alloc);
        for number in 0..self.cores {
            let pacer = Pacer::seated(&self.words, &mut seat, number, self.clock, self.slack)?;
            pacers.push(pacer)?;
        }
        let lows = vec![in self.alloc; self.clock; self.cores as usize]?;
        let overseer = Overseer {
            words: Arc::try_clone(&self.words)?,
            seat,
            lows,
            global: self.clock,
        };
        Ok((overseer, pacers))
    }
}
