//! Gates that look on, and one that holds cores again and again.

use io_edge::Gate;
use std::sync::atomic::{AtomicBool, AtomicU32, AtomicU64, Ordering};
use target_law::Trio;

/// The last clock of twenty cycles.
const LAST: u64 = 19;

/// How many asks there are in twenty cycles, all before the last clock.
const ASKS: u64 = 22;

/// A gate for twenty cycles of the small machine. It holds each core at the last clock until all asks were served, and all
/// their posts were taken.
#[derive(Drop)]
pub struct ServedGate<'a> {
    pub target: &'a Trio,
    /// How often a core was let go at the last clock.
    pub freed: AtomicU64,
}

impl<'a> Gate for ServedGate<'a> {
    ghost use Rattle.std.specs.Prelude.{◌==◌, false};

    ghost may_hold = { λ _ _ clock. clock == 19 };

    ghost must_hold = { λ _ _ _. false };

    ghost within = { λ _ _ _ held. cc };

    fn hold(&self, _who: u32, clock: u64) -> bool {
        if clock != LAST {
            return false;
        }
        let served = self.target.served.load(Ordering::SeqCst);
        let taken = self.target.taken.load(Ordering::SeqCst);
        if served < ASKS || taken < ASKS {
            return true;
        }
        self.freed.fetch_add(1, Ordering::SeqCst);
        false
    }
}

/// A gate that holds no core, and notes the clock for which it was last asked of each of three.
#[derive(Drop)]
pub struct SpreadGate {
    pub slack: u64,
    pub clocks: [AtomicU64; 3],
    /// Whether it was asked of a core at a clock above that of another by more than the slack.
    pub apart: AtomicBool,
}

impl SpreadGate {
    /// A gate for a drift from clock 0.
    pub fn new(slack: u64) -> SpreadGate {
        SpreadGate {
            slack,
            clocks: [AtomicU64::new(0), AtomicU64::new(0), AtomicU64::new(0)],
            apart: AtomicBool::new(false),
        }
    }

    /// The clock for which it was last asked of each.
    pub fn last(&self) -> [u64; 3] {
        let [first, second, third] = &self.clocks;
        [
            first.load(Ordering::SeqCst),
            second.load(Ordering::SeqCst),
            third.load(Ordering::SeqCst),
        ]
    }
}

impl Gate for SpreadGate {
    ghost use Rattle.std.specs.Prelude.{false};

    ghost may_hold = { λ _ _ _. false };

    ghost must_hold = { λ _ _ _. false };

    ghost within = { λ _ _ _ held. held };

    fn hold(&self, who: u32, clock: u64) -> bool {
        if let Some(own) = self.clocks.get(who as usize) {
            own.store(clock, Ordering::SeqCst);
        }
        for other in &self.clocks {
            if clock > other.load(Ordering::SeqCst).saturating_add(self.slack) {
                self.apart.store(true, Ordering::SeqCst);
            }
        }
        false
    }
}

/// A gate for one core, which holds it at each clock for so many turns in a row.
#[derive(Drop)]
pub struct AgainGate {
    pub turns: u32,
    /// For how many turns the core was held at its clock.
    pub held: AtomicU32,
}

impl Gate for AgainGate {
    ghost use Rattle.std.specs.Prelude.{true, false};

    ghost may_hold = { λ _ _ _. true };

    ghost must_hold = { λ _ _ _. false };

    ghost within = { λ _ _ _ held. cc };

    fn hold(&self, _who: u32, _clock: u64) -> bool {
        if self.held.fetch_add(1, Ordering::SeqCst) < self.turns {
            return true;
        }
        self.held.store(0, Ordering::SeqCst);
        false
    }
}
