//! A gate that holds cores at chosen clocks.

use crate::gates::Gate;
use slack_base::Row;

/// A core, and a clock of it in cycles.
#[derive(Clone, Copy, Debug, PartialEq, Eq)]
pub struct Stop {
    pub core: u32,
    pub clock: u64,
}

/// A list of stops.
pub type StopList = Row<Stop>;

/// A gate that holds a core at each of its stops, however often it is asked, and nowhere else. It takes no memory.
#[derive(Debug, Drop)]
pub struct StopGate {
    pub stops: StopList,
}

impl StopGate {
    ghost use Rattle.std.specs.Prelude.{◌≡◌};
    ghost use Rattle.io_edge.specs.Holds.{is_stop};

    /// Whether the core has a stop at the clock.
    pub fn has_stop(&self, who: u32, clock: u64) -> bool
        ensures { result ≡ is_stop self.now.stops who clock }
    {
        self.stops
            .as_slice()
            .iter()
            .any(|stop| stop.core == who && stop.clock == clock)
    }
}

impl Gate for StopGate {
    ghost use Rattle.io_edge.specs.Holds.{is_stop};

    ghost may_hold = { λ gate. is_stop gate.stops };

    ghost must_hold = { λ gate. is_stop gate.stops };

    ghost within = { λ _ _ _ held. held };

    fn hold(&self, who: u32, clock: u64) -> bool {
        self.has_stop(who, clock)
    }
}
