//! What is read of the small machine.
//!
//! Core c asks at each multiple of c + 2: core 0 at 0, 2, 4 and so on, core 1 at 0, 3, 6 and so on, core 2 at 0, 4, 8 and so
//! on. The post of an ask at clock t goes to the next core and is due at t + 2: in lockstep it is counted at that core's tick
//! of t + 2. The channel counts the asks. A core has ended once it has counted five posts.

use slack_base::{Ask, Id};
use std::sync::atomic::Ordering;
use target_law::{State, Trio, TrioCore};

/// A clock, what each core has counted, and what the channel has counted.
pub type Reached = (u64, [u64; 3], u64);

/// How many ticks were made, how many asks were served, and how many posts were put into inboxes.
pub type Calls = (u64, u64, u64);

/// Ten cycles in order: 12 asks, of which those of 7 or before are counted, 4 of core 0, 3 of core 1 and 2 of core 2.
pub const TEN: Reached = (10, [2, 4, 3], 12);

/// Twenty cycles in order, clocks 0 to 19. Asks: 10 of core 0, 7 of core 1 (0 to 18), 5 of core 2 (0 to 16), 22 in all. Those
/// of 17 or before are counted: 9 of core 0 by core 1 (0 to 16), 6 of core 1 by core 2 (0 to 15), and 5 of core 2 by core 0.
pub const TWENTY: Reached = (20, [5, 9, 6], 22);

/// What a state has come to.
pub fn reached(state: &State<Trio>) -> Reached {
    let count = |core: Option<&TrioCore>| core.map_or(0, |core| core.count());
    let cores = &state.cores;
    let counts = [
        count(cores.get(0)),
        count(cores.get(1)),
        count(cores.get(2)),
    ];
    let total = state.chans.get(0).map_or(0, |chan| chan.total());
    (state.clock, counts, total)
}

/// How often the machine's calls were made.
pub fn calls_of(target: &Trio) -> Calls {
    (
        target.ticked.load(Ordering::SeqCst),
        target.served.load(Ordering::SeqCst),
        target.taken.load(Ordering::SeqCst),
    )
}

/// The first ask of a core in a cycle.
pub fn ask_of(cycle: u64, core: u32) -> Ask {
    let id = Id {
        cycle,
        core,
        number: 0,
    };
    Ask::Read { id, line: 0 }
}

/// Whether the asks of each core c are those of the multiples of c + 2, in their order.
pub fn are_multiples(served: &[Ask]) -> bool {
    let mut next = [0u64; 3];
    for ask in served {
        let id = ask.id();
        let Some(cycle) = next.get_mut(id.core as usize) else {
            return false;
        };
        if id.cycle != *cycle {
            return false;
        }
        *cycle = cycle.saturating_add(u64::from(id.core) + 2);
    }
    true
}
