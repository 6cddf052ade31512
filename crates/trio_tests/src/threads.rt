//! What may go to another thread: this is proved, or no test of the crate runs.

use core_actor::CoreActor;
use core_gate::{ClockTable, Overseer, Pacer, PacerList};
use manager::Manager;
use target_law::{TrioChan, TrioCore};
use violation_watch::Watch;

fn crosses<X: Send>() {}

#[test]
fn parts_of_a_drift_go_to_another_thread(_rt: HostRuntime) {
    crosses::<ClockTable>();
    crosses::<Overseer>();
    crosses::<Pacer>();
    crosses::<PacerList>();
    crosses::<Manager<TrioChan>>();
    crosses::<CoreActor<TrioCore>>();
    crosses::<Watch>();
}
