//! How many ticks the cores of a run made, by its notes.
ghost use Rattle.std.specs.Prelude.{◌≡◌, ◌*◌, ◌<◌, ◌^◌, sum_by};
ghost use Rattle.target_law.specs.Ticks.{cycles_of, replayed_of, drift_ticks_of, replay_ticks_of};

use slack_base::{Interval, NoteList};

/// The ticks of so many cores in drifts.
pub fn drift_ticks(cores: u32, notes: &NoteList) -> u64
    requires sum { sum_by cycles_of notes.now < 2 ^ 64 }
    requires product { drift_ticks_of cores notes.now < 2 ^ 64 }
    ensures { result ≡ drift_ticks_of cores notes.now }
{
    u64::from(cores) * cycles_in(notes.as_slice())
}

/// The ticks of so many cores in replays.
pub fn replay_ticks(cores: u32, notes: &NoteList) -> u64
    requires sum { sum_by replayed_of notes.now < 2 ^ 64 }
    requires product { replay_ticks_of cores notes.now < 2 ^ 64 }
    ensures { result ≡ replay_ticks_of cores notes.now }
{
    u64::from(cores) * replayed_in(notes.as_slice())
}

/// The cycles of all intervals.
fn cycles_in(notes: &[Interval]) -> u64
    requires { sum_by cycles_of notes.now < 2 ^ 64 }
    ensures { result ≡ sum_by cycles_of notes.now }
{
    let mut sum = 0;
    for note in notes {
        sum += cycles_of(note);
    }
    sum
}

/// The cycles of the intervals that were simulated a second time.
fn replayed_in(notes: &[Interval]) -> u64
    requires { sum_by replayed_of notes.now < 2 ^ 64 }
    ensures { result ≡ sum_by replayed_of notes.now }
{
    let mut sum = 0;
    for note in notes {
        sum += replayed_of(note);
    }
    sum
}

/// The cycles of an interval.
#[tactic(auto, unfolding(crate::specs::Ticks::cycles_of))]
fn cycles_of(note: &Interval) -> u64
    ensures { result ≡ cycles_of note.now }
{
    match note {
        Interval::Kept { cycles }
        | Interval::Rolled { cycles, .. }
        | Interval::Bounded { cycles, .. } => *cycles,
    }
}

/// The cycles of an interval if it was simulated a second time.
#[tactic(auto, unfolding(crate::specs::Ticks::replayed_of))]
fn replayed_of(note: &Interval) -> u64
    ensures { result ≡ replayed_of note.now }
{
    match note {
        Interval::Rolled { cycles, .. } => *cycles,
        Interval::Kept { .. } | Interval::Bounded { .. } => 0,
    }
}
