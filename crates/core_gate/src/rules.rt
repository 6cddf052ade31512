//! The rule of the clock table, and what each kind of step on it tells.
ghost use Rattle.core_gate.specs.Pacing.{Paced, opening_view};
ghost use Rattle.core_gate.specs.Steps.{Observes, Advances, Looks, Raises, host, guest};

use crate::views::{Opening, View};
use atomic_table::{Play, Split, Table, TableRule};
use std::alloc::Global;

/// The words of a clock table.
pub type ClockWords = Table<u8, View, Opening, Pacing, Global>;

/// The rule, which holds between any two steps.
pub struct Pacing;

impl TableRule<u8, View, Opening> for Pacing {
    ghost holds = { λ k s. Paced k s };

    ghost first = { λ k. opening_view k };
}

/// A pacer loads global time.
pub struct Observe;

impl Play<u8, View> for Observe {
    ghost then = { Observes };
}

/// A pacer stores its clock.
pub struct Advance;

impl Play<u8, View> for Advance {
    ghost then = { Advances };
}

/// The overseer loads a clock.
pub struct Look;

impl Play<u8, View> for Look {
    ghost then = { Looks };
}

/// The overseer stores global time.
pub struct Raise;

impl Play<u8, View> for Raise {
    ghost then = { Raises };
}

/// The next pacer's seat is split off the overseer's.
pub struct Seating;

impl Split<View> for Seating {
    ghost left = { λ m. host m };

    ghost right = { λ m. guest m };
}
