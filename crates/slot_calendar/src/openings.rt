//! Where an ask comes in among the slots of a calendar.
ghost use Rattle.std.specs.Prelude.{◌≡◌};
ghost use Rattle.slot_calendar.specs.Slots.{fit, clash};
ghost use Rattle.slot_calendar.specs.Entries.{slots_of, AreKept, IsPlace};

use crate::entries::{Entry, count_below, end_of, last_before, last_end, place_of};
use slack_base::Id;

/// Where an ask comes in: its place among the entries, when it would get the bus there, and the greatest id that is in
/// its way.
#[derive(Clone, Copy, Debug)]
pub(crate) struct Opening {
    pub(crate) place: usize,
    pub(crate) fit: u64,
    pub(crate) clash: Option<Id>,
}

impl Opening {
    /// Where an ask with this id and stamp comes in.
    pub(crate) fn find(entries: &[Entry], id: Id, stamp: u64, free: u64, occupancy: u64) -> Opening
        requires { AreKept entries.now }
        ensures place { IsPlace id result.place entries.now }
        ensures fit { result.fit ≡ fit occupancy free stamp id (slots_of entries.now) }
        ensures clash { result.clash ≡ clash occupancy free stamp id (slots_of entries.now) }
    {
        let place = place_of(entries, id);
        let (earlier, later) = entries.split_at(place);
        let below = count_below(earlier, id);
        let fit = stamp.max(last_end(&earlier[..below], free, occupancy));
        let clash = last_before(later, end_of(fit, occupancy));
        Opening { place, fit, clash }
    }
}
