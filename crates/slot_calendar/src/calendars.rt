//! The calendar of a bus.
ghost use Rattle.std.specs.Prelude.{◌≡◌, ◌≤◌, ◌↔◌, [], IsTrue, IfOk, OnOk, OnErr};
ghost use Rattle.slack_base.specs.declared.bounds.TheConstants.{TOP};
ghost use Rattle.std.specs.List.{AllByRecursion};
ghost use Rattle.slack_base.specs.Stamps.{is_above};
ghost use Rattle.slot_calendar.specs.Slots.{IsInOrder, last_end, clash, grant_in, placed};

use crate::entries::{Entry, is_next, last_end};
use crate::inserting::{append, insert};
use crate::openings::Opening;
use crate::slots::Slot;
use slack_base::{Id, OutOfMemory};
use std::alloc::Global;
use std::marker::Model;

/// The slots of the asks that a bus served since the calendar was closed, in the order of their ids; of equal ids the
/// one served first stands first. A contract sees the list of them.
///
/// An ask in the order of the ids costs the same however many slots there are. One that comes late finds its place and
/// its clash in steps that halve the slots, and moves those of greater ids; if it clashes, it is counted in each of them.
#[derive(Debug, Drop)]
pub struct Calendar {
    entries: Vec<Entry>,
}

impl Model for Calendar {
    ghost use Rattle.std.specs.Prelude.{List};
    ghost use Rattle.slot_calendar.specs.declared.slots.Slot.{Slot};
    ghost use Rattle.slot_calendar.specs.Entries.{slots_of, AreKept};

    ghost Value = { List Slot };

    ghost view = { λ c. slots_of c.entries.items };

    ghost invariant = { λ c. AreKept c.entries.items };
}

impl Calendar {
    /// The calendar with no slot. It takes no memory.
    pub fn new(alloc: Global) -> Calendar
        ensures { result ≡ [] }
    {
        Calendar {
            entries: Vec::new(alloc),
        }
    }

    /// An equal calendar.
    pub fn copy(&self) -> Result<Calendar, OutOfMemory>
        ensures { IfOk result (λ copy. copy ≡ self.now) }
    {
        Ok(Calendar {
            entries: self.entries.clone()?,
        })
    }

    /// Whether there is no slot.
    pub fn is_empty(&self) -> bool
        ensures { IsTrue result ↔ (self.now ≡ []) }
    {
        self.entries.is_empty()
    }

    /// The id that an ask with this id and stamp clashes with, if any: the greatest one above its own that has the bus
    /// before the ask would be done with it. The bus was free from `free` on when the calendar was closed. It takes no
    /// memory.
    pub fn clash(&self, id: Id, stamp: u64, free: u64, occupancy: u64) -> Option<Id>
        ensures value { result ≡ clash occupancy free stamp id self.now }
        ensures in_order { IsInOrder self.now }
    {
        if is_next(&self.entries, id) {
            return None;
        }
        Opening::find(&self.entries, id, stamp, free, occupancy).clash
    }

    /// Adds the slot of an ask, and gives its grant: behind all slots of lower ids, or where the ask clashes, behind
    /// all slots.
    pub fn place(
        &mut self,
        id: Id,
        stamp: u64,
        free: u64,
        occupancy: u64,
    ) -> Result<u64, OutOfMemory>
        requires stamp { stamp ≤ TOP }
        requires free { free ≤ TOP }
        ensures grant { IfOk result (λ grant. grant ≡ grant_in occupancy free stamp id self.old) }
        ensures top { IfOk result (λ grant. grant ≤ TOP) }
        ensures slots { OnOk result (self.new ≡ placed occupancy free stamp id self.old) }
        ensures err { OnErr result (self.new ≡ self.old) }
        ensures in_order { IsInOrder self.new }
    {
        if is_next(&self.entries, id) {
            self.append(id, stamp, free, occupancy)
        } else {
            self.fit_in(id, stamp, free, occupancy)
        }
    }

    /// Adds the slot of an ask whose id is above all, and gives its grant.
    fn append(&mut self, id: Id, stamp: u64, free: u64, occupancy: u64) -> Result<u64, OutOfMemory>
        requires { AllByRecursion (λ s. IsTrue (is_above id s.id)) self.old }
        ensures grant { IfOk result (λ grant. grant ≡ grant_in occupancy free stamp id self.old) }
        ensures slots { OnOk result (self.new ≡ placed occupancy free stamp id self.old) }
        ensures err { OnErr result (self.new ≡ self.old) }
        ensures in_order { IsInOrder self.new }
    {
        let grant = stamp.max(last_end(&self.entries, free, occupancy));
        append(&mut self.entries, Slot { id, grant })?;
        Ok(grant)
    }

    /// Adds the slot of an ask in its place among the others, and gives its grant.
    fn fit_in(&mut self, id: Id, stamp: u64, free: u64, occupancy: u64) -> Result<u64, OutOfMemory>
        ensures grant { IfOk result (λ grant. grant ≡ grant_in occupancy free stamp id self.old) }
        ensures slots { OnOk result (self.new ≡ placed occupancy free stamp id self.old) }
        ensures err { OnErr result (self.new ≡ self.old) }
        ensures in_order { IsInOrder self.new }
    {
        let opening = Opening::find(&self.entries, id, stamp, free, occupancy);
        let grant = match opening.clash {
            None => opening.fit,
            Some(_) => stamp.max(last_end(&self.entries, free, occupancy)),
        };
        insert(&mut self.entries, opening.place, Slot { id, grant })?;
        Ok(grant)
    }

    /// Takes all slots out, keeps the memory, and gives the cycle from which the bus is free: the greatest of `free`
    /// and the ends of the slots.
    pub fn close(&mut self, free: u64, occupancy: u64) -> u64
        requires { free ≤ TOP }
        ensures free { result ≡ last_end occupancy free self.old }
        ensures top { result ≤ TOP }
        ensures slots { self.new ≡ [] }
    {
        let end = last_end(&self.entries, free, occupancy);
        self.entries.clear();
        end
    }
}
