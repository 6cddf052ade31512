//! The slots of a calendar, each beside the greatest grant so far and the least from there on.
ghost use Rattle.std.specs.Prelude.{◌≡◌, ◌≤◌, ◌↔◌, IsTrue, take, drop, length, filter, nat_lt, ◌<◌};
ghost use Rattle.std.specs.List.{AllByRecursion};
ghost use Rattle.slack_base.specs.Stamps.{is_above};
ghost use Rattle.slot_calendar.specs.Slots.{IsInOrder, end_of, last_end, below, greatest_id};
ghost use Rattle.slot_calendar.specs.Entries.{slots_of, AreRunning, AreComing, IsPlace};

use crate::slots::Slot;
use slack_base::{Id, OutOfMemory, capped};

/// A slot, the greatest grant of it and of all slots before it, and the least of it and of all slots behind it.
#[derive(Clone, Copy, Debug)]
pub(crate) struct Entry {
    pub(crate) slot: Slot,
    pub(crate) latest: u64,
    pub(crate) earliest: u64,
}

/// The cycle from which a bus that was granted at a cycle is free again.
pub(crate) fn end_of(grant: u64, occupancy: u64) -> u64
    ensures { result ≡ end_of occupancy grant }
{
    capped(grant.saturating_add(occupancy))
}

/// Whether the first id is the greater one.
fn is_above(high: Id, low: Id) -> bool
    ensures { result ≡ is_above high low }
{
    high > low
}

/// Whether an id is above those of all entries. Where there is none, it is.
pub(crate) fn is_next(entries: &[Entry], id: Id) -> bool
    requires { IsInOrder (slots_of entries.now) }
    ensures { IsTrue result ↔ AllByRecursion (λ s. IsTrue (is_above id s.id)) (slots_of entries.now) }
{
    match entries.last() {
        Some(last) => is_above(id, last.slot.id),
        None => true,
    }
}

/// The place of an id: behind all entries whose ids aren't above it. Mostly that is the end.
pub(crate) fn place_of(entries: &[Entry], id: Id) -> usize
    requires { IsInOrder (slots_of entries.now) }
    ensures { IsPlace id result entries.now }
{
    let Some(last) = entries.last() else {
        return 0;
    };
    if is_above(last.slot.id, id) {
        search(entries, id)
    } else {
        entries.len()
    }
}

/// The place of an id, found in steps that halve the entries.
fn search(entries: &[Entry], id: Id) -> usize
    requires { IsInOrder (slots_of entries.now) }
    ensures { IsPlace id result entries.now }
{
    entries.partition_point(|entry| !is_above(entry.slot.id, id))
}

/// How many entries have ids below this one. The last entries are looked at first.
pub(crate) fn count_below(entries: &[Entry], id: Id) -> usize
    requires { IsInOrder (slots_of entries.now) }
    ensures within { result ≤ length entries.now }
    ensures below { below id (slots_of entries.now) ≡ slots_of (take result entries.now) }
{
    let mut count = entries.len();
    while count > 0 && !is_above(id, entries[count - 1].slot.id) {
        count -= 1;
    }
    count
}

/// The greatest of `free` and the ends of the slots.
pub(crate) fn last_end(entries: &[Entry], free: u64, occupancy: u64) -> u64
    requires { AreRunning 0 entries.now }
    ensures { result ≡ last_end occupancy free (slots_of entries.now) }
{
    match entries.last() {
        Some(last) => free.max(end_of(last.latest, occupancy)),
        None => free,
    }
}

/// The greatest id of a slot that begins before a limit.
pub(crate) fn last_before(entries: &[Entry], limit: u64) -> Option<Id>
    requires order { IsInOrder (slots_of entries.now) }
    requires coming { AreComing entries.now }
    ensures { result ≡ greatest_id (filter (λ s. nat_lt s.grant limit) (slots_of entries.now)) }
{
    let count = count_before(entries, limit);
    if count == 0 {
        return None;
    }
    Some(entries[count - 1].slot.id)
}

/// How many entries there are up to the last that begins before a limit.
fn count_before(entries: &[Entry], limit: u64) -> usize
    requires { AreComing entries.now }
    ensures within { result ≤ length entries.now }
    ensures soon { AllByRecursion (λ e. e.earliest < limit) (take result entries.now) }
    ensures late { AllByRecursion (λ e. limit ≤ e.earliest) (drop result entries.now) }
{
    entries.partition_point(|entry| entry.earliest < limit)
}
