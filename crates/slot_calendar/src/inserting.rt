//! A slot that is put among the entries of a calendar.
ghost use Rattle.std.specs.Prelude.{◌≡◌, ◌≤◌, [], ◌∷◌, ◌++◌, take, drop, length, insert, OnOk, OnErr};
ghost use Rattle.slot_calendar.specs.Slots.{with_slot};
ghost use Rattle.slot_calendar.specs.Entries.{slots_of, latest_of, earliest_of, AreKept, AreClimbing, IsPlace, raised_to, lowered_to, changed_between};

use crate::entries::Entry;
use crate::slots::Slot;
use slack_base::OutOfMemory;

/// Puts a slot in its place.
pub(crate) fn insert(entries: &mut Vec<Entry>, place: usize, slot: Slot) -> Result<(), OutOfMemory>
    requires kept { AreKept entries.old.items }
    requires place { IsPlace slot.id place entries.old.items }
    ensures kept { AreKept entries.new.items }
    ensures slots { OnOk result (slots_of entries.new.items ≡ with_slot slot (slots_of entries.old.items)) }
    ensures err { OnErr result (entries.new.items ≡ entries.old.items) }
{
    let entry = Entry {
        slot,
        latest: latest_of(&entries[..place]).max(slot.grant),
        earliest: earliest_of(&entries[place..], slot.grant),
    };
    put(entries, place, entry)?;
    lower(entries, place, slot.grant);
    raise(entries, place + 1, slot.grant);
    Ok(())
}

/// Puts a slot behind all others.
pub(crate) fn append(entries: &mut Vec<Entry>, slot: Slot) -> Result<(), OutOfMemory>
    requires kept { AreKept entries.old.items }
    requires place { IsPlace slot.id (length entries.old.items) entries.old.items }
    ensures kept { AreKept entries.new.items }
    ensures slots { OnOk result (slots_of entries.new.items ≡ with_slot slot (slots_of entries.old.items)) }
    ensures err { OnErr result (entries.new.items ≡ entries.old.items) }
{
    let place = entries.len();
    let entry = Entry {
        slot,
        latest: latest_of(entries).max(slot.grant),
        earliest: slot.grant,
    };
    push(entries, entry)?;
    lower(entries, place, slot.grant);
    Ok(())
}

/// Puts an entry at the end. Mostly there is room for it.
fn push(entries: &mut Vec<Entry>, entry: Entry) -> Result<(), OutOfMemory>
    ensures ok { OnOk result (entries.new.items ≡ entries.old.items ++ entry ∷ []) }
    ensures err { OnErr result (entries.new.items ≡ entries.old.items) }
{
    if entries.len() == entries.capacity() {
        entries.reserve(1)?;
    }
    entries.push_reserved(entry);
    Ok(())
}

/// Puts an entry at a place. Mostly that is the end.
fn put(entries: &mut Vec<Entry>, place: usize, entry: Entry) -> Result<(), OutOfMemory>
    requires { place ≤ length entries.old.items }
    ensures ok { OnOk result (entries.new.items ≡ insert entries.old.items place entry) }
    ensures err { OnErr result (entries.new.items ≡ entries.old.items) }
{
    if place == entries.len() {
        push(entries, entry)?;
    } else {
        entries.insert(place, entry)?;
    }
    Ok(())
}

/// The greatest grant of the slots, 0 where there is none.
fn latest_of(entries: &[Entry]) -> u64
    ensures { result ≡ latest_of 0 entries.now }
{
    match entries.last() {
        Some(last) => last.latest,
        None => 0,
    }
}

/// The least of a grant and those of the slots.
fn earliest_of(entries: &[Entry], grant: u64) -> u64
    ensures { result ≡ earliest_of grant entries.now }
{
    match entries.first() {
        Some(first) => grant.min(first.earliest),
        None => grant,
    }
}

/// Counts a grant that stands behind the entries before a place. Mostly it is no less than theirs.
fn lower(entries: &mut [Entry], place: usize, grant: u64)
    requires place { place ≤ length entries.old }
    requires climbing { AreClimbing (λ e. e.earliest) (take place entries.old) }
    ensures { entries.new ≡ changed_between (lowered_to grant) 0 place entries.old }
{
    let mut count = place;
    while count > 0 && entries[count - 1].earliest > grant {
        count -= 1;
        entries[count].earliest = grant;
    }
}

/// Counts a grant that stands before the entries from a place on. Mostly it is no greater than theirs.
fn raise(entries: &mut [Entry], place: usize, grant: u64)
    requires place { place ≤ length entries.old }
    requires climbing { AreClimbing (λ e. e.latest) (drop place entries.old) }
    ensures { entries.new ≡ changed_between (raised_to grant) place (length entries.old) entries.old }
{
    let mut next = place;
    while next < entries.len() && entries[next].latest < grant {
        entries[next].latest = grant;
        next += 1;
    }
}
