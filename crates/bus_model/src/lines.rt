//! The entries of a bus's lines, and a journal of what they were.
ghost use Rattle.std.specs.Prelude.{◌≡◌, ◌+◌, ◌<◌, ◌≤◌, [], length, true, slice_get, slice_set, IfOk, IfSome, IfNone, OnOk, OnErr};

use slack_base::{Ask, OutOfMemory};
use status_map::{Delays, Entry, EntryView, PostBatch};
use std::alloc::Global;
use std::marker::Model;

/// The entry that the line of a place had.
#[derive(Clone, Copy, Debug)]
pub(crate) struct Note {
    pub(crate) place: usize,
    pub(crate) entry: Entry,
}

/// The entries of a bus's lines, in the order of the lines, and a journal of entries that lines had. A flag of each line
/// says whether the line stands in the journal. A contract sees the entries and the journal.
#[derive(Debug, Drop)]
pub(crate) struct Lines {
    entries: Vec<Entry>,
    journal: Vec<Note>,
    flags: Vec<bool>,
}

impl Model for Lines {
    ghost use Rattle.bus_model.specs.Journals.{LinesValue, IsFlagged};

    ghost Value = { LinesValue };

    ghost view = { λ l. record { entries = l.entries.items; journal = l.journal.items } };

    ghost invariant = { λ l. IsFlagged l.flags.items l.entries.items l.journal.items };
}

impl Lines {
    ghost use Rattle.slack_base.specs.declared.bounds.TheConstants.{MOST_CORES, TOP};
    ghost use Rattle.slack_base.specs.Messages.{id_of};
    ghost use Rattle.status_map.specs.Entries.{AreShort};
    ghost use Rattle.status_map.specs.Table.{serve};
    ghost use Rattle.bus_model.specs.Journals.{restored, is_noted, IsReady};

    /// Lines with these entries, and nothing noted.
    pub(crate) fn new(alloc: Global, entries: Vec<Entry>) -> Result<Lines, OutOfMemory>
        ensures { IfOk result (λ lines. lines ≡ record { entries = entries.items; journal = [] }) }
    {
        let flags = vec![in alloc; false; entries.len()]?;
        Ok(Lines {
            entries,
            journal: Vec::new(alloc),
            flags,
        })
    }

    /// Notes the entry of a line, where the line doesn't stand in the journal yet.
    fn note(&mut self, place: usize) -> Result<(), OutOfMemory>
        requires { place < length self.old.entries }
        ensures entries { self.new.entries ≡ self.old.entries }
        ensures kept { restored self.new.entries self.new.journal ≡ restored self.old.entries self.old.journal }
        ensures noted { OnOk result (is_noted place self.new.journal ≡ true) }
        ensures few { length self.new.journal ≤ length self.old.journal + 1 }
        ensures refused { OnErr result (self.new ≡ self.old) }
    {
        if self.flags[place] {
            return Ok(());
        }
        let entry = self.entries[place];
        self.journal.push(Note { place, entry })?;
        self.flags[place] = true;
        Ok(())
    }

    /// Makes a line ready to change: where there is a mark, it stands in the journal then.
    pub(crate) fn prepare(&mut self, place: usize, marked: bool) -> Result<(), OutOfMemory>
        requires { place < length self.old.entries }
        ensures ready { OnOk result (IsReady place marked self.old self.new) }
        ensures refused { OnErr result (self.new ≡ self.old) }
    {
        if marked {
            self.note(place)?;
        }
        Ok(())
    }

    /// Serves an ask for the line of a place that was granted its bus at a cycle.
    pub(crate) fn serve(
        &mut self,
        place: usize,
        ask: &Ask,
        grant: u64,
        delays: &Delays,
        out: &mut PostBatch,
    )
        requires place { place < length self.old.entries }
        requires core { (id_of ask.now).core < MOST_CORES }
        requires grant { grant ≤ TOP }
        requires delays { AreShort delays.now }
        requires empty { out.old ≡ [] }
        ensures entries { IfSome (slice_get self.old.entries place) (λ e. self.new.entries ≡ slice_set self.old.entries place (serve delays.now grant ask.now e).entry) }
        ensures journal { self.new.journal ≡ self.old.journal }
        ensures posts { IfSome (slice_get self.old.entries place) (λ e. out.new ≡ (serve delays.now grant ask.now e).posts) }
    {
        let entry = &mut self.entries[place];
        entry.serve(ask, grant, delays, out);
    }

    /// Takes the latest note out of the journal.
    fn take_note(&mut self) -> Option<Note>
        ensures entries { self.new.entries ≡ self.old.entries }
        ensures taken { IfSome result (λ note. restored self.old.entries self.old.journal ≡ restored (slice_set self.new.entries note.place note.entry) self.new.journal) }
        ensures inside { IfSome result (λ note. note.place < length self.new.entries) }
        ensures less { IfSome result (λ note. length self.old.journal ≡ length self.new.journal + 1) }
        ensures empty { IfNone result (self.old.journal ≡ []) }
        ensures none { IfNone result (self.new ≡ self.old) }
    {
        let note = self.journal.pop()?;
        self.flags[note.place] = false;
        Some(note)
    }

    /// Puts the entries of the journal back, which is empty then.
    pub(crate) fn put_back(&mut self)
        ensures { self.new ≡ record { entries = restored self.old.entries self.old.journal; journal = [] } }
    {
        while let Some(Note { place, entry }) = self.take_note() {
            self.entries[place] = entry;
        }
    }

    /// Empties the journal.
    pub(crate) fn forget(&mut self)
        ensures { self.new ≡ record self.old { journal = [] } }
    {
        while self.take_note().is_some() {}
    }

    /// How many lines stand in the journal.
    pub(crate) fn noted(&self) -> u64
        ensures length { result ≡ length self.now.journal }
        ensures few { result ≤ length self.now.entries }
    {
        self.journal.len() as u64
    }

    /// The entry of the line of a place.
    pub(crate) fn entry(&self, place: usize) -> EntryView
        requires { place < length self.now.entries }
        ensures { slice_get self.now.entries place ≡ Some result }
    {
        self.entries[place].view()
    }

    /// The entry of the line of a place, where there is one.
    pub(crate) fn find(&self, place: usize) -> Option<EntryView>
        ensures { result ≡ slice_get self.now.entries place }
    {
        self.entries.get(place).map(|entry| entry.view())
    }
}
