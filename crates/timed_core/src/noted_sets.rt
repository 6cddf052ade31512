//! A cache with a touch of each of its sets, and a journal of what they were.
ghost use Rattle.std.specs.Prelude.{◌≡◌, ◌+◌, ◌<◌, ◌≤◌, [], length, true, Some, IfSome, IfNone, IfOk, OnOk, IsTrue};

use mesi_cache::{Cache, Found, HeldLine, SetCopy, Victim};
use slack_base::{OutOfMemory, Words};
use std::alloc::Global;
use std::marker::Model;

/// What the set of a number held, and its touch.
#[derive(Drop)]
pub struct SetNote {
    pub set: u32,
    pub copy: SetCopy,
    pub touch: u64,
}

/// A cache with a touch of each of its sets, and a journal of what sets and touches were. A flag of each set says whether
/// the set stands in the journal. A contract sees the cache, the touches, the journal, and how many notes the journal has
/// room for.
#[derive(Drop)]
pub struct NotedSets {
    cache: Cache,
    touches: Vec<u64>,
    journal: Vec<SetNote>,
    flags: Vec<bool>,
}

impl Model for NotedSets {
    ghost use Rattle.std.specs.Prelude.{◌≡◌, length, vec_capacity};
    ghost use Rattle.timed_core.specs.Journals.{SetsValue, IsFlagged};

    ghost Value = { SetsValue };

    ghost view = { λ s. record { cache = s.cache; touches = s.touches.items; journal = s.journal.items; room = vec_capacity s.journal } };

    ghost invariant = { λ s. IsFlagged s.flags.items (length s.cache.sets) s.cache.ways s.journal.items × (length s.touches.items ≡ length s.cache.sets) };
}

impl NotedSets {
    ghost use Rattle.std.specs.Option.{option_map};
    ghost use Rattle.slack_base.specs.Bounds.{is_among};
    ghost use Rattle.std.specs.Prelude.{◌∷◌};
    ghost use Rattle.mesi_cache.specs.Caches.{IsCache, IsSet, empty_cache, set_number, line_in, read_line, write_line, fill_line, victim_of, snoop_line};
    ghost use Rattle.mesi_cache.specs.Copies.{with_set_numbered, CanHold};
    ghost use Rattle.mesi_cache.specs.Lines.{filled, held_line, may_write};
    ghost use Rattle.mesi_cache.specs.Places.{IsFoundIn};
    ghost use Rattle.mesi_cache.specs.Words.{word_of};
    ghost use Rattle.slack_base.specs.declared.bounds.TheConstants.{TOP};
    ghost use Rattle.std.specs.Prelude.{replicate, slice_set};
    ghost use Rattle.timed_core.specs.Journals.{restored, restored_touches, restored_cache, is_noted, IsReadyFor};
    ghost use Rattle.timed_core.specs.Touches.{touch_line, touch_of};

    /// The empty cache of so many sets with so many ways, all touches 0, and nothing noted.
    pub fn new(alloc: Global, sets: u32, ways: u32) -> Result<NotedSets, OutOfMemory>
        requires sets { IsTrue (is_among sets (1 ∷ 2 ∷ 4 ∷ 8 ∷ 16 ∷ 32 ∷ 64 ∷ [])) }
        requires ways { (1 ≤ ways) × (ways ≤ 8) }
        ensures cache { IfOk result (λ noted. noted.cache ≡ empty_cache sets ways) }
        ensures touches { IfOk result (λ noted. noted.touches ≡ replicate sets 0) }
        ensures journal { IfOk result (λ noted. noted.journal ≡ []) }
    {
        let cache = Cache::new(alloc, sets, ways)?;
        let touches = vec![in alloc; 0; sets as usize]?;
        let flags = vec![in alloc; false; sets as usize]?;
        Ok(NotedSets {
            cache,
            touches,
            journal: Vec::new(alloc),
            flags,
        })
    }

    /// Makes room for a note of each set.
    pub fn make_room(&mut self) -> Result<(), OutOfMemory>
        ensures cache { self.new.cache ≡ self.old.cache }
        ensures touches { self.new.touches ≡ self.old.touches }
        ensures journal { self.new.journal ≡ self.old.journal }
        ensures room { self.old.room ≤ self.new.room }
        ensures ok { OnOk result (length self.new.cache.sets ≤ self.new.room) }
    {
        let missing = self.flags.len().saturating_sub(self.journal.len());
        self.journal.reserve_exact(missing)?;
        Ok(())
    }

    /// Whether the flag of a line's set is up.
    #[inline(always)]
    fn has_noted(&self, line: u32) -> bool
        ensures each { length self.now.touches ≡ length self.now.cache.sets }
        ensures noted { result ≡ true → is_noted (set_number self.now.cache line) self.now.journal ≡ true }
    {
        let set = self.cache.set_of(line);
        self.flags[set as usize]
    }

    /// Notes what the set of a line holds, and its touch, where the set doesn't stand in the journal yet.
    #[cold]
    #[inline(never)]
    fn note(&mut self, line: u32)
        requires { length self.old.cache.sets ≤ self.old.room }
        ensures cache { self.new.cache ≡ self.old.cache }
        ensures touches { self.new.touches ≡ self.old.touches }
        ensures kept { restored self.new.cache.sets self.new.journal ≡ restored self.old.cache.sets self.old.journal }
        ensures kept_touches { restored_touches self.new.touches self.new.journal ≡ restored_touches self.old.touches self.old.journal }
        ensures noted { is_noted (set_number self.old.cache line) self.new.journal ≡ true }
        ensures room { self.new.room ≡ self.old.room }
        ensures one { length self.new.journal ≤ length self.old.journal + 1 }
    {
        let set = self.cache.set_of(line);
        if self.flags[set as usize] {
            return;
        }
        let copy = self.cache.set_copy(set);
        let touch = self.touches[set as usize];
        self.journal.push_reserved(SetNote { set, copy, touch });
        self.flags[set as usize] = true;
    }

    /// Makes the set of a line and its touch ready to change: where there is a mark, the set stands in the journal then. It
    /// takes no memory.
    #[inline(always)]
    pub fn prepare(&mut self, line: u32, marked: bool)
        requires { marked ≡ true → length self.old.cache.sets ≤ self.old.room }
        ensures { IsReadyFor line marked self.old self.new }
    {
        if marked && !self.has_noted(line) {
            self.note(line);
        }
    }

    /// Touches the set of a line at a cycle. It takes no memory.
    #[inline(always)]
    pub fn touch(&mut self, line: u32, cycle: u64)
        requires { cycle ≤ TOP }
        ensures after { self.new ≡ record self.old { touches = touch_line cycle self.old.touches line } }
        ensures each { length self.old.touches ≡ length self.old.cache.sets }
    {
        let set = self.cache.set_of(line);
        self.touches[set as usize] = cycle + 1;
    }

    /// The touch of the set of a line. It takes no memory.
    pub fn touch_of(&self, line: u32) -> u64
        ensures { result ≡ touch_of self.now.touches line }
    {
        let set = self.cache.set_of(line);
        self.touches[set as usize]
    }

    /// Where a line stands: none where the cache doesn't hold it.
    #[inline(always)]
    pub fn find(&self, line: u32) -> Option<Found>
        ensures held { option_map (λ f. f.held) result ≡ option_map (λ l. l.held) (line_in self.now.cache line) }
        ensures line { IfSome result (λ f. f.line ≡ line) }
        ensures found { IfSome result (λ f. IsFoundIn self.now.cache f) }
    {
        self.cache.find(line)
    }

    /// What is so of every cache. Nothing is computed here.
    #[inline(always)]
    pub fn shape(&self)
        ensures { IsCache self.now.cache }
    {
        self.cache.sets();
    }

    /// The state and the words of a line: none where the cache doesn't hold it.
    pub fn peek(&self, line: u32) -> Option<HeldLine>
        ensures { result ≡ option_map held_line (line_in self.now.cache line) }
    {
        self.cache.peek(line)
    }

    /// A word, 0 to 3, of a line that was found.
    #[inline(always)]
    pub fn word(&self, found: Found, word: u32) -> u32
        requires found { IsFoundIn self.now.cache found }
        requires in_line { word < 4 }
        ensures { option_map (λ l. word_of l.words word) (line_in self.now.cache found.line) ≡ Some result }
    {
        self.cache.word(found, word)
    }

    /// Uses a line that was found, as a read does.
    #[inline(always)]
    pub fn use_found(&mut self, found: Found)
        requires { IsFoundIn self.old.cache found }
        ensures { self.new ≡ record self.old { cache = read_line self.old.cache found.line } }
    {
        self.cache.use_found(found);
    }

    /// Writes a word, 0 to 3, of a line that was found and may be written.
    #[inline(always)]
    pub fn write_found(&mut self, found: Found, word: u32, value: u32)
        requires found { IsFoundIn self.old.cache found }
        requires writable { IsTrue (may_write found.held) }
        requires in_line { word < 4 }
        ensures { self.new ≡ record self.old { cache = write_line self.old.cache found.line word value } }
    {
        self.cache.write_found(found, word, value);
    }

    /// Puts a line with its words at the front of its set: the line that fell out, if one did.
    pub fn fill(&mut self, line: u32, exclusive: bool, words: Words) -> Option<Victim>
        ensures victim { result ≡ victim_of self.old.cache (filled line exclusive words) }
        ensures after { self.new ≡ record self.old { cache = fill_line self.old.cache (filled line exclusive words) } }
    {
        self.cache.fill(line, exclusive, words)
    }

    /// Another core takes a line (`own`) or reads it: its words, if the cache holds it.
    pub fn snoop(&mut self, line: u32, own: bool) -> Option<Words>
        ensures words { result ≡ option_map (λ l. l.words) (line_in self.old.cache line) }
        ensures after { self.new ≡ record self.old { cache = snoop_line self.old.cache line own } }
    {
        self.cache.snoop(line, own)
    }

    /// Takes the latest note out of the journal.
    fn take_note(&mut self) -> Option<SetNote>
        ensures cache { self.new.cache ≡ self.old.cache }
        ensures touches { self.new.touches ≡ self.old.touches }
        ensures room { self.new.room ≡ self.old.room }
        ensures taken { IfSome result (λ note. restored self.old.cache.sets self.old.journal ≡ restored (slice_set self.new.cache.sets note.set note.copy) self.new.journal) }
        ensures taken_touch { IfSome result (λ note. restored_touches self.old.touches self.old.journal ≡ restored_touches (slice_set self.new.touches note.set note.touch) self.new.journal) }
        ensures inside { IfSome result (λ note. note.set < length self.new.cache.sets) }
        ensures fits { IfSome result (λ note. CanHold self.new.cache note.set note.copy) }
        ensures less { IfSome result (λ note. length self.old.journal ≡ length self.new.journal + 1) }
        ensures empty { IfNone result (self.old.journal ≡ []) }
        ensures none { IfNone result (self.new ≡ self.old) }
    {
        let note = self.journal.pop()?;
        self.flags[note.set as usize] = false;
        Some(note)
    }

    /// Makes a set and its touch what they were when it was noted.
    fn put(&mut self, note: &SetNote)
        requires set { note.now.set < length self.old.cache.sets }
        requires fits { CanHold self.old.cache note.now.set note.now.copy }
        ensures { self.new ≡ record self.old { cache = with_set_numbered self.old.cache note.now.set note.now.copy; touches = slice_set self.old.touches note.now.set note.now.touch } }
    {
        self.cache.put_set(note.set, &note.copy);
        self.touches[note.set as usize] = note.touch;
    }

    /// Puts the sets of the journal and their touches back; it is empty then. It takes no memory.
    pub fn put_back(&mut self)
        ensures { self.new ≡ record self.old { cache = restored_cache self.old.cache self.old.journal; touches = restored_touches self.old.touches self.old.journal; journal = [] } }
    {
        while let Some(note) = self.take_note() {
            self.put(&note);
        }
    }

    /// Empties the journal. It takes no memory.
    pub fn forget(&mut self)
        ensures { self.new ≡ record self.old { journal = [] } }
    {
        while self.take_note().is_some() {}
    }

    /// How many sets stand in the journal.
    pub fn noted(&self) -> u64
        ensures length { result ≡ length self.now.journal }
        ensures few { result ≤ length self.now.cache.sets }
    {
        self.journal.len() as u64
    }
}
