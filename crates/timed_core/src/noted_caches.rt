//! A cache with a touch of each of its sets, that may be marked: from then on what a set holds, and its touch, are noted
//! before either first changes.
ghost use Rattle.std.specs.Prelude.{◌≡◌, ◌+◌, ◌<◌, ◌≤◌, ◌∷◌, [], length, Some, None, IfSome, IfNone, IfOk, OnOk, OnErr, IsTrue};

use crate::noted_sets::NotedSets;
use mesi_cache::{Found, HeldLine, Victim};
use slack_base::{OutOfMemory, Words};
use std::alloc::Global;
use std::marker::Model;

/// A cache with a touch of each of its sets: the cycle from which on the set was touched no more, at first 0. Where it is
/// marked, it has a journal of what they were. A contract sees the cache and the touches as they are now, and as they were
/// at the mark, and the numbers of the sets that stand in the journal.
#[derive(Drop)]
pub struct NotedCache {
    sets: NotedSets,
    marked: bool,
}

impl Model for NotedCache {
    ghost use Rattle.timed_core.specs.Journals.{cache_then, sets_noted, HasRoom};
    ghost use Rattle.timed_core.specs.TouchedCaches.{MarkedCache};

    ghost Value = { MarkedCache };

    ghost view = { λ c. record { value = record { cache = c.sets.cache; touches = c.sets.touches }; saved = cache_then c.marked c.sets; noted = sets_noted c.sets.journal } };

    ghost invariant = { λ c. HasRoom c.marked c.sets };
}

impl NotedCache {
    ghost use Rattle.std.specs.Option.{option_map};
    ghost use Rattle.slack_base.specs.Bounds.{is_among};
    ghost use Rattle.mesi_cache.specs.Caches.{IsCache, empty_cache, line_in, read_line, write_line, fill_line, victim_of, snoop_line};
    ghost use Rattle.mesi_cache.specs.Lines.{filled, held_line, may_write};
    ghost use Rattle.mesi_cache.specs.Places.{IsFoundIn};
    ghost use Rattle.mesi_cache.specs.Words.{word_of};
    ghost use Rattle.slack_base.specs.declared.bounds.TheConstants.{TOP};
    ghost use Rattle.std.specs.Prelude.{replicate};
    ghost use Rattle.timed_core.specs.Noting.{AreNotedSince};
    ghost use Rattle.timed_core.specs.TouchedCaches.{IsPrepared};
    ghost use Rattle.timed_core.specs.Touches.{touch_line, touch_of};

    /// The empty cache of so many sets with so many ways, all touches 0, not marked.
    pub fn new(alloc: Global, sets: u32, ways: u32) -> Result<NotedCache, OutOfMemory>
        requires sets { IsTrue (is_among sets (1 ∷ 2 ∷ 4 ∷ 8 ∷ 16 ∷ 32 ∷ 64 ∷ [])) }
        requires ways { (1 ≤ ways) × (ways ≤ 8) }
        ensures { IfOk result (λ cache. cache ≡ record { value = record { cache = empty_cache sets ways; touches = replicate sets 0 }; saved = None; noted = [] }) }
    {
        Ok(NotedCache {
            sets: NotedSets::new(alloc, sets, ways)?,
            marked: false,
        })
    }

    /// Where a line stands: none where the cache doesn't hold it.
    #[inline(always)]
    pub fn find(&self, line: u32) -> Option<Found>
        ensures held { option_map (λ f. f.held) result ≡ option_map (λ l. l.held) (line_in self.now.value.cache line) }
        ensures line { IfSome result (λ f. f.line ≡ line) }
        ensures found { IfSome result (λ f. IsFoundIn self.now.value.cache f) }
    {
        self.sets.find(line)
    }

    /// What is so of every cache. Nothing is computed here.
    #[inline(always)]
    pub fn shape(&self)
        ensures { IsCache self.now.value.cache }
    {
        self.sets.shape();
    }

    /// The state and the words of a line: none where the cache doesn't hold it.
    pub fn peek(&self, line: u32) -> Option<HeldLine>
        ensures { result ≡ option_map held_line (line_in self.now.value.cache line) }
    {
        self.sets.peek(line)
    }

    /// A word, 0 to 3, of a line that was found.
    #[inline(always)]
    pub fn word(&self, found: Found, word: u32) -> u32
        requires found { IsFoundIn self.now.value.cache found }
        requires in_line { word < 4 }
        ensures { option_map (λ l. word_of l.words word) (line_in self.now.value.cache found.line) ≡ Some result }
    {
        self.sets.word(found, word)
    }

    /// Makes the set of a line and its touch ready to change: where there is a mark, the set stands in the journal then. It
    /// takes no memory.
    #[inline(always)]
    pub fn prepare(&mut self, line: u32)
        ensures value { self.new.value ≡ self.old.value }
        ensures saved { self.new.saved ≡ self.old.saved }
        ensures prepared { IsPrepared line self.new }
        ensures noted { length self.new.noted ≤ length self.old.noted + 1 }
    {
        self.sets.prepare(line, self.marked);
    }

    /// Uses a line that was found, as a read does: it becomes the most recent of its set.
    #[inline(always)]
    pub fn use_found(&mut self, found: Found)
        requires found { IsFoundIn self.old.value.cache found }
        requires prepared { IsPrepared found.line self.old }
        ensures value { self.new.value ≡ record self.old.value { cache = read_line self.old.value.cache found.line } }
        ensures saved { self.new.saved ≡ self.old.saved }
        ensures noted { self.new.noted ≡ self.old.noted }
    {
        self.sets.use_found(found);
    }

    /// Writes a word, 0 to 3, of a line that was found and may be written. The line becomes Modified, and the most
    /// recent of its set.
    #[inline(always)]
    pub fn write_found(&mut self, found: Found, word: u32, value: u32)
        requires found { IsFoundIn self.old.value.cache found }
        requires writable { IsTrue (may_write found.held) }
        requires in_line { word < 4 }
        requires prepared { IsPrepared found.line self.old }
        ensures value { self.new.value ≡ record self.old.value { cache = write_line self.old.value.cache found.line word value } }
        ensures saved { self.new.saved ≡ self.old.saved }
        ensures noted { self.new.noted ≡ self.old.noted }
    {
        self.sets.write_found(found, word, value);
    }

    /// Puts a line with its words at the front of its set, Exclusive or Shared: the line that fell out, if one did.
    pub fn fill(&mut self, line: u32, exclusive: bool, words: Words) -> Option<Victim>
        requires { IsPrepared line self.old }
        ensures victim { result ≡ victim_of self.old.value.cache (filled line exclusive words) }
        ensures value { self.new.value ≡ record self.old.value { cache = fill_line self.old.value.cache (filled line exclusive words) } }
        ensures saved { self.new.saved ≡ self.old.saved }
        ensures noted { self.new.noted ≡ self.old.noted }
    {
        self.sets.fill(line, exclusive, words)
    }

    /// Another core wants a line: it takes it (`own`) or reads it. The answer is the line's words, if the cache holds it.
    pub fn snoop(&mut self, wanted: u32, own: bool) -> Option<Words>
        requires { IsPrepared wanted self.old }
        ensures words { result ≡ option_map (λ l. l.words) (line_in self.old.value.cache wanted) }
        ensures value { self.new.value ≡ record self.old.value { cache = snoop_line self.old.value.cache wanted own } }
        ensures saved { self.new.saved ≡ self.old.saved }
        ensures noted { self.new.noted ≡ self.old.noted }
    {
        self.sets.snoop(wanted, own)
    }

    /// Touches the set of a line at a cycle, whether the line is held or not: from the next cycle on it is left alone, as far
    /// as is known. It takes no memory.
    #[inline(always)]
    pub fn touch(&mut self, touched: u32, cycle: u64)
        requires top { cycle ≤ TOP }
        requires prepared { IsPrepared touched self.old }
        ensures value { self.new.value ≡ record self.old.value { touches = touch_line cycle self.old.value.touches touched } }
        ensures saved { self.new.saved ≡ self.old.saved }
        ensures noted { self.new.noted ≡ self.old.noted }
    {
        self.sets.touch(touched, cycle);
    }

    /// The cycle from which on the set of a line was touched no more. It takes no memory.
    pub fn touch_of(&self, line: u32) -> u64
        ensures { result ≡ touch_of self.now.value.touches line }
    {
        self.sets.touch_of(line)
    }

    /// Marks the cache and its touches as they are now: an older mark is replaced. The journal has room for each set then,
    /// so that nothing that is done to a marked cache takes memory.
    pub fn mark(&mut self) -> Result<(), OutOfMemory>
        ensures ok { OnOk result (self.new ≡ record { value = self.old.value; saved = Some self.old.value; noted = [] }) }
        ensures err { OnErr result (self.new ≡ self.old) }
    {
        self.sets.make_room()?;
        self.sets.forget();
        self.marked = true;
        Ok(())
    }

    /// Takes the cache and its touches back to what they were at the mark, which is used up.
    pub fn undo(&mut self)
        ensures marked { IfSome self.old.saved (λ v. self.new.value ≡ v) }
        ensures unmarked { IfNone self.old.saved (self.new.value ≡ self.old.value) }
        ensures saved { self.new.saved ≡ None }
        ensures noted { self.new.noted ≡ [] }
    {
        self.sets.put_back();
        self.marked = false;
    }

    /// Gives up the mark, and leaves the cache and its touches as they are.
    pub fn keep(&mut self)
        ensures { self.new ≡ record { value = self.old.value; saved = None; noted = [] } }
    {
        self.sets.forget();
        self.marked = false;
    }

    /// How many sets were noted since the mark.
    pub fn noted(&self) -> u64
        ensures count { result ≡ length self.now.noted }
        ensures since { IfSome self.now.saved (λ saved. AreNotedSince saved self.now.value result) }
    {
        self.sets.noted()
    }
}
