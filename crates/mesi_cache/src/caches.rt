//! A cache of sets.
ghost use Rattle.std.specs.Prelude.{◌≡◌, ◌<◌, ◌≤◌, ◌%◌, ◌∷◌, [], IsTrue, IsSome, IsSomeAnd, IfOk, Some, length};
ghost use Rattle.std.specs.Option.{option_map};
ghost use Rattle.slack_base.specs.Bounds.{is_among};
ghost use Rattle.mesi_cache.specs.Words.{word_of};
ghost use Rattle.mesi_cache.specs.Lines.{filled, held_line, may_write};
ghost use Rattle.mesi_cache.specs.Caches.{empty_cache, line_in, read_line, write_line, fill_line, victim_of, snoop_line, IsCache};

use crate::lines::{CacheLine, Held, HeldLine, Victim};
use crate::sets::CacheSet;
use slack_base::{OutOfMemory, Words};
use std::alloc::Global;
use std::marker::Model;

/// The cache of a core: 1 to 64 sets, a power of two, each of at most 1 to 8 lines. Line `l` stands in the set
/// `l` modulo the number of sets. A contract sees the number of ways and the list of the sets, each a list of its
/// lines, the most recently used first.
#[derive(Debug, Drop)]
pub struct Cache {
    ways: u32,
    sets: Vec<CacheSet>,
}

impl Model for Cache {
    ghost use Rattle.mesi_cache.specs.Caches.{CacheValue, IsCache};

    ghost Value = { CacheValue };

    ghost view = { λ c. record { ways = c.ways; sets = c.sets.items } };

    ghost invariant = { λ c. IsCache (record { ways = c.ways; sets = c.sets.items }) };
}

/// The number of the set where a line belongs.
#[inline]
fn set_number(line: u32, sets: usize) -> usize
    requires { IsTrue (is_among sets (1 ∷ 2 ∷ 4 ∷ 8 ∷ 16 ∷ 32 ∷ 64 ∷ [])) }
    ensures { result ≡ line % sets }
{
    line as usize & (sets - 1)
}

impl Cache {
    /// The empty cache of so many sets, a power of two up to 64, with 1 to 8 ways.
    pub fn new(alloc: Global, sets: u32, ways: u32) -> Result<Cache, OutOfMemory>
        requires sets { IsTrue (is_among sets (1 ∷ 2 ∷ 4 ∷ 8 ∷ 16 ∷ 32 ∷ 64 ∷ [])) }
        requires ways { (1 ≤ ways) × (ways ≤ 8) }
        ensures { IfOk result (λ cache. cache ≡ empty_cache sets ways) }
    {
        let mut empty = Vec::new(alloc);
        for _number in 0..sets {
            empty.push(CacheSet::new())?;
        }
        Ok(Cache { ways, sets: empty })
    }

    /// An equal cache.
    pub fn copy(&self) -> Result<Cache, OutOfMemory>
        ensures { IfOk result (λ cache. cache ≡ self.now) }
    {
        let mut copied = Vec::new(*self.sets.allocator());
        for set in &self.sets {
            copied.push(set.copy())?;
        }
        Ok(Cache {
            ways: self.ways,
            sets: copied,
        })
    }

    /// The state of a line: none where the cache doesn't hold it.
    pub fn lookup(&self, line: u32) -> Option<Held>
        ensures held { result ≡ option_map (λ l. l.held) (line_in self.now line) }
        ensures cache { IsCache self.now }
    {
        let found = self.find(line)?;
        Some(found.held)
    }

    /// The state and the words of a line: none where the cache doesn't hold it.
    pub fn peek(&self, line: u32) -> Option<HeldLine>
        ensures { result ≡ option_map held_line (line_in self.now line) }
    {
        let found = self.find(line)?;
        let held = self.line_of(found);
        Some(HeldLine {
            held: held.held,
            words: held.words,
        })
    }

    /// Reads a word, 0 to 3, of a line that the cache holds. The line becomes the most recent of its set.
    pub fn read(&mut self, line: u32, word: u32) -> u32
        requires held { IsSome (line_in self.old line) }
        requires in_line { word < 4 }
        ensures value { option_map (λ l. word_of l.words word) (line_in self.old line) ≡ Some result }
        ensures after { self.new ≡ read_line self.old line }
    {
        let Some(found) = self.find(line) else {
            unreachable!()
        };
        let value = self.word(found, word);
        self.use_found(found);
        value
    }

    /// Writes a word, 0 to 3, of a line that the cache holds and may write. The line becomes Modified, and the most
    /// recent of its set.
    pub fn write(&mut self, line: u32, word: u32, value: u32)
        requires writable { IsSomeAnd (line_in self.old line) (λ l. IsTrue (may_write l.held)) }
        requires in_line { word < 4 }
        ensures { self.new ≡ write_line self.old line word value }
    {
        let Some(found) = self.find(line) else {
            unreachable!()
        };
        self.write_found(found, word, value);
    }

    /// Puts a line with its words at the front of its set, Exclusive or Shared. Where the set was full of other
    /// lines, the last of them falls out.
    pub fn fill(&mut self, line: u32, exclusive: bool, words: Words) -> Option<Victim>
        ensures victim { result ≡ victim_of self.old (filled line exclusive words) }
        ensures after { self.new ≡ fill_line self.old (filled line exclusive words) }
    {
        let held = if exclusive {
            Held::Exclusive
        } else {
            Held::Shared
        };
        let new = CacheLine { line, held, words };
        let ways = self.ways as usize;
        let number = set_number(line, self.sets.len());
        let set = &mut self.sets[number];
        set.fill(ways, new)
    }

    /// Another core takes a line (`own`), which then leaves, or reads it, which makes it Shared in its place. The
    /// order of the lines that stay doesn't change. The answer is the line's words: none where the cache doesn't
    /// hold it.
    pub fn snoop(&mut self, line: u32, own: bool) -> Option<Words>
        ensures words { result ≡ option_map (λ l. l.words) (line_in self.old line) }
        ensures after { self.new ≡ snoop_line self.old line own }
    {
        let number = set_number(line, self.sets.len());
        let set = &mut self.sets[number];
        set.snoop(line, own)
    }
}

pub mod copies;
mod hits;
