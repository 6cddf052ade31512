//! One set of a cache.
ghost use Rattle.std.specs.Prelude.{◌≡◌, ◌<◌, ◌≤◌, [], ◌∷◌, length, filter, position, remove, slice_get, slice_set, Some, IsSomeAnd};
ghost use Rattle.std.specs.Option.{option_map};
ghost use Rattle.mesi_cache.specs.Words.{word_of};
ghost use Rattle.mesi_cache.specs.Lines.{written};
ghost use Rattle.mesi_cache.specs.Sets.{is_line, find_line, fill_set, fallen, snoop_set};

use crate::lines::{CacheLine, Held};
use crate::words::{put_word, word_at};
use slack_base::Words;
use std::marker::Model;

/// The most lines that a set has room for.
pub const MOST_WAYS: usize = 8;

/// What stands in a place that holds no line.
const NO_LINE: CacheLine = CacheLine {
    line: 0,
    held: Held::Shared,
    words: Words {
        w0: 0,
        w1: 0,
        w2: 0,
        w3: 0,
    },
};

/// The lines of a set, the most recently used first. A contract sees the list of them.
#[derive(Debug, Drop)]
pub struct CacheSet {
    lines: [CacheLine; MOST_WAYS],
    len: usize,
}

impl Model for CacheSet {
    ghost use Rattle.std.specs.Prelude.{List, take, ◌≤◌, ◌≡◌, length};
    ghost use Rattle.mesi_cache.specs.declared.lines.CacheLine.{CacheLine};

    ghost Value = { List CacheLine };

    ghost view = { λ s. take s.len s.lines };

    ghost invariant = { λ s. (s.len ≤ 8) × (length s.lines ≡ 8) };
}

impl CacheSet {
    /// The empty set.
    pub fn new() -> CacheSet
        ensures { result ≡ [] }
    {
        CacheSet {
            lines: [NO_LINE; MOST_WAYS],
            len: 0,
        }
    }

    /// An equal set.
    pub fn copy(&self) -> CacheSet
        ensures { result ≡ self.now }
    {
        CacheSet {
            lines: self.lines,
            len: self.len,
        }
    }

    /// Makes this set equal to another.
    pub fn put(&mut self, other: &CacheSet)
        ensures { self.new ≡ other.now }
    {
        self.lines = other.lines;
        self.len = other.len;
    }

    pub fn len(&self) -> usize
        ensures length { result ≡ length self.now }
        ensures room { length self.now ≤ 8 }
    {
        self.len
    }

    /// The place of the line of this number, from 0: none where the set doesn't hold it. The front is looked at first.
    #[inline]
    pub fn place_of(&self, line: u32) -> Option<usize>
        ensures { result ≡ position (is_line line) self.now }
    {
        if self.len > 0 && self.lines[0].line == line {
            return Some(0);
        }
        self.search(line)
    }

    /// The place of the line of this number, where the set is searched from the front to the end.
    fn search(&self, line: u32) -> Option<usize>
        ensures { result ≡ position (is_line line) self.now }
    {
        self.lines[..self.len].iter().position(|l| l.line == line)
    }

    /// The line at a place.
    pub fn at(&self, place: usize) -> CacheLine
        requires { place < length self.now }
        ensures { slice_get self.now place ≡ Some result }
    {
        let lines = &self.lines;
        lines[place]
    }

    /// The state of the line at a place.
    #[inline]
    pub fn held_at(&self, place: usize) -> Held
        requires { place < length self.now }
        ensures { option_map (λ l. l.held) (slice_get self.now place) ≡ Some result }
    {
        let lines = &self.lines;
        lines[place].held
    }

    /// A word of the line at a place.
    #[inline]
    pub fn word(&self, place: usize, word: u32) -> u32
        requires place { place < length self.now }
        requires in_line { word < 4 }
        ensures { option_map (λ l. word_of l.words word) (slice_get self.now place) ≡ Some result }
    {
        let lines = &self.lines;
        word_at(&lines[place].words, word)
    }

    /// Puts a line in place of another.
    pub fn set(&mut self, place: usize, line: CacheLine)
        requires { place < length self.old }
        ensures { self.new ≡ slice_set self.old place line }
    {
        let lines = &mut self.lines;
        lines[place] = line;
    }

    /// Puts a line at the front, and takes out the one at this place.
    pub fn put_front(&mut self, place: usize, line: CacheLine)
        requires { place < length self.old }
        ensures { self.new ≡ line ∷ remove self.old place }
    {
        if place == 0 {
            self.set(0, line);
            return;
        }
        self.lines.copy_within(0..place, 1);
        self.lines[0] = line;
    }

    /// Puts a line at the front.
    pub fn push_front(&mut self, line: CacheLine)
        requires { length self.old < 8 }
        ensures { self.new ≡ line ∷ self.old }
    {
        self.len += 1;
        self.put_front(self.len - 1, line);
    }

    /// Takes out the line at a place.
    pub fn remove(&mut self, place: usize)
        requires { place < length self.old }
        ensures { self.new ≡ remove self.old place }
    {
        self.lines.copy_within(place + 1..self.len, place);
        self.len -= 1;
    }

    /// Moves the line at a place to the front: the line that is there stays.
    #[inline]
    pub fn use_place(&mut self, place: usize)
        requires { place < length self.old }
        ensures { IsSomeAnd (slice_get self.old place) (λ l. self.new ≡ l ∷ remove self.old place) }
    {
        if place == 0 {
            return;
        }
        let used = self.at(place);
        self.put_front(place, used);
    }

    /// Moves the line at a place to the front, with another word.
    #[inline]
    pub fn write_place(&mut self, place: usize, word: u32, value: u32)
        requires place { place < length self.old }
        requires in_line { word < 4 }
        ensures { IsSomeAnd (slice_get self.old place) (λ l. self.new ≡ written word value l ∷ remove self.old place) }
    {
        self.use_place(place);
        self.write_first(word, value);
    }

    /// Writes a word of the line at the front.
    #[inline]
    fn write_first(&mut self, word: u32, value: u32)
        requires some { 0 < length self.old }
        requires in_line { word < 4 }
        ensures { IsSomeAnd (slice_get self.old 0) (λ l. self.new ≡ slice_set self.old 0 (written word value l)) }
    {
        let first = &mut self.lines[0];
        first.held = Held::Modified;
        put_word(&mut first.words, word, value);
    }

    /// Puts a line at the front: where the set was full of others, the last of them falls out.
    pub fn fill(&mut self, ways: usize, new: CacheLine) -> Option<CacheLine>
        requires ways { (1 ≤ ways) × (ways ≤ 8) }
        requires within { length self.old ≤ ways }
        requires once { length (filter (is_line new.line) self.old) ≤ 1 }
        ensures after { self.new ≡ fill_set ways new self.old }
        ensures victim { result ≡ fallen ways new self.old }
    {
        if let Some(place) = self.place_of(new.line) {
            self.put_front(place, new);
            return None;
        }
        if self.len() < ways {
            self.push_front(new);
            return None;
        }
        let victim = self.at(ways - 1);
        self.put_front(ways - 1, new);
        Some(victim)
    }

    /// Another core takes the line, which then leaves the set, or reads it, which makes it shared: its words,
    /// if the set held it.
    pub fn snoop(&mut self, line: u32, own: bool) -> Option<Words>
        requires once { length (filter (is_line line) self.old) ≤ 1 }
        ensures words { result ≡ option_map (λ l. l.words) (find_line line self.old) }
        ensures after { self.new ≡ snoop_set line own self.old }
    {
        let place = self.place_of(line)?;
        let snooped = self.at(place);
        if own {
            self.remove(place);
        } else {
            let shared = CacheLine {
                held: Held::Shared,
                ..snooped
            };
            self.set(place, shared);
        }
        Some(snooped.words)
    }
}
