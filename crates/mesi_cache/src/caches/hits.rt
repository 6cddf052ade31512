//! The accesses to a line that was found: it isn't searched for again.
ghost use Rattle.std.specs.Prelude.{◌≡◌, ◌<◌, Some, IfSome, IsTrue};
ghost use Rattle.std.specs.Option.{option_map};
ghost use Rattle.mesi_cache.specs.Words.{word_of};
ghost use Rattle.mesi_cache.specs.Lines.{may_write};
ghost use Rattle.mesi_cache.specs.Caches.{line_in, read_line, write_line, IsCache};
ghost use Rattle.mesi_cache.specs.Places.{IsFoundIn};

use super::{Cache, set_number};
use crate::lines::CacheLine;
use crate::places::Found;

impl Cache {
    /// Where a line stands: none where the cache doesn't hold it.
    #[inline]
    pub fn find(&self, line: u32) -> Option<Found>
        ensures held { option_map (λ f. f.held) result ≡ option_map (λ l. l.held) (line_in self.now line) }
        ensures line { IfSome result (λ f. f.line ≡ line) }
        ensures found { IfSome result (λ f. IsFoundIn self.now f) }
        ensures cache { IsCache self.now }
    {
        let number = set_number(line, self.sets.len());
        let set = &self.sets[number];
        let place = set.place_of(line)?;
        Some(Found {
            line,
            set: number as u32,
            place: place as u32,
            held: set.held_at(place),
        })
    }

    /// A word, 0 to 3, of a line that was found. The cache stays as it is.
    #[inline]
    pub fn word(&self, found: Found, word: u32) -> u32
        requires found { IsFoundIn self.now found }
        requires in_line { word < 4 }
        ensures { option_map (λ l. word_of l.words word) (line_in self.now found.line) ≡ Some result }
    {
        let set = &self.sets[found.set as usize];
        set.word(found.place as usize, word)
    }

    /// Uses a line that was found, as a read does: it becomes the most recent of its set.
    #[inline]
    pub fn use_found(&mut self, found: Found)
        requires { IsFoundIn self.old found }
        ensures { self.new ≡ read_line self.old found.line }
    {
        let set = &mut self.sets[found.set as usize];
        set.use_place(found.place as usize);
    }

    /// Writes a word, 0 to 3, of a line that was found and may be written. The line becomes Modified, and the most
    /// recent of its set.
    #[inline]
    pub fn write_found(&mut self, found: Found, word: u32, value: u32)
        requires found { IsFoundIn self.old found }
        requires writable { IsTrue (may_write found.held) }
        requires in_line { word < 4 }
        ensures { self.new ≡ write_line self.old found.line word value }
    {
        let writable = found.held.may_write();
        prove!(writable);
        let set = &mut self.sets[found.set as usize];
        set.write_place(found.place as usize, word, value);
    }

    /// The line that was found.
    pub(super) fn line_of(&self, found: Found) -> CacheLine
        requires { IsFoundIn self.now found }
        ensures { line_in self.now found.line ≡ Some result }
    {
        let set = &self.sets[found.set as usize];
        set.at(found.place as usize)
    }
}
