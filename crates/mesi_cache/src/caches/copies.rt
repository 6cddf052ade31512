//! Copies of single sets.
ghost use Rattle.std.specs.Prelude.{◌≡◌, ◌<◌, ◌≤◌, length};
ghost use Rattle.mesi_cache.specs.Caches.{CacheValue, HasShape, IsCache, set_number};
ghost use Rattle.mesi_cache.specs.Copies.{set_numbered, with_set_numbered, CanHold};

use super::{Cache, set_number};
use crate::sets::CacheSet;
use std::marker::Model;

/// What a set held when it was copied. A contract sees the list of its lines, the most recently used first.
#[derive(Debug, Drop)]
pub struct SetCopy {
    lines: CacheSet,
}

impl Model for SetCopy {
    ghost use Rattle.std.specs.Prelude.{List};
    ghost use Rattle.mesi_cache.specs.declared.lines.CacheLine.{CacheLine};

    ghost Value = { List CacheLine };

    ghost view = { λ c. c.lines };
}

impl Cache {
    /// How many sets the cache has.
    #[inline]
    pub fn sets(&self) -> u32
        ensures sets { result ≡ length self.now.sets }
        ensures cache { IsCache self.now }
    {
        self.sets.len() as u32
    }

    /// The number of the set where a line belongs.
    #[inline]
    pub fn set_of(&self, line: u32) -> u32
        ensures number { result ≡ set_number self.now line }
        ensures within { result < length self.now.sets }
    {
        set_number(line, self.sets.len()) as u32
    }

    /// A copy of the set of this number. Every cache with as many sets and ways can hold it there.
    pub fn set_copy(&self, set: u32) -> SetCopy
        requires { set < length self.now.sets }
        ensures lines { result ≡ set_numbered self.now set }
        ensures fits { (cache : CacheValue) → HasShape (length self.now.sets) self.now.ways cache → CanHold cache set result }
    {
        let copied = &self.sets[set as usize];
        SetCopy {
            lines: copied.copy(),
        }
    }

    /// Makes the copy the set of this number. The other sets stay.
    pub fn put_set(&mut self, set: u32, copy: &SetCopy)
        requires set { set < length self.old.sets }
        requires fits { CanHold self.old set copy.now }
        ensures { self.new ≡ with_set_numbered self.old set copy.now }
    {
        let put = &mut self.sets[set as usize];
        put.put(&copy.lines);
    }
}
