//! The pieces of memory that a file loads: as many as an image may have.
ghost use Rattle.std.specs.Prelude.{◌≡◌, ◌<◌, ◌≤◌, [], ◌∷◌, ◌++◌, length};

use crate::layouts::Load;
use std::marker::Model;

/// How many pieces an image has at most.
pub const MOST_LOADS: usize = 64;

/// The pieces, in the order of their headers. They take no memory of the heap.
#[derive(Debug, Drop)]
pub struct Loads {
    items: [Load; MOST_LOADS],
    count: usize,
}

impl Model for Loads {
    ghost use Rattle.std.specs.Prelude.{List, ◌≤◌, take};
    ghost use Rattle.image_load.specs.declared.layouts.Load.{Load};

    ghost Value = { List Load };

    ghost view = { λ l. take l.count l.items };

    ghost invariant = { λ l. l.count ≤ 64 };
}

impl Loads {
    /// No piece.
    pub fn new() -> Loads
        ensures { result ≡ [] }
    {
        let none = Load {
            index: 0,
            offset: 0,
            address: 0,
            file_size: 0,
            memory_size: 0,
        };
        Loads {
            items: [none; MOST_LOADS],
            count: 0,
        }
    }

    /// The pieces.
    pub fn as_slice(&self) -> &[Load]
        ensures items { result.now ≡ self.now }
        ensures few { length result.now ≤ 64 }
    {
        &self.items[..self.count]
    }

    /// Puts a piece behind the others.
    pub fn push(&mut self, load: Load)
        requires { length self.old < 64 }
        ensures { self.new ≡ self.old ++ load ∷ [] }
    {
        self.items[self.count] = load;
        self.count += 1;
    }
}
