//! Which slots of a wheel hold posts.
ghost use Rattle.std.specs.Prelude.{◌≢◌};
ghost use Rattle.stamp_queue.specs.Bits.{IsLowestBit};

/// The 256 slots of a wheel, a bit for each: set where the slot holds a post.
#[derive(Clone, Copy, Debug)]
pub(super) struct Occupied {
    words: [u64; 4],
}

impl Occupied {
    ghost use Rattle.std.specs.Prelude.{◌≡◌, ◌<◌, MatchOption, IfSome};
    ghost use Rattle.stamp_queue.specs.Occupied.{mark_at, KeepsOthers, NoneWithin, IsNextFrom, IsNextRound};

    /// No slot holds a post.
    pub fn none() -> Occupied
        ensures { NoneWithin result 0 256 }
    {
        Occupied { words: [0; 4] }
    }

    /// The slot holds a post from now on.
    pub fn insert(&mut self, slot: usize)
        requires { slot < 256 }
        ensures here { mark_at self.new slot ≡ 1 }
        ensures others { KeepsOthers self.old self.new slot }
    {
        self.words[slot / 64] |= 1 << (slot % 64);
    }

    /// The slot holds no post from now on.
    pub fn remove(&mut self, slot: usize)
        requires { slot < 256 }
        ensures here { mark_at self.new slot ≡ 0 }
        ensures others { KeepsOthers self.old self.new slot }
    {
        self.words[slot / 64] &= !(1 << (slot % 64));
    }

    /// The first slot that holds a post, from this one on round the wheel.
    pub fn next_round(&self, slot: usize) -> Option<usize>
        requires { slot < 256 }
        ensures { MatchOption result (NoneWithin self.now 0 256) (IsNextRound self.now slot) }
    {
        match self.next_from(slot) {
            Some(next) => Some(next),
            None => self.next_from(0),
        }
    }

    /// The first slot from this one on that holds a post.
    fn next_from(&self, slot: usize) -> Option<usize>
        requires { slot < 256 }
        ensures { MatchOption result (NoneWithin self.now slot 256) (IsNextFrom self.now slot) }
    {
        let mut word = slot / 64;
        let mut bits = self.words[word] & (u64::MAX << (slot % 64));
        while bits == 0 {
            word += 1;
            if word == 4 {
                return None;
            }
            bits = self.words[word];
        }
        Some(word * 64 + lowest_bit(bits))
    }
}

/// The place of the lowest bit that is set.
fn lowest_bit(bits: u64) -> usize
    requires { bits ≢ 0 }
    ensures { IsLowestBit bits result }
{
    bits.trailing_zeros() as usize
}
