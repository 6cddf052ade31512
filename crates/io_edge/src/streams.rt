//! What gives bytes and what takes them.
ghost use Rattle.std.specs.Prelude.{◌≡◌, ℕ, List, Option, ◌<◌, ◌≤◌, length, IfOk, OnErr};
ghost use Rattle.io_edge.specs.Counting.{Rose, raised_by};
ghost use Rattle.io_edge.specs.Streams.{MovesFirst, MovesNothing, Appends, AppendsNothing};

use slack_base::Row;

/// A stream failed: a byte may be lost to the world, but none to the program.
#[derive(Clone, Copy, Debug, PartialEq, Eq)]
pub struct Failed;

/// The numbers of the calls that a stream in memory refuses, from 1.
pub type CallList = Row<u64>;

/// Where bytes come from.
pub trait Source {
    /// The bytes that are left, where the source tells them.
    ghost left: { Self → Option (List ℕ) };

    /// How many bytes were taken so far: a u64 that stops at its last value.
    ghost taken: { Self → ℕ };

    /// How many calls failed so far: a u64 that stops at its last value.
    ghost faults: { Self → ℕ };

    /// Moves the first bytes that are left to the front of the buffer, and answers how many: 0 at the end of
    /// input. A failed call moves nothing.
    fn take(&mut self, into: &mut [u8]) -> Result<usize, Failed>
        requires { 0 < length into.old }
        ensures moved { IfOk result (λ n. MovesFirst (left self.old) (left self.new) n into.new) }
        ensures counted { IfOk result (λ n. taken self.new ≡ raised_by n (taken self.old)) }
        ensures unmoved { OnErr result (MovesNothing (left self.old) (left self.new) (taken self.old) (taken self.new)) }
        ensures failed { OnErr result (Rose (faults self.old) (faults self.new)) }
        ensures never_falls { faults self.old ≤ faults self.new };
}

/// Where bytes go.
pub trait Sink {
    /// The bytes that were written, where the sink tells them.
    ghost written: { Self → Option (List ℕ) };

    /// How many calls failed so far: a u64 that stops at its last value.
    ghost faults: { Self → ℕ };

    /// Appends the first bytes of the piece, and answers how many: one at least, but for an empty piece. A
    /// failed call appends nothing.
    fn put(&mut self, piece: &[u8]) -> Result<usize, Failed>
        ensures appended { IfOk result (λ n. Appends (written self.old) (written self.new) n piece.now) }
        ensures unmoved { OnErr result (AppendsNothing (written self.old) (written self.new)) }
        ensures failed { OnErr result (Rose (faults self.old) (faults self.new)) }
        ensures never_falls { faults self.old ≤ faults self.new };
}
