//! Streams that write down how many bytes each call is given. They tell none of their bytes, and fail for want of
//! memory alone.
use io_edge::{Failed, Sink, Source};
use std::alloc::Global;

const MOST_TAKEN: usize = 3000;

const MOST_PUT: usize = 5;

/// Zeros, of which a call moves 3,000 at most.
#[derive(Drop)]
pub struct RecordingSource {
    lengths: Vec<usize>,
    left: usize,
    taken: u64,
    faults: u64,
}

impl RecordingSource {
    pub fn new(alloc: Global, left: usize) -> RecordingSource {
        RecordingSource {
            lengths: Vec::new(alloc),
            left,
            taken: 0,
            faults: 0,
        }
    }

    /// The lengths of the buffers that were lent.
    pub fn lengths(&self) -> &[usize] {
        self.lengths.as_slice()
    }
}

impl Source for RecordingSource {
    ghost use Rattle.std.specs.Prelude.{None};

    ghost left = { λ _. None };

    ghost taken = { λ s. s.taken };

    ghost faults = { λ s. s.faults };

    fn take(&mut self, into: &mut [u8]) -> Result<usize, Failed> {
        if self.lengths.push(into.len()).is_err() {
            self.faults = self.faults.saturating_add(1);
            return Err(Failed);
        }
        let n = into.len().min(self.left).min(MOST_TAKEN);
        self.left -= n;
        self.taken = self.taken.saturating_add(n as u64);
        Ok(n)
    }
}

/// A sink of which a call takes five bytes at most.
#[derive(Drop)]
pub struct RecordingSink {
    lengths: Vec<usize>,
    faults: u64,
}

impl RecordingSink {
    pub fn new(alloc: Global) -> RecordingSink {
        RecordingSink {
            lengths: Vec::new(alloc),
            faults: 0,
        }
    }

    /// The lengths of the pieces that were offered.
    pub fn lengths(&self) -> &[usize] {
        self.lengths.as_slice()
    }
}

impl Sink for RecordingSink {
    ghost use Rattle.std.specs.Prelude.{None};

    ghost written = { λ _. None };

    ghost faults = { λ s. s.faults };

    fn put(&mut self, piece: &[u8]) -> Result<usize, Failed> {
        if self.lengths.push(piece.len()).is_err() {
            self.faults = self.faults.saturating_add(1);
            return Err(Failed);
        }
        Ok(piece.len().min(MOST_PUT))
    }
}
