//! Standard input and output. What they hold is the world's: these adapters only count. They are the edge that is
//! trusted.
ghost use Rattle.std.specs.Prelude.{◌≡◌};

use crate::streams::{Failed, Sink, Source};
use std::io::{Read, Stdin, Stdout, Write};
use std::marker::Model;

/// Standard input. It tells no bytes.
#[derive(Drop)]
pub struct StdSource {
    stdin: Stdin,
    taken: u64,
    faults: u64,
}

impl Model for StdSource {
    ghost use Rattle.io_edge.specs.Tally.{Tally};

    ghost Value = { Tally };

    ghost view = { λ s. record { taken = s.taken; faults = s.faults } };
}

impl StdSource {
    ghost use Rattle.io_edge.specs.Tally.{fresh_tally};

    pub fn new(stdin: Stdin) -> StdSource
        ensures { result ≡ fresh_tally }
    {
        StdSource {
            stdin,
            taken: 0,
            faults: 0,
        }
    }
}

impl Source for StdSource {
    ghost use Rattle.std.specs.Prelude.{None};

    ghost left = { λ _. None };

    ghost taken = { λ s. s.taken };

    ghost faults = { λ s. s.faults };

    fn take(&mut self, into: &mut [u8]) -> Result<usize, Failed> {
        match self.stdin.read(into) {
            Ok(n) => {
                self.taken = self.taken.saturating_add(n as u64);
                Ok(n)
            }
            Err(_) => {
                self.faults = self.faults.saturating_add(1);
                Err(Failed)
            }
        }
    }
}

/// Standard output. It tells no bytes.
#[derive(Drop)]
pub struct StdSink {
    stdout: Stdout,
    faults: u64,
}

impl Model for StdSink {
    ghost use Rattle.std.specs.Prelude.{ℕ};

    /// The count of faults.
    ghost Value = { ℕ };

    ghost view = { λ s. s.faults };
}

impl StdSink {
    pub fn new(stdout: Stdout) -> StdSink
        ensures { result ≡ 0 }
    {
        StdSink { stdout, faults: 0 }
    }
}

impl Sink for StdSink {
    ghost use Rattle.std.specs.Prelude.{None};

    ghost written = { λ _. None };

    ghost faults = { λ s. s };

    /// A piece of which nothing is taken is a fault too.
    fn put(&mut self, piece: &[u8]) -> Result<usize, Failed> {
        if piece.is_empty() {
            return Ok(0);
        }
        match self.stdout.write(piece) {
            Ok(n) if n > 0 => Ok(n),
            _ => {
                self.faults = self.faults.saturating_add(1);
                Err(Failed)
            }
        }
    }
}
