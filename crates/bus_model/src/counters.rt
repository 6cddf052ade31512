//! What a bus counts.

/// What a bus has beside its lines.
#[derive(Clone, Copy, Debug)]
pub(crate) struct Counters {
    /// The cycle from which the bus was free when it was closed last.
    pub(crate) free: u64,
    /// How many asks the bus has served.
    pub(crate) asks: u64,
    /// How many retries the bus has sent.
    pub(crate) retries: u64,
}

impl Counters {
    ghost use Rattle.std.specs.Prelude.{◌≡◌};

    /// A bus that is free and was asked nothing.
    pub(crate) fn new() -> Counters
        ensures { result ≡ record { free = 0; asks = 0; retries = 0 } }
    {
        Counters {
            free: 0,
            asks: 0,
            retries: 0,
        }
    }
}
