//! The bounds of the simulated machine, each in one place.
ghost use Rattle.std.specs.Prelude.{◌≡◌, ◌^◌};
ghost use Rattle.slack_base.specs.declared.bounds.TheConstants.{GENERATED_MEMORY, MOST_CORES, MOST_MEMORY, TOP};

/// Where numbers that only grow stop: clocks, counts, and the cycle from which a bus is free.
pub const TOP: u64 = 1 << 62;

/// The most cores that a machine has.
pub const MOST_CORES: u32 = 16;

/// The most bytes of memory that a machine has.
pub const MOST_MEMORY: u32 = 16777216;

/// The least bytes of memory in which a generated program runs.
pub const GENERATED_MEMORY: u32 = 131072;

/// The law of the bounds, which definitions cite by their names: clocks and counts stop at 2^62; a machine has 16 cores at the
/// most, and 16 MiB of memory; a generated program runs in 128 KiB.
pub fn law_of_bounds()
    ensures top { TOP ≡ 2 ^ 62 }
    ensures cores { MOST_CORES ≡ 16 }
    ensures memory { MOST_MEMORY ≡ 16777216 }
    ensures generated { GENERATED_MEMORY ≡ 131072 }
{}
