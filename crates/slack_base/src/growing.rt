//! Numbers that only grow, up to where they stop.
ghost use Rattle.std.specs.Prelude.{◌≡◌, ◌+◌, ◌<◌, ◌^◌};
ghost use Rattle.slack_base.specs.Growing.{capped, raised};

use crate::bounds::TOP;

/// The number, or `TOP` where it is greater.
pub fn capped(n: u64) -> u64
    ensures { result ≡ capped n }
{
    n.min(TOP)
}

/// One more, up to `TOP`.
pub fn raised(n: u64) -> u64
    ensures { result ≡ raised n }
{
    if n < TOP { n + 1 } else { TOP }
}
