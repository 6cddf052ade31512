//! Sets of cores as the bits of a number: core `c` is in the set where bit `c` is 1.
ghost use Rattle.std.specs.Prelude.{◌≡◌, ℕ, ◌^◌, ◌<◌, ◌==◌, ◌||◌};
ghost use Rattle.slack_base.specs.declared.bounds.TheConstants.{MOST_CORES};
ghost use Rattle.status_map.specs.Cores.{holds, is_other, with_core};

/// Whether a core is in a set.
pub fn holds(cores: u16, core: u32) -> bool
    requires { core < MOST_CORES }
    ensures { result ≡ holds cores core }
{
    cores >> core & 1 == 1
}

/// Whether a core is in a set and isn't the one that asks.
pub fn is_other(cores: u16, asking: u32, core: u32) -> bool
    requires { core < MOST_CORES }
    ensures { result ≡ is_other cores asking core }
{
    core != asking && holds(cores, core)
}

/// The set with one more core.
pub fn with_core(cores: u16, core: u32) -> u16
    requires core { core < MOST_CORES }
    requires cores { cores < 2 ^ MOST_CORES }
    ensures set { result ≡ with_core cores core }
    ensures members { (k : ℕ) → holds result k ≡ (k == core || holds cores k) }
    ensures within { result < 2 ^ MOST_CORES }
{
    cores | 1 << core
}
