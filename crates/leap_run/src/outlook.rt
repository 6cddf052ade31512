//! How far ahead it is known that nothing is sent.
ghost use Rattle.std.specs.Prelude.{◌<◌, ◌≤◌, length, map, All};
ghost use Rattle.target_law.specs.Numbered.{AllNumbered};
ghost use Rattle.target_law.specs.Proper.{IsCoreOf};
ghost use Rattle.leap_run.specs.Leaps.{AllBut, IsQuiet};

use target_law::Target;

/// For how many cycles nothing is sent, if no post comes in.
#[derive(Clone, Copy)]
pub(crate) struct Outlook {
    /// By any core.
    pub(crate) all: u64,
    /// By any other core than the one at `lone`.
    pub(crate) others: u64,
    /// The place of a core that may send something first.
    pub(crate) lone: usize,
}

impl Outlook {
    ghost use Rattle.std.specs.Prelude.{◌≡◌, ◌<◌, ◌≤◌, min};

    /// The outlook with one core more, which sends nothing for so many cycles.
    fn with(self, place: usize, quiet: u64) -> Outlook
        ensures sooner { quiet < self.all → result ≡ record { all = quiet; others = self.all; lone = place } }
        ensures later { self.all ≤ quiet → result ≡ record self { others = min self.others quiet } }
    {
        if quiet < self.all {
            Outlook {
                all: quiet,
                others: self.all,
                lone: place,
            }
        } else {
            Outlook {
                others: self.others.min(quiet),
                ..self
            }
        }
    }
}

/// What lies ahead of cores from a clock on.
pub(crate) fn look_ahead<C: Send + Drop, T: Target<Core = C>>(
    target: &T,
    cores: &[C],
    from: u64,
) -> Outlook
    requires some { 1 ≤ length cores.now }
    requires cores { AllNumbered (IsCoreOf (T.rules target.now) (T.owns target.now)) 0 (map T.values.core cores.now) }
    ensures all { All (λ core. IsQuiet (T.rules target.now) from result.all (T.values.core core)) cores.now }
    ensures others { AllBut result.lone (λ core. IsQuiet (T.rules target.now) from result.others (T.values.core core)) cores.now }
    ensures lone { result.lone < length cores.now }
{
    let mut ahead = Outlook {
        all: u64::MAX,
        others: u64::MAX,
        lone: 0,
    };
    for (place, core) in cores.iter().enumerate() {
        ahead = ahead.with(place, target.quiet(core, from));
    }
    ahead
}
