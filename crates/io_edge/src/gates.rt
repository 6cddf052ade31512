//! What holds a core back.
ghost use Rattle.std.specs.Prelude.{ℕ, Bool, false, IsTrue};

/// A gate is asked before each tick of a threaded drift whether the core is to be held at its clock.
pub trait Gate {
    /// Whether the gate may hold this core at this clock.
    ghost may_hold: { Self → ℕ → ℕ → Bool };

    /// Whether the gate must hold this core at this clock.
    ghost must_hold: { Self → ℕ → ℕ → Bool };

    /// Whether the core is held.
    fn hold(&self, who: u32, clock: u64) -> bool
        ensures may { IsTrue result → IsTrue (may_hold self.now who clock) }
        ensures must { IsTrue (must_hold self.now who clock) → IsTrue result };

    /// Where a gate must hold a core, it may.
    ghost within: { (gate : Self) (who clock : ℕ) → IsTrue (must_hold gate who clock) → IsTrue (may_hold gate who clock) };
}

/// A gate that holds no core.
#[derive(Clone, Copy, Debug, PartialEq, Eq)]
pub struct NeverHold;

impl Gate for NeverHold {
    ghost may_hold = { λ _ _ _. false };

    ghost must_hold = { λ _ _ _. false };

    ghost within = { λ _ _ _ held. held };

    fn hold(&self, _who: u32, _clock: u64) -> bool {
        false
    }
}
