//! What is so of every clock table that meets the rule: each kind of step keeps it.
ghost use Rattle.core_gate.specs.Laws.{AllOpen, AllObserve, AllAdvance, AllLook, AllRaise, AllSeat};

/// A table meets the rule at the start, when all words are the opening clock.
pub fn law_of_openings()
    ensures { AllOpen }
{}

/// A pacer's load of global time keeps the rule.
pub fn law_of_observing()
    ensures { AllObserve }
{}

/// A pacer's store of its clock, one higher, keeps the rule where that clock was below what it saw plus the slack.
pub fn law_of_advancing()
    ensures { AllAdvance }
{}

/// The overseer's load of a clock keeps the rule.
pub fn law_of_looking()
    ensures { AllLook }
{}

/// The overseer's store of the least of the clocks last looked at keeps the rule.
pub fn law_of_raising()
    ensures { AllRaise }
{}

/// The rule is kept where the next pacer is seated.
pub fn law_of_seating()
    ensures { AllSeat }
{}
