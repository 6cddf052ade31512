//! What holds of coherence. Nothing is computed here.
ghost use Rattle.coherence_law.specs.Breaks.{AllListed, AllTests};
ghost use Rattle.coherence_law.specs.LineLaws.{Clocks, Coherent, Fills, Invalidates, Losses, Owns, Reads, Retries, Snoops, Writes, WritesBack};
ghost use Rattle.coherence_law.specs.Unbroken.{AllCoherent, NoBreaks, NoBreaksOf};

/// In any state the test of a line passes exactly where the line is coherent, and the list of those that fail it has all
/// lines of memory that aren't coherent, and no other, in rising order.
pub fn law_of_breaks()
    ensures test { AllTests }
    ensures listed { AllListed }
{}

/// The protocol of one line. Each step keeps the invariant, and the invariant makes the line coherent.
pub fn law_of_lines()
    ensures coherent { Coherent }
    ensures fills { Fills }
    ensures retries { Retries }
    ensures invalidates { Invalidates }
    ensures losses { Losses }
    ensures writes { Writes }
    ensures writes_back { WritesBack }
    ensures snoops { Snoops }
    ensures reads { Reads }
    ensures owns { Owns }
    ensures clocks { Clocks }
{}

/// The law of coherence. Whatever the numbers of the machine, within their bounds, and whatever image it runs, every
/// line is coherent after every number of cycles, and so the list of the lines that aren't is empty.
pub fn law_of_coherence()
    ensures coherent { AllCoherent }
    ensures unbroken { NoBreaks }
    ensures configured { NoBreaksOf }
{}
