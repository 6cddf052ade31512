//! The lines of the report.
ghost use Rattle.std.specs.Prelude.{◌≡◌, ◌++◌, OnOk, codes};
ghost use Rattle.plain_text.specs.Pieces.{hex_word};
ghost use Rattle.stat_report.specs.Lines.{core_line, counts_text, end_text, end_cycle, trap_name, trap_value};

use plain_text::Text;
use slack_base::{CoreEnd, Counts, OutOfMemory, Trap};

/// Appends the line of a core.
pub fn push_core(
    text: &mut Text,
    clock: u64,
    number: u32,
    ended: CoreEnd,
    counts: &Counts,
) -> Result<(), OutOfMemory>
    ensures { OnOk result (text.new ≡ text.old ++ core_line clock number ended counts.now) }
{
    text.push_field("core ", u64::from(number))?;
    text.push_str(" ")?;
    push_end(text, ended)?;
    text.push_field(" at ", end_cycle(clock, ended))?;
    push_counts(text, counts)?;
    text.push_str("\n")
}

#[tactic(auto, unfolding(crate::specs::Lines::counts_text))]
fn push_counts(text: &mut Text, counts: &Counts) -> Result<(), OutOfMemory>
    ensures { OnOk result (text.new ≡ text.old ++ counts_text counts.now) }
{
    text.push_field(" retired ", counts.retired)?;
    text.push_field(" accesses ", counts.accesses)?;
    text.push_field(" misses ", counts.misses)?;
    text.push_field(" retries ", counts.retries)?;
    text.push_field(" waits ", counts.waits)?;
    text.push_field(" snoops ", counts.snoops)?;
    text.push_field(" writebacks ", counts.writebacks)
}

#[tactic(auto, unfolding(crate::specs::Lines::end_text))]
fn push_end(text: &mut Text, ended: CoreEnd) -> Result<(), OutOfMemory>
    ensures { OnOk result (text.new ≡ text.old ++ end_text ended) }
{
    match ended {
        CoreEnd::Running => text.push_str("running"),
        CoreEnd::Exit { code, .. } => text.push_field("exit ", u64::from(code)),
        CoreEnd::Trapped { trap, .. } => push_trap(text, trap),
    }
}

fn push_trap(text: &mut Text, trap: Trap) -> Result<(), OutOfMemory>
    ensures { OnOk result (text.new ≡ text.old ++ (codes "trap " ++ trap_name trap ++ codes " " ++ hex_word (trap_value trap))) }
{
    text.push_str("trap ")?;
    text.push_str(trap_name(trap))?;
    text.push_str(" ")?;
    text.push_hex(trap_value(trap))
}

/// The cycle at which a core ended, or the machine's clock.
pub fn end_cycle(clock: u64, ended: CoreEnd) -> u64
    ensures { result ≡ end_cycle clock ended }
{
    match ended {
        CoreEnd::Running => clock,
        CoreEnd::Exit { at, .. } | CoreEnd::Trapped { at, .. } => at,
    }
}

/// The name of a trap in the report.
pub fn trap_name(trap: Trap) -> &'static str
    ensures { result.now ≡ trap_name trap }
{
    match trap {
        Trap::Illegal { .. } => "illegal",
        Trap::Fetch { .. } => "fetch",
        Trap::Target { .. } => "target",
        Trap::Misaligned { .. } => "misaligned",
        Trap::Outside { .. } => "outside",
        Trap::Break { .. } => "break",
        Trap::Call { .. } => "call",
    }
}

/// The word, address or number that a trap shows.
pub fn trap_value(trap: Trap) -> u32
    ensures { result ≡ trap_value trap }
{
    match trap {
        Trap::Illegal { bits } => bits,
        Trap::Fetch { pc } | Trap::Break { pc } => pc,
        Trap::Target { target } => target,
        Trap::Misaligned { address } | Trap::Outside { address } => address,
        Trap::Call { number } => number,
    }
}
