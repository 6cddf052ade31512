//! The notes of a run.
ghost use Rattle.std.specs.Prelude.{◌≡◌, ◌++◌, IfOk, OnOk};
ghost use Rattle.stat_report.specs.Notes.{count_of, id_field, is_bus, is_map, is_line, is_reply, kinds_text, late_text, lines_from, note_lines, notes_of, order_text, ticks_line, violation_line, violation_lines};

use plain_text::Text;
use slack_base::{ByteList, Id, Interval, NoteList, OutOfMemory, Violation};
use std::alloc::Global;

/// The notes of a run: what became of each interval, a line for each violation in it, and last the ticks that cores
/// made in drifts and in replays.
#[tactic(auto, unfolding(crate::specs::Notes::notes_of))]
pub fn notes_text(
    alloc: Global,
    notes: &NoteList,
    drift_ticks: u64,
    replay_ticks: u64,
) -> Result<ByteList, OutOfMemory>
    ensures { IfOk result (λ text. text ≡ notes_of notes.now drift_ticks replay_ticks) }
{
    let mut text = Text::new(alloc);
    push_notes(&mut text, notes.as_slice())?;
    push_ticks(&mut text, drift_ticks, replay_ticks)?;
    Ok(text.into_list())
}

#[tactic(auto, unfolding(crate::specs::Notes::ticks_line))]
fn push_ticks(text: &mut Text, drift: u64, replay: u64) -> Result<(), OutOfMemory>
    ensures { OnOk result (text.new ≡ text.old ++ ticks_line drift replay) }
{
    text.push_field("ticks drift ", drift)?;
    text.push_field(" replay ", replay)?;
    text.push_str("\n")
}

/// Appends the lines of the intervals, numbered from 0.
fn push_notes(text: &mut Text, notes: &[Interval]) -> Result<(), OutOfMemory>
    ensures { OnOk result (text.new ≡ text.old ++ lines_from 0 notes.now) }
{
    for (number, note) in notes.iter().enumerate() {
        push_note(text, number as u64, note)?;
    }
    Ok(())
}

/// Appends the lines of an interval.
#[tactic(auto, unfolding(crate::specs::Notes::note_lines))]
fn push_note(text: &mut Text, number: u64, note: &Interval) -> Result<(), OutOfMemory>
    ensures { OnOk result (text.new ≡ text.old ++ note_lines number note.now) }
{
    text.push_field("interval ", number)?;
    match note {
        Interval::Kept { cycles } => {
            text.push_field(" kept ", *cycles)?;
            text.push_str("\n")
        }
        Interval::Rolled { cycles, seen, .. } => {
            text.push_field(" rolled ", *cycles)?;
            push_kinds(text, seen.as_slice())?;
            push_violations(text, seen.as_slice())
        }
        Interval::Bounded { cycles, seen, .. } => {
            text.push_field(" bounded ", *cycles)?;
            push_kinds(text, seen.as_slice())?;
            push_violations(text, seen.as_slice())
        }
    }
}

/// How many violations there are of each kind.
#[derive(Clone, Copy)]
struct Tally {
    bus: u64,
    map: u64,
    line: u64,
    reply: u64,
}

#[tactic(auto, unfolding(crate::specs::Notes::kinds_text))]
fn push_kinds(text: &mut Text, seen: &[Violation]) -> Result<(), OutOfMemory>
    ensures { OnOk result (text.new ≡ text.old ++ kinds_text seen.now) }
{
    let tally = count_kinds(seen);
    text.push_field(" bus ", tally.bus)?;
    text.push_field(" map ", tally.map)?;
    text.push_field(" line ", tally.line)?;
    text.push_field(" reply ", tally.reply)?;
    text.push_str("\n")
}

/// Counts violations by their kind.
fn count_kinds(seen: &[Violation]) -> Tally
    ensures bus { result.bus ≡ count_of is_bus seen.now }
    ensures map { result.map ≡ count_of is_map seen.now }
    ensures line { result.line ≡ count_of is_line seen.now }
    ensures reply { result.reply ≡ count_of is_reply seen.now }
{
    let mut tally = Tally {
        bus: 0,
        map: 0,
        line: 0,
        reply: 0,
    };
    for violation in seen {
        match violation {
            Violation::Bus { .. } => tally.bus += 1,
            Violation::Map { .. } => tally.map += 1,
            Violation::Line { .. } => tally.line += 1,
            Violation::Reply { .. } => tally.reply += 1,
        }
    }
    tally
}

#[tactic(auto, unfolding(crate::specs::Notes::violation_lines))]
fn push_violations(text: &mut Text, seen: &[Violation]) -> Result<(), OutOfMemory>
    ensures { OnOk result (text.new ≡ text.old ++ violation_lines seen.now) }
{
    for violation in seen {
        push_violation(text, violation)?;
    }
    Ok(())
}

/// Appends the line of a violation.
#[tactic(auto, unfolding(crate::specs::Notes::violation_line))]
fn push_violation(text: &mut Text, violation: &Violation) -> Result<(), OutOfMemory>
    ensures { OnOk result (text.new ≡ text.old ++ violation_line violation.now) }
{
    match *violation {
        Violation::Bus { channel, high, low } => {
            text.push_field("bus channel ", u64::from(channel))?;
            push_order(text, high, low)
        }
        Violation::Map { line, high, low } => {
            text.push_field("map line ", u64::from(line))?;
            push_order(text, high, low)
        }
        Violation::Line {
            core,
            id,
            due,
            clock,
        } => {
            text.push_str("line")?;
            push_late(text, core, id, due, clock)
        }
        Violation::Reply {
            core,
            id,
            due,
            clock,
        } => {
            text.push_str("reply")?;
            push_late(text, core, id, due, clock)
        }
    }
}

/// Appends the ids of two asks that were served in the wrong order.
#[tactic(auto, unfolding(crate::specs::Notes::order_text))]
fn push_order(text: &mut Text, high: Id, low: Id) -> Result<(), OutOfMemory>
    ensures { OnOk result (text.new ≡ text.old ++ order_text high low) }
{
    push_id(text, " high ", high)?;
    push_id(text, " low ", low)?;
    text.push_str("\n")
}

/// Appends what a core took late.
#[tactic(auto, unfolding(crate::specs::Notes::late_text))]
fn push_late(text: &mut Text, core: u32, id: Id, due: u64, clock: u64) -> Result<(), OutOfMemory>
    ensures { OnOk result (text.new ≡ text.old ++ late_text core id due clock) }
{
    text.push_field(" core ", u64::from(core))?;
    push_id(text, " id ", id)?;
    text.push_field(" due ", due)?;
    text.push_field(" clock ", clock)?;
    text.push_str("\n")
}

/// Appends a name, and then an id in its three parts.
#[tactic(auto, unfolding(crate::specs::Notes::id_field))]
fn push_id(text: &mut Text, name: &str, id: Id) -> Result<(), OutOfMemory>
    ensures { OnOk result (text.new ≡ text.old ++ id_field name.now id) }
{
    text.push_field(name, id.cycle)?;
    text.push_field(".", u64::from(id.core))?;
    text.push_field(".", id.number)
}
