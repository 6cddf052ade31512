//! The text of a run.
ghost use Rattle.std.specs.Prelude.{◌≡◌, ◌+◌, ◌*◌, ◌^◌, ◌<◌, ◌≤◌, ◌++◌, Some, IfOk, OnOk};
ghost use Rattle.slack_base.specs.Numbers.{numbers_of};
ghost use Rattle.lockstep_model.specs.Views.{machine_of};
ghost use Rattle.sim_words.specs.OrderValues.{order_value};
ghost use Rattle.stat_report.specs.Dump.{lines_in};
ghost use Rattle.simulate_call.specs.RunValues.{run_value};
ghost use Rattle.simulate_call.specs.Texts.{coherence_in, notes_in, report_in, run_text, gen_line};

use coherence_law::{breaks, coherence_text};
use image_run::Ran;
use lockstep_model::Machine;
use plain_text::Text;
use sim_words::{Format, Order};
use slack_base::{ByteList, OutOfMemory};
use stat_report::{dump_text, notes_text, report_json, report_text};
use std::alloc::Global;

/// The text of a run.
#[tactic(auto, unfolding(crate::specs::Texts::run_text))]
pub fn text_of_run(alloc: Global, order: &Order, ran: &Ran) -> Result<ByteList, OutOfMemory>
    requires { order.now.config.base + 16 * lines_in (machine_of ran.now.machine).chans ≤ 2 ^ 32 }
    ensures { IfOk result (λ text. text ≡ run_text (order_value order.now) (machine_of ran.now.machine) (run_value (Some ran.now))) }
{
    let mut text = Text::new(alloc);
    push_run(&mut text, alloc, order, ran)?;
    Ok(text.into_list())
}

/// The text of a generated run.
pub fn text_of_gen(alloc: Global, order: &Order, ran: &Ran) -> Result<ByteList, OutOfMemory>
    requires { order.now.config.base + 16 * lines_in (machine_of ran.now.machine).chans ≤ 2 ^ 32 }
    ensures { IfOk result (λ text. text ≡ gen_line order.now.seed ++ run_text (order_value order.now) (machine_of ran.now.machine) (run_value (Some ran.now))) }
{
    let mut text = Text::new(alloc);
    push_gen_line(&mut text, order.seed)?;
    push_run(&mut text, alloc, order, ran)?;
    Ok(text.into_list())
}

/// Appends the line that names the seed of a generated run.
#[tactic(auto, unfolding(crate::specs::Texts::gen_line))]
fn push_gen_line(text: &mut Text, seed: u32) -> Result<(), OutOfMemory>
    ensures { OnOk result (text.new ≡ text.old ++ gen_line seed) }
{
    text.push_field("gen ", u64::from(seed))?;
    text.push_str(" words 1005\n")
}

/// Appends the text of a run.
#[tactic(auto, unfolding(crate::specs::Texts::run_text))]
fn push_run(text: &mut Text, alloc: Global, order: &Order, ran: &Ran) -> Result<(), OutOfMemory>
    requires { order.now.config.base + 16 * lines_in (machine_of ran.now.machine).chans ≤ 2 ^ 32 }
    ensures { OnOk result (text.new ≡ text.old ++ run_text (order_value order.now) (machine_of ran.now.machine) (run_value (Some ran.now))) }
{
    let report = report_in(alloc, order, &ran.machine)?;
    text.push_bytes(report.as_slice())?;
    push_coherence(text, alloc, order.check, &ran.machine)?;
    push_notes(text, alloc, order.notes, ran)
}

/// Appends the lines that are not coherent, where they are asked for.
fn push_coherence(
    text: &mut Text,
    alloc: Global,
    check: bool,
    machine: &Machine,
) -> Result<(), OutOfMemory>
    requires { lines_in (machine_of machine.now).chans < 2 ^ 32 }
    ensures { OnOk result (text.new ≡ text.old ++ coherence_in check (machine_of machine.now)) }
{
    if check {
        let broken = breaks(alloc, machine)?;
        let lines = coherence_text(alloc, &broken)?;
        text.push_bytes(lines.as_slice())?;
    }
    Ok(())
}

/// Appends the notes, where they are asked for.
fn push_notes(text: &mut Text, alloc: Global, notes: bool, ran: &Ran) -> Result<(), OutOfMemory>
    ensures { OnOk result (text.new ≡ text.old ++ notes_in notes (run_value (Some ran.now))) }
{
    if notes {
        let lines = notes_text(alloc, &ran.notes, ran.drift_ticks, ran.replay_ticks)?;
        text.push_bytes(lines.as_slice())?;
    }
    Ok(())
}

/// The report in the format of the order.
fn report_in(alloc: Global, order: &Order, machine: &Machine) -> Result<ByteList, OutOfMemory>
    requires { order.now.config.base + 16 * lines_in (machine_of machine.now).chans ≤ 2 ^ 32 }
    ensures { IfOk result (λ text. text ≡ report_in order.now.format (numbers_of order.now.config) (machine_of machine.now)) }
{
    match order.format {
        Format::Text => report_text(alloc, machine),
        Format::Json => report_json(alloc, machine),
        Format::Dump => dump_text(alloc, machine, order.config.base),
    }
}
