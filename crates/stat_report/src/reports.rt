//! The report of a run.
ghost use Rattle.std.specs.Prelude.{◌≡◌, ◌≤◌, ◌++◌, OnOk, IfOk};
ghost use Rattle.slack_base.specs.declared.bounds.TheConstants.{TOP};
ghost use Rattle.lockstep_model.specs.Views.{cores_of, machine_of, values_of};
ghost use Rattle.stat_report.specs.Report.{all_cores_ended, end_of, last_end, cycles_of, cores_text, bus_line, buses_text, console_of, console_text, report_of};

use crate::lines::push_core;
use bus_model::Channel;
use lockstep_model::Machine;
use plain_text::Text;
use slack_base::{ByteList, CoreEnd, OutOfMemory};
use std::alloc::Global;
use timed_core::TimedCore;

/// The report of a machine: its cycles, a line for each core and each bus, and the console.
#[tactic(auto, unfolding(crate::specs::Report::report_of))]
pub fn report_text(alloc: Global, machine: &Machine) -> Result<ByteList, OutOfMemory>
    ensures { IfOk result (λ text. text ≡ report_of (machine_of machine.now)) }
{
    let cores = machine.cores.as_slice();
    let chans = machine.chans.as_slice();
    let console = console_bytes(alloc, chans)?;
    let mut text = Text::new(alloc);
    text.push_field("cores ", cores.len() as u64)?;
    text.push_str("\n")?;
    text.push_field("cycles ", cycles(machine.clock, cores))?;
    text.push_str("\n")?;
    push_cores(&mut text, machine.clock, cores)?;
    push_buses(&mut text, chans)?;
    push_console(&mut text, console.as_slice())?;
    Ok(text.into_list())
}

/// The bytes of the console, the one channel that has some.
#[tactic(auto, unfolding(crate::specs::Report::console_of))]
pub(crate) fn console_bytes(alloc: Global, chans: &[Channel]) -> Result<ByteList, OutOfMemory>
    ensures { IfOk result (λ bytes. bytes ≡ console_of (values_of chans.now)) }
{
    let mut bytes = Text::new(alloc);
    for chan in chans {
        bytes.push_bytes(chan.console_bytes())?;
    }
    Ok(bytes.into_list())
}

/// The cycles that a run took.
#[tactic(auto, unfolding(crate::specs::Report::cycles_of))]
pub(crate) fn cycles(clock: u64, cores: &[TimedCore]) -> u64
    ensures { result ≡ cycles_of clock (cores_of cores.now) }
{
    if all_cores_ended(cores) {
        last_end(cores) + 1
    } else {
        clock
    }
}

/// Whether all cores have ended.
fn all_cores_ended(cores: &[TimedCore]) -> bool
    ensures { result ≡ all_cores_ended (cores_of cores.now) }
{
    cores.iter().all(|core| core.has_ended())
}

fn last_end(cores: &[TimedCore]) -> u64
    ensures value { result ≡ last_end (cores_of cores.now) }
    ensures bound { result ≤ TOP }
{
    let mut last = 0;
    for core in cores {
        last = end_of(core.end()).max(last);
    }
    last
}

/// The cycle at which a core ended: 0 where it is running.
fn end_of(ended: CoreEnd) -> u64
    ensures { result ≡ end_of ended }
{
    match ended {
        CoreEnd::Running => 0,
        CoreEnd::Exit { at, .. } | CoreEnd::Trapped { at, .. } => at,
    }
}

#[tactic(auto, unfolding(crate::specs::Report::cores_text))]
fn push_cores(text: &mut Text, clock: u64, cores: &[TimedCore]) -> Result<(), OutOfMemory>
    ensures { OnOk result (text.new ≡ text.old ++ cores_text clock (cores_of cores.now)) }
{
    for core in cores {
        push_core(text, clock, core.number(), core.end(), &core.counts())?;
    }
    Ok(())
}

/// Appends the line of a bus, and nothing for the console.
#[tactic(auto, unfolding(crate::specs::Report::bus_line))]
fn push_bus(text: &mut Text, chan: &Channel) -> Result<(), OutOfMemory>
    ensures { OnOk result (text.new ≡ text.old ++ bus_line chan.now.value) }
{
    if let Some(number) = chan.number() {
        text.push_field("bus ", u64::from(number))?;
        text.push_field(" asks ", chan.asks())?;
        text.push_field(" retries ", chan.retries())?;
        text.push_field(" free ", chan.free())?;
        text.push_str("\n")?;
    }
    Ok(())
}

#[tactic(auto, unfolding(crate::specs::Report::buses_text))]
fn push_buses(text: &mut Text, chans: &[Channel]) -> Result<(), OutOfMemory>
    ensures { OnOk result (text.new ≡ text.old ++ buses_text (values_of chans.now)) }
{
    for chan in chans {
        push_bus(text, chan)?;
    }
    Ok(())
}

#[tactic(auto, unfolding(crate::specs::Report::console_text))]
pub(crate) fn push_console(text: &mut Text, bytes: &[u8]) -> Result<(), OutOfMemory>
    ensures { OnOk result (text.new ≡ text.old ++ console_text bytes.now) }
{
    text.push_field("console ", bytes.len() as u64)?;
    text.push_str("\n")?;
    text.push_bytes(bytes)?;
    text.push_str("\n")
}
