//! The report of a run in JSON.
ghost use Rattle.std.specs.Prelude.{◌≡◌, ◌++◌, ◌∷◌, [], ◌<◌, IfOk, OnOk, encode_utf8, map, string_bytes};
ghost use Rattle.serde_json.specs.Data.{put as with_member};
ghost use Rattle.serde_json.specs.View.{members_view, view};
ghost use Rattle.plain_text.specs.Pieces.{hex_digit};
ghost use Rattle.stat_report.specs.Json.{bus_data, buses_data, core_object, count, cores_data, end_name, end_value, hex_byte, hex_bytes, json_of, json_text, report_object};
ghost use Rattle.lockstep_model.specs.Views.{cores_of, machine_of, values_of};
ghost use Rattle.stat_report.specs.Report.{console_of};

use crate::lines::{end_cycle, trap_name, trap_value};
use crate::reports::{console_bytes, cycles};
use bus_model::Channel;
use lockstep_model::Machine;
use plain_text::{Text, hex_digit};
use serde_json::{Map, Value, json, put};
use slack_base::{ByteList, CoreEnd, Counts, OutOfMemory};
use std::alloc::Global;
use timed_core::TimedCore;

/// The report of a machine as one object of JSON in one line: its buses, the bytes of the console in hexadecimal, its
/// cores and its cycles. The members of each object stand in the order of their names.
#[tactic(auto, unfolding(crate::specs::Json::json_text))]
pub fn report_json(alloc: Global, machine: &Machine) -> Result<ByteList, OutOfMemory>
    ensures { IfOk result (λ text. text ≡ json_text (machine_of machine.now)) }
{
    let report = machine_value(alloc, machine)?.to_string(alloc)?;
    let mut text = Text::new(alloc);
    text.push_str(report.as_str())?;
    text.push_str("\n")?;
    Ok(text.into_list())
}

#[tactic(auto, unfolding(crate::specs::Json::json_of))]
fn machine_value(alloc: Global, machine: &Machine) -> Result<Value, OutOfMemory>
    ensures { IfOk result (λ value. view value ≡ json_of (machine_of machine.now)) }
{
    let cores = machine.cores.as_slice();
    let chans = machine.chans.as_slice();
    let buses = bus_values(alloc, chans)?;
    let console = console_digits(alloc, chans)?;
    let core_values = core_values(alloc, machine.clock, cores)?;
    let cycles = cycles(machine.clock, cores);
    let value = report_object(alloc, buses, console, core_values, cycles)?;
    Ok(value)
}

/// The object of a report, the members in the order of their names.
#[tactic(auto, unfolding(crate::specs::Json::report_object))]
fn report_object(
    alloc: Global,
    buses: Vec<Value>,
    console: String,
    cores: Vec<Value>,
    cycles: u64,
) -> Result<Value, OutOfMemory>
    ensures { IfOk result (λ value. view value ≡ report_object (map view buses.items) (string_bytes console) (map view cores.items) cycles) }
{
    let value = json!(in alloc; {
        "buses": buses,
        "console": console,
        "cores": cores,
        "cycles": cycles
    })?;
    Ok(value)
}

#[tactic(auto, unfolding(crate::specs::Json::cores_data))]
fn core_values(alloc: Global, clock: u64, cores: &[TimedCore]) -> Result<Vec<Value>, OutOfMemory>
    ensures { IfOk result (λ values. map view values.items ≡ cores_data clock (cores_of cores.now)) }
{
    let mut values = Vec::new(alloc);
    for core in cores {
        values.push(core_value(alloc, clock, core.end(), &core.counts())?)?;
    }
    Ok(values)
}

/// A core, at the machine's clock.
#[tactic(auto, unfolding(crate::specs::Json::core_object))]
pub(crate) fn core_value(
    alloc: Global,
    clock: u64,
    ended: CoreEnd,
    counts: &Counts,
) -> Result<Value, OutOfMemory>
    ensures { IfOk result (λ value. view value ≡ core_object clock ended counts.now) }
{
    let mut members = Map::new(alloc);
    put_count(&mut members, alloc, "accesses", counts.accesses)?;
    put_count(&mut members, alloc, "at", end_cycle(clock, ended))?;
    let name = Value::try_from_str(alloc, end_name(ended))?;
    put(&mut members, alloc, "end", name)?;
    put_count(&mut members, alloc, "misses", counts.misses)?;
    put_count(&mut members, alloc, "retired", counts.retired)?;
    put_count(&mut members, alloc, "retries", counts.retries)?;
    put_count(&mut members, alloc, "snoops", counts.snoops)?;
    put_count(&mut members, alloc, "value", u64::from(end_value(ended)))?;
    put_count(&mut members, alloc, "waits", counts.waits)?;
    put_count(&mut members, alloc, "writebacks", counts.writebacks)?;
    Ok(Value::Object(members))
}

/// Puts a member with a number into an object.
fn put_count(
    members: &mut Map<String, Value>,
    alloc: Global,
    name: &str,
    n: u64,
) -> Result<(), OutOfMemory>
    ensures { OnOk result (members_view members.new.entries ≡ with_member name.now (count n) (members_view members.old.entries)) }
{
    put(members, alloc, name, Value::from(n))?;
    Ok(())
}

fn end_name(ended: CoreEnd) -> &'static str
    ensures { result.now ≡ end_name ended }
{
    match ended {
        CoreEnd::Running => "running",
        CoreEnd::Exit { .. } => "exit",
        CoreEnd::Trapped { trap, .. } => trap_name(trap),
    }
}

fn end_value(ended: CoreEnd) -> u32
    ensures { result ≡ end_value ended }
{
    match ended {
        CoreEnd::Running => 0,
        CoreEnd::Exit { code, .. } => code,
        CoreEnd::Trapped { trap, .. } => trap_value(trap),
    }
}

#[tactic(auto, unfolding(crate::specs::Json::buses_data))]
fn bus_values(alloc: Global, chans: &[Channel]) -> Result<Vec<Value>, OutOfMemory>
    ensures { IfOk result (λ values. map view values.items ≡ buses_data (values_of chans.now)) }
{
    let mut values = Vec::new(alloc);
    for chan in chans {
        if chan.number().is_some() {
            values.push(bus_value(alloc, chan)?)?;
        }
    }
    Ok(values)
}

#[tactic(auto, unfolding(crate::specs::Json::bus_data))]
fn bus_value(alloc: Global, bus: &Channel) -> Result<Value, OutOfMemory>
    ensures { IfOk result (λ value. view value ≡ bus_data bus.now.value) }
{
    let value = json!(in alloc; {
        "asks": bus.asks(),
        "free": bus.free(),
        "retries": bus.retries()
    })?;
    Ok(value)
}

/// The bytes of the console in hexadecimal.
fn console_digits(alloc: Global, chans: &[Channel]) -> Result<String, OutOfMemory>
    ensures { IfOk result (λ digits. string_bytes digits ≡ hex_bytes (console_of (values_of chans.now))) }
{
    let bytes = console_bytes(alloc, chans)?;
    hex_bytes(alloc, bytes.as_slice())
}

/// Bytes in hexadecimal, two digits each.
#[tactic(auto, unfolding(crate::specs::Json::hex_bytes))]
pub(crate) fn hex_bytes(alloc: Global, bytes: &[u8]) -> Result<String, OutOfMemory>
    ensures { IfOk result (λ digits. string_bytes digits ≡ hex_bytes bytes.now) }
{
    let mut digits = String::new(alloc);
    for byte in bytes {
        push_byte(&mut digits, *byte)?;
    }
    Ok(digits)
}

/// Appends the two digits of a byte.
fn push_byte(digits: &mut String, byte: u8) -> Result<(), OutOfMemory>
    ensures { OnOk result (string_bytes digits.new ≡ string_bytes digits.old ++ hex_byte byte) }
{
    digits.push(hex_char(byte / 16))?;
    digits.push(hex_char(byte % 16))?;
    Ok(())
}

fn hex_char(digit: u8) -> char
    requires { digit < 16 }
    ensures { encode_utf8 result ≡ hex_digit digit ∷ [] }
{
    char::from(hex_digit(u32::from(digit)))
}
