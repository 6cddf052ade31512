//! Dumps of memory.
ghost use Rattle.std.specs.Prelude.{◌≡◌, ◌++◌, ◌+◌, ◌*◌, ◌^◌, ◌<◌, ◌≤◌, IfOk, OnOk};
ghost use Rattle.bus_model.specs.Channels.{count_of};
ghost use Rattle.lockstep_model.specs.Views.{cores_of, machine_of, values_of};
ghost use Rattle.stat_report.specs.Dump.{dump_line, dump_of, dumped, is_zero, lines_in, memory_words, modified_words, words_at, words_of_chan, written_words};

use bus_model::Channel;
use lockstep_model::Machine;
use mesi_cache::{Held, HeldLine};
use plain_text::Text;
use slack_base::{ByteList, OutOfMemory, Words};
use std::alloc::Global;
use timed_core::TimedCore;

/// The lines of memory that are not all 0, each with its address and its four words, in hexadecimal. Memory begins at
/// `base`. Where a core has written a line that its cache still holds Modified, the words are those in its cache.
pub fn dump_text(alloc: Global, machine: &Machine, base: u32) -> Result<ByteList, OutOfMemory>
    requires { base + 16 * lines_in (values_of machine.now.chans) ≤ 2 ^ 32 }
    ensures { IfOk result (λ text. text ≡ dump_of base (machine_of machine.now)) }
{
    let mut text = Text::new(alloc);
    for line in 0..lines_in(machine.chans.as_slice()) {
        push_words(&mut text, base + 16 * line, words_at(machine, line))?;
    }
    Ok(text.into_list())
}

/// How many lines of memory the channels have.
fn lines_in(chans: &[Channel]) -> u32
    requires { lines_in (values_of chans.now) < 2 ^ 32 }
    ensures { result ≡ lines_in (values_of chans.now) }
{
    chans.iter().map(|chan| chan.lines()).sum()
}

/// The words of a line, as the cores wrote them last.
#[tactic(auto, unfolding(crate::specs::Dump::words_at))]
fn words_at(machine: &Machine, line: u32) -> Option<Words>
    ensures { result ≡ words_at (machine_of machine.now) line }
{
    match written_words(machine.cores.as_slice(), line) {
        Some(words) => Some(words),
        None => memory_words(machine.chans.as_slice(), line),
    }
}

/// The words of a line in memory, as a bus has them that has the line.
fn memory_words(chans: &[Channel], line: u32) -> Option<Words>
    ensures { result ≡ memory_words line (values_of chans.now) }
{
    for chan in chans {
        if let Some(words) = words_of_chan(chan, line) {
            return Some(words);
        }
    }
    None
}

/// The words of a line in memory, where the channel has it.
fn words_of_chan(chan: &Channel, line: u32) -> Option<Words>
    ensures { result ≡ words_of_chan line chan.now.value }
{
    chan.find_entry(line).map(|entry| entry.words)
}

/// The words of a line in the cache of the first core that holds it Modified.
fn written_words(cores: &[TimedCore], line: u32) -> Option<Words>
    ensures { result ≡ written_words line (cores_of cores.now) }
{
    for core in cores {
        if let Some(words) = modified_words(core.held(line)) {
            return Some(words);
        }
    }
    None
}

/// The words of a line that is Modified.
fn modified_words(held: Option<HeldLine>) -> Option<Words>
    ensures { result ≡ modified_words held }
{
    match held {
        Some(line) if line.held == Held::Modified => Some(line.words),
        _ => None,
    }
}

/// Appends the line of an address, if there are words.
fn push_words(text: &mut Text, address: u32, words: Option<Words>) -> Result<(), OutOfMemory>
    ensures { OnOk result (text.new ≡ text.old ++ dumped address words) }
{
    match words {
        Some(words) => push_line(text, address, words),
        None => Ok(()),
    }
}

/// Appends the line of an address and its four words: nothing where these are all 0.
#[tactic(auto, unfolding(crate::specs::Dump::dump_line))]
fn push_line(text: &mut Text, address: u32, words: Words) -> Result<(), OutOfMemory>
    ensures { OnOk result (text.new ≡ text.old ++ dump_line address words) }
{
    if is_zero(words) {
        return Ok(());
    }
    text.push_hex_field(address)?;
    text.push_hex_field(words.w0)?;
    text.push_hex_field(words.w1)?;
    text.push_hex_field(words.w2)?;
    text.push_hex(words.w3)?;
    text.push_str("\n")
}

fn is_zero(words: Words) -> bool
    ensures { result ≡ is_zero words }
{
    words.w0 == 0 && words.w1 == 0 && words.w2 == 0 && words.w3 == 0
}
