//! The lines that are not coherent.
ghost use Rattle.std.specs.Prelude.{◌≡◌, ◌<◌, ◌^◌, IfOk, count_by};
ghost use Rattle.std.specs.List.{list_any, list_all};
ghost use Rattle.bus_model.specs.Channels.{count_of};
ghost use Rattle.timed_core.specs.Accesses.{held_in};
ghost use Rattle.lockstep_model.specs.Views.{cores_of, machine_of, values_of};
ghost use Rattle.coherence_law.specs.Breaks.{are_same, are_these, breaks_of, is_alone, is_coherent, is_held, is_in_memory, is_true_to, is_writable, lines_in};
ghost use Rattle.coherence_law.specs.Coherent.{words_on};

use bus_model::Channel;
use lockstep_model::Machine;
use mesi_cache::{Held, HeldLine};
use slack_base::{OutOfMemory, Row, Words};
use std::alloc::Global;
use timed_core::TimedCore;

/// A list of numbers of lines.
pub type LineList = Row<u32>;

/// The lines of memory that are not coherent, in rising order. A line is coherent where no core but one holds it if
/// that one holds it Exclusive or Modified, and where each core that holds it Shared or Exclusive has memory's words.
pub fn breaks(alloc: Global, machine: &Machine) -> Result<LineList, OutOfMemory>
    requires { lines_in (values_of machine.now.chans) < 2 ^ 32 }
    ensures { IfOk result (λ lines. lines ≡ breaks_of (machine_of machine.now)) }
{
    let mut broken = LineList::new(alloc);
    for line in 0..lines_in(machine.chans.as_slice()) {
        if !is_coherent(machine, line) {
            broken.push(line)?;
        }
    }
    Ok(broken)
}

/// How many lines of memory the channels have.
fn lines_in(chans: &[Channel]) -> u32
    requires { lines_in (values_of chans.now) < 2 ^ 32 }
    ensures { result ≡ lines_in (values_of chans.now) }
{
    chans.iter().map(|chan| chan.lines()).sum()
}

/// Whether a line is coherent.
#[tactic(auto, unfolding(crate::specs::Breaks::is_coherent))]
fn is_coherent(machine: &Machine, line: u32) -> bool
    ensures { result ≡ is_coherent (machine_of machine.now) line }
{
    let cores = machine.cores.as_slice();
    is_alone(cores, line) && are_true(cores, machine.chans.as_slice(), line)
}

/// Whether at most one core holds the line, or none may write it.
fn is_alone(cores: &[TimedCore], line: u32) -> bool
    ensures { result ≡ is_alone (cores_of cores.now) line }
{
    holders(cores, line) <= 1 || !is_writable_in_some(cores, line)
}

/// How many cores hold the line.
fn holders(cores: &[TimedCore], line: u32) -> usize
    ensures { result ≡ count_by (λ core. is_held (held_in core.inner.cache line)) (cores_of cores.now) }
{
    cores.iter().filter(|core| is_held(core.held(line))).count()
}

/// Whether a core holds the line that may write it.
fn is_writable_in_some(cores: &[TimedCore], line: u32) -> bool
    ensures { result ≡ list_any (λ core. is_writable (held_in core.inner.cache line)) (cores_of cores.now) }
{
    cores.iter().any(|core| is_writable(core.held(line)))
}

/// Whether each core that holds the line has written it or has memory's words.
fn are_true(cores: &[TimedCore], chans: &[Channel], line: u32) -> bool
    ensures { result ≡ list_all (λ core. is_true_to (values_of chans.now) line (held_in core.inner.cache line)) (cores_of cores.now) }
{
    cores
        .iter()
        .all(|core| is_true_to(chans, line, core.held(line)))
}

fn is_held(held: Option<HeldLine>) -> bool
    ensures { result ≡ is_held held }
{
    held.is_some()
}

fn is_writable(held: Option<HeldLine>) -> bool
    ensures { result ≡ is_writable held }
{
    match held {
        Some(line) => line.held.may_write(),
        None => false,
    }
}

fn is_true_to(chans: &[Channel], line: u32, held: Option<HeldLine>) -> bool
    ensures { result ≡ is_true_to (values_of chans.now) line held }
{
    match held {
        Some(held) => held.held == Held::Modified || is_in_memory(chans, line, held.words),
        None => true,
    }
}

/// Whether memory has these words of the line.
fn is_in_memory(chans: &[Channel], line: u32, words: Words) -> bool
    ensures { result ≡ is_in_memory (values_of chans.now) line words }
{
    chans.iter().any(|chan| has_words(chan, line, words))
}

/// Whether the channel is a bus that has these words of the line.
fn has_words(chan: &Channel, line: u32, words: Words) -> bool
    ensures { result ≡ are_these words (words_on line chan.now.value) }
{
    match chan.find_entry(line) {
        Some(entry) => are_same(entry.words, words),
        None => false,
    }
}

fn are_same(a: Words, b: Words) -> bool
    ensures { result ≡ are_same a b }
{
    a.w0 == b.w0 && a.w1 == b.w1 && a.w2 == b.w2 && a.w3 == b.w3
}
