//! Calls over streams in memory, and what comes of them.
ghost use Rattle.std.specs.Prelude.{◌<◌};

use io_edge::{Gate, MemorySink, MemorySource, NeverHold};
use simulate_call::{Answer, Finish, simulate};
use slack_base::{Arg, Interval, NoteList, Row};
use std::alloc::Global;
use std::process::Abort;
use std::test::Fail;
use std::thread::Threads;

pub const ALL_ZERO: Answer = Answer::Done { all_zero: true };

pub const NOT_ALL_ZERO: Answer = Answer::Done { all_zero: false };

/// How the streams of a call behave: bytes a call at the most, the calls that fail, and the room of the sink.
#[derive(Clone, Copy)]
pub struct Streams<'a> {
    pub step: u32,
    pub source_fails: &'a [u64],
    pub sink_fails: &'a [u64],
    pub room: u64,
}

/// Streams that never fail.
pub const WHOLE: Streams<'static> = Streams {
    step: 4096,
    source_fails: &[],
    sink_fails: &[],
    room: 2097152,
};

/// What is noted of a run: of how many intervals, how many cycles they have together, and the ticks of all cores in
/// drifts.
#[derive(Clone, Copy)]
pub struct Noted {
    pub intervals: usize,
    pub cycles: u64,
    pub drift_ticks: u64,
}

/// What came of a call: of the machine the clock alone, if there is one.
#[derive(Drop)]
pub struct Outcome {
    pub answer: Answer,
    pub status: u8,
    pub clock: Option<u64>,
    pub noted: Noted,
    pub text: Vec<u8>,
}

/// What is known of the text that a call writes.
#[derive(Clone, Copy)]
pub enum Text {
    /// All of it, in pieces.
    Whole(&'static [&'static [u8]]),
    /// What it begins with.
    Front(&'static [u8]),
    /// What it ends with.
    Back(&'static [u8]),
}

/// A call, and what comes of it.
#[derive(Clone, Copy)]
pub struct Case {
    /// What the row shows.
    pub name: &'static str,
    pub words: &'static [&'static str],
    pub input: &'static [u8],
    pub answer: Answer,
    pub status: u8,
    pub text: Text,
    /// What is noted, where the row says it.
    pub noted: Option<Noted>,
    /// How often the call is made.
    pub times: u32,
}

/// A call that ends with all that it was asked for, for rows to differ from.
pub const ENDS: Case = Case {
    name: "",
    words: &[],
    input: b"",
    answer: ALL_ZERO,
    status: 0,
    text: Text::Whole(&[]),
    noted: None,
    times: 1,
};

/// How many cycles the intervals of some notes have together.
fn cycles_of(notes: &NoteList) -> u64 {
    let mut sum = 0u64;
    for note in notes.as_slice() {
        let cycles = match note {
            Interval::Kept { cycles } => *cycles,
            Interval::Rolled { cycles, .. } => *cycles,
            Interval::Bounded { cycles, .. } => *cycles,
        };
        sum = sum.saturating_add(cycles);
    }
    sum
}

fn outcome_of(finish: &Finish, text: Vec<u8>) -> Outcome {
    let clock = match &finish.end {
        Some(end) => Some(end.clock),
        None => None,
    };
    Outcome {
        answer: finish.answer,
        status: finish.status,
        clock,
        noted: Noted {
            intervals: finish.notes.len(),
            cycles: cycles_of(&finish.notes),
            drift_ticks: finish.drift_ticks,
        },
        text,
    }
}

fn args_of(alloc: Global, words: &[&str]) -> Result<Vec<Arg>, Fail> {
    let mut args = Vec::new(alloc);
    for word in words {
        args.push(Arg::of(alloc, word)?)?;
    }
    Ok(args)
}

fn source_of(alloc: Global, input: &[u8], streams: &Streams<'_>) -> Result<MemorySource, Fail>
    requires { 0 < streams.now.step }
{
    let bytes = Row::of(Vec::from_slice(alloc, input)?);
    let fails = Row::of(Vec::from_slice(alloc, streams.source_fails)?);
    Ok(MemorySource::make(bytes, streams.step, fails))
}

fn sink_of(alloc: Global, streams: &Streams<'_>) -> Result<MemorySink, Fail>
    requires { 0 < streams.now.step }
{
    let fails = Row::of(Vec::from_slice(alloc, streams.sink_fails)?);
    Ok(MemorySink::make(alloc, streams.room, streams.step, fails)?)
}

/// Runs a call over streams in memory, under a gate.
pub fn call_under<R: Threads + Sync + AllocGlobal, G: Gate + Sync>(
    rt: &R,
    words: &[&str],
    input: &[u8],
    streams: &Streams<'_>,
    gate: &G,
) -> Result<Outcome, Fail>
    requires { 0 < streams.now.step }
{
    let alloc = rt.alloc();
    let args = args_of(alloc, words)?;
    let mut source = source_of(alloc, input, streams)?;
    let mut sink = sink_of(alloc, streams)?;
    let finish = simulate(rt, alloc, args.as_slice(), &mut source, &mut sink, gate);
    let text = Vec::from_slice(alloc, sink.written())?;
    Ok(outcome_of(&finish, text))
}

/// Runs a call over streams that never fail.
pub fn call<R: Threads + Sync + AllocGlobal>(
    rt: &R,
    words: &[&str],
    input: &[u8],
) -> Result<Outcome, Fail> {
    call_under(rt, words, input, &WHOLE, &NeverHold)
}

/// The flat file of an assembler text.
pub fn assembled<R: Threads + Sync + AllocGlobal>(rt: &R, text: &[u8]) -> Result<Vec<u8>, Fail> {
    let outcome = call(rt, &["asm"], text)?;
    Ok(outcome.text)
}

/// Pieces, one after another.
fn joined(alloc: Global, pieces: &[&[u8]]) -> Result<Vec<u8>, Fail> {
    let mut whole = Vec::new(alloc);
    for piece in pieces {
        whole.extend_from_slice(piece)?;
    }
    Ok(whole)
}

fn is_noted(noted: &Noted, wanted: &Option<Noted>) -> bool {
    match wanted {
        Some(wanted) => {
            noted.intervals == wanted.intervals
                && noted.cycles == wanted.cycles
                && noted.drift_ticks == wanted.drift_ticks
        }
        None => true,
    }
}

/// Compares a text with what is known of it.
fn check_text<R: Abort + AllocGlobal>(rt: &R, case: &Case, text: &[u8]) -> Result<(), Fail> {
    match case.text {
        Text::Whole(pieces) => {
            let whole = joined(rt.alloc(), pieces)?;
            assert_eq!(rt; text, whole.as_slice(), "{}", case.name);
        }
        Text::Front(front) => assert!(rt; text.starts_with(front), "{}", case.name),
        Text::Back(back) => assert!(rt; text.ends_with(back), "{}", case.name),
    }
    Ok(())
}

/// Compares what came of a call with what should come of it.
pub fn check_outcome<R: Abort + AllocGlobal>(
    rt: &R,
    case: &Case,
    outcome: &Outcome,
) -> Result<(), Fail> {
    assert_eq!(rt; outcome.answer, case.answer, "{}", case.name);
    assert_eq!(rt; outcome.status, case.status, "{}", case.name);
    assert!(rt; is_noted(&outcome.noted, &case.noted), "{}", case.name);
    check_text(rt, case, outcome.text.as_slice())
}

/// Makes the call of a row over an input, under a gate, and compares what comes of it.
pub fn check_under<R: Threads + Sync + Abort + AllocGlobal, G: Gate + Sync>(
    rt: &R,
    case: &Case,
    input: &[u8],
    gate: &G,
) -> Result<(), Fail> {
    for _ in 0..case.times {
        let outcome = call_under(rt, case.words, input, &WHOLE, gate)?;
        check_outcome(rt, case, &outcome)?;
    }
    Ok(())
}

/// Goes through rows whose inputs stand as they are.
pub fn check_all<R: Threads + Sync + Abort + AllocGlobal>(
    rt: &R,
    cases: &[Case],
) -> Result<(), Fail> {
    for case in cases {
        check_under(rt, case, case.input, &NeverHold)?;
    }
    Ok(())
}

/// Goes through rows whose inputs are assembler texts, of which the images are run.
pub fn check_programs<R: Threads + Sync + Abort + AllocGlobal>(
    rt: &R,
    cases: &[Case],
) -> Result<(), Fail> {
    for case in cases {
        let image = assembled(rt, case.input)?;
        check_under(rt, case, image.as_slice(), &NeverHold)?;
    }
    Ok(())
}
