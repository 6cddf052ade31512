//! Streams that fail, and want of memory.
use crate::calling::{ALL_ZERO, Outcome, Streams, WHOLE, call, call_under};
use crate::samples::{EXIT, EXIT_REPORT, STORE, STORES_REPORT};
use crate::threads::stop_first;
use io_edge::NeverHold;
use simulate_call::Answer;
use std::test::Fail;
use std::thread::Threads;

/// The notes of the drift in which core 0 is held at its first clock, so core 1 asks first: it is rolled back for that.
const ROLLED: &[u8] =
    b"interval 0 rolled 100 bus 1 map 1 line 0 reply 0\nbus channel 0 high 1.1.0 low 1.0.0\nmap line 256 high 1.1.0 low 1.0.0\nticks drift 200 replay 200\n";

/// Whether a text is one piece and then another.
fn is_made_of(text: &[u8], front: &[u8], back: &[u8]) -> bool {
    text.len() == front.len() + back.len() && text.starts_with(front) && text.ends_with(back)
}

/// For want of memory nothing is written, and no machine is handed back; else the whole text is written, and the clock at
/// the end is that of the checkpoint behind the exit.
fn is_all_or_nothing(outcome: &Outcome, front: &[u8], back: &[u8], clock: u64) -> bool {
    match outcome.answer {
        Answer::OutOfMemory => {
            outcome.status == 7 && outcome.clock.is_none() && outcome.text.is_empty()
        }
        _ => {
            outcome.status == 0
                && outcome.clock == Some(clock)
                && is_made_of(outcome.text.as_slice(), front, back)
        }
    }
}

/// Whichever allocation is refused: `python3 outside/refused_memory.py` refuses each.
#[test]
fn want_of_memory_writes_nothing(rt: HostRuntime) -> Result<(), Fail> {
    let outcome = call(&rt, &["run"], EXIT)?;
    assert!(rt; is_all_or_nothing(&outcome, EXIT_REPORT, b"", 1000));
    Ok(())
}

const SPECULATIVE: [&str; 9] = [
    "run",
    "--cores",
    "2",
    "--mode",
    "speculative",
    "--limit",
    "100",
    "--notes",
    "on",
];

#[test]
fn want_of_memory_under_a_gate(rt: HostRuntime) -> Result<(), Fail> {
    let gate = stop_first(rt.alloc(), 1)?;
    let outcome = call_under(&rt, &SPECULATIVE, STORE, &WHOLE, &gate)?;
    assert!(rt; is_all_or_nothing(&outcome, STORES_REPORT, ROLLED, 100));
    Ok(())
}

/// The modes, in each of which one core has the same text.
const MODES: [&str; 5] = ["lockstep", "quantum", "bounded", "speculative", "script"];

/// A call over streams of 16 bytes a call: which call of the source and of the sink fails (0: none), the answer and the
/// status, and how many bytes of the text are written.
type Failing = (u64, u64, Answer, u8, usize);

/// The file has 28 bytes: two calls of 16 bytes take it, and a third sees its end. The text has 147 bytes: ten calls of 16
/// bytes write it.
const FAILING: [Failing; 15] = [
    (1, 0, Answer::ReadFault, 5, 0),
    (2, 0, Answer::ReadFault, 5, 0),
    (3, 0, Answer::ReadFault, 5, 0),
    (4, 0, ALL_ZERO, 0, 147),
    (0, 1, Answer::WriteFault, 6, 0),
    (0, 2, Answer::WriteFault, 6, 16),
    (0, 3, Answer::WriteFault, 6, 32),
    (0, 4, Answer::WriteFault, 6, 48),
    (0, 5, Answer::WriteFault, 6, 64),
    (0, 6, Answer::WriteFault, 6, 80),
    (0, 7, Answer::WriteFault, 6, 96),
    (0, 8, Answer::WriteFault, 6, 112),
    (0, 9, Answer::WriteFault, 6, 128),
    (0, 10, Answer::WriteFault, 6, 144),
    (0, 11, ALL_ZERO, 0, 147),
];

/// Runs one core in a mode over streams of 16 bytes a call, the one or the other of which fails at a call.
fn run_in<R: Threads + Sync + AllocGlobal>(
    rt: &R,
    mode: &str,
    source_fails: u64,
    sink_fails: u64,
) -> Result<Outcome, Fail> {
    let streams = Streams {
        step: 16,
        source_fails: &[source_fails],
        sink_fails: &[sink_fails],
        ..WHOLE
    };
    call_under(rt, &["run", "--mode", mode], EXIT, &streams, &NeverHold)
}

/// Whether a call ended so, with so much of the text written. A machine is handed back where the input was read.
fn is_failing(outcome: &Outcome, answer: Answer, status: u8, length: usize) -> bool {
    outcome.answer == answer
        && outcome.status == status
        && outcome.text.len() == length
        && EXIT_REPORT.starts_with(outcome.text.as_slice())
        && outcome.clock.is_some() == (answer != Answer::ReadFault)
}

#[test]
fn streams_that_fail(rt: HostRuntime) -> Result<(), Fail> {
    for mode in &MODES {
        for (source_fails, sink_fails, answer, status, length) in &FAILING {
            let outcome = run_in(&rt, mode, *source_fails, *sink_fails)?;
            let holds = is_failing(&outcome, *answer, *status, *length);
            assert!(rt; holds, "{mode} {source_fails} {sink_fails}");
        }
    }
    Ok(())
}

const NARROW: Streams<'static> = Streams { room: 20, ..WHOLE };

#[test]
fn a_sink_with_too_little_room(rt: HostRuntime) -> Result<(), Fail> {
    let outcome = call_under(&rt, &["run"], EXIT, &NARROW, &NeverHold)?;
    assert!(rt; is_failing(&outcome, Answer::WriteFault, 6, 20));
    Ok(())
}
