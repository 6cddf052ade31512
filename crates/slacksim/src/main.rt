//! SlackSim: a simulator of small multicore RV32IMA computers.
#![tactic(auto)]

use io_edge::{NeverHold, StdSink, StdSource};
use simulate_call::{fault_text, simulate};
use slack_base::Arg;
use std::env::Env;
use std::io::{ErrorKind, Write};
use std::process::ExitCode;
use std::{env, io};

fn main(rt: HostRuntime) -> ExitCode {
    let mut stderr = rt.stderr();
    let words = match words(&rt) {
        Ok(words) => words,
        Err(error) if error.kind() == ErrorKind::OutOfMemory => {
            complain(&mut stderr, b"out of memory");
            return ExitCode::from(7);
        }
        Err(_) => {
            complain(&mut stderr, b"words");
            return ExitCode::from(2);
        }
    };
    let mut source = StdSource::new(rt.stdin());
    let mut sink = StdSink::new(rt.stdout());
    let alloc = rt.alloc();
    let finish = simulate(
        &rt,
        alloc,
        words.as_slice(),
        &mut source,
        &mut sink,
        &NeverHold,
    );
    match fault_text(alloc, &finish.answer) {
        Ok(text) if text.is_empty() => {}
        Ok(text) => complain(&mut stderr, text.as_slice()),
        Err(_) => complain(&mut stderr, b"out of memory"),
    }
    ExitCode::from(finish.status)
}

/// The words of the command line without the program's own name.
fn words<R: Env + AllocGlobal>(rt: &R) -> io::Result<Vec<Arg>> {
    let mut words = Vec::new(rt.alloc());
    for word in env::args(rt)?.skip(1) {
        words.push(Arg::from_bytes(word.into_bytes()))?;
    }
    Ok(words)
}

/// Writes a line to standard error. There is nowhere to say that this failed.
fn complain<W: Write>(stderr: &mut W, text: &[u8]) {
    let _ = stderr.write_all(b"slacksim: ");
    let _ = stderr.write_all(text);
    let _ = stderr.write_all(b"\n");
}
