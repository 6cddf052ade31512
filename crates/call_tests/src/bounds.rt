//! The largest program and the largest input, and one more.
use crate::calling::{ALL_ZERO, Case, ENDS, Text, call, check_under};
use io_edge::NeverHold;
use simulate_call::Answer;
use slack_base::{AsmFault, AsmKind, ImageFault};
use std::alloc::Global;
use std::process::Abort;
use std::test::Fail;
use std::thread::Threads;

/// A large input.
#[derive(Clone, Copy)]
enum Large {
    /// So many lines of one instruction.
    Lines(u32),
    /// The header of a flat file of 16781296 bytes, and so many bytes behind it.
    Zeros(usize),
}

/// What the row shows, a command and its input, and the answer, the status and how many bytes are written.
type Bound = (&'static str, &'static str, Large, Answer, u8, usize);

const PROGRAMS: [Bound; 2] = [
    (
        "the largest program",
        "asm",
        Large::Lines(262144),
        ALL_ZERO,
        0,
        1048592,
    ),
    (
        "a line more",
        "asm",
        Large::Lines(262145),
        Answer::BadText(AsmFault {
            line: 262145,
            kind: AsmKind::TooLong,
        }),
        3,
        0,
    ),
];

const INPUTS: [Bound; 2] = [
    // It is read, and finds no memory that holds it.
    (
        "the largest input",
        "run",
        Large::Zeros(16781296),
        Answer::BadImage(ImageFault::Outside { index: 0 }),
        3,
        0,
    ),
    (
        "a byte more",
        "run",
        Large::Zeros(16781297),
        Answer::TooLong { taken: 16781313 },
        3,
        0,
    ),
];

/// The bytes of a large input.
fn bytes_of(alloc: Global, large: Large) -> Result<Vec<u8>, Fail> {
    match large {
        Large::Lines(count) => lines(alloc, count),
        Large::Zeros(count) => zeros(alloc, count),
    }
}

fn lines(alloc: Global, count: u32) -> Result<Vec<u8>, Fail> {
    let mut text = Vec::new(alloc);
    for _ in 0..count {
        text.extend_from_slice(b"nop\n")?;
    }
    Ok(text)
}

fn zeros(alloc: Global, count: usize) -> Result<Vec<u8>, Fail> {
    let mut bytes = Vec::new(alloc);
    bytes.extend_from_slice(b"SLK1\0\0\0\0\0\0\0\0")?;
    bytes.extend_from_slice(&16781296u32.to_le_bytes())?;
    let zeros = vec![in alloc; 0u8; count]?;
    bytes.extend_from_slice(zeros.as_slice())?;
    Ok(bytes)
}

fn check_bounds<R: Threads + Sync + Abort + AllocGlobal>(
    rt: &R,
    bounds: &[Bound],
) -> Result<(), Fail> {
    for (name, command, large, answer, status, length) in bounds {
        let bytes = bytes_of(rt.alloc(), *large)?;
        let outcome = call(rt, &[command], bytes.as_slice())?;
        assert_eq!(rt; outcome.answer, *answer, "{name}");
        assert_eq!(rt; outcome.status, *status, "{name}");
        assert_eq!(rt; outcome.text.len(), *length, "{name}");
    }
    Ok(())
}

#[test]
fn the_largest_program(rt: HostRuntime) -> Result<(), Fail> {
    check_bounds(&rt, &PROGRAMS)
}

#[test]
fn the_largest_input(rt: HostRuntime) -> Result<(), Fail> {
    check_bounds(&rt, &INPUTS)
}

const LARGEST_MACHINE: Case = Case {
    name: "sixteen cores and the largest memory",
    words: &["gen", "--cores", "16", "--memory", "16777216"],
    text: Text::Front(b"gen 1 words 1005\ncores 16\n"),
    ..ENDS
};

#[test]
fn the_largest_machine(rt: HostRuntime) -> Result<(), Fail> {
    check_under(&rt, &LARGEST_MACHINE, b"", &NeverHold)
}
