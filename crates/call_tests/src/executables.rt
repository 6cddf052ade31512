//! ELF32 executables for RISC-V with one segment, whose bytes stand behind its header.
use crate::calling::{Case, ENDS, Text, call, check_under};
use crate::samples::{EXIT, EXIT_REPORT, LOCK, LOCK_REPORT};
use io_edge::NeverHold;
use std::alloc::Global;
use std::test::Fail;

/// The header up to the entry: a file of the class 32, little-endian, executable, for RISC-V.
const IDENTITY: &[u8] = b"\x7fELF\x01\x01\x01\0\0\0\0\0\0\0\0\0\x02\0\xf3\0\x01\0\0\0";

/// The header behind the entry, with one header of a segment at 52, and that header up to the segment's address: what is
/// to be loaded, from 84 on.
const ONE_SEGMENT: &[u8] =
    b"\x34\0\0\0\0\0\0\0\0\0\0\0\x34\0\x20\0\x01\0\0\0\0\0\0\0\x01\0\0\0\x54\0\0\0";

/// The flags and the alignment of a segment.
const FLAGS: &[u8] = b"\x05\0\0\0\x04\0\0\0";

/// An executable with the code of a flat file at an address, which is the entry.
fn executable(alloc: Global, address: u32, flat_file: &[u8]) -> Result<Vec<u8>, Fail> {
    // The flat file has 16 bytes before the code.
    let code = flat_file.get(16..).unwrap_or(&[]);
    let address = address.to_le_bytes();
    let size = u32::try_from(code.len())?.to_le_bytes();
    let mut file = Vec::from_slice(alloc, IDENTITY)?;
    file.extend_from_slice(&address)?;
    file.extend_from_slice(ONE_SEGMENT)?;
    file.extend_from_slice(&address)?;
    file.extend_from_slice(&address)?;
    file.extend_from_slice(&size)?;
    file.extend_from_slice(&size)?;
    file.extend_from_slice(FLAGS)?;
    file.extend_from_slice(code)?;
    Ok(file)
}

/// An exit with 0 on one core.
const EXITS: Case = Case {
    name: "an exit",
    words: &["run", "--cores", "1"],
    text: Text::Whole(&[EXIT_REPORT]),
    ..ENDS
};

/// At an address inside memory, and in the last bytes of memory.
#[test]
fn an_exit_in_an_executable(rt: HostRuntime) -> Result<(), Fail> {
    for address in [65536, 1048564] {
        let file = executable(rt.alloc(), address, EXIT)?;
        check_under(&rt, &EXITS, file.as_slice(), &NeverHold)?;
    }
    Ok(())
}

const LOCKS: [Case; 3] = [
    Case {
        name: "a sum under a lock",
        words: &["run", "--cores", "4"],
        text: Text::Back(b"\nconsole 1\nZ\n"),
        ..ENDS
    },
    // Where the instructions stand takes no time: the report is that of the program from 0 on.
    Case {
        name: "the whole report of the same",
        words: &["run", "--cores", "4"],
        text: Text::Whole(&[LOCK_REPORT]),
        ..ENDS
    },
    Case {
        name: "the same in speculative mode",
        words: &["run", "--cores", "4", "--mode", "speculative"],
        text: Text::Whole(&[LOCK_REPORT]),
        ..ENDS
    },
];

#[test]
fn a_lock_in_an_executable(rt: HostRuntime) -> Result<(), Fail> {
    let image = call(&rt, &["asm", "--base", "65536"], LOCK)?;
    let file = executable(rt.alloc(), 65536, image.text.as_slice())?;
    for case in &LOCKS {
        check_under(&rt, case, file.as_slice(), &NeverHold)?;
    }
    Ok(())
}
