//! Accesses at the first and the last bytes of memory, which are 4096 and 12287, and beside them.
use crate::cores::{ONE_LINE, SC_X6, code_of, core_of, go_on};
use slack_base::{Ask, AskList, CoreEnd, Id, Trap};
use std::alloc::Global;
use std::process::Abort;
use timed_core::TimedCore;

/// lui x8, 1
const LUI_4096: u32 = 0x0000_1437;
/// lui x8, 3
const LUI_12288: u32 = 0x0000_3437;
/// addi x8, x8, -4
const LESS_4: u32 = 0xffc4_0413;
/// addi x8, x8, -2
const LESS_2: u32 = 0xffe4_0413;
/// addi x8, x8, -1
const LESS_1: u32 = 0xfff4_0413;
/// addi x8, x8, 0
const SAME: u32 = 0x0004_0413;
/// addi x8, x8, 1
const MORE_1: u32 = 0x0014_0413;
/// addi x8, x8, 2
const MORE_2: u32 = 0x0024_0413;
/// lb x6, 0(x8)
const LB: u32 = 0x0004_0303;
/// lbu x6, 0(x8)
const LBU: u32 = 0x0004_4303;
/// lh x6, 0(x8)
const LH: u32 = 0x0004_1303;
/// lhu x6, 0(x8)
const LHU: u32 = 0x0004_5303;
/// lw x6, 0(x8)
const LW: u32 = 0x0004_2303;
/// sb x9, 0(x8)
const SB: u32 = 0x0094_0023;
/// sh x9, 0(x8)
const SH: u32 = 0x0094_1023;
/// sw x9, 0(x8)
const SW: u32 = 0x0094_2023;
/// lr.w x6, (x8)
const LR: u32 = 0x1004_232f;
/// amoadd.w x6, x8, (x8)
const AMOADD: u32 = 0x0084_232f;

/// What an access that finds no line in the cache does.
#[derive(Clone, Copy)]
enum Outcome {
    /// It traps.
    Traps(Trap),
    /// It asks for the line of this number.
    Asks(u32),
    /// It fails, as an SC that isn't reserved, and gives 1.
    Fails,
}

/// The base of x8, what is added to it, and what the access does at that address.
type Row = (u32, u32, Outcome);

/// An access, and whether it writes.
type Access = (u32, bool);

/// Accesses, and what they do at addresses beside and at the ends of memory.
struct Table {
    accesses: &'static [Access],
    rows: &'static [Row],
}

/// Bytes, halves and words; and an SC that isn't reserved, which traps too where its address is wrong.
#[rattlefmt::skip]
const TABLES: [Table; 4] = [
    Table {
        accesses: &[(LB, false), (LBU, false), (SB, true)],
        rows: &[
            (LUI_4096, LESS_1, Outcome::Traps(Trap::Outside { address: 4095 })),
            (LUI_4096, SAME, Outcome::Asks(0)),
            (LUI_12288, LESS_1, Outcome::Asks(511)),
            (LUI_12288, SAME, Outcome::Traps(Trap::Outside { address: 12288 })),
        ],
    },
    Table {
        accesses: &[(LH, false), (LHU, false), (SH, true)],
        rows: &[
            (LUI_4096, LESS_2, Outcome::Traps(Trap::Outside { address: 4094 })),
            (LUI_4096, LESS_1, Outcome::Traps(Trap::Misaligned { address: 4095 })),
            (LUI_4096, SAME, Outcome::Asks(0)),
            (LUI_4096, MORE_1, Outcome::Traps(Trap::Misaligned { address: 4097 })),
            (LUI_12288, LESS_2, Outcome::Asks(511)),
            (LUI_12288, LESS_1, Outcome::Traps(Trap::Misaligned { address: 12287 })),
            (LUI_12288, SAME, Outcome::Traps(Trap::Outside { address: 12288 })),
        ],
    },
    Table {
        accesses: &[(LW, false), (LR, false), (SW, true), (AMOADD, true)],
        rows: &[
            (LUI_4096, LESS_4, Outcome::Traps(Trap::Outside { address: 4092 })),
            (LUI_4096, LESS_1, Outcome::Traps(Trap::Misaligned { address: 4095 })),
            (LUI_4096, SAME, Outcome::Asks(0)),
            (LUI_4096, MORE_2, Outcome::Traps(Trap::Misaligned { address: 4098 })),
            (LUI_12288, LESS_4, Outcome::Asks(511)),
            (LUI_12288, LESS_2, Outcome::Traps(Trap::Misaligned { address: 12286 })),
            (LUI_12288, SAME, Outcome::Traps(Trap::Outside { address: 12288 })),
        ],
    },
    Table {
        accesses: &[(SC_X6, true)],
        rows: &[
            (LUI_4096, LESS_4, Outcome::Traps(Trap::Outside { address: 4092 })),
            (LUI_4096, LESS_1, Outcome::Traps(Trap::Misaligned { address: 4095 })),
            (LUI_4096, SAME, Outcome::Fails),
            (LUI_12288, LESS_4, Outcome::Fails),
            (LUI_12288, LESS_2, Outcome::Traps(Trap::Misaligned { address: 12286 })),
            (LUI_12288, SAME, Outcome::Traps(Trap::Outside { address: 12288 })),
        ],
    },
];

/// What an access in cycle 2 asks for.
fn asked(line: u32, owns: bool) -> Ask {
    let id = Id {
        cycle: 2,
        core: 0,
        number: 0,
    };
    if owns {
        Ask::ReadOwn { id, line }
    } else {
        Ask::Read { id, line }
    }
}

/// Whether this came of an access in cycle 2.
fn came_of_it(core: &TimedCore, last: Option<Ask>, owns: bool, outcome: Outcome) -> bool {
    match outcome {
        Outcome::Traps(trap) => core.end() == CoreEnd::Trapped { at: 2, trap } && last.is_none(),
        Outcome::Asks(line) => core.end() == CoreEnd::Running && last == Some(asked(line, owns)),
        Outcome::Fails => core.reg(6) == 1 && core.counts().retired == 3 && last.is_none(),
    }
}

/// Whether an access at an address does what it is to do there.
fn is_right(rt: &impl Abort, alloc: Global, access: Access, row: &Row) -> bool {
    let (word, owns) = access;
    let (base, more, outcome) = *row;
    let code = code_of(rt, alloc, &[base, more, word]);
    let mut core = core_of(rt, alloc, ONE_LINE, &[]);
    let mut asks = AskList::new(alloc);
    go_on(rt, &mut core, &code, &mut asks, 0, 3);
    came_of_it(&core, asks.as_slice().last().copied(), owns, outcome)
}

#[test]
fn accesses_at_the_ends_of_memory(rt: HostRuntime) {
    for table in &TABLES {
        for access in table.accesses {
            for row in table.rows {
                let right = is_right(&rt, rt.alloc(), *access, row);
                assert!(rt; right, "{:x} after {:x} and {:x}", access.0, row.0, row.1);
            }
        }
    }
}
