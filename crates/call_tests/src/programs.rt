//! Programs, with the reports that the rules give.
use crate::calling::{Case, ENDS, NOT_ALL_ZERO, Text, check_programs};
use crate::samples::{EXIT_REPORT, STORES, STORES_REPORT};
use simulate_call::Answer;
use std::test::Fail;

/// Calls whose inputs are assembler texts, of which the images are run.
const PROGRAMS: [Case; 24] = [
    Case {
        name: "an exit",
        words: &["run"],
        input: b"addi x17, x0, 93\naddi x10, x0, 0\necall",
        text: Text::Whole(&[EXIT_REPORT]),
        ..ENDS
    },
    // Both cores put their letters in cycle 2: the order of cores decides.
    Case {
        name: "cores put letters in one cycle",
        words: &["run", "--cores", "2"],
        input: b"addi x17, x0, 1\naddi x10, x10, 65\necall\naddi x17, x0, 93\naddi x10, x0, 0\necall",
        text: Text::Whole(&[
            b"cores 2\ncycles 9\ncore 0 exit 0 at 8 retired 6 accesses 0 misses 0 retries 0 waits 0 snoops 0 writebacks 0\ncore 1 exit 0 at 8 retired 6 accesses 0 misses 0 retries 0 waits 0 snoops 0 writebacks 0\nbus 0 asks 0 retries 0 free 0\nconsole 2\nAB\n",
        ]),
        ..ENDS
    },
    Case {
        name: "sixteen cores put letters in one cycle",
        words: &["run", "--cores", "16"],
        input: b"addi x17, x0, 1\naddi x10, x10, 65\necall\naddi x17, x0, 93\naddi x10, x0, 0\necall",
        text: Text::Whole(&[
            b"cores 16\ncycles 9\ncore 0 exit 0 at 8 retired 6 accesses 0 misses 0 retries 0 waits 0 snoops 0 writebacks 0\ncore 1 exit 0 at 8 retired 6 accesses 0 misses 0 retries 0 waits 0 snoops 0 writebacks 0\ncore 2 exit 0 at 8 retired 6 accesses 0 misses 0 retries 0 waits 0 snoops 0 writebacks 0\ncore 3 exit 0 at 8 retired 6 accesses 0 misses 0 retries 0 waits 0 snoops 0 writebacks 0\ncore 4 exit 0 at 8 retired 6 accesses 0 misses 0 retries 0 waits 0 snoops 0 writebacks 0\ncore 5 exit 0 at 8 retired 6 accesses 0 misses 0 retries 0 waits 0 snoops 0 writebacks 0\ncore 6 exit 0 at 8 retired 6 accesses 0 misses 0 retries 0 waits 0 snoops 0 writebacks 0\ncore 7 exit 0 at 8 retired 6 accesses 0 misses 0 retries 0 waits 0 snoops 0 writebacks 0\ncore 8 exit 0 at 8 retired 6 accesses 0 misses 0 retries 0 waits 0 snoops 0 writebacks 0\ncore 9 exit 0 at 8 retired 6 accesses 0 misses 0 retries 0 waits 0 snoops 0 writebacks 0\ncore 10 exit 0 at 8 retired 6 accesses 0 misses 0 retries 0 waits 0 snoops 0 writebacks 0\ncore 11 exit 0 at 8 retired 6 accesses 0 misses 0 retries 0 waits 0 snoops 0 writebacks 0\ncore 12 exit 0 at 8 retired 6 accesses 0 misses 0 retries 0 waits 0 snoops 0 writebacks 0\ncore 13 exit 0 at 8 retired 6 accesses 0 misses 0 retries 0 waits 0 snoops 0 writebacks 0\ncore 14 exit 0 at 8 retired 6 accesses 0 misses 0 retries 0 waits 0 snoops 0 writebacks 0\ncore 15 exit 0 at 8 retired 6 accesses 0 misses 0 retries 0 waits 0 snoops 0 writebacks 0\nbus 0 asks 0 retries 0 free 0\nconsole 16\nABCDEFGHIJKLMNOP\n",
        ]),
        ..ENDS
    },
    // A branch that is taken to half a word is a trap.
    Case {
        name: "a branch to half a word",
        words: &["run"],
        input: b"beq x0, x0, 2",
        answer: NOT_ALL_ZERO,
        status: 1,
        text: Text::Whole(&[
            b"cores 1\ncycles 1\ncore 0 trap target 00000002 at 0 retired 0 accesses 0 misses 0 retries 0 waits 0 snoops 0 writebacks 0\nbus 0 asks 0 retries 0 free 0\nconsole 0\n\n",
        ]),
        ..ENDS
    },
    Case {
        name: "a branch that is not taken goes nowhere",
        words: &["run"],
        input: b"bne x0, x0, 2\naddi x17, x0, 93\naddi x10, x0, 0\necall",
        text: Text::Whole(&[
            b"cores 1\ncycles 4\ncore 0 exit 0 at 3 retired 4 accesses 0 misses 0 retries 0 waits 0 snoops 0 writebacks 0\nbus 0 asks 0 retries 0 free 0\nconsole 0\n\n",
        ]),
        ..ENDS
    },
    // LR with a second operand is no instruction.
    Case {
        name: "a load that reserves has no second operand",
        words: &["run"],
        input: b".word 0x101422AF",
        answer: NOT_ALL_ZERO,
        status: 1,
        text: Text::Whole(&[
            b"cores 1\ncycles 1\ncore 0 trap illegal 101422af at 0 retired 0 accesses 0 misses 0 retries 0 waits 0 snoops 0 writebacks 0\nbus 0 asks 0 retries 0 free 0\nconsole 0\n\n",
        ]),
        ..ENDS
    },
    Case {
        name: "a word of zeros",
        words: &["run"],
        input: b".word 0",
        answer: NOT_ALL_ZERO,
        status: 1,
        text: Text::Whole(&[
            b"cores 1\ncycles 1\ncore 0 trap illegal 00000000 at 0 retired 0 accesses 0 misses 0 retries 0 waits 0 snoops 0 writebacks 0\nbus 0 asks 0 retries 0 free 0\nconsole 0\n\n",
        ]),
        ..ENDS
    },
    Case {
        name: "a product takes three cycles",
        words: &["run"],
        input: b"mul x5, x5, x5\naddi x17, x0, 93\naddi x10, x0, 0\necall",
        text: Text::Whole(&[
            b"cores 1\ncycles 6\ncore 0 exit 0 at 5 retired 4 accesses 0 misses 0 retries 0 waits 0 snoops 0 writebacks 0\nbus 0 asks 0 retries 0 free 0\nconsole 0\n\n",
        ]),
        ..ENDS
    },
    Case {
        name: "a break after a fence",
        words: &["run"],
        input: b"fence\nebreak",
        answer: NOT_ALL_ZERO,
        status: 1,
        text: Text::Whole(&[
            b"cores 1\ncycles 2\ncore 0 trap break 00000004 at 1 retired 1 accesses 0 misses 0 retries 0 waits 0 snoops 0 writebacks 0\nbus 0 asks 0 retries 0 free 0\nconsole 0\n\n",
        ]),
        ..ENDS
    },
    Case {
        name: "a service that there is not",
        words: &["run"],
        input: b"addi x17, x0, 2\necall",
        answer: NOT_ALL_ZERO,
        status: 1,
        text: Text::Whole(&[
            b"cores 1\ncycles 2\ncore 0 trap call 00000002 at 1 retired 1 accesses 0 misses 0 retries 0 waits 0 snoops 0 writebacks 0\nbus 0 asks 0 retries 0 free 0\nconsole 0\n\n",
        ]),
        ..ENDS
    },
    // A jump below memory.
    Case {
        name: "a jump below memory",
        words: &["run"],
        input: b"jal x0, -4",
        answer: NOT_ALL_ZERO,
        status: 1,
        text: Text::Whole(&[
            b"cores 1\ncycles 2\ncore 0 trap fetch fffffffc at 1 retired 1 accesses 0 misses 0 retries 0 waits 0 snoops 0 writebacks 0\nbus 0 asks 0 retries 0 free 0\nconsole 0\n\n",
        ]),
        ..ENDS
    },
    Case {
        name: "an exit with 5",
        words: &["run"],
        input: b"addi x17, x0, 93\naddi x10, x0, 5\necall",
        answer: NOT_ALL_ZERO,
        status: 1,
        text: Text::Whole(&[
            b"cores 1\ncycles 3\ncore 0 exit 5 at 2 retired 3 accesses 0 misses 0 retries 0 waits 0 snoops 0 writebacks 0\nbus 0 asks 0 retries 0 free 0\nconsole 0\n\n",
        ]),
        ..ENDS
    },
    // A remainder takes 16 cycles, and has the sign of what is divided: -1.
    Case {
        name: "a remainder with signs",
        words: &["run"],
        input: b"addi x5, x0, -7\naddi x6, x0, 2\nrem x10, x5, x6\naddi x17, x0, 93\necall",
        answer: NOT_ALL_ZERO,
        status: 1,
        text: Text::Whole(&[
            b"cores 1\ncycles 20\ncore 0 exit 4294967295 at 19 retired 5 accesses 0 misses 0 retries 0 waits 0 snoops 0 writebacks 0\nbus 0 asks 0 retries 0 free 0\nconsole 0\n\n",
        ]),
        ..ENDS
    },
    // Without signs it is that of 4294967289 by 2.
    Case {
        name: "a remainder without signs",
        words: &["run"],
        input: b"addi x5, x0, -7\naddi x6, x0, 2\nremu x10, x5, x6\naddi x17, x0, 93\necall",
        answer: NOT_ALL_ZERO,
        status: 1,
        text: Text::Whole(&[
            b"cores 1\ncycles 20\ncore 0 exit 1 at 19 retired 5 accesses 0 misses 0 retries 0 waits 0 snoops 0 writebacks 0\nbus 0 asks 0 retries 0 free 0\nconsole 0\n\n",
        ]),
        ..ENDS
    },
    // An immediate of -1 is compared as the greatest number without a sign.
    Case {
        name: "less than the greatest number",
        words: &["run"],
        input: b"addi x5, x0, 5\nsltiu x10, x5, -1\naddi x17, x0, 93\necall",
        answer: NOT_ALL_ZERO,
        status: 1,
        text: Text::Whole(&[
            b"cores 1\ncycles 4\ncore 0 exit 1 at 3 retired 4 accesses 0 misses 0 retries 0 waits 0 snoops 0 writebacks 0\nbus 0 asks 0 retries 0 free 0\nconsole 0\n\n",
        ]),
        ..ENDS
    },
    // That number is not less than itself.
    Case {
        name: "the greatest number itself",
        words: &["run"],
        input: b"addi x5, x0, -1\nsltiu x10, x5, -1\naddi x17, x0, 93\necall",
        text: Text::Whole(&[
            b"cores 1\ncycles 4\ncore 0 exit 0 at 3 retired 4 accesses 0 misses 0 retries 0 waits 0 snoops 0 writebacks 0\nbus 0 asks 0 retries 0 free 0\nconsole 0\n\n",
        ]),
        ..ENDS
    },
    // A jump to itself goes on for ever.
    Case {
        name: "a jump to itself",
        words: &["run"],
        input: b"jal x0, 0",
        answer: Answer::Limit {
            cycle: 1000000,
            running: 1,
        },
        status: 4,
        text: Text::Whole(&[
            b"cores 1\ncycles 1000000\ncore 0 running at 1000000 retired 1000000 accesses 0 misses 0 retries 0 waits 0 snoops 0 writebacks 0\nbus 0 asks 0 retries 0 free 0\nconsole 0\n\n",
        ]),
        ..ENDS
    },
    Case {
        name: "two cores store to one line",
        words: &["run", "--cores", "2"],
        input: STORES,
        text: Text::Whole(&[STORES_REPORT]),
        ..ENDS
    },
    // The limit is reached while core 1 waits.
    Case {
        name: "a limit while a core waits",
        words: &["run", "--cores", "2", "--interval", "10", "--limit", "16"],
        input: STORES,
        answer: Answer::Limit {
            cycle: 16,
            running: 1,
        },
        status: 4,
        text: Text::Whole(&[
            b"cores 2\ncycles 16\ncore 0 exit 0 at 14 retired 5 accesses 1 misses 1 retries 0 waits 9 snoops 1 writebacks 0\ncore 1 running at 16 retired 1 accesses 0 misses 6 retries 5 waits 9 snoops 0 writebacks 0\nbus 0 asks 8 retries 5 free 17\nconsole 0\n\n",
        ]),
        ..ENDS
    },
    // In its tick at 23 core 0 takes the reply of its second line before the snoop of equal due, sends the first line
    // back, and has no words left for the flush.
    Case {
        name: "a reply before a snoop of one due",
        words: &["run", "--cores", "2", "--sets", "1", "--ways", "1"],
        input: b"lui x8, 1\nbne x10, x0, one\nsw x8, 0(x8)\nlw x5, 16(x8)\nj end\none: div x5, x5, x5\nmul x5, x5, x5\nlw x6, 0(x8)\nend: addi x17, x0, 93\naddi x10, x0, 0\necall",
        text: Text::Whole(&[
            b"cores 2\ncycles 32\ncore 0 exit 0 at 27 retired 8 accesses 2 misses 2 retries 0 waits 18 snoops 1 writebacks 1\ncore 1 exit 0 at 31 retired 8 accesses 1 misses 1 retries 0 waits 6 snoops 0 writebacks 0\nbus 0 asks 5 retries 0 free 27\nconsole 0\n\n",
        ]),
        ..ENDS
    },
    // Both SC succeed, and each core exits with what its SC gave.
    Case {
        name: "both conditional stores succeed",
        words: &["run", "--cores", "2"],
        input: b"lui x8, 1\nlr.w x5, (x8)\nsc.w x6, x8, (x8)\naddi x17, x0, 93\naddi x10, x6, 0\necall",
        text: Text::Whole(&[
            b"cores 2\ncycles 33\ncore 0 exit 0 at 15 retired 6 accesses 2 misses 1 retries 0 waits 9 snoops 2 writebacks 0\ncore 1 exit 0 at 32 retired 6 accesses 2 misses 7 retries 5 waits 20 snoops 0 writebacks 0\nbus 0 asks 9 retries 5 free 21\nconsole 0\n\n",
        ]),
        ..ENDS
    },
    // Core 0's store takes the line between core 1's LR and SC.
    Case {
        name: "a conditional store after a store of another core",
        words: &["run", "--cores", "2"],
        input: b"lui x8, 1\nbne x10, x0, one\ndiv x5, x5, x5\nsw x8, 0(x8)\nj end\none: lr.w x5, (x8)\ndiv x7, x7, x7\nsc.w x6, x8, (x8)\nend: addi x17, x0, 93\naddi x10, x6, 0\necall",
        answer: NOT_ALL_ZERO,
        status: 1,
        text: Text::Whole(&[
            b"cores 2\ncycles 33\ncore 0 exit 0 at 27 retired 8 accesses 1 misses 1 retries 0 waits 4 snoops 0 writebacks 0\ncore 1 exit 1 at 32 retired 8 accesses 1 misses 1 retries 0 waits 9 snoops 1 writebacks 0\nbus 0 asks 3 retries 0 free 22\nconsole 0\n\n",
        ]),
        ..ENDS
    },
    // Loads of two lines in turn, each of which misses.
    Case {
        name: "two lines in turn",
        words: &["run", "--sets", "1", "--ways", "1"],
        input: b"lui x8, 1\nlw x5, 0(x8)\nlw x5, 16(x8)\nlw x5, 0(x8)\naddi x17, x0, 93\naddi x10, x0, 0\necall",
        text: Text::Whole(&[
            b"cores 1\ncycles 37\ncore 0 exit 0 at 36 retired 7 accesses 3 misses 3 retries 0 waits 27 snoops 0 writebacks 0\nbus 0 asks 3 retries 0 free 25\nconsole 0\n\n",
        ]),
        ..ENDS
    },
    // A load past memory.
    Case {
        name: "a load past memory",
        words: &["run", "--memory", "4096"],
        input: b"lui x8, 1\nlw x5, 0(x8)\naddi x17, x0, 93\naddi x10, x0, 0\necall",
        answer: NOT_ALL_ZERO,
        status: 1,
        text: Text::Whole(&[
            b"cores 1\ncycles 2\ncore 0 trap outside 00001000 at 1 retired 1 accesses 0 misses 0 retries 0 waits 0 snoops 0 writebacks 0\nbus 0 asks 0 retries 0 free 0\nconsole 0\n\n",
        ]),
        ..ENDS
    },
];

#[test]
fn reports_of_programs(rt: HostRuntime) -> Result<(), Fail> {
    check_programs(&rt, &PROGRAMS)
}
