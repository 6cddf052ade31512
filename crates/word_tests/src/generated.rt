//! Values of PCG's reference code, and programs and steps worked by hand from them.
use slack_base::{Config, GENERATED_MEMORY, Image, RawConfig, Step};
use std::alloc::Global;
use workload_gen::{program, steps};

/// A seed, and the first words that are drawn with it.
type Drawn = (u32, [u32; 4]);

/// PCG's published outputs for the state 42 and the stream 54, and those of its reference code for other states.
const DRAWN: [Drawn; 4] = [
    (42, [0xa15c02b7, 0x7b47f409, 0xba1d3330, 0x83d2f293]),
    (0, [0x47c28b93, 0xb98f6a27, 0x7d3dcb1e, 0xf0761116]),
    (1, [0x9b6bdda9, 0x0c31fc48, 0xce97f8ef, 0x822c03d4]),
    (7, [0xa454b9c3, 0x6c327fbc, 0x198bc4fd, 0xb7666de2]),
];

/// The step that a word chooses of so many cores that none of its upper thirty bits is lost.
fn step_of(word: u32) -> Step {
    let core = word / 4;
    match word % 3 {
        0 => Step::Tick { core },
        1 => Step::Serve { core },
        _ => Step::Take { core },
    }
}

/// Whether the steps of a seed are those of its words.
fn has_steps(alloc: Global, row: &Drawn) -> bool {
    let (seed, words) = row;
    match steps(alloc, *seed, 0x4000_0000, 4) {
        Ok(drawn) => {
            drawn.len() == 4
                && drawn
                    .as_slice()
                    .iter()
                    .zip(words)
                    .all(|(step, word)| *step == step_of(*word))
        }
        Err(_) => false,
    }
}

/// The bits that tell an instruction, and their values for each choice of a word's lowest three bits.
const KINDS: [(u32, u32); 8] = [
    // add, xor, addi and mul
    (0xfe00_707f, 0x0000_0033),
    (0xfe00_707f, 0x0000_4033),
    (0x0000_707f, 0x0000_0013),
    (0xfe00_707f, 0x0200_0033),
    // lw, sw, amoadd.w and divu
    (0x0000_707f, 0x0000_2003),
    (0x0000_707f, 0x0000_2023),
    (0xfe00_707f, 0x0000_202f),
    (0xfe00_707f, 0x0200_5033),
];

/// Whether a word chooses the kind of this instruction.
fn is_kind(word: u32, instr: u32) -> bool {
    let (mask, kind) = KINDS[(word % 8) as usize];
    instr & mask == kind
}

/// The program of a seed for a memory of so many bytes from a base on.
fn program_of(alloc: Global, seed: u32, base: u32, memory: u32) -> Option<Image> {
    let numbers = RawConfig {
        base,
        memory,
        ..RawConfig::DEFAULT
    };
    let config = Config::checked(numbers).ok()?;
    if config.memory < GENERATED_MEMORY {
        return None;
    }
    program(alloc, seed, &config).ok()
}

/// The word at a place, from 0.
fn word_at(bytes: &[u8], place: usize) -> Option<u32> {
    match bytes.chunks_exact(4).nth(place)? {
        [a, b, c, d] => Some(u32::from_le_bytes([*a, *b, *c, *d])),
        _ => None,
    }
}

/// Whether the instructions that the words of a seed choose are of the kinds that they choose. They stand behind two
/// others.
fn has_kinds(alloc: Global, row: &Drawn) -> bool {
    let (seed, words) = row;
    let Some(image) = program_of(alloc, *seed, 0, 1048576) else {
        return false;
    };
    match image.segments.as_slice() {
        [only] => {
            let instrs = only.bytes.as_slice().chunks_exact(4).skip(2);
            words.iter().zip(instrs).all(|(word, instr)| match instr {
                [a, b, c, d] => is_kind(*word, u32::from_le_bytes([*a, *b, *c, *d])),
                _ => false,
            })
        }
        _ => false,
    }
}

/// A word is told by its upper thirty bits, its rest by three, and its lowest three bits.
#[test]
fn drawn_words(rt: HostRuntime) {
    for row in &DRAWN {
        assert!(rt; has_steps(rt.alloc(), row), "the seed {}", row.0);
        assert!(rt; has_kinds(rt.alloc(), row), "the seed {}", row.0);
    }
}

/// The places of a program's words, and what stands there with the seed 7 at the base 0.
const LISTED: [(usize, u32); 17] = [
    (0, 0x00010437), // lui x8, 16
    (1, 0x08040493), // addi x9, x8, 128
    (2, 0x03cf82b3), // a454b9c3: mul x5, x31, x28
    (3, 0x09c42f83), // 6c327fbc: lw x31, 156(x8)
    (4, 0x0e742823), // 198bc4fd: sw x7, 240(x8)
    (5, 0x026f8e13), // b7666de2: addi x28, x31, 38
    (6, 0x01d30933), // b92c3a58: add x18, x6, x29
    (7, 0x03f95eb3), // 7d8e9eef: divu x29, x18, x31
    (8, 0x0074a32f), // d090758e: amoadd.w x6, x7, (x9)
    (17, 0x01f943b3), // e3f7ded1: xor x7, x18, x31
    (501, 0x026f52b3), // 83470387: divu x5, x30, x6
    (502, 0x02542e23), // 63f0f1dd: sw x5, 60(x8)
    (1000, 0x03f90eb3), // 3c3b8eeb: mul x29, x18, x31
    (1001, 0x03df03b3), // 88048b93: mul x7, x30, x29
    (1002, 0x05d00893), // addi x17, x0, 93
    (1003, 0x00000513), // addi x10, x0, 0
    (1004, 0x00000073), // ecall
];

/// A seed, where memory begins and its size, and words of the program by their places.
type Row = (u32, u32, u32, &'static [(usize, u32)]);

const PROGRAMS: [Row; 2] = [
    (7, 0, 1048576, &LISTED),
    // at the end of the address space: lui x8, 1048560
    (7, 0xfffe0000, 131072, &[(0, 0xffff0437)]),
];

/// Whether a row's program is one piece of 1005 words from its entry on, the base, and has the row's words.
fn is_program(alloc: Global, row: &Row) -> bool {
    let (seed, base, memory, words) = *row;
    let Some(image) = program_of(alloc, seed, base, memory) else {
        return false;
    };
    match image.segments.as_slice() {
        [only] => {
            let bytes = only.bytes.as_slice();
            image.entry == base
                && only.address == base
                && only.size == 4020
                && bytes.len() == 4020
                && words
                    .iter()
                    .all(|(place, word)| word_at(bytes, *place) == Some(*word))
        }
        _ => false,
    }
}

#[test]
fn words_of_programs(rt: HostRuntime) {
    for row in &PROGRAMS {
        assert!(rt; is_program(rt.alloc(), row), "at {}", row.1);
    }
}

/// How many steps, and which, by the words that are drawn with the seed 7: a454b9c3, 6c327fbc, 198bc4fd, b7666de2, b92c3a58,
/// 7d8e9eef.
const STEPS: [(u32, &'static [Step]); 2] = [
    (0, &[]),
    (
        6,
        &[
            Step::Serve { core: 0 },
            Step::Take { core: 1 },
            Step::Serve { core: 1 },
            Step::Take { core: 0 },
            Step::Tick { core: 0 },
            Step::Serve { core: 1 },
        ],
    ),
];

/// Whether so many steps of two cores with the seed 7 are these.
fn are_steps(alloc: Global, count: u32, wanted: &[Step]) -> bool {
    match steps(alloc, 7, 2, count) {
        Ok(drawn) => drawn.as_slice() == wanted,
        Err(_) => false,
    }
}

#[test]
fn steps_of_two_cores(rt: HostRuntime) {
    for (count, wanted) in &STEPS {
        assert!(rt; are_steps(rt.alloc(), *count, wanted), "{count} steps");
    }
}
