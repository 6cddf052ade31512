//! What a user reads of each fault.
use simulate_call::{Answer, fault_text};
use slack_base::{AsmFault, AsmKind, ConfigFault, ImageFault, WordFault};
use std::test::Fail;

/// Answers, and what a user reads of each: nothing of a run that came to its end.
#[rattlefmt::skip]
const TEXTS: [(Answer, &'static [u8]); 42] = [
    (Answer::BadWords(WordFault::Empty), b"words: empty"),
    (Answer::BadWords(WordFault::Command), b"words: command"),
    (Answer::BadWords(WordFault::Form { place: 1 }), b"words: form at 1"),
    (Answer::BadWords(WordFault::Option { place: 3 }), b"words: option at 3"),
    (Answer::BadWords(WordFault::Twice { place: 5 }), b"words: twice at 5"),
    (Answer::BadWords(WordFault::Number { place: 10 }), b"words: number at 10"),
    (Answer::BadWords(WordFault::Value { place: 2 }), b"words: value at 2"),
    (Answer::BadWords(WordFault::Steps { place: 2, at: 3 }), b"words: steps at 2 byte 3"),
    (Answer::BadWords(WordFault::Bound(ConfigFault::Cores { given: 17 })), b"words: bound cores given 17"),
    (Answer::BadWords(WordFault::Bound(ConfigFault::Base { given: 1 })), b"words: bound base given 1"),
    (Answer::BadWords(WordFault::Bound(ConfigFault::Memory { given: 4294967295 })), b"words: bound memory given 4294967295"),
    (Answer::BadWords(WordFault::Bound(ConfigFault::Sets { given: 3 })), b"words: bound sets given 3"),
    (Answer::BadWords(WordFault::Bound(ConfigFault::Ways { given: 0 })), b"words: bound ways given 0"),
    (Answer::BadWords(WordFault::Bound(ConfigFault::Buses { given: 5 })), b"words: bound buses given 5"),
    (Answer::BadWords(WordFault::Bound(ConfigFault::Snoop { given: 64 })), b"words: bound snoop given 64"),
    (Answer::BadWords(WordFault::Bound(ConfigFault::MemoryDelay { given: 2 })), b"words: bound memory_delay given 2"),
    (Answer::BadWords(WordFault::Bound(ConfigFault::Transfer { given: 65 })), b"words: bound transfer given 65"),
    (Answer::BadWords(WordFault::Bound(ConfigFault::Occupancy { given: 66 })), b"words: bound occupancy given 66"),
    (Answer::BadWords(WordFault::Bound(ConfigFault::Slack { given: 1000001 })), b"words: bound slack given 1000001"),
    (Answer::BadWords(WordFault::Bound(ConfigFault::Interval { given: 1000002 })), b"words: bound interval given 1000002"),
    (Answer::BadWords(WordFault::Bound(ConfigFault::Limit { given: 100000001 })), b"words: bound limit given 100000001"),
    (Answer::BadWords(WordFault::Bound(ConfigFault::Quantum { given: 1000003 })), b"words: bound quantum given 1000003"),
    (Answer::BadImage(ImageFault::Short { have: 0, need: 4 }), b"image: short 0 of 4"),
    (Answer::BadImage(ImageFault::Magic), b"image: magic"),
    (Answer::BadImage(ImageFault::Machine), b"image: machine"),
    (Answer::BadImage(ImageFault::Segment { index: 64 }), b"image: segment 64"),
    (Answer::BadImage(ImageFault::Overlap { first: 0, second: 1 }), b"image: overlap 0 1"),
    (Answer::BadImage(ImageFault::Outside { index: 2 }), b"image: outside 2"),
    (Answer::BadImage(ImageFault::Entry { entry: 65538 }), b"image: entry 65538"),
    (Answer::BadText(AsmFault { line: 12, kind: AsmKind::Byte }), b"text: line 12 byte"),
    (Answer::BadText(AsmFault { line: 12, kind: AsmKind::Twice }), b"text: line 12 twice"),
    (Answer::BadText(AsmFault { line: 12, kind: AsmKind::Mnemonic }), b"text: line 12 mnemonic"),
    (Answer::BadText(AsmFault { line: 12, kind: AsmKind::Operand }), b"text: line 12 operand"),
    (Answer::BadText(AsmFault { line: 12, kind: AsmKind::Label }), b"text: line 12 label"),
    (Answer::BadText(AsmFault { line: 12, kind: AsmKind::Range }), b"text: line 12 range"),
    (Answer::BadText(AsmFault { line: 12, kind: AsmKind::TooLong }), b"text: line 12 toolong"),
    (Answer::TooLong { taken: 16781313 }, b"input too long"),
    (Answer::ReadFault, b"read fault"),
    (Answer::WriteFault, b"write fault"),
    (Answer::OutOfMemory, b"out of memory"),
    (Answer::Limit { cycle: 1, running: 1 }, b""),
    (Answer::Done { all_zero: false }, b""),
];

#[test]
fn texts_of_faults(rt: HostRuntime) -> Result<(), Fail> {
    for (answer, text) in &TEXTS {
        assert_eq!(rt; fault_text(rt.alloc(), answer)?.as_slice(), *text);
    }
    Ok(())
}
