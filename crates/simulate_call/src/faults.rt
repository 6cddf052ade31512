//! What a user reads of a fault.

use crate::answers::Answer;
use plain_text::Text;
use slack_base::{AsmFault, AsmKind, ByteList, ConfigFault, ImageFault, OutOfMemory, WordFault};
use std::alloc::Global;

/// The text of an answer's fault: empty for a run that came to its end.
pub fn fault_text(alloc: Global, answer: &Answer) -> Result<ByteList, OutOfMemory> {
    let mut text = Text::new(alloc);
    match *answer {
        Answer::BadWords(fault) => push_word_fault(&mut text, fault)?,
        Answer::ReadFault => text.push_str("read fault")?,
        Answer::TooLong { .. } => text.push_str("input too long")?,
        Answer::BadImage(fault) => push_image_fault(&mut text, fault)?,
        Answer::BadText(fault) => push_asm_fault(&mut text, fault)?,
        Answer::WriteFault => text.push_str("write fault")?,
        Answer::OutOfMemory => text.push_str("out of memory")?,
        Answer::Limit { .. } | Answer::Done { .. } => {}
    }
    Ok(text.into_list())
}

fn push_word_fault(text: &mut Text, fault: WordFault) -> Result<(), OutOfMemory> {
    match fault {
        WordFault::Empty => text.push_str("words: empty"),
        WordFault::Command => text.push_str("words: command"),
        WordFault::Form { place } => text.push_field("words: form at ", u64::from(place)),
        WordFault::Option { place } => text.push_field("words: option at ", u64::from(place)),
        WordFault::Twice { place } => text.push_field("words: twice at ", u64::from(place)),
        WordFault::Number { place } => text.push_field("words: number at ", u64::from(place)),
        WordFault::Value { place } => text.push_field("words: value at ", u64::from(place)),
        WordFault::Steps { place, at } => {
            text.push_field("words: steps at ", u64::from(place))?;
            text.push_field(" byte ", u64::from(at))
        }
        WordFault::Bound(bound) => {
            let (name, given) = bound_parts(bound);
            text.push_str("words: bound ")?;
            text.push_str(name)?;
            text.push_field(" given ", u64::from(given))
        }
    }
}

fn bound_parts(fault: ConfigFault) -> (&'static str, u32) {
    match fault {
        ConfigFault::Cores { given } => ("cores", given),
        ConfigFault::Base { given } => ("base", given),
        ConfigFault::Memory { given } => ("memory", given),
        ConfigFault::Sets { given } => ("sets", given),
        ConfigFault::Ways { given } => ("ways", given),
        ConfigFault::Buses { given } => ("buses", given),
        ConfigFault::Snoop { given } => ("snoop", given),
        ConfigFault::MemoryDelay { given } => ("memory_delay", given),
        ConfigFault::Transfer { given } => ("transfer", given),
        ConfigFault::Occupancy { given } => ("occupancy", given),
        ConfigFault::Slack { given } => ("slack", given),
        ConfigFault::Interval { given } => ("interval", given),
        ConfigFault::Limit { given } => ("limit", given),
        ConfigFault::Quantum { given } => ("quantum", given),
    }
}

fn push_image_fault(text: &mut Text, fault: ImageFault) -> Result<(), OutOfMemory> {
    match fault {
        ImageFault::Short { have, need } => {
            text.push_field("image: short ", have)?;
            text.push_field(" of ", need)
        }
        ImageFault::Magic => text.push_str("image: magic"),
        ImageFault::Machine => text.push_str("image: machine"),
        ImageFault::Segment { index } => text.push_field("image: segment ", u64::from(index)),
        ImageFault::Overlap { first, second } => {
            text.push_field("image: overlap ", u64::from(first))?;
            text.push_field(" ", u64::from(second))
        }
        ImageFault::Outside { index } => text.push_field("image: outside ", u64::from(index)),
        ImageFault::Entry { entry } => text.push_field("image: entry ", u64::from(entry)),
    }
}

fn push_asm_fault(text: &mut Text, fault: AsmFault) -> Result<(), OutOfMemory> {
    text.push_field("text: line ", u64::from(fault.line))?;
    text.push_str(match fault.kind {
        AsmKind::Byte => " byte",
        AsmKind::Twice => " twice",
        AsmKind::Mnemonic => " mnemonic",
        AsmKind::Operand => " operand",
        AsmKind::Label => " label",
        AsmKind::Range => " range",
        AsmKind::TooLong => " toolong",
    })
}
