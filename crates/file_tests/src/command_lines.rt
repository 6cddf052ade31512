//! Words of command lines.
use sim_words::{WordError, read_words, word_fault};
use slack_base::{Arg, OutOfMemory, WordFault};
use std::alloc::Global;

/// The words of a line, divided by single spaces.
pub fn words_of(alloc: Global, line: &[u8]) -> Result<Vec<Arg>, OutOfMemory> {
    let mut words = Vec::new(alloc);
    for word in line.split(|byte| *byte == b' ') {
        words.push(Arg::from_bytes(Vec::from_slice(alloc, word)?))?;
    }
    Ok(words)
}

/// Whether words have this first fault, or none: with an order of them, and without.
pub fn have_fault(alloc: Global, words: &[Arg], fault: Option<WordFault>) -> bool {
    word_fault(words) == fault && read_words(alloc, words).err() == fault.map(WordError::Fault)
}
