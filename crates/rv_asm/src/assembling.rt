//! Assembling a text.
ghost use Rattle.std.specs.Prelude.{◌+◌, ◌==◌, not, if◌then◌else◌, IsSome, ◌≡◌, ◌^◌, ◌<◌, ◌≤◌, ◌*◌, Err, IfOk, IsErrOf, length, vec_len};
ghost use Rattle.slack_base.specs.declared.faults.AsmFault.{AsmFault};
ghost use Rattle.rv_asm.specs.declared.assembling.AsmError.TheVariants as errors;
ghost use Rattle.rv_asm.specs.LabelTables.{places_in};
ghost use Rattle.rv_asm.specs.Programs.{IsAssembly, GivesBytes, most_words, codes_from, places_of, program_of, PushesWord};
ghost use Rattle.rv_asm.specs.Labels.{no_places};
ghost use Rattle.std.specs.Str.Lines.{lines};

use crate::labels::Labels;
use crate::lines::{define_line, first_line, line_word};
use slack_base::{AsmFault, AsmKind, Image, OutOfMemory};
use std::alloc::{AllocError, AllocFailed, Global};
use thiserror::Error;

/// How many words a program has at most.
const MOST_WORDS: u32 = 262_144;

/// Why a text was not assembled.
#[derive(Clone, Copy, Debug, PartialEq, Eq, Error)]
pub enum AsmError {
    #[error("the text has a fault")]
    Fault(AsmFault),
    #[error("out of memory")]
    OutOfMemory,
}

impl From<OutOfMemory> for AsmError {
    ghost from_gives = { λ _ e. e ≡ errors.OutOfMemory };

    fn from(_error: OutOfMemory) -> AsmError {
        AsmError::OutOfMemory
    }
}

impl From<AllocError> for AsmError {
    ghost from_gives = { λ _ e. e ≡ errors.OutOfMemory };

    fn from(_error: AllocError) -> AsmError {
        AsmError::OutOfMemory
    }
}

impl<T: Drop> From<AllocFailed<T>> for AsmError {
    ghost from_gives = { λ _ e. e ≡ errors.OutOfMemory };

    fn from(_error: AllocFailed<T>) -> AsmError {
        AsmError::OutOfMemory
    }
}

/// The image of a text, whose words stand one after another from `base`, the entry. A text with a fault is
/// answered by its first fault: that of the first faulty line, and there the first kind in the order in which
/// `AsmKind` lists them. Want of memory may come in place of either answer.
pub fn assemble(alloc: Global, text: &[u8], base: u32) -> Result<Image, AsmError>
    requires { length text.now < 2 ^ 32 }
    ensures image { IfOk result (IsAssembly text.now base) }
    ensures fault { (fault : AsmFault) → IsErrOf result (AsmError.Fault fault) → program_of text.now ≡ Err fault }
{
    let labels = labels_of(alloc, text)?;
    let bytes = bytes_of(alloc, &labels, text)?;
    Ok(Image::one_piece(alloc, base, base, bytes)?)
}

/// The labels of a text, with their places.
fn labels_of(alloc: Global, text: &[u8]) -> Result<Labels<'_>, OutOfMemory>
    requires { length text.now < 2 ^ 32 }
    ensures { IfOk result (λ labels. places_in labels ≡ places_of text.now) }
{
    let mut labels = Labels::new(alloc);
    let mut place = 0;
    let mut rest = text;
    while !rest.is_empty() {
        let (line, after) = first_line(rest);
        let labelled = define_line(&mut labels, line, place)?;
        place = place_after(place, labelled.statement);
        rest = after;
    }
    Ok(labels)
}

/// The place after a statement: one word further, where there is one.
fn place_after(here: u32, statement: &[u8]) -> u32
    requires { here + 1 < 2 ^ 32 }
    ensures { result ≡ (if not (length statement.now == 0) then here + 1 else here) }
{
    if statement.is_empty() { here } else { here + 1 }
}

/// The bytes of a text's words, least byte first, or the text's first fault.
fn bytes_of<'a>(alloc: Global, labels: &Labels<'a>, text: &'a [u8]) -> Result<Vec<u8>, AsmError>
    requires { length text.now < 2 ^ 32 }
    ensures bytes { GivesBytes (λ v. v.items) result (codes_from (places_in labels.now) no_places 1 0 (lines text.now)) }
    ensures small { IfOk result (λ bytes. vec_len bytes ≤ 4 * most_words) }
{
    let mut bytes = Vec::new(alloc);
    let mut before = Labels::new(alloc);
    let mut place = 0;
    let mut number = 0;
    let mut rest = text;
    while !rest.is_empty() {
        let (line, after) = first_line(rest);
        number += 1;
        let labelled = define_line(&mut before, line, place)?;
        let word = match line_word(labels, line, &labelled, place) {
            Ok(word) => word,
            Err(kind) => return Err(fault_at(number, kind)),
        };
        place = push_word(&mut bytes, place, number, word)?;
        rest = after;
    }
    Ok(bytes)
}

/// Puts the word of a line at the end, if it has one, and answers the place after it. The line is too long where
/// there are as many words as a program has at most.
fn push_word(bytes: &mut Vec<u8>, here: u32, line: u32, word: Option<u32>) -> Result<u32, AsmError>
    ensures ok { IfOk result (PushesWord bytes.old.items bytes.new.items here word) }
    ensures fault { (fault : AsmFault) → IsErrOf result (AsmError.Fault fault)
        → IsSome word × (most_words ≤ here) × (fault ≡ record { line = line; kind = AsmKind.TooLong }) }
{
    let Some(word) = word else {
        return Ok(here);
    };
    if here >= MOST_WORDS {
        return Err(fault_at(line, AsmKind::TooLong));
    }
    bytes.extend_from_slice(&word.to_le_bytes())?;
    Ok(here + 1)
}

fn fault_at(line: u32, kind: AsmKind) -> AsmError
    ensures { result ≡ AsmError.Fault (record { line = line; kind = kind }) }
{
    AsmError::Fault(AsmFault { line, kind })
}
