//! The lines of a text.
ghost use Rattle.std.specs.Prelude.{◌≡◌, ◌<◌, ◌==◌, OnOk, IfOk, length};
ghost use Rattle.std.specs.Str.Lines.{strip_carriage_return};
ghost use Rattle.rv_asm.specs.Labels.{uncommented, with_labels, redefines};
ghost use Rattle.rv_asm.specs.LabelTables.{places_in};
ghost use Rattle.rv_asm.specs.Lines.{names, statement, GivesLine, line_code_of, first_line, rest_of_lines};

use crate::bytes::{all_printable, before_byte, position_of, trim};
use crate::instructions::word_at;
use crate::labels::{Labelled, Labels, define_labels};
use slack_base::{AsmKind, OutOfMemory};

/// The first line of a text that isn't empty, without its end, and the text after it.
#[tactic(auto, unfolding(crate::specs::Lines::first_line, crate::specs::Lines::rest_of_lines))]
pub(crate) fn first_line(text: &[u8]) -> (&[u8], &[u8])
    ensures line { result.0.now ≡ first_line text.now }
    ensures after { result.1.now ≡ rest_of_lines text.now }
{
    match position_of(text, b'\n') {
        Some(end) => (without_return(&text[..end]), &text[end + 1..]),
        None => (text, &[]),
    }
}

/// The line without the one carriage return at its end, if it has one.
fn without_return(line: &[u8]) -> &[u8]
    ensures { result.now ≡ strip_carriage_return line.now }
{
    match line {
        [front @ .., b'\r'] => front,
        _ => line,
    }
}

/// The line without its comment and the blanks at its ends.
#[tactic(auto, unfolding(crate::specs::Labels::uncommented))]
fn uncommented(line: &[u8]) -> &[u8]
    ensures { result.now ≡ uncommented line.now }
{
    trim(before_byte(line, b'#'))
}

/// Defines the labels of a line.
pub(crate) fn define_line<'a>(
    labels: &mut Labels<'a>,
    line: &'a [u8],
    place: u32,
) -> Result<Labelled<'a>, OutOfMemory>
    ensures places { OnOk result (places_in labels.new ≡ with_labels place (places_in labels.old) (names line.now)) }
    ensures statement { IfOk result (λ labelled. labelled.statement.now ≡ statement line.now) }
    ensures redefines { IfOk result (λ labelled. labelled.redefines ≡ redefines place (places_in labels.old) (names line.now)) }
{
    define_labels(labels, uncommented(line), place)
}

/// The word of a line, if it has one: the labels are those of the whole text.
#[tactic(auto, unfolding(crate::specs::Lines::line_code_of))]
pub(crate) fn line_word<'a>(
    labels: &Labels<'a>,
    line: &[u8],
    labelled: &Labelled<'a>,
    here: u32,
) -> Result<Option<u32>, AsmKind>
    ensures { GivesLine result (line_code_of (places_in labels.now) here line.now labelled.now.redefines labelled.now.statement.now) }
{
    if !all_printable(line) {
        return Err(AsmKind::Byte);
    }
    if labelled.redefines {
        return Err(AsmKind::Twice);
    }
    if labelled.statement.is_empty() {
        return Ok(None);
    }
    let word = word_at(labels, here, labelled.statement)?;
    Ok(Some(word))
}
