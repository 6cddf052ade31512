//! The text about the lines that are not coherent.
ghost use Rattle.std.specs.Prelude.{◌≡◌, ◌++◌, IfOk, OnOk, flat_map};
ghost use Rattle.coherence_law.specs.Texts.{broken_line, text_of};

use crate::broken::LineList;
use plain_text::Text;
use slack_base::{ByteList, OutOfMemory};
use std::alloc::Global;

/// How many lines there are, and each of them.
#[tactic(auto, unfolding(crate::specs::Texts::text_of))]
pub fn coherence_text(alloc: Global, lines: &LineList) -> Result<ByteList, OutOfMemory>
    ensures { IfOk result (λ text. text ≡ text_of lines.now) }
{
    let mut text = Text::new(alloc);
    text.push_field("coherence ", lines.len() as u64)?;
    text.push_str("\n")?;
    push_lines(&mut text, lines.as_slice())?;
    Ok(text.into_list())
}

/// Appends a line of text about each of these.
fn push_lines(text: &mut Text, lines: &[u32]) -> Result<(), OutOfMemory>
    ensures { OnOk result (text.new ≡ text.old ++ flat_map broken_line lines.now) }
{
    for line in lines {
        push_line(text, *line)?;
    }
    Ok(())
}

/// Appends the line of text about one of them.
#[tactic(auto, unfolding(crate::specs::Texts::broken_line))]
fn push_line(text: &mut Text, line: u32) -> Result<(), OutOfMemory>
    ensures { OnOk result (text.new ≡ text.old ++ broken_line line) }
{
    text.push_field("broken line ", u64::from(line))?;
    text.push_str("\n")
}
