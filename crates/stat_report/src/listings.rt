//! Listings of images.
ghost use Rattle.std.specs.Prelude.{◌≡◌, ◌+◌, ◌%◌, ◌^◌, ◌<◌, ◌≤◌, ◌++◌, All, AllPairs, IfOk, OnOk, flat_map, length, map};
ghost use Rattle.slack_base.specs.Images.{IsInMemory, IsApart};
ghost use Rattle.rv_decode.specs.Texts.{text as instr_text};
ghost use Rattle.stat_report.specs.Listing.{IsInOrder, IsListing, line, segment_text, word_text};

use byteorder::{ByteOrder, LittleEndian};
use plain_text::Text;
use rv_decode::{decode, text_of};
use slack_base::{ByteList, Image, Instr, OutOfMemory, Segment};
use std::alloc::Global;

/// The listing of an image: for each word of its segments a line with the address, the word and its instruction, the
/// lowest address first. A word has an address that is a multiple of 4, and its four bytes stand in one segment. One
/// with no instruction is listed as `.word`. Each segment ends within the address space, and no two share an address.
pub fn listing(alloc: Global, image: &Image) -> Result<ByteList, OutOfMemory>
    requires segments { All (IsInMemory 0 (2 ^ 32)) image.now.segments }
    requires apart { AllPairs IsApart image.now.segments }
    ensures { IfOk result (IsListing image.now) }
{
    let order = in_order(alloc, image.segments.as_slice())?;
    let mut text = Text::new(alloc);
    push_segments(&mut text, order.as_slice())?;
    Ok(text.into_list())
}

/// The segments, the lowest address first.
fn in_order(alloc: Global, segments: &[Segment]) -> Result<Vec<&Segment>, OutOfMemory>
    ensures { IfOk result (λ order. IsInOrder segments.now (map (λ s. s.now) order.items)) }
{
    let mut order: Vec<&Segment> = segments.iter().collect(alloc)?;
    order.sort_by_key(|segment| segment.address)?;
    Ok(order)
}

/// Appends the lines of segments.
fn push_segments(text: &mut Text, segments: &[&Segment]) -> Result<(), OutOfMemory>
    requires { All (λ s. IsInMemory 0 (2 ^ 32) s.now) segments.now }
    ensures { OnOk result (text.new ≡ text.old ++ flat_map segment_text (map (λ s. s.now) segments.now)) }
{
    for segment in segments {
        push_segment(text, *segment)?;
    }
    Ok(())
}

/// Appends the lines of a segment.
fn push_segment(text: &mut Text, segment: &Segment) -> Result<(), OutOfMemory>
    requires { IsInMemory 0 (2 ^ 32) segment.now }
    ensures { OnOk result (text.new ≡ text.old ++ segment_text segment.now) }
{
    let bytes = segment.bytes.as_slice();
    let mut place = first_place(segment.address);
    while place + 4 <= bytes.len() {
        let word = LittleEndian::read_u32(&bytes[place..]);
        push_line(text, segment.address + place as u32, word)?;
        place += 4;
    }
    Ok(())
}

/// How far the first multiple of 4 lies from an address.
fn first_place(address: u32) -> usize
    ensures aligned { (address + result) % 4 ≡ 0 }
    ensures near { result < 4 }
{
    ((4 - address % 4) % 4) as usize
}

/// Appends the line of an address and its word.
#[tactic(auto, unfolding(crate::specs::Listing::line))]
fn push_line(text: &mut Text, address: u32, word: u32) -> Result<(), OutOfMemory>
    ensures { OnOk result (text.new ≡ text.old ++ line address word) }
{
    text.push_hex_field(address)?;
    text.push_hex_field(word)?;
    push_word_text(text, word)?;
    text.push_str("\n")
}

/// Appends the instruction of a word.
#[tactic(auto, unfolding(crate::specs::Listing::word_text))]
fn push_word_text(text: &mut Text, word: u32) -> Result<(), OutOfMemory>
    ensures { OnOk result (text.new ≡ text.old ++ word_text word) }
{
    match decode(word) {
        Some(instr) => push_instr(text, &instr),
        None => text.push_str(".word"),
    }
}

/// Appends the text of an instruction.
fn push_instr(text: &mut Text, instr: &Instr) -> Result<(), OutOfMemory>
    ensures { OnOk result (text.new ≡ text.old ++ instr_text instr.now) }
{
    let instr = text_of(text.allocator(), instr)?;
    text.push_bytes(instr.as_slice())
}
