//! The format SLK2: up to 64 pieces of memory.
ghost use Rattle.std.specs.Prelude.{◌≡◌, ◌+◌, ◌*◌, ◌<◌, ◌≤◌, ◌^◌, [], ◌∷◌, ◌++◌, length, drop, filter, IfOk};
ghost use Rattle.slack_base.specs.Checks.{first_fault, unless_fault};
ghost use Rattle.image_load.specs.Packed.{packed_header, packed_end, packed_piece, pieces_under, takes_memory, head_checks, piece_checks, pieces_checks, packed_checks, packed_layout};

use crate::checks::{is_in_memory, is_word_of};
use crate::fields::u32_at;
use crate::layouts::{Layout, Load};
use crate::load_checks::overlap;
use crate::loads::Loads;
use slack_base::{Config, ImageFault};

/// How many headers a file has at most: as many as an image has segments.
const MOST_HEADERS: u32 = 64;

/// The numbers at the head of an SLK2 file.
#[derive(Clone, Copy, Debug)]
pub struct PackedHeader {
    pub entry: u32,
    /// How many headers of pieces there are.
    pub count: u32,
}

/// What an SLK2 file says of the image, or its first fault.
pub fn packed_layout(bytes: &[u8], config: &Config) -> Result<Layout, ImageFault>
    ensures { result ≡ unless_fault (first_fault (packed_checks config.now.base config.now.memory bytes.now)) (packed_layout bytes.now (packed_header bytes.now)) }
{
    let header = checked_header(bytes)?;
    let loads = checked_pieces(bytes, config, &header)?;
    if !is_word_of(config, header.entry) {
        return Err(ImageFault::Entry {
            entry: header.entry,
        });
    }
    Ok(Layout {
        entry: header.entry,
        loads,
    })
}

/// The numbers at the head of the file, or its first fault apart from its pieces and its entry.
#[tactic(auto, unfolding(crate::specs::Packed::head_checks))]
fn checked_header(bytes: &[u8]) -> Result<PackedHeader, ImageFault>
    ensures header { result ≡ unless_fault (first_fault (head_checks bytes.now)) (packed_header bytes.now) }
    ensures few { IfOk result (λ header. header.count ≤ 64) }
    ensures within { IfOk result (λ header. packed_end header ≤ length bytes.now) }
{
    let have = bytes.len() as u64;
    if have < 12 {
        return Err(ImageFault::Short { have, need: 12 });
    }
    let header = packed_header(bytes);
    if header.count > MOST_HEADERS {
        return Err(ImageFault::Segment {
            index: MOST_HEADERS,
        });
    }
    let need = packed_end(&header);
    if have < need {
        return Err(ImageFault::Short { have, need });
    }
    Ok(header)
}

#[tactic(auto, unfolding(crate::specs::Packed::packed_header))]
fn packed_header(bytes: &[u8]) -> PackedHeader
    requires { 12 ≤ length bytes.now }
    ensures { result ≡ packed_header bytes.now }
{
    PackedHeader {
        entry: u32_at(bytes, 4),
        count: u32_at(bytes, 8),
    }
}

/// Where the headers of the pieces end.
fn packed_end(header: &PackedHeader) -> u64
    ensures { result ≡ packed_end header.now }
{
    12 + 12 * u64::from(header.count)
}

/// The pieces that take memory, or the first fault of all pieces.
fn checked_pieces(bytes: &[u8], config: &Config, header: &PackedHeader) -> Result<Loads, ImageFault>
    requires few { header.now.count ≤ 64 }
    requires within { packed_end header.now ≤ length bytes.now }
    ensures { let pieces = pieces_under bytes.now header.now in
        result ≡ unless_fault (first_fault (pieces_checks config.now.base config.now.memory (length bytes.now) [] pieces)) (filter takes_memory pieces) }
{
    let have = bytes.len() as u64;
    let mut loads = Loads::new();
    let mut offset = packed_end(header);
    for index in 0..header.count {
        let piece = piece_at(bytes, index, offset);
        match piece_fault(have, config, loads.as_slice(), &piece) {
            Some(fault) => return Err(fault),
            None => keep(&mut loads, piece),
        }
        offset += u64::from(piece.file_size);
    }
    Ok(loads)
}

/// The piece of a number, whose bytes begin at an offset.
#[tactic(auto, unfolding(crate::specs::Packed::packed_piece))]
fn piece_at(bytes: &[u8], index: u32, offset: u64) -> Load
    requires { 24 + 12 * index ≤ length bytes.now }
    ensures piece { result ≡ packed_piece index offset (drop (12 + 12 * index) bytes.now) }
    ensures length { result.file_size < 2 ^ 32 }
{
    let (_, header) = bytes.split_at(12 + 12 * index as usize);
    Load {
        index,
        offset,
        address: u32_at(header, 0),
        file_size: u32_at(header, 4),
        memory_size: u32_at(header, 8),
    }
}

/// The first fault of a piece, in a file of so many bytes, after the earlier ones that take memory.
#[tactic(auto, unfolding(crate::specs::Packed::piece_checks))]
fn piece_fault(have: u64, config: &Config, earlier: &[Load], piece: &Load) -> Option<ImageFault>
    requires { piece.now.offset < 2 ^ 40 }
    ensures { result ≡ first_fault (piece_checks config.now.base config.now.memory have earlier.now piece.now) }
{
    let index = piece.index;
    if piece.file_size > piece.memory_size {
        return Some(ImageFault::Segment { index });
    }
    let need = piece.offset + u64::from(piece.file_size);
    if have < need {
        return Some(ImageFault::Short { have, need });
    }
    if piece.memory_size == 0 {
        return None;
    }
    if !is_in_memory(config, piece.address, piece.memory_size) {
        return Some(ImageFault::Outside { index });
    }
    overlap(earlier, piece)
}

/// Puts a piece behind the others if it takes memory.
fn keep(loads: &mut Loads, piece: Load)
    requires { length loads.old < 64 }
    ensures { loads.new ≡ loads.old ++ filter takes_memory (piece ∷ []) }
{
    if piece.memory_size > 0 {
        loads.push(piece);
    }
}
