//! What a file says of an image, apart from its bytes, and the image of it.
ghost use Rattle.std.specs.Prelude.{◌≡◌, ◌≤◌, map, length, IfOk};
ghost use Rattle.image_load.specs.Layouts.{file_bytes, segment_of, image_in};

use crate::loads::Loads;
use slack_base::{ByteList, Image, OutOfMemory, Segment, SegmentList};
use std::alloc::Global;

/// A piece of memory that a file loads: its place in memory, and the bytes of the file that it begins with.
#[derive(Clone, Copy, Debug, PartialEq, Eq)]
pub struct Load {
    /// The number of its header.
    pub index: u32,
    /// Where its bytes begin in the file.
    pub offset: u64,
    pub address: u32,
    /// How many bytes the file gives.
    pub file_size: u32,
    /// How many bytes of memory it takes.
    pub memory_size: u32,
}

/// What a file says of an image.
#[derive(Debug, Drop)]
pub struct Layout {
    pub entry: u32,
    pub loads: Loads,
}

/// The image of these bytes under a layout.
pub fn image_in(alloc: Global, bytes: &[u8], layout: &Layout) -> Result<Image, OutOfMemory>
    ensures image { IfOk result (λ image. image ≡ image_in bytes.now layout.now) }
    ensures few { IfOk result (λ image. length image.segments ≤ 64) }
{
    let segments = segments_of(alloc, bytes, layout.loads.as_slice())?;
    Ok(Image {
        entry: layout.entry,
        segments,
    })
}

/// The segments that are loaded.
fn segments_of(alloc: Global, bytes: &[u8], loads: &[Load]) -> Result<SegmentList, OutOfMemory>
    ensures segments { IfOk result (λ segments. segments ≡ map (segment_of bytes.now) loads.now) }
    ensures count { IfOk result (λ segments. length segments ≡ length loads.now) }
{
    let mut segments = SegmentList::new(alloc);
    for load in loads {
        let bytes = Vec::from_slice(alloc, file_bytes(bytes, load))?;
        segments.push(Segment {
            address: load.address,
            bytes: ByteList::of(bytes),
            size: load.memory_size,
        })?;
    }
    Ok(segments)
}

/// The bytes of the file that go to a piece of memory.
fn file_bytes<'a>(bytes: &'a [u8], load: &Load) -> &'a [u8]
    ensures { result.now ≡ file_bytes bytes.now load.now }
{
    let (_, rest) = bytes.split_at((load.offset as usize).min(bytes.len()));
    &rest[..(load.file_size as usize).min(rest.len())]
}
