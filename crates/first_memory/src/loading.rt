//! Loading an image into memory.
ghost use Rattle.std.specs.Prelude.{◌≡◌, ◌+◌, ◌-◌, ◌%◌, ◌<◌, ◌≤◌, ℕ, All, length, slice_index, vec_len, IfOk, if◌then◌else◌};
ghost use Rattle.slack_base.specs.Images.{Fits};
ghost use Rattle.first_memory.specs.Memory.{is_in, byte_at, bytes_from, lines_reached, with_zeros};

use slack_base::{Image, OutOfMemory, Segment};
use std::alloc::Global;

/// The bytes of memory from `base` on once the image is loaded, up to the end of the last line that the image's bytes
/// reach. Every byte behind them is 0.
pub fn loaded_bytes(
    alloc: Global,
    image: &Image,
    base: u32,
    memory: u32,
) -> Result<Vec<u8>, OutOfMemory>
    requires fits { Fits base memory image.now }
    requires lines { memory % 16 ≡ 0 }
    ensures held { IfOk result (λ bytes. with_zeros bytes.items memory ≡ bytes_from image.now.segments base memory) }
    ensures count { IfOk result (λ bytes. vec_len bytes ≡ lines_reached image.now.segments base) }
    ensures within { IfOk result (λ bytes. vec_len bytes ≤ memory) }
{
    let count = lines_reached(image, base, memory);
    let mut bytes = vec![in alloc; 0u8; count]?;
    let segments = image.segments.as_slice();
    let mut left = segments.len();
    while left > 0 {
        left -= 1;
        load(bytes.as_mut_slice(), base, &segments[left]);
    }
    Ok(bytes)
}

/// How many bytes the lines have up to the last one that the image's bytes reach.
fn lines_reached(image: &Image, base: u32, memory: u32) -> usize
    requires fits { Fits base memory image.now }
    requires lines { memory % 16 ≡ 0 }
    ensures count { result ≡ lines_reached image.now.segments base }
    ensures within { result ≤ memory }
    ensures inside { All (λ s. s.address + length s.bytes ≤ base + result) image.now.segments }
{
    let segments = image.segments.as_slice();
    let mut reached = 0;
    let mut place = segments.len();
    while place > 0 {
        place -= 1;
        let segment = &segments[place];
        let end = (segment.address - base) as usize + segment.bytes.len();
        reached = reached.max(end);
    }
    16 * reached.div_ceil(16)
}

/// Writes a segment into the bytes of memory from `base` on. Of the zeros behind its own bytes it writes as many as lie
/// there.
fn load(bytes: &mut [u8], base: u32, segment: &Segment)
    requires low { base ≤ segment.now.address }
    requires size { length segment.now.bytes ≤ segment.now.size }
    requires inside { segment.now.address + length segment.now.bytes ≤ base + length bytes.old }
    ensures { (k : ℕ) → k < length bytes.old → slice_index bytes.new k ≡
        (if is_in segment.now (base + k) then slice_index segment.now.bytes (base + k - segment.now.address) else slice_index bytes.old k) }
{
    let start = (segment.address - base) as usize;
    let middle = start + segment.bytes.len();
    let end = (start + segment.size as usize).min(bytes.len());
    bytes[start..middle].copy_from_slice(segment.bytes.as_slice());
    bytes[middle..end].fill(0);
}
