//! What is read of a file.
ghost use Rattle.std.specs.Prelude.{IfSome};
ghost use Rattle.image_load.specs.Writing.{IsPackable};

use crate::files::{File, bytes_of};
use image_load::{image_fault, read_image};
use slack_base::{Config, Image, ImageFault, RawConfig, Segment};
use std::alloc::Global;

/// Where memory begins, and its size.
pub type Memory = (u32, u32);

/// A memory of 1 MiB from address 0 on.
pub const MIB: Memory = (0, 1048576);

/// The configuration with a memory.
pub fn config_of(memory: Memory) -> Option<Config> {
    let (base, memory) = memory;
    let numbers = RawConfig {
        base,
        memory,
        ..RawConfig::DEFAULT
    };
    Config::checked(numbers).ok()
}

/// Whether bytes have this first fault, or none.
pub fn bytes_have_fault(bytes: &[u8], memory: Memory, fault: Option<ImageFault>) -> bool {
    match config_of(memory) {
        Some(config) => image_fault(bytes, &config) == fault,
        None => false,
    }
}

/// Whether a file has this first fault, or none.
pub fn has_fault(alloc: Global, file: &File, memory: Memory, fault: Option<ImageFault>) -> bool {
    match bytes_of(alloc, file) {
        Ok(bytes) => bytes_have_fault(&bytes, memory, fault),
        Err(_) => false,
    }
}

/// The image of bytes in a memory from address 0 on.
pub fn image_of(alloc: Global, bytes: &[u8]) -> Option<Image>
    ensures { IfSome result (λ image. IsPackable image) }
{
    let config = config_of(MIB)?;
    read_image(alloc, bytes, &config).ok()
}

/// The address of a segment, from where to where its bytes stand in the file, and its size.
pub type Place = (u32, (usize, usize), u32);

/// Whether a file is read as the image of this entry and these segments.
pub fn reads_as(alloc: Global, file: &File, entry: u32, places: &[Place]) -> bool {
    match bytes_of(alloc, file) {
        Ok(bytes) => bytes_read_as(alloc, &bytes, entry, places),
        Err(_) => false,
    }
}

/// Whether bytes are read as the image of this entry and these segments.
fn bytes_read_as(alloc: Global, bytes: &[u8], entry: u32, places: &[Place]) -> bool {
    match image_of(alloc, bytes) {
        Some(image) => image.entry == entry && are_at(image.segments.as_slice(), bytes, places),
        None => false,
    }
}

/// Whether segments are these of the file.
fn are_at(segments: &[Segment], file: &[u8], places: &[Place]) -> bool {
    if segments.len() != places.len() {
        return false;
    }
    for (segment, place) in segments.iter().zip(places) {
        if !is_at(segment, file, place) {
            return false;
        }
    }
    true
}

/// Whether a segment is this one of the file.
fn is_at(segment: &Segment, file: &[u8], place: &Place) -> bool {
    let (address, (from, to), size) = *place;
    match file.get(from..to) {
        Some(bytes) => {
            segment.address == address && segment.size == size && segment.bytes.as_slice() == bytes
        }
        None => false,
    }
}

/// How many segments a file is read as.
pub fn segments_in(alloc: Global, file: &File) -> Option<usize> {
    let bytes = bytes_of(alloc, file).ok()?;
    let image = image_of(alloc, &bytes)?;
    Some(image.segments.len())
}
