//! Writing an image.
ghost use Rattle.std.specs.Prelude.{◌≡◌, ℕ, ◌∷◌, [], IfOk, Ok, length};
ghost use Rattle.slack_base.specs.Images.{Fits};
ghost use Rattle.slack_base.specs.declared.images.Segment.{Segment};
ghost use Rattle.image_load.specs.Flat.{flat_file};
ghost use Rattle.image_load.specs.Reading.{image_of};
ghost use Rattle.slack_base.specs.Images.{one_piece};
ghost use Rattle.image_load.specs.Writing.{IsOnePiece};

use crate::flat::FlatHeader;
use slack_base::{ByteList, Image, OutOfMemory};
use std::alloc::Global;

/// The SLK1 file of an image with one segment, all of whose bytes are given.
pub fn flat_bytes(alloc: Global, image: &Image) -> Result<ByteList, OutOfMemory>
    requires { IsOnePiece image.now }
    ensures file { IfOk result (λ file. (s : Segment) → image.now.segments ≡ s ∷ [] → file ≡ flat_file s.address image.now.entry s.bytes) }
    // The file is read as the image again, for each memory that the image fits.
    ensures again { IfOk result (λ file. (base memory : ℕ) → Fits base memory image.now → image_of base memory file ≡ Ok image.now) }
{
    let segment = &image.segments.as_slice()[0];
    let header = FlatHeader {
        address: segment.address,
        entry: image.entry,
        length: segment.size,
    };
    flat_file(alloc, &header, segment.bytes.as_slice())
}

/// The SLK1 file of one piece.
#[tactic(auto, unfolding(crate::specs::Flat::flat_file))]
fn flat_file(alloc: Global, header: &FlatHeader, bytes: &[u8]) -> Result<ByteList, OutOfMemory>
    requires { header.now.length ≡ length bytes.now }
    ensures file { IfOk result (λ file. file ≡ flat_file header.now.address header.now.entry bytes.now) }
    ensures again { let image = one_piece header.now.address header.now.entry bytes.now in
        IfOk result (λ file. (base memory : ℕ) → Fits base memory image → image_of base memory file ≡ Ok image) }
{
    let mut file = Vec::new(alloc);
    file.extend_from_slice(b"SLK1")?;
    file.extend_from_slice(&header.address.to_le_bytes())?;
    file.extend_from_slice(&header.entry.to_le_bytes())?;
    file.extend_from_slice(&header.length.to_le_bytes())?;
    file.extend_from_slice(bytes)?;
    Ok(ByteList::of(file))
}
