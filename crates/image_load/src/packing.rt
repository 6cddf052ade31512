//! Writing an image as an SLK2 file.
ghost use Rattle.std.specs.Prelude.{◌≡◌, ◌∷◌, [], ◌++◌, ℕ, List, All, IfOk, Ok, OnOk, length};
ghost use Rattle.std.specs.List.{flat_map};
ghost use Rattle.slack_base.specs.Images.{Fits};
ghost use Rattle.slack_base.specs.declared.images.Segment.{Segment};
ghost use Rattle.image_load.specs.Packed.{segment_header, packed_file};
ghost use Rattle.image_load.specs.Reading.{image_of};
ghost use Rattle.image_load.specs.Writing.{IsStored, IsPackable, HasWords};

use slack_base::{ByteList, Image, OutOfMemory, Segment};
use std::alloc::Global;

/// The SLK2 file of an image with at most 64 segments.
#[tactic(auto, unfolding(crate::specs::Packed::packed_file))]
pub fn packed_bytes(alloc: Global, image: &Image) -> Result<ByteList, OutOfMemory>
    requires { IsPackable image.now }
    ensures file { IfOk result (λ file. file ≡ packed_file image.now) }
    // The file is read as the image again, for each memory that the image fits.
    ensures again { IfOk result (λ file. (base memory : ℕ) → Fits base memory image.now → image_of base memory file ≡ Ok image.now) }
    // Where another file is accepted with this image, this file is, with the same image.
    ensures accepted { IfOk result (λ file. (base memory : ℕ) (bytes : List ℕ) → image_of base memory bytes ≡ Ok image.now → image_of base memory file ≡ Ok image.now) }
{
    let segments = image.segments.as_slice();
    let mut file = Vec::new(alloc);
    file.extend_from_slice(b"SLK2")?;
    file.extend_from_slice(&image.entry.to_le_bytes())?;
    file.extend_from_slice(&(segments.len() as u32).to_le_bytes())?;
    push_headers(&mut file, segments)?;
    push_pieces(&mut file, segments)?;
    Ok(ByteList::of(file))
}

/// Appends the headers of the segments.
fn push_headers(file: &mut Vec<u8>, segments: &[Segment]) -> Result<(), OutOfMemory>
    requires { All IsStored segments.now }
    ensures headers { OnOk result (file.new.items ≡ file.old.items ++ flat_map segment_header segments.now) }
    ensures words { OnOk result (All HasWords segments.now) }
{
    for segment in segments {
        push_header(file, segment)?;
    }
    Ok(())
}

/// Appends the header of a segment.
#[tactic(auto, unfolding(crate::specs::Packed::segment_header))]
fn push_header(file: &mut Vec<u8>, segment: &Segment) -> Result<(), OutOfMemory>
    requires { IsStored segment.now }
    ensures header { OnOk result (file.new.items ≡ file.old.items ++ segment_header segment.now) }
    ensures words { OnOk result (HasWords segment.now) }
{
    let size = segment.size;
    let given = segment.bytes.len() as u32;
    file.extend_from_slice(&segment.address.to_le_bytes())?;
    file.extend_from_slice(&given.to_le_bytes())?;
    file.extend_from_slice(&size.to_le_bytes())?;
    Ok(())
}

/// Appends the bytes that the segments give.
fn push_pieces(file: &mut Vec<u8>, segments: &[Segment]) -> Result<(), OutOfMemory>
    ensures { OnOk result (file.new.items ≡ file.old.items ++ flat_map (λ (s : Segment). s.bytes) segments.now) }
{
    for segment in segments {
        file.extend_from_slice(segment.bytes.as_slice())?;
    }
    Ok(())
}
