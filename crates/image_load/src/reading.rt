//! Reading an image.
ghost use Rattle.std.specs.Prelude.{◌≡◌, ◌↔◌, Ok, Err, Some, IfOk, IfSome, IfNone, IsErrOf};
ghost use Rattle.slack_base.specs.Images.{Fits};
ghost use Rattle.slack_base.specs.declared.faults.ImageFault.{ImageFault};
ghost use Rattle.image_load.specs.declared.reading.ImageError.TheVariants as errors;
ghost use Rattle.slack_base.specs.Checks.{unless_fault};
ghost use Rattle.image_load.specs.Layouts.{image_in};
ghost use Rattle.image_load.specs.Reading.{fault_of, layout_of, image_of};
ghost use Rattle.image_load.specs.Writing.{IsPackable};

use crate::elf::elf_layout;
use crate::flat::flat_layout;
use crate::layouts::{Layout, image_in};
use crate::packed::packed_layout;
use slack_base::{Config, Image, ImageFault, OutOfMemory};
use std::alloc::Global;
use thiserror::Error;

/// Why an image was not read.
#[derive(Clone, Copy, Debug, PartialEq, Eq, Error)]
pub enum ImageError {
    #[error("the image has a fault")]
    Fault(ImageFault),
    #[error("out of memory")]
    OutOfMemory,
}

impl From<OutOfMemory> for ImageError {
    ghost from_gives = { λ _ e. e ≡ errors.OutOfMemory };

    fn from(_error: OutOfMemory) -> ImageError {
        ImageError::OutOfMemory
    }
}

/// The image of a file for the memory of a configuration. A file with a fault is answered by its first fault,
/// and never by want of memory.
#[tactic(auto, unfolding(crate::specs::Reading::image_of))]
pub fn read_image(alloc: Global, bytes: &[u8], config: &Config) -> Result<Image, ImageError>
    ensures image { IfOk result (λ image. image_of config.now.base config.now.memory bytes.now ≡ Ok image) }
    ensures fault { (fault : ImageFault) → (IsErrOf result (ImageError.Fault fault) ↔ (image_of config.now.base config.now.memory bytes.now ≡ Err fault)) }
    ensures fits { IfOk result (λ image. Fits config.now.base config.now.memory image) }
    // It has an SLK2 file.
    ensures packable { IfOk result (λ image. IsPackable image) }
{
    let layout = layout_of(bytes, config).map_err(ImageError::Fault)?;
    Ok(image_in(alloc, bytes, &layout)?)
}

/// The first fault of a file, if it has one. It takes no memory.
#[tactic(auto, unfolding(crate::specs::Reading::image_of))]
pub fn image_fault(bytes: &[u8], config: &Config) -> Option<ImageFault>
    ensures first { result ≡ fault_of config.now.base config.now.memory bytes.now }
    ensures refused { IfSome result (λ fault. image_of config.now.base config.now.memory bytes.now ≡ Err fault) }
    ensures accepted { IfNone result (image_of config.now.base config.now.memory bytes.now ≡ Ok (image_in bytes.now (layout_of bytes.now))) }
{
    layout_of(bytes, config).err()
}

/// What a file says of the image, or its first fault.
#[tactic(auto, unfolding(crate::specs::Reading::fault_of, crate::specs::Reading::layout_of))]
fn layout_of(bytes: &[u8], config: &Config) -> Result<Layout, ImageFault>
    ensures { result ≡ unless_fault (fault_of config.now.base config.now.memory bytes.now) (layout_of bytes.now) }
{
    let have = bytes.len() as u64;
    if have < 4 {
        return Err(ImageFault::Short { have, need: 4 });
    }
    if bytes.starts_with(b"SLK1") {
        return flat_layout(bytes, config);
    }
    if bytes.starts_with(b"SLK2") {
        return packed_layout(bytes, config);
    }
    if bytes.starts_with(b"\x7fELF") {
        return elf_layout(bytes, config);
    }
    Err(ImageFault::Magic)
}
