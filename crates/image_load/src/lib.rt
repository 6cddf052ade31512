//! Reads the image of a program: the flat format SLK1, the packed format SLK2, and executables of the format ELF32.
#![tactic(auto)]

mod checks;
mod elf;
mod fields;
mod flat;
mod layouts;
mod load_checks;
mod loads;
mod packed;
pub mod packing;
pub mod reading;
pub mod writing;

pub use packing::packed_bytes;
pub use reading::{ImageError, image_fault, read_image};
pub use writing::flat_bytes;
