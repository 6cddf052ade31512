//! Tests of what is read and written at the edge: images, assembler texts, command words and streams.
#![tactic(auto)]

#[cfg(test)]
mod assembled;
#[cfg(test)]
mod command_lines;
#[cfg(test)]
mod elf_images;
#[cfg(test)]
mod files;
#[cfg(test)]
mod flat_images;
#[cfg(test)]
mod image_fields;
#[cfg(test)]
mod image_fronts;
#[cfg(test)]
mod images;
#[cfg(test)]
mod order_faults;
#[cfg(test)]
mod order_options;
#[cfg(test)]
mod orders;
#[cfg(test)]
mod packed_images;
#[cfg(test)]
mod recorders;
#[cfg(test)]
mod streams;
