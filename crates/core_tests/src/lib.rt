//! Tests of a core and of its cache, each alone and by calls made by hand.
#![tactic(auto)]

#[cfg(test)]
mod addresses;
#[cfg(test)]
mod caches;
#[cfg(test)]
mod cores;
#[cfg(test)]
mod foresight;
#[cfg(test)]
mod leaps;
#[cfg(test)]
mod lines;
#[cfg(test)]
mod marks;
#[cfg(test)]
mod orders;
#[cfg(test)]
mod parts;
#[cfg(test)]
mod programs;
#[cfg(test)]
mod states;
#[cfg(test)]
mod touches;
