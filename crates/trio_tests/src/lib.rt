//! Tests of runs and drifts of the small machine, of the actors, the manager and the clock table of its drifts, and of its
//! monitors.
#![tactic(auto)]

#[cfg(test)]
mod actors;
#[cfg(test)]
mod clocks;
#[cfg(test)]
mod drifts;
#[cfg(test)]
mod gates;
#[cfg(test)]
mod histories;
#[cfg(test)]
mod interleavings;
#[cfg(test)]
mod lockstep;
#[cfg(test)]
mod machine;
#[cfg(test)]
mod managers;
#[cfg(test)]
mod marks;
#[cfg(test)]
mod modes;
#[cfg(test)]
mod pieces;
#[cfg(test)]
mod speculation;
#[cfg(test)]
mod threads;
#[cfg(test)]
mod watches;
