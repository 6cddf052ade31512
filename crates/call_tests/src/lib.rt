//! Tests of whole calls: words and an input go in, and an answer, a status and a text come out, which are those that the
//! rules give.
#![tactic(auto)]

#[cfg(test)]
mod bounds;
#[cfg(test)]
mod calling;
#[cfg(test)]
mod calls;
#[cfg(test)]
mod checks;
#[cfg(test)]
mod commuting;
#[cfg(test)]
mod cycles;
#[cfg(test)]
mod drifts;
#[cfg(test)]
mod executables;
#[cfg(test)]
mod failures;
#[cfg(test)]
mod faults;
#[cfg(test)]
mod pieces;
#[cfg(test)]
mod programs;
#[cfg(test)]
mod samples;
#[cfg(test)]
mod sharing;
#[cfg(test)]
mod speculations;
#[cfg(test)]
mod threads;
