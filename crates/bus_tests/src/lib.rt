//! Tests of the status map, of the calendar of a bus, and of the channels over both: asks one after another, with what
//! comes of each.
#![tactic(auto)]

#[cfg(test)]
mod calendars;
#[cfg(test)]
mod channels;
#[cfg(test)]
mod courses;
#[cfg(test)]
mod entries;
#[cfg(test)]
mod exchanges;
#[cfg(test)]
mod numbers;
#[cfg(test)]
mod requests;
#[cfg(test)]
mod stages;
