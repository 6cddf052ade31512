//! Tests of words and what they stand for: numbers of configurations, instructions, generated programs, and queues of posts
//! and asks.
#![tactic(auto)]

#[cfg(test)]
mod configs;
#[cfg(test)]
mod decoded;
#[cfg(test)]
mod generated;
#[cfg(test)]
mod inboxes;
#[cfg(test)]
mod letters;
#[cfg(test)]
mod results;
#[cfg(test)]
mod rings;
#[cfg(test)]
mod threads;
