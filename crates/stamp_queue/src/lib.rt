//! Queues of stamped messages: the inbox of a core, and the rings between threads.
#![tactic(auto)]

pub mod drains;
pub mod inbox;
pub mod laws;
pub mod receivers;
pub mod rings;
pub mod senders;

pub use drains::{drain_asks, drain_posts};
pub use inbox::Inbox;
pub use receivers::Receiver;
pub use rings::{AskReceiver, AskSender, PostReceiver, PostSender, ask_ring, post_ring};
pub use senders::Sender;
