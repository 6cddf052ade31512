//! The texts of a run, and the listing of an image.
#![tactic(auto)]

mod dumps;
mod json_reports;
pub mod laws;
mod lines;
mod listings;
mod notes;
mod reports;

pub use dumps::dump_text;
pub use json_reports::report_json;
pub use listings::listing;
pub use notes::notes_text;
pub use reports::report_text;
