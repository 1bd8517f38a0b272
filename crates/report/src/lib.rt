//! What is printed of a scheme file: its cheapest order in pounds, or why there is none.
//!
//! - `reporting`: from a file's bytes to the bytes printed.
//! - `answers`: the lines of an answer.
//! - `refusals`: the line of a refusal.
#![tactic(auto)]

mod answers;
mod refusals;
mod reporting;

pub use reporting::{PAGE, report_cheapest};
pub use scheme_file::INPUT;
