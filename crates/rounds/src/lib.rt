//! The rounds of a question: from a scheme, prices, bars and a chooser to the cheapest sufficient set of works.
//!
//! - `question`: what is asked.
//! - `checks`: what a question or a marking is refused for before anything is done.
//! - `runs`: rounds of a draw and a landmark, until the drawn set is sufficient.
//! - `finding`: the cheapest sufficient set of unbarred works.
#![tactic(auto)]

mod checks;
mod finding;
mod question;
mod runs;

pub use finding::Found;
pub use question::Question;
