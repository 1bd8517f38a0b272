//! Planners: the cheapest orders by implicit hitting sets.
//!
//! - `types`: planners and their answers.
//! - `question`: questions.
//! - `conducting`: a list of calls, then a question.
//! - `pairs`: two planners asked alike.
//! - `marking`: marking a candidate's order.
//! - `editing`: opening and editing a planner's scheme.
//! - `files`: reading and writing scheme files.
//! - `landmarks`: what a planner holds and keeps.
#![tactic(auto)]

mod conducting;
mod editing;
mod files;
mod landmarks;
mod marking;
mod pairs;
mod question;
mod types;

pub use marking::{Flaw, Verdict};
pub use pairs::ask_both;
pub use rules::{
    calls_are_determined, landmarks_are_kept, markings_are_settled, questions_agree,
    questions_are_settled, reach_tells,
};
pub use types::{Answer, Planner, Request};
