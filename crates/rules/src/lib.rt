//! The rules of questions, markings and lists of calls, and what holds of them all.
//!
//! The definitions stand in `specs/`: `Rules` (rounds, runs and questions), `Marks` (markings), `Calls` (lists of calls), `Promises`
//! (what is right) and `Theorems`, each of which is the contract of a function here.
#![tactic(auto)]

mod facts;

pub use facts::{
    calls_are_determined, landmarks_are_kept, markings_are_settled, questions_agree,
    questions_are_settled, reach_tells,
};
