//! Texts put into a lent page of bytes.
//!
//! - `pages`: a page, into which bytes and decimal numbers are put one after another, and counted where it is too short for them.
//! - `texts`: what can be put, and a whole text put from the start, or refused.
#![tactic(auto)]

mod pages;
mod texts;

pub use pages::Page;
pub use texts::{Text, publish};
