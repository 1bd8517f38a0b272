//! Choosers: minimum-cost hitting sets. A chooser keeps sets of works and draws the least set of works that meets each of them.
//!
//! - `interface`: what every chooser promises.
//! - `kept`: the sets that a chooser keeps.
//! - `terms`: the prices and bars that a draw is made under.
//! - `permitted`: the works that may be chosen, and those of them that a draw need look at.
//! - `costs`: the totals of sets and of orders of works.
//! - `preference`: which of two sets comes first.
//! - `determined`: every draw has one answer.
#![tactic(auto)]

mod costs;
mod determined;
mod interface;
mod kept;
mod permitted;
mod preference;
mod terms;

pub use interface::{Chooser, Full};
pub use kept::Kept;
pub use terms::Terms;

#[cfg(test)]
mod tests;
