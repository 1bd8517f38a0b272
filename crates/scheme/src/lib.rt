//! A scheme of works at a junction: the items that its works can make stand, the orders in which they can be carried out, and the
//! landmarks that no order can do without.
#![tactic(auto)]

ghost use Rattle.std.specs.Prelude.{◌≤◌, vec_len, vec_capacity};

use sets::Set;

mod checks;
mod editing;
mod landmarks;
mod orders;
mod reaching;
mod reading;
mod refusals;

pub use checks::{check_entry, check_item};
pub use refusals::Refusal;

/// A work (an action of delete-free planning): it can be carried out where its needs stand, and its gives stand from then on.
#[derive(Clone, Copy, PartialEq, Eq, Debug)]
pub struct Work {
    pub needs: Set,
    pub gives: Set,
}

/// A scheme (a delete-free planning task): its works in order of entry, the items standing at the start and the wanted items.
#[derive(Drop)]
pub struct Scheme {
    works: Vec<Work>,
    standing: Set,
    wanted: Set,
    ghost few: { vec_len works ≤ 64 },
    ghost reserved: { 64 ≤ vec_capacity works },
}

/// The first place at which an order cannot be carried out, and why.
#[derive(Clone, Copy, PartialEq, Eq, Debug)]
pub enum Stop {
    /// The work at this place is not held.
    NotHeld { place: usize },
    /// The work at this place needs items that do not stand; this is the lowest of them.
    Lacking { place: usize, item: usize },
}
