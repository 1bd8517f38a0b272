//! Sets of numbers from 0 to 63, each held in one 64-bit number in which member k weighs 2 to the power k.
#![tactic(auto)]

mod algebra;
mod iter;
mod making;
mod members;
mod number;
mod text;

pub use iter::SetIter;

/// A set of numbers from 0 to 63.
#[derive(Clone, Copy, PartialEq, Eq, PartialOrd, Ord, Hash, Debug, Default)]
pub struct Set {
    bits: u64,
}
