//! A chooser of at most twelve kept sets, by dynamic programming over their subsets: a draw tabulates, for each subset of the kept
//! sets, the least set of works that meets those in it. The table lies on the stack, so a draw allocates nothing.
//!
//! - `making`: an empty chooser.
//! - `choosing`: what it does as a chooser.
//! - `table`: the table of a draw, and its last entry.
//! - `entry`: one entry of the table, from those before it.
#![tactic(auto)]

use chooser::Kept;

mod choosing;
mod entry;
mod making;
mod table;
#[cfg(test)]
mod tests;

/// How many sets a tabler can keep.
const ROOM: usize = 12;

/// At most twelve kept sets.
#[derive(Drop)]
pub struct Tabler {
    kept: Kept<ROOM>,
}
