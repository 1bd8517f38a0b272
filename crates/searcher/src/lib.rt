//! A chooser that draws by branch and bound: it splits the sets of candidate works by whether they have a work, and leaves out
//! the parts that cannot hold the least set.
//!
//! - `making`: a searcher with places for 64 sets.
//! - `measuring`: how much a draw does.
//! - `choosing`: what it does as a chooser.
//! - `draw`: what a draw goes by.
//! - `search`: the walk over the nodes.
//! - `branching`: the kept set that a node is split on.
//! - `pruning`: the nodes that cannot better the best set so far.
//! - `bound`: lower bounds on the costs and the numbers of the sets of a node.
//! - `cheapest`: the cheapest work of a set.
//! - `node`: a part of the sets of works.
#![tactic(auto)]

mod bound;
mod branching;
mod cheapest;
mod choosing;
mod draw;
mod making;
mod measuring;
mod node;
mod pruning;
mod search;

use chooser::Kept;

/// How many sets a searcher can keep. That a set has 64 numbers and a scheme 64 works are limits of their own.
const ROOM: usize = 64;

/// A chooser for up to 64 sets. A draw allocates nothing.
#[derive(Drop)]
pub struct Searcher {
    kept: Kept<ROOM>,
}

#[cfg(test)]
mod tests;
