//! The kept set that a node is split on.
ghost use Rattle.searcher.specs.Nodes.{Unmet};

use crate::draw::Draw;
use crate::node::Node;
use sets::Set;
use tariff::Tariff;

impl<T: Tariff> Draw<'_, T> {
    /// A kept set that the chosen works do not meet, if there is one: the one with the fewest free works, and the first of equals.
    pub(crate) fn branching_set(&self, node: Node) -> Option<Set>
        ensures { Unmet self.now.sets.now node.chosen result }
    {
        self.sets
            .iter()
            .copied()
            .filter(|one| !node.chosen.intersects(*one))
            .min_by_key(|one| one.intersection(node.free).len())
    }
}
