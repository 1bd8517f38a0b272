//! The nodes that cannot better the best set so far.
ghost use Rattle.std.specs.Prelude.{IsTrue, MatchBool};
ghost use Rattle.chooser.specs.Least.{SetCapped};
ghost use Rattle.searcher.specs.Costs.{Floor, Outdoes};
ghost use Rattle.searcher.specs.Nodes.{Best, Better, Of, Settled};

use crate::draw::Draw;
use crate::node::Node;
use sets::Set;
use std::cmp::Ordering;
use tariff::Tariff;

impl<T: Tariff> Draw<'_, T> {
    /// Whether the best set so far is known to precede each set of a node that meets the kept sets.
    pub(crate) fn is_beaten(&self, node: Node, best: Option<Set>) -> bool
        requires node { Of self.now.works node }
        requires best { Best self.now.works self.now.sets.now best }
        ensures { MatchBool result (Settled T.Tariff.scale self.now.terms.prices.now self.now.sets.now best node) (Better T.Tariff.scale self.now.terms.prices.now node.chosen best) }
    {
        let Some(set) = best else {
            return false;
        };
        self.terms.precedes(set, node.chosen) || self.outdoes(set, node, self.lower_bound(node))
    }

    /// Whether a set costs less than a bound, or no more while its number is not above that of any set of a node that meets the kept sets.
    fn outdoes(&self, set: Set, node: Node, bound: Set) -> bool
        ensures { SetCapped T.Tariff.scale self.now.terms.prices.now set → SetCapped T.Tariff.scale self.now.terms.prices.now bound → IsTrue result → Outdoes T.Tariff.scale self.now.terms.prices.now self.now.sets.now node set bound }
    {
        match self.terms.compare_costs(set, bound) {
            Ordering::Less => true,
            Ordering::Equal => self.is_floor(node, set),
            Ordering::Greater => false,
        }
    }

    /// Whether the number of a set is known not to be above that of any set of a node that meets the kept sets.
    fn is_floor(&self, node: Node, set: Set) -> bool
        ensures { IsTrue result → Floor self.now.sets.now node set }
    {
        set.bits() <= self.number_bound(node).bits()
    }
}
