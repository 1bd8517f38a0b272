//! Lower bounds on the costs and the numbers of the sets of a node. Both count kept sets that are not met and share no free work.
ghost use Rattle.std.specs.Prelude.{ℕ, ◌⊎◌};
ghost use Rattle.sets.specs.declared.Set.{Set as Works};
ghost use Rattle.sets.specs.Member.{Has, Meet};
ghost use Rattle.tariff.specs.Amounts.{All};
ghost use Rattle.chooser.specs.Least.{SetCapped};
ghost use Rattle.searcher.specs.Costs.{Bounds, Floor, Paired, Picked, Taken};
ghost use Rattle.searcher.specs.Nodes.{Inside};

use crate::draw::Draw;
use crate::node::Node;
use sets::Set;
use tariff::Tariff;

impl<T: Tariff> Draw<'_, T> {
    /// Works whose cost no set of a node that meets the kept sets falls below: the cheapest free work of each set that counts.
    pub(crate) fn lower_bound(&self, node: Node) -> Set
        ensures { SetCapped T.Tariff.scale self.now.terms.prices.now node.free → Bounds T.Tariff.scale self.now.terms.prices.now self.now.sets.now node result }
    {
        self.bound(node, |works| self.cheapest(works))
    }

    /// A set whose number no set of a node that meets the kept sets falls below: the lowest free work of each set that counts.
    pub(crate) fn number_bound(&self, node: Node) -> Set
        ensures { Floor self.now.sets.now node result }
    {
        self.bound(node, |works| works.lowest())
    }

    /// The chosen works, and a free work of each of some kept sets that are not met and share no free work.
    fn bound<F: Fn(Set) -> Option<usize>>(&self, node: Node, pick: F) -> Set
        requires { F.IsAlwaysCallable pick }
        ensures taken { (k : ℕ) → Has result k → Has node.chosen k ⊎ Taken (λ s w. F.post pick s (Some w)) node k }
        ensures paired { (o : Works) → Inside node o → All (Meet o) self.now.sets.now → Paired (Picked (λ s w. F.post pick s (Some w)) node) result o }
    {
        let mut bound = node.chosen;
        let mut rest = node.free;
        for one in self.sets {
            if let Some(w) = node.own_works(rest, *one).and_then(&pick) {
                bound = bound.with(w);
                rest = rest.minus(*one);
            }
        }
        bound
    }
}
