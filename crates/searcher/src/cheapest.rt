//! The cheapest work of a set.
ghost use Rattle.std.specs.Prelude.{◌≡◌, ℕ, ◌<◌, MatchOption};
ghost use Rattle.sets.specs.Member.{Has};
ghost use Rattle.chooser.specs.Least.{Capped};
ghost use Rattle.searcher.specs.Costs.{Cheaper, Cheapest, work_cost};

use crate::draw::Draw;
use sets::Set;
use tariff::Tariff;

impl<T: Tariff> Draw<'_, T> {
    /// The cheapest work of a set, if it has one: the lowest of equals.
    pub(crate) fn cheapest(&self, set: Set) -> Option<usize>
        ensures { MatchOption result ((k : ℕ) → Has set k → ⊥) (Cheapest T.Tariff.scale self.now.terms.prices.now set) }
    {
        set.iter().reduce(|v, w| self.cheaper(v, w))
    }

    /// The cheaper of two works.
    fn cheaper(&self, v: usize, w: usize) -> usize
        ensures { Cheaper T.Tariff.scale self.now.terms.prices.now v w result }
    {
        if T::is_less(self.cost_of(w), self.cost_of(v)) {
            w
        } else {
            v
        }
    }

    /// What one work costs.
    fn cost_of(&self, w: usize) -> T::Value
        ensures { w < 64 → Capped T.Tariff.scale self.now.terms.prices.now w → T.Tariff.scale.amount result ≡ work_cost T.Tariff.scale self.now.terms.prices.now w }
    {
        self.terms.set_cost(Set::only(w))
    }
}
