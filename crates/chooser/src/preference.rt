//! Which of two sets of works comes first.
ghost use Rattle.std.specs.Prelude.{MatchBool};
ghost use Rattle.chooser.specs.Least.{Precedes, SetCapped};
ghost use Rattle.chooser.specs.Steps.{Compared};

use crate::Terms;
use sets::Set;
use std::cmp::Ordering;
use tariff::Tariff;

impl<T: Tariff> Terms<'_, T> {
    /// Whether a set of works comes before another or is the same: by total, then by set number. No work of either has a price above
    /// the ceiling.
    // Premises on the two sets that are passed, of which no type here could tell it.
    pub fn precedes(&self, a: Set, b: Set) -> bool
        ensures { SetCapped T.Tariff.scale self.now.prices.now a → SetCapped T.Tariff.scale self.now.prices.now b → MatchBool result (Precedes T.Tariff.scale self.now.prices.now a b) (Precedes T.Tariff.scale self.now.prices.now a b → ⊥) }
    {
        self.compare_costs(a, b).then(a.cmp(&b)).is_le()
    }

    /// How the totals of two sets of works compare.
    pub fn compare_costs(&self, a: Set, b: Set) -> Ordering
        ensures { SetCapped T.Tariff.scale self.now.prices.now a → SetCapped T.Tariff.scale self.now.prices.now b → Compared T.Tariff.scale self.now.prices.now a b result }
    {
        let first = self.set_cost(a);
        let second = self.set_cost(b);
        if T::is_less(first, second) {
            Ordering::Less
        } else if T::is_less(second, first) {
            Ordering::Greater
        } else {
            Ordering::Equal
        }
    }
}
