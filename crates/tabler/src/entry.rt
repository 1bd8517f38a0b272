//! One entry of the table, from those before it.
ghost use Rattle.std.specs.Prelude.{◌^◌, ◌<◌, ◌≤◌, length};
ghost use Rattle.tabler.specs.Table.{Best, Filled, Joins, Turn, Unmet};

use crate::table::Draw;
use sets::Set;
use tariff::Tariff;

/// A subset of the sets of a draw, and the table, which holds the best choices for the subsets with lower numbers.
#[derive(Drop)]
pub(crate) struct Entry<'a, T: Tariff> {
    pub(crate) draw: &'a Draw<'a, T>,
    pub(crate) table: &'a [Set],
    pub(crate) subset: Set,
    ghost low: { subset.bits < 2 ^ length draw.now.sets.now },
    ghost long: { subset.bits < length table.now },
    ghost filled: { ∥ Filled T.Tariff.scale draw.now.terms.prices.now draw.now.free draw.now.sets.now table.now subset.bits ∥₁ },
}

impl<T: Tariff> Entry<'_, T> {
    /// The best choice for the subset: where the subset has a place, the choice has a work of the set there, and with it the best choice
    /// for the sets that lack the work.
    pub(crate) fn best(&self) -> Set
        ensures { Best T.Tariff.scale self.now.draw.now.terms.prices.now self.now.draw.now.free self.now.draw.now.sets.now self.now.subset result }
    {
        match self.subset.lowest() {
            Some(place) => {
                let works = self.draw.free.intersection(self.draw.sets[place]);
                works
                    .iter()
                    .fold(self.draw.free, |best, w| self.tried(best, w))
            }
            None => Set::empty(),
        }
    }

    /// The first of a choice for the subset and of the one that has a work.
    fn tried(&self, best: Set, w: usize) -> Set
        ensures { Turn T.Tariff.scale self.now.draw.now.terms.prices.now self.now.draw.now.free self.now.draw.now.sets.now self.now.table.now self.now.subset best w result }
    {
        self.draw.earlier(best, self.joined(w))
    }

    /// A work, with the table's choice for the sets of the subset that lack the work.
    fn joined(&self, w: usize) -> Set
        ensures { w < 64 → Joins self.now.draw.now.sets.now self.now.table.now self.now.subset w result }
    {
        let left = self.unmet(w);
        self.table[left.bits() as usize].with(w)
    }

    /// The places of the subset at which the set lacks a work.
    fn unmet(&self, w: usize) -> Set
        ensures places { Unmet self.now.draw.now.sets.now self.now.subset w result }
        ensures number { result.bits ≤ self.now.subset.bits }
    {
        let mut left = self.subset;
        'each: for (place, one) in self.draw.sets.iter().enumerate() {
            if one.contains(w) {
                left = left.without(place);
            }
        }
        left
    }
}
