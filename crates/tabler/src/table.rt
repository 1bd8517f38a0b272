//! The table of a draw: for each subset of the kept sets, the least set of works that meets those in it. A subset is itself a set, of
//! the places of its kept sets, and its number is its place in the table.
ghost use Rattle.std.specs.Prelude.{◌≡◌, ◌-◌, ◌^◌, ◌≤◌, length, MatchBool};
ghost use Rattle.sets.specs.Member.{Meet, Sub};
ghost use Rattle.tariff.specs.Amounts.{All};
ghost use Rattle.chooser.specs.Least.{SetCapped};
ghost use Rattle.tabler.specs.Table.{Best, Earlier};
ghost use Rattle.tabler.specs.declared.TheConstants.{ROOM};

use crate::ROOM;
use crate::entry::Entry;
use chooser::Terms;
use sets::Set;
use tariff::Tariff;

/// A draw from at most twelve sets, by the works of `free`: these meet each of the sets, and none of them has a price above the ceiling.
#[derive(Drop)]
pub(crate) struct Draw<'a, T: Tariff> {
    pub(crate) terms: Terms<'a, T>,
    pub(crate) free: Set,
    pub(crate) sets: &'a [Set],
    ghost few: { length sets.now ≤ ROOM },
    ghost capped: { ∥ SetCapped T.Tariff.scale terms.prices.now free ∥₁ },
    ghost met: { ∥ All (Meet free) sets.now ∥₁ },
}

impl<T: Tariff> Draw<'_, T> {
    /// The least of the subsets of `free` that meet each set.
    pub(crate) fn least(&self) -> Set
        ensures { Best T.Tariff.scale self.now.terms.prices.now self.now.free self.now.sets.now (record { bits = 2 ^ length self.now.sets.now - 1 }) result }
    {
        let mut table = [Set::empty(); 1 << ROOM];
        let end = self.subsets();
        // Fixed memory, as a draw allocates nothing. An entry is made from those before it, so its number is needed.
        'fill: for m in 0..end {
            let subset = Set::from_bits(m as u64);
            let entry = Entry {
                draw: &*self,
                table: &table,
                subset,
            };
            table[m] = entry.best();
        }
        table[end - 1]
    }

    /// How many subsets the sets have.
    fn subsets(&self) -> usize
        ensures value { result ≡ 2 ^ length self.now.sets.now }
        ensures bounds { (1 ≤ result) × (result ≤ 2 ^ ROOM) }
    {
        1 << self.sets.len()
    }

    /// The first of two sets of works of `free`.
    pub(crate) fn earlier(&self, a: Set, b: Set) -> Set
        ensures { Sub a self.now.free → Sub b self.now.free → Earlier T.Tariff.scale self.now.terms.prices.now a b result }
    {
        if self.terms.precedes(a, b) { a } else { b }
    }
}

/// Whether a set meets every one of some sets.
pub(crate) fn meets_all(free: Set, sets: &[Set]) -> bool
    ensures { MatchBool result (All (Meet free) sets.now) (All (Meet free) sets.now → ⊥) }
{
    sets.iter().all(|one| free.intersects(*one))
}
