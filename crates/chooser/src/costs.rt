//! The totals of sets and of orders of works.
ghost use Rattle.std.specs.Prelude.{◌≡◌, ℕ, ◌≤◌, List, length};
ghost use Rattle.std.specs.Iterator.{Drains, IsFinite};
ghost use Rattle.chooser.specs.Least.{OrderCapped, SetCapped, order_cost, set_cost};
ghost use Rattle.chooser.specs.Steps.{Charged};

use crate::Terms;
use sets::Set;
use tariff::Tariff;

impl<T: Tariff> Terms<'_, T> {
    /// The total of a set of works, none of which has a price above the ceiling. A work past the end of the prices costs nothing.
    pub fn set_cost(&self, set: Set) -> T::Value
        ensures { SetCapped T.Tariff.scale self.now.prices.now set → T.Tariff.scale.amount result ≡ set_cost T.Tariff.scale self.now.prices.now set }
    {
        self.total(set.iter())
    }

    /// The total of an order of at most 64 works, none of which has a price above the ceiling: a repeated work is charged each time.
    pub fn order_cost(&self, order: &[u8]) -> T::Value
        ensures { length order.now ≤ 64 → OrderCapped T.Tariff.scale self.now.prices.now order.now → T.Tariff.scale.amount result ≡ order_cost T.Tariff.scale self.now.prices.now order.now }
    {
        self.total(order.iter().map(|number| *number as usize))
    }

    /// The total of the works that an iterator yields, of which there are at most 64 and none has a price above the ceiling.
    fn total<I: Iterator<Item = usize> + Drop>(&self, works: I) -> T::Value
        requires can { I.can_next works }
        requires ends { IsFinite (I.remaining works) }
        ensures { (xs : List ℕ) × Drains I.next_gives works xs × (length xs ≤ 64 → OrderCapped T.Tariff.scale self.now.prices.now xs → T.Tariff.scale.amount result ≡ order_cost T.Tariff.scale self.now.prices.now xs) }
    {
        let mut total = T::nothing();
        for w in works {
            total = self.charge(total, w);
        }
        total
    }

    /// A total with the price of one work more.
    fn charge(&self, total: T::Value, w: usize) -> T::Value
        ensures { Charged T.Tariff.scale self.now.prices.now total w result }
    {
        match self.prices.get(w) {
            Some(price) => T::join(total, *price),
            None => total,
        }
    }
}
