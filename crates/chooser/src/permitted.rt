//! The works that may be chosen, and those of them that a draw need look at.
ghost use Rattle.std.specs.Prelude.{◌^◌, ◌<◌, length};
ghost use Rattle.sets.specs.Member.{Has, Members};
ghost use Rattle.chooser.specs.Least.{Allowed, Capped};
ghost use Rattle.chooser.specs.Steps.{Gathered, Held};

use crate::Terms;
use sets::Set;
use tariff::Tariff;

impl<T: Tariff> Terms<'_, T> {
    /// The works that have a price within the ceiling and are not barred.
    pub fn allowed(&self) -> Set
        ensures { Members result (λ w. Allowed T.Tariff.scale self.now.prices.now self.now.bars w × (w < 64)) }
    {
        capped::<T>(self.prices).minus(self.bars)
    }

    /// The works that a draw need look at: the allowed ones that are in some kept set.
    pub fn candidates(&self, kept: &[Set]) -> Set
        ensures { Members result (λ w. Allowed T.Tariff.scale self.now.prices.now self.now.bars w × Held kept.now w) }
    {
        gather(self.allowed(), kept)
    }
}

/// The members of a set that are in some kept set.
fn gather(free: Set, kept: &[Set]) -> Set
    ensures { Gathered free kept.now result }
{
    let mut found = Set::empty();
    for one in kept {
        found = found.union(shared(free, *one));
    }
    found
}

/// The members that both sets have; those of a set are below 64.
fn shared(free: Set, one: Set) -> Set
    ensures members { Members result (λ w. Has free w × Has one w) }
    ensures low { one.bits < 2 ^ 64 }
{
    free.intersection(one)
}

/// The works that have a price within the ceiling.
fn capped<T: Tariff>(prices: &[T::Value]) -> Set
    ensures { Members result (λ w. (w < length prices.now) × Capped T.Tariff.scale prices.now w × (w < 64)) }
{
    let mut found = Set::empty();
    for (w, price) in prices.iter().enumerate() {
        if T::is_price(*price) {
            found = found.with(w);
        }
    }
    found
}
