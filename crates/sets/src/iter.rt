//! The members of a set, one after another.
ghost use Rattle.std.specs.Prelude.{◌≡◌};
ghost use Rattle.sets.specs.Steps.{Next};
ghost use Rattle.std.specs.Iterator.{at_most};

use crate::Set;

/// The members that are still to come, in rising order.
#[derive(Drop)]
pub struct SetIter {
    rest: Set,
}

impl Set {
    /// The members in rising order.
    pub fn iter(self) -> SetIter
        ensures { result.rest ≡ self }
    {
        SetIter { rest: self }
    }
}

impl Iterator for SetIter {
    type Item = usize;

    ghost next_gives = { λ s r t. Next s.rest r t.rest };

    ghost remaining = { λ s. at_most s.rest.bits };

    #[tactic(auto, using(crate::proofs::Laws::proper_lt))]
    fn next(&mut self) -> Option<usize> {
        let k = self.rest.lowest()?;
        self.rest = self.rest.without(k);
        Some(k)
    }
}
