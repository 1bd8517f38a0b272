//! The cheapest sufficient set of unbarred works.
ghost use Rattle.std.specs.Prelude.{◌<◌, length};
ghost use Rattle.sets.specs.Member.{Members};
ghost use Rattle.scheme.specs.Task.{task_of};
ghost use Rattle.rules.specs.Rules.{Unbarred};
ghost use Rattle.rounds.specs.Steps.{Finds, Puts};

use crate::Question;
use chooser::Chooser;
use scheme::Refusal;
use sets::Set;
use tariff::Tariff;

/// The cheapest sufficient set of unbarred works, and the rounds that it took to find.
#[derive(Clone, Copy, PartialEq, Eq, Debug)]
pub struct Found {
    pub set: Set,
    pub rounds: usize,
}

impl<T: Tariff> Question<'_, T> {
    /// Puts the question for a list of this many places: finds the cheapest sufficient set of unbarred works, if nothing is wrong with
    /// what is asked. The order is not written.
    pub fn put<C: Chooser>(&self, places: usize, chooser: &mut C) -> Result<Found, Refusal>
        ensures { Puts T.Tariff.scale C.Chooser.room (task_of self.now.scheme.now) self.now.terms.prices.now self.now.terms.bars places (C.Chooser.kept chooser.old) result (C.Chooser.kept chooser.new) }
    {
        self.check(places)?;
        self.find(chooser)
    }

    /// Finds the cheapest sufficient set of unbarred works, if they are sufficient and the capacity is not spent.
    pub fn find<C: Chooser>(&self, chooser: &mut C) -> Result<Found, Refusal>
        ensures { Finds T.Tariff.scale C.Chooser.room (task_of self.now.scheme.now) self.now.terms.prices.now self.now.terms.bars (C.Chooser.kept chooser.old) result (C.Chooser.kept chooser.new) }
    {
        if !self.scheme.is_sufficient(self.unbarred()) {
            return Err(Refusal::OutOfReach);
        }
        let (found, rounds) = self.settle(chooser);
        let set = found.ok_or(Refusal::CapacitySpent)?;
        Ok(Found { set, rounds })
    }

    /// The held works that are not barred.
    fn unbarred(&self) -> Set
        ensures { Members result (λ w. (w < length (task_of self.now.scheme.now).works) × Unbarred self.now.terms.bars w) }
    {
        Set::below(self.scheme.works().len()).minus(self.terms.bars)
    }
}
