//! What a call is refused for before anything is done.
ghost use Rattle.scheme.specs.Task.{task_of};
ghost use Rattle.rounds.specs.Checks.{Priced, Keeps, Checked, ListsHeld, Reads};

use crate::Question;
use scheme::{Refusal, Scheme};
use sets::Set;
use tariff::Tariff;

impl<T: Tariff> Question<'_, T> {
    /// Whether a question can be put: one price within the ceiling for each work, only held works barred, and a list for the order as
    /// long as the works are many.
    pub fn check(&self, places: usize) -> Result<(), Refusal>
        ensures { Checked T.Tariff.scale (task_of self.now.scheme.now) self.now.terms.prices.now self.now.terms.bars places result }
    {
        self.check_prices()?;
        self.check_bars()?;
        if places < self.scheme.works().len() {
            return Err(Refusal::ListTooShort);
        }
        Ok(())
    }

    /// Whether a candidate's order can be marked: one price within the ceiling for each work, at most 64 works on the paper, and only
    /// held works barred and on the paper.
    pub fn check_paper(&self, paper: &[u8]) -> Result<(), Refusal>
        ensures { Reads T.Tariff.scale (task_of self.now.scheme.now) self.now.terms.prices.now self.now.terms.bars paper.now result }
    {
        self.check_prices()?;
        if paper.len() > Scheme::LIMIT {
            return Err(Refusal::PaperTooLong);
        }
        self.check_bars()?;
        self.check_numbers(paper)
    }

    /// Whether there is one price for each work, each within the ceiling. A wrong count is told first.
    fn check_prices(&self) -> Result<(), Refusal>
        ensures { Priced T.Tariff.scale (task_of self.now.scheme.now) self.now.terms.prices.now result }
    {
        let count = self.scheme.works().len();
        let mut ceiling = Ok(());
        // A rule of the project: one pass over the prices with their index looks at the count and at the ceiling.
        for (place, price) in self.terms.prices.iter().enumerate() {
            if place >= count {
                return Err(Refusal::PriceCount);
            }
            if !T::is_price(*price) {
                ceiling = Err(Refusal::PriceTooHigh);
            }
        }
        if self.terms.prices.len() < count {
            return Err(Refusal::PriceCount);
        }
        ceiling
    }

    /// Whether every barred work is held.
    fn check_bars(&self) -> Result<(), Refusal>
        ensures { Keeps (task_of self.now.scheme.now) self.now.terms.bars result }
    {
        let held = Set::below(self.scheme.works().len());
        if !self.terms.bars.is_subset(held) {
            return Err(Refusal::NoSuchWork);
        }
        Ok(())
    }

    /// Whether every work of a paper is held.
    fn check_numbers(&self, paper: &[u8]) -> Result<(), Refusal>
        ensures { ListsHeld (task_of self.now.scheme.now) paper.now result }
    {
        let count = self.scheme.works().len();
        if !paper.iter().all(|number| (*number as usize) < count) {
            return Err(Refusal::NoSuchWork);
        }
        Ok(())
    }
}
