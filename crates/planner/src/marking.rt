//! Marking a candidate's order.
ghost use Rattle.std.specs.Prelude.{◌<◌, length};
ghost use Rattle.scheme.specs.Task.{task_of};
ghost use Rattle.tariff.specs.Amounts.{All};
ghost use Rattle.planner.specs.Papers.{AssuredMarking, Compares, FirstFlaw, Marks};

use crate::types::Planner;
use chooser::{Chooser, Terms};
use rounds::Question;
use scheme::{Refusal, Scheme};
use sets::Set;
use tariff::Tariff;

/// What keeps an order from being a plan.
#[derive(Clone, Copy, PartialEq, Eq, Debug)]
pub enum Flaw {
    /// The work at this place is barred.
    Barred { place: usize },
    /// The work at this place needs items that do not stand; this is the lowest of them.
    Lacking { place: usize, item: usize },
    /// Wanted items do not stand at the end; this is the lowest of them.
    Missing { item: usize },
}

/// The verdict on a candidate's order: its first flaw, or its total beside the cheapest.
#[derive(Clone, Copy, PartialEq, Eq, Debug)]
pub enum Verdict<V> {
    Flawed(Flaw),
    Dearer(V),
    Cheapest(V),
}

impl<T: Tariff, C: Chooser> Planner<T, C> {
    /// Marks a candidate's order: its first flaw, or its total and whether a cheaper order does the same.
    pub fn mark(&mut self, terms: &Terms<'_, T>, paper: &[u8]) -> Result<Verdict<T::Value>, Refusal>
        ensures marks { Marks T.Tariff.scale C.Chooser.room (task_of self.old.scheme) (C.Chooser.kept self.old.chooser) terms.now.prices.now terms.now.bars paper.now result (task_of self.new.scheme) (C.Chooser.kept self.new.chooser) }
        ensures assured { AssuredMarking T.Tariff.scale C.Chooser.room (task_of self.old.scheme) terms.now.prices.now terms.now.bars paper.now (C.Chooser.kept self.old.chooser) result (C.Chooser.kept self.new.chooser) }
    {
        let question = Question {
            scheme: &self.scheme,
            terms: *terms,
        };
        question.check_paper(paper)?;
        if let Some(flaw) = first_flaw(&self.scheme, terms.bars, paper) {
            return Ok(Verdict::Flawed(flaw));
        }
        let found = question.find(&mut self.chooser)?;
        Ok(compare(terms, found.set, paper))
    }
}

/// The first flaw of a paper of held works, if it is no plan. One pass, which ends at the flaw: a look for a barred work before the works are
/// carried out would read the whole paper.
fn first_flaw(scheme: &Scheme, bars: Set, paper: &[u8]) -> Option<Flaw>
    requires { All (λ w. w < length (task_of scheme.now).works) paper.now }
    ensures { FirstFlaw (task_of scheme.now) bars paper.now result }
{
    let works = scheme.works();
    let mut held = scheme.standing();
    for (place, number) in paper.iter().enumerate() {
        let w = *number as usize;
        if bars.contains(w) {
            return Some(Flaw::Barred { place });
        }
        let work = works[w];
        if let Some(item) = work.needs.minus(held).lowest() {
            return Some(Flaw::Lacking { place, item });
        }
        held = held.union(work.gives);
    }
    let item = scheme.wanted().minus(held).lowest()?;
    Some(Flaw::Missing { item })
}

/// The total of a paper, beside that of the cheapest set.
fn compare<T: Tariff>(terms: &Terms<'_, T>, best: Set, paper: &[u8]) -> Verdict<T::Value>
    ensures { Compares T.Tariff.scale terms.now.prices.now best paper.now result }
{
    let total = terms.order_cost(paper);
    if T::is_less(terms.set_cost(best), total) {
        Verdict::Dearer(total)
    } else {
        Verdict::Cheapest(total)
    }
}
