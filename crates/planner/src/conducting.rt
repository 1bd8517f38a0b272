//! A list of calls on a planner newly opened, and then a question.
ghost use Rattle.std.specs.Prelude.{length};
ghost use Rattle.scheme.specs.Task.{task_of};
ghost use Rattle.planner.specs.Asks.{Conducted, ConductedAlone, Later};
ghost use Rattle.planner.specs.Parts.{LeadsTo};
ghost use Rattle.rules.specs.Calls.Call.{ask as to_ask};
ghost use Rattle.planner.specs.Views.{call_of, calls_of};

use crate::types::{Answer, Planner, Request};
use chooser::{Chooser, Terms};
use rounds::Question;
use scheme::Refusal;
use tariff::Tariff;

impl<T: Tariff, C: Chooser> Planner<T, C> {
    /// Opens the planner, makes the calls of a list, letting go of what they answer, and asks a question.
    pub fn conduct(
        &mut self,
        requests: &[Request<'_, T>],
        terms: &Terms<'_, T>,
        order: &mut [u8],
    ) -> Result<Answer<T::Value>, Refusal>
        ensures conducted { Conducted T.Tariff.scale C.Chooser.room (calls_of requests.now) terms.now.prices.now terms.now.bars (length order.old) result order.new (task_of self.new.scheme) (C.Chooser.kept self.new.chooser) }
        ensures later { Later result order.old order.new }
        ensures alone { ConductedAlone T.Tariff.scale C.Chooser.room (calls_of requests.now) terms.now.prices.now terms.now.bars order.old result order.new (task_of self.new.scheme) (C.Chooser.kept self.new.chooser) }
    {
        self.open();
        for request in requests {
            self.obey(request);
        }
        self.ask(terms, order)
    }

    /// Makes one call of a list.
    fn obey(&mut self, request: &Request<'_, T>)
        ensures { LeadsTo T.Tariff.scale C.Chooser.room C.Chooser.kept self.old (call_of request.now) self.new }
    {
        match request {
            Request::Enter { work } => {
                let _ = self.enter(*work);
            }
            Request::Amend { number, work } => {
                let _ = self.amend(*number, *work);
            }
            Request::Stand { item } => {
                let _ = self.stand(*item);
            }
            Request::Want { item } => {
                let _ = self.want(*item);
            }
            Request::Waive { item } => {
                let _ = self.waive(*item);
            }
            Request::Mark { terms, paper } => {
                let _ = self.mark(terms, paper);
            }
            Request::Ask { terms, places } => self.put(terms, *places),
        }
    }

    /// Puts a question for which no list was lent: its order is not written.
    fn put(&mut self, terms: &Terms<'_, T>, places: usize)
        ensures { LeadsTo T.Tariff.scale C.Chooser.room C.Chooser.kept self.old (to_ask terms.now.prices.now terms.now.bars places) self.new }
    {
        let question = Question {
            scheme: &self.scheme,
            terms: *terms,
        };
        let _ = question.put(places, &mut self.chooser);
    }
}
