//! Rounds of a draw and a landmark, until the drawn set is sufficient.
ghost use Rattle.std.specs.Prelude.{◌+◌, ◌*◌, ◌≤◌};
ghost use Rattle.scheme.specs.Task.{task_of};
ghost use Rattle.rounds.specs.Steps.{Runs, Settles};

use crate::Question;
use chooser::Chooser;
use sets::Set;
use tariff::Tariff;

impl<T: Tariff> Question<'_, T> {
    /// One run, or two: one that spends the capacity over kept landmarks is followed by one from none. Answers what the last of them
    /// found and how many rounds there were in all.
    pub(crate) fn settle<C: Chooser>(&self, chooser: &mut C) -> (Option<Set>, usize)
        ensures ruled { Settles T.Tariff.scale C.Chooser.room (task_of self.now.scheme.now) self.now.terms.prices.now self.now.terms.bars (C.Chooser.kept chooser.old) result.0 (C.Chooser.kept chooser.new) result.1 }
        ensures few { result.1 ≤ 2 * (C.Chooser.room + 1) }
    {
        let kept = chooser.count();
        let (first, rounds) = self.run(chooser);
        if first.is_some() || kept == 0 {
            return (first, rounds);
        }
        chooser.clear();
        let (second, more) = self.run(chooser);
        (second, rounds + more)
    }

    /// One run: rounds over the kept landmarks, each of which draws a set and keeps the landmark of an insufficient one. Answers the
    /// drawn set that is sufficient, or none where the capacity was spent, and how many rounds there were.
    fn run<C: Chooser>(&self, chooser: &mut C) -> (Option<Set>, usize)
        ensures ruled { Runs T.Tariff.scale C.Chooser.room (task_of self.now.scheme.now) self.now.terms.prices.now self.now.terms.bars (C.Chooser.kept chooser.old) result.0 (C.Chooser.kept chooser.new) result.1 }
        ensures few { result.1 ≤ C.Chooser.room + 1 }
    {
        let mut rounds = 0;
        'round: loop {
            rounds += 1;
            // Over landmarks there is always a set to draw.
            let Some(drawn) = chooser.draw(&self.terms) else {
                return (None, rounds);
            };
            let Some(landmark) = self.scheme.landmark(drawn) else {
                return (Some(drawn), rounds);
            };
            if chooser.add(landmark).is_err() {
                return (None, rounds);
            }
        }
    }
}
