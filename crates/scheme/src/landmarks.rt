//! Landmarks: sets of works of which every order that leaves the wanted items standing has one.
ghost use Rattle.std.specs.Prelude.{◌<◌, length};
ghost use Rattle.sets.specs.Member.{Members};
ghost use Rattle.scheme.specs.Landmarks.{Grown, Leaves, DrawnFrom};
ghost use Rattle.scheme.specs.Task.{task_of};

use crate::Scheme;
use sets::Set;

impl Scheme {
    /// The landmark drawn from a set of works, if the set is not sufficient: it shares a work with every order that can be carried
    /// out and leaves every wanted item standing, and none with the set.
    pub fn landmark(&self, chosen: Set) -> Option<Set>
        ensures { DrawnFrom (task_of self.now) chosen result }
    {
        if self.is_sufficient(chosen) {
            return None;
        }
        let grown = self.grown(chosen);
        Some(self.leaving(self.reach(grown)))
    }

    /// A set of works with each other work, in rising number, with which it stays insufficient.
    fn grown(&self, chosen: Set) -> Set
        ensures { Grown (task_of self.now) chosen result }
    {
        let mut grown = chosen;
        for w in 0..self.works.len() {
            let more = grown.with(w);
            if !self.is_sufficient(more) {
                grown = more;
            }
        }
        grown
    }

    /// The works whose needs lie among some items and whose gives do not.
    #[tactic(auto, using(sets::proofs::Laws::none_has))]
    fn leaving(&self, items: Set) -> Set
        ensures { Members result (λ w. (w < length (task_of self.now).works) × Leaves (task_of self.now).works items w) }
    {
        let mut found = Set::empty();
        for (w, work) in self.works.iter().enumerate() {
            if work.needs.is_subset(items) && !work.gives.is_subset(items) {
                found = found.with(w);
            }
        }
        found
    }
}
