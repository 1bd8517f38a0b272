//! What a set of works can make stand.
ghost use Rattle.std.specs.Prelude.{length, MatchBool};
ghost use Rattle.sets.specs.Member.{Has};
ghost use Rattle.scheme.specs.Pass.{Pass};
ghost use Rattle.scheme.specs.Reach.{Reach, Sufficient};
ghost use Rattle.scheme.specs.Task.{task_of};

use crate::Scheme;
use sets::Set;

impl Scheme {
    /// The reach of a set of works: the smallest set that holds the standing items and the gives of each of them whose needs it holds.
    #[tactic(auto, using(sets::proofs::Laws::sub_le))]
    pub fn reach(&self, chosen: Set) -> Set
        ensures { Reach (task_of self.now).works (Has chosen) (task_of self.now).standing result }
    {
        let mut held = self.standing;
        'grow: loop {
            let next = self.pass(chosen, held);
            if next == held {
                return held;
            }
            held = next;
        }
    }

    /// Whether a set of works is sufficient: whether its reach holds every wanted item.
    pub fn is_sufficient(&self, chosen: Set) -> bool
        ensures { MatchBool result (Sufficient (task_of self.now) (Has chosen)) (Sufficient (task_of self.now) (Has chosen) → ⊥) }
    {
        self.wanted.is_subset(self.reach(chosen))
    }

    /// The items held and, in one pass through the works, the gives of each chosen one whose needs are held.
    fn pass(&self, chosen: Set, from: Set) -> Set
        ensures { Pass (task_of self.now).works (Has chosen) (length (task_of self.now).works) from result }
    {
        let mut held = from;
        for (w, work) in self.works.iter().enumerate() {
            if chosen.contains(w) && work.needs.is_subset(held) {
                held = held.union(work.gives);
            }
        }
        held
    }
}
