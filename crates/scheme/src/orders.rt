//! Orders of works: carrying one out, and the order of a set.
ghost use Rattle.std.specs.Prelude.{◌≤◌, length, MatchOption};
ghost use Rattle.scheme.specs.Carrying.{Carries};
ghost use Rattle.scheme.specs.Placing.{Filled, Orders};
ghost use Rattle.scheme.specs.Ready.{FirstReady, NoneReady};
ghost use Rattle.scheme.specs.Task.{task_of};

use crate::{Refusal, Scheme, Stop};
use sets::Set;

impl Scheme {
    /// Carries out an order: the items that stand after it, or the first place at fault.
    pub fn carry_out(&self, order: &[u8]) -> Result<Set, Stop>
        ensures { Carries (task_of self.now).works (task_of self.now).standing order.now result }
    {
        let mut held = self.standing;
        for (place, number) in order.iter().enumerate() {
            let work = self
                .works
                .get(*number as usize)
                .ok_or(Stop::NotHeld { place })?;
            if let Some(item) = work.needs.minus(held).lowest() {
                return Err(Stop::Lacking { place, item });
            }
            held = held.union(work.gives);
        }
        Ok(held)
    }

    /// Writes the order of a set of works into the first places: at each step its lowest-numbered unplaced work whose needs stand.
    /// Answers how many were placed; later places stay.
    #[tactic(auto, using(crate::proofs::Placings::serves))]
    pub fn order(&self, chosen: Set, places: &mut [u8]) -> Result<usize, Refusal>
        ensures { Orders (task_of self.now) chosen places.old result places.new }
    {
        if places.len() < self.works.len() {
            return Err(Refusal::ListTooShort);
        }
        Ok(self.place(chosen, places))
    }

    /// Places a set of works; answers how many were placed.
    fn place(&self, chosen: Set, places: &mut [u8]) -> usize
        requires { length (task_of self.now).works ≤ length places.old }
        ensures { Filled (task_of self.now).works chosen (task_of self.now).standing places.old result places.new }
    {
        let mut left = chosen;
        let mut held = self.standing;
        for (placed, place) in places.iter_mut().enumerate() {
            let Some(w) = self.first_ready(left, held) else {
                return placed;
            };
            *place = w as u8;
            held = held.union(self.works[w].gives);
            left = left.without(w);
        }
        places.len()
    }

    /// The lowest-numbered work of a set whose needs are held.
    fn first_ready(&self, left: Set, held: Set) -> Option<usize>
        ensures { MatchOption result (NoneReady (task_of self.now).works left held (length (task_of self.now).works)) (λ w. FirstReady (task_of self.now).works left held w) }
    {
        self.works
            .iter()
            .enumerate()
            .position(|(w, work)| left.contains(w) && work.needs.is_subset(held))
    }
}
