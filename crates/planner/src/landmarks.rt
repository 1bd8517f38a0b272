//! What a planner holds: its scheme, and the landmarks that it keeps.
ghost use Rattle.std.specs.Prelude.{◌≡◌, ◌<◌, ◌≤◌, length, MatchOption, slice_index_or};
ghost use Rattle.scheme.specs.Task.{task_of};
ghost use Rattle.planner.specs.Landmarks.{AllLandmarks, Copies};

use crate::types::Planner;
use chooser::Chooser;
use scheme::{Refusal, Scheme};
use sets::Set;
use tariff::Tariff;

impl<T: Tariff, C: Chooser> Planner<T, C> {
    /// The scheme that the planner is above.
    pub fn scheme(&self) -> &Scheme
        ensures { result.now ≡ self.now.scheme }
    {
        &self.scheme
    }

    /// How many landmarks are kept. Every kept set is one.
    pub fn landmarks(&self) -> usize
        ensures count { result ≡ length (C.Chooser.kept self.now.chooser) }
        ensures landmarks { AllLandmarks (task_of self.now.scheme) (C.Chooser.kept self.now.chooser) }
    {
        self.chooser.count()
    }

    /// The kept landmark at a place, counted from 0.
    pub fn landmark(&self, place: usize) -> Option<Set>
        ensures { MatchOption result (length (C.Chooser.kept self.now.chooser) ≤ place) (λ s. (place < length (C.Chooser.kept self.now.chooser)) × (s ≡ slice_index_or (C.Chooser.kept self.now.chooser) place s)) }
    {
        self.chooser.read(place)
    }

    /// Copies the kept landmarks, in order, into the first places, each as the number of its set, and answers how many there are. Later
    /// places stay.
    pub fn copy_landmarks(&self, places: &mut [u64]) -> Result<usize, Refusal>
        ensures { Copies (C.Chooser.kept self.now.chooser) places.old result places.new }
    {
        let count = self.chooser.count();
        if places.len() < count {
            return Err(Refusal::ListTooShort);
        }
        let first = &mut places[..count];
        // By place: a chooser is read by place, it lends no list of its landmarks.
        for (place, number) in first.iter_mut().enumerate() {
            if let Some(landmark) = self.chooser.read(place) {
                *number = landmark.bits();
            }
        }
        Ok(count)
    }
}
