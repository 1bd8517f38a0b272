//! The sets that a chooser keeps.
ghost use Rattle.std.specs.Prelude.{◌≡◌, ◌<◌, ◌≤◌, [], ◌∷◌, ◌++◌, length, IfOk, MatchOption, MatchResult, slice_index_or, vec_len, vec_capacity};

use crate::Full;
use sets::Set;
use std::alloc::{AllocError, Global};

/// At most `N` sets, in the order in which they were added. Their places are reserved from the start.
#[derive(Drop)]
pub struct Kept<const N: usize> {
    sets: Vec<Set>,
    ghost few: { vec_len sets ≤ N },
    ghost reserved: { N ≤ vec_capacity sets },
}

impl<const N: usize> Kept<N> {
    /// No sets, or an error where there is no memory for `N` of them.
    pub fn new(heap: Global) -> Result<Kept<N>, AllocError>
        ensures { IfOk result (λ k. k.sets.items ≡ []) }
    {
        let sets = Vec::with_capacity(heap, N)?;
        Ok(Kept { sets })
    }

    /// Lets go of every set.
    pub fn clear(&mut self)
        ensures { self.new.sets.items ≡ [] }
    {
        self.sets.clear();
    }

    /// Adds a set behind the others, if there is a place for it.
    pub fn add(&mut self, set: Set) -> Result<(), Full>
        ensures { MatchResult result (λ _. (length self.old.sets.items < N) × (self.new.sets.items ≡ self.old.sets.items ++ (set ∷ []))) (λ _. (length self.old.sets.items ≡ N) × (self.new.sets.items ≡ self.old.sets.items)) }
    {
        if self.sets.len() == N {
            return Err(Full);
        }
        self.sets.push_reserved(set);
        Ok(())
    }

    /// How many sets there are.
    pub fn count(&self) -> usize
        ensures value { result ≡ length self.now.sets.items }
        ensures bound { result ≤ N }
    {
        self.sets.len()
    }

    /// The set at a place, counted from 0.
    pub fn read(&self, place: usize) -> Option<Set>
        ensures { MatchOption result (length self.now.sets.items ≤ place) (λ s. (place < length self.now.sets.items) × (s ≡ slice_index_or self.now.sets.items place s)) }
    {
        self.sets.get(place).copied()
    }

    /// The sets in order.
    pub fn as_slice(&self) -> &[Set]
        ensures value { result.now ≡ self.now.sets.items }
        ensures bound { length result.now ≤ N }
    {
        self.sets.as_slice()
    }
}
