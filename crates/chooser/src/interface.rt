//! What every chooser promises.
ghost use Rattle.std.specs.Prelude.{◌≡◌, ℕ, ◌<◌, ◌≤◌, List, [], ◌∷◌, ◌++◌, length, MatchOption, MatchResult, slice_index_or};
ghost use Rattle.sets.specs.declared.Set.{Set};
ghost use Rattle.chooser.specs.Least.{Draws};

use crate::Terms;
use sets::Set;
use tariff::Tariff;

/// No place is left for another set.
#[derive(Clone, Copy, PartialEq, Eq, Debug)]
pub struct Full;

/// A solver of minimum-cost hitting sets: it keeps a list of work sets and draws the least set of works that meets each of them.
pub trait Chooser {
    /// How many sets it can keep.
    const LIMIT: usize;

    // The work sets that it keeps, in the order in which they were added.
    ghost kept: { Self → List Set };

    // How many it can keep.
    ghost room: { ℕ };

    /// How many sets it can keep: from 1 to 4,096.
    fn capacity(&self) -> usize
        ensures value { result ≡ room }
        ensures bounds { (1 ≤ result) × (result ≤ 4096) };

    /// Lets go of every kept set.
    fn clear(&mut self)
        ensures { kept self.new ≡ [] };

    /// Keeps one set more, after the others, if there is a place for it.
    fn add(&mut self, set: Set) -> Result<(), Full>
        ensures { MatchResult result (λ _. (length (kept self.old) < room) × (kept self.new ≡ kept self.old ++ (set ∷ []))) (λ _. (length (kept self.old) ≡ room) × (kept self.new ≡ kept self.old)) };

    /// How many sets are kept.
    fn count(&self) -> usize
        ensures value { result ≡ length (kept self.now) }
        ensures bound { result ≤ room };

    /// The kept set at a place, counted from 0.
    fn read(&self, place: usize) -> Option<Set>
        ensures { MatchOption result (length (kept self.now) ≤ place) (λ s. (place < length (kept self.now)) × (s ≡ slice_index_or (kept self.now) place s)) };

    /// The least set of unbarred works that meets every kept set, if there is one: the lowest total first, then the lowest set number.
    /// A work past the end of the prices, or priced above the ceiling, counts as barred.
    fn draw<T: Tariff>(&self, terms: &Terms<'_, T>) -> Option<Set>
        ensures { Draws T.Tariff.scale terms.now.prices.now terms.now.bars (kept self.now) result };

    ghost small: { (1 ≤ room) × (room ≤ 4096) };

    ghost fits: { (c : Self) → length (kept c) ≤ room };
}
