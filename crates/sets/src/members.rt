//! What a set has.
ghost use Rattle.std.specs.Prelude.{◌≡◌, ℕ, ◌<◌, List, length, MatchBool, MatchOption, ◌≢◌};
ghost use Rattle.sets.specs.Listed.{Listed};
ghost use Rattle.sets.specs.Member.{Has, Lowest, none};

use crate::Set;

impl Set {
    /// Whether the set has no members.
    pub fn is_empty(self) -> bool
        ensures value { MatchBool result (self ≡ none) (self ≢ none) }
        ensures members { MatchBool result ((k : ℕ) → Has self k → ⊥) ((k : ℕ) × Has self k) }
    {
        self.bits == 0
    }

    /// How many members the set has.
    pub fn len(self) -> usize
        ensures { (xs : List ℕ) × Listed self xs × (result ≡ length xs) }
    {
        self.bits.count_ones() as usize
    }

    /// Whether `k` is a member.
    #[tactic(auto, using(std::proofs::lemmas::Nat::Bits::shr_and_one), unfolding(crate::specs::Member::Has))]
    pub fn contains(self, k: usize) -> bool
        ensures { MatchBool result (Has self k) (Has self k → ⊥) }
    {
        k < Set::LIMIT && self.bits >> k & 1 == 1
    }

    /// The lowest member.
    pub fn lowest(self) -> Option<usize>
        ensures { MatchOption result ((k : ℕ) → Has self k → ⊥) (λ k. Lowest self k × (k < 64)) }
    {
        if self.bits == 0 {
            None
        } else {
            Some(self.bits.trailing_zeros() as usize)
        }
    }
}
