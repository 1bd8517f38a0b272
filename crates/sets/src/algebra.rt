//! Sets made of sets, and how two sets stand to one another.
ghost use Rattle.std.specs.Prelude.{◌≡◌, ℕ, ◌<◌, ◌⊎◌, MatchBool, ◌≢◌};
ghost use Rattle.sets.specs.Member.{Has, Members, Sub, Meet};

use crate::Set;

impl Set {
    /// The set with `k` added; a number above 63 cannot be a member and is not added.
    pub fn with(self, k: usize) -> Set
        ensures { Members result (λ j. Has self j ⊎ ((j ≡ k) × (k < 64))) }
    {
        self.union(Set::only(k))
    }

    /// The set with `k` removed.
    pub fn without(self, k: usize) -> Set
        ensures { Members result (λ j. Has self j × (j ≢ k)) }
    {
        self.minus(Set::only(k))
    }

    /// The members of either set.
    #[tactic(auto, using(crate::proofs::Laws::union_members))]
    pub fn union(self, other: Set) -> Set
        ensures { Members result (λ k. Has self k ⊎ Has other k) }
    {
        Set {
            bits: self.bits | other.bits,
        }
    }

    /// The members that both sets have.
    #[tactic(auto, using(crate::proofs::Laws::intersection_members))]
    pub fn intersection(self, other: Set) -> Set
        ensures { Members result (λ k. Has self k × Has other k) }
    {
        Set {
            bits: self.bits & other.bits,
        }
    }

    /// The members that `other` lacks.
    #[tactic(auto, using(crate::proofs::Laws::minus_members))]
    pub fn minus(self, other: Set) -> Set
        ensures { Members result (λ k. Has self k × (Has other k → ⊥)) }
    {
        Set {
            bits: self.bits & !other.bits,
        }
    }

    /// Whether the sets share a member.
    pub fn intersects(self, other: Set) -> bool
        ensures { MatchBool result (Meet self other) (Meet self other → ⊥) }
    {
        !self.intersection(other).is_empty()
    }

    /// Whether each member is one of `other`.
    #[tactic(auto, using(crate::proofs::Laws::has_or_not))]
    pub fn is_subset(self, other: Set) -> bool
        ensures { MatchBool result (Sub self other) ((k : ℕ) × Has self k × (Has other k → ⊥)) }
    {
        self.minus(other).is_empty()
    }
}
