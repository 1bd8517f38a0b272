//! Sets made of numbers.
ghost use Rattle.std.specs.Prelude.{◌≡◌, ◌<◌};
ghost use Rattle.sets.specs.Listed.{In};
ghost use Rattle.sets.specs.Member.{Members};

use crate::Set;

impl Set {
    /// The set of some numbers, as far as they can be members.
    pub fn of(numbers: &[usize]) -> Set
        ensures { Members result (λ k. In k numbers.now × (k < 64)) }
    {
        numbers.iter().fold(Set::empty(), |set, k| set.with(*k))
    }

    /// The set with the one member `k`, or the empty one for a number above 63, which cannot be a member.
    pub fn only(k: usize) -> Set
        ensures { Members result (λ j. (j ≡ k) × (k < 64)) }
    {
        if k < Set::LIMIT {
            Set { bits: 1 << k }
        } else {
            Set { bits: 0 }
        }
    }

    /// The numbers below `n`, as far as they can be members.
    pub fn below(n: usize) -> Set
        ensures { Members result (λ k. (k < n) × (k < 64)) }
    {
        if n < Set::LIMIT {
            Set { bits: (1 << n) - 1 }
        } else {
            Set { bits: u64::MAX }
        }
    }
}
