//! The number of a set.
ghost use Rattle.std.specs.Prelude.{◌≡◌};
ghost use Rattle.sets.specs.Member.{none};

use crate::Set;

impl Set {
    /// The numbers that can be members: those below this.
    pub const LIMIT: usize = 64;

    /// The set with no members.
    pub fn empty() -> Set
        ensures { result ≡ none }
    {
        Set { bits: 0 }
    }

    /// The set whose number is `bits`.
    // Named, as `bits` is, like the conversions of floats: a `From` would hide that a number stands for members.
    pub fn from_bits(bits: u64) -> Set
        ensures { result.bits ≡ bits }
    {
        Set { bits }
    }

    /// The set's number: the sum of its members' weights.
    pub fn bits(self) -> u64
        ensures { result ≡ self.bits }
    {
        self.bits
    }
}
