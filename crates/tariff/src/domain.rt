ghost use Rattle.tariff.specs.Amounts.{Decides, Joined, Scale};
ghost use Rattle.std.specs.Prelude.{◌≡◌};

use std::fmt::Debug;

/// The largest amount, of pounds or of hours, in a single price.
pub(crate) const CEILING: u64 = 65_535;

/// A strictly ordered commutative monoid of values, with a ceiling for a single price. A total of n prices is nothing
/// joined with n prices within the ceiling.
pub trait Tariff {
    type Value: Clone + Copy + Debug;

    // What the values stand for; it holds the laws that each tariff proves.
    ghost scale: { Scale Self.Value };

    fn nothing() -> Self::Value
        ensures { scale.amount result ≡ scale.none };

    /// Exact among totals of at most 64 prices.
    fn join(a: Self::Value, b: Self::Value) -> Self::Value
        ensures { Joined scale a b result };

    fn is_less(a: Self::Value, b: Self::Value) -> bool
        ensures { Decides (scale.less (scale.amount a) (scale.amount b)) result };

    /// Whether a single price is within the ceiling.
    fn is_price(a: Self::Value) -> bool
        ensures { Decides (scale.within a) result };
}
