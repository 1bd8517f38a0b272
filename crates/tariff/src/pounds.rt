ghost use Rattle.tariff.specs.Numbers.{saturated_sum};
ghost use Rattle.tariff.specs.PoundsScale.{pounds_scale};
ghost use Rattle.std.specs.Prelude.{◌≡◌};

use crate::domain::{CEILING, Tariff};

/// Whole pounds, joined by sum.
#[derive(Clone, Copy)]
pub struct Pounds;

impl Tariff for Pounds {
    type Value = u64;

    ghost scale = { pounds_scale };

    fn nothing() -> u64 {
        0
    }

    /// A sum past the largest `u64` is the largest `u64`.
    fn join(a: u64, b: u64) -> u64
        ensures { result ≡ saturated_sum a b }
    {
        a.saturating_add(b)
    }

    fn is_less(a: u64, b: u64) -> bool {
        a < b
    }

    fn is_price(a: u64) -> bool {
        a <= CEILING
    }
}

#[cfg(test)]
mod tests {
    use super::Pounds;
    use crate::domain::Tariff;

    #[test]
    fn ceiling(rt: HostRuntime) {
        assert!(rt; Pounds::is_price(65_535));
        assert!(rt; !Pounds::is_price(65_536));
    }

    #[test]
    fn sums(rt: HostRuntime) {
        assert_eq!(rt; Pounds::join(3, 5), 8);
        assert_eq!(rt; Pounds::join(Pounds::nothing(), 7), 7);
        assert_eq!(rt; Pounds::join(u64::MAX, 1), u64::MAX);
    }

    #[test]
    fn comparison(rt: HostRuntime) {
        assert!(rt; Pounds::is_less(3, 5));
        assert!(rt; !Pounds::is_less(5, 5));
    }
}
