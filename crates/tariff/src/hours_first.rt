ghost use Rattle.tariff.specs.HoursFirstScale.{hours_first_scale, saturated_sums};
ghost use Rattle.std.specs.Prelude.{◌≡◌};

use crate::domain::{CEILING, Tariff};

/// Hours and pounds, in the order of the hours and then of the pounds.
#[derive(Clone, Copy, PartialEq, Eq, PartialOrd, Ord, Debug, Default)]
pub struct HoursAndPounds {
    pub hours: u64,
    pub pounds: u64,
}

/// Hours and pounds, joined by sums and compared by hours and then pounds.
#[derive(Clone, Copy)]
pub struct HoursFirst;

impl Tariff for HoursFirst {
    type Value = HoursAndPounds;

    ghost scale = { hours_first_scale };

    fn nothing() -> HoursAndPounds {
        HoursAndPounds::default()
    }

    /// A sum past the largest `u64` is the largest `u64`.
    fn join(a: HoursAndPounds, b: HoursAndPounds) -> HoursAndPounds
        ensures { result ≡ saturated_sums a b }
    {
        HoursAndPounds {
            hours: a.hours.saturating_add(b.hours),
            pounds: a.pounds.saturating_add(b.pounds),
        }
    }

    fn is_less(a: HoursAndPounds, b: HoursAndPounds) -> bool {
        a < b
    }

    fn is_price(a: HoursAndPounds) -> bool {
        a.hours <= CEILING && a.pounds <= CEILING
    }
}

#[cfg(test)]
mod tests {
    use super::{HoursAndPounds, HoursFirst};
    use crate::domain::Tariff;

    fn value(hours: u64, pounds: u64) -> HoursAndPounds {
        HoursAndPounds { hours, pounds }
    }

    #[test]
    fn ceilings(rt: HostRuntime) {
        assert!(rt; HoursFirst::is_price(value(65_535, 65_535)));
        assert!(rt; !HoursFirst::is_price(value(65_536, 0)));
        assert!(rt; !HoursFirst::is_price(value(0, 65_536)));
    }

    #[test]
    fn sums(rt: HostRuntime) {
        assert_eq!(rt; HoursFirst::join(value(3, 5), value(2, 7)), value(5, 12));
        assert_eq!(rt;
            HoursFirst::join(HoursFirst::nothing(), value(2, 7)),
            value(2, 7)
        );
    }

    #[test]
    fn hours_then_pounds(rt: HostRuntime) {
        assert!(rt; HoursFirst::is_less(value(1, 9), value(2, 0)));
        assert!(rt; HoursFirst::is_less(value(2, 3), value(2, 5)));
        assert!(rt; !HoursFirst::is_less(value(2, 5), value(2, 5)));
        assert!(rt; !HoursFirst::is_less(value(3, 0), value(2, 5)));
    }
}
