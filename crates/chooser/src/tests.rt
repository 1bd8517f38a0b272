//! A few prices in pounds, and in hours and pounds.
use crate::Terms;
use sets::Set;
use tariff::Tariff;
use tariff::hours_first::{HoursAndPounds, HoursFirst};
use tariff::pounds::Pounds;

const IN_POUNDS: [u64; 4] = [3, 5, 70_000, 2];

const IN_HOURS: [HoursAndPounds; 2] = [
    HoursAndPounds {
        hours: 1,
        pounds: 9,
    },
    HoursAndPounds {
        hours: 2,
        pounds: 4,
    },
];

/// These prices, and no bars.
fn unbarred<T: Tariff>(prices: &[T::Value]) -> Terms<'_, T> {
    Terms {
        prices,
        bars: Set::empty(),
    }
}

#[test]
fn pounds(rt: HostRuntime) {
    let barred: Terms<'_, Pounds> = Terms {
        prices: &IN_POUNDS,
        bars: Set::only(1),
    };
    assert_eq!(rt; barred.allowed(), Set::from_bits(0b1001));
    let terms = unbarred::<Pounds>(&IN_POUNDS);
    let kept = [Set::from_bits(0b1010), Set::from_bits(0b1100)];
    assert_eq!(rt; terms.candidates(&kept), Set::from_bits(0b1010));
    assert_eq!(rt; terms.set_cost(Set::from_bits(0b1011)), 10);
    assert_eq!(rt; terms.order_cost(&[0, 3, 0]), 8);
}

#[test]
fn hours_and_pounds(rt: HostRuntime) {
    let both = HoursAndPounds {
        hours: 3,
        pounds: 13,
    };
    let terms = unbarred::<HoursFirst>(&IN_HOURS);
    assert_eq!(rt; terms.set_cost(Set::below(2)), both);
    assert!(rt; terms.precedes(Set::only(0), Set::only(1)));
}

#[test]
fn equal_totals(rt: HostRuntime) {
    let one = Set::only(1);
    let two = Set::from_bits(0b1001);
    let terms = unbarred::<Pounds>(&IN_POUNDS);
    assert!(rt; terms.precedes(one, two));
    assert!(rt; !terms.precedes(two, one));
    assert!(rt; terms.precedes(one, one));
}
