//! A few draws in pounds.
use crate::Tabler;
use chooser::{Chooser, Terms};
use sets::Set;
use std::test::Fail;
use tariff::pounds::Pounds;

const PRICES: [u64; 5] = [4, 3, 2, 2, 70_000];

/// These prices in pounds, and these bars.
fn terms(prices: &[u64], bars: Set) -> Terms<'_, Pounds> {
    Terms { prices, bars }
}

#[test]
fn draws(rt: HostRuntime) -> Result<(), Fail> {
    let mut tabler = Tabler::new(rt.alloc())?;
    let unbarred = terms(&PRICES, Set::empty());
    assert_eq!(rt; tabler.draw(&unbarred), Some(Set::empty()));
    assert!(rt; tabler.add(Set::from_bits(0b0101)).is_ok());
    assert!(rt; tabler.add(Set::from_bits(0b1001)).is_ok());
    assert!(rt; tabler.add(Set::from_bits(0b1011)).is_ok());
    assert_eq!(rt; tabler.draw(&unbarred), Some(Set::from_bits(0b0001)));
    let barred = terms(&PRICES, Set::only(0));
    assert_eq!(rt; tabler.draw(&barred), Some(Set::from_bits(0b1100)));
    assert!(rt; tabler.add(Set::only(4)).is_ok());
    assert_eq!(rt; tabler.draw(&unbarred), None);
    Ok(())
}

#[test]
fn twelve_sets(rt: HostRuntime) -> Result<(), Fail> {
    let mut tabler = Tabler::new(rt.alloc())?;
    for k in 0..12 {
        assert!(rt; tabler.add(Set::only(k)).is_ok());
    }
    assert!(rt; tabler.add(Set::only(12)).is_err());
    let one_each = terms(&[1; 12], Set::empty());
    assert_eq!(rt; tabler.draw(&one_each), Some(Set::below(12)));
    Ok(())
}
