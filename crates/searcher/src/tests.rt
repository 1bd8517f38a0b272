//! A few draws in pounds.
use crate::Searcher;
use chooser::{Chooser, Terms};
use sets::Set;
use std::test::Fail;
use tariff::pounds::Pounds;

const PRICES: [u64; 5] = [3, 5, 70_000, 2, 5];

/// These prices in pounds, and these bars.
fn terms(prices: &[u64], bars: Set) -> Terms<'_, Pounds> {
    Terms { prices, bars }
}

#[test]
fn draws(rt: HostRuntime) -> Result<(), Fail> {
    let mut searcher = Searcher::new(rt.alloc())?;
    let unbarred = terms(&PRICES, Set::empty());
    let barred = terms(&PRICES, Set::only(1));
    assert_eq!(rt; searcher.draw(&unbarred), Some(Set::empty()));
    let _ = searcher.add(Set::from_bits(0b0011));
    let _ = searcher.add(Set::from_bits(0b1010));
    assert_eq!(rt; searcher.draw(&unbarred), Some(Set::from_bits(0b0010)));
    assert_eq!(rt; searcher.draw(&barred), Some(Set::from_bits(0b1001)));
    let _ = searcher.add(Set::from_bits(0b0100));
    assert_eq!(rt; searcher.draw(&unbarred), None);
    Ok(())
}
