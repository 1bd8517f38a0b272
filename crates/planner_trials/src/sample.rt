//! The sample junction, and what a question about it is held to.
use chooser::{Chooser, Terms};
use planner::{Answer, Planner};
use scheme::{Refusal, Work};
use searcher::Searcher;
use sets::Set;
use std::alloc::Global;
use std::process::Abort;
use std::test::Fail;
use tariff::Tariff;
use tariff::hours_first::HoursAndPounds;
use tariff::pounds::Pounds;

pub const POUNDS: [u64; 7] = [900, 500, 300, 700, 400, 150, 200];

// A table of its own: under pounds there are no hours.
const HOURS: [u64; 7] = [10, 6, 6, 2, 8, 0, 0];

/// The landmarks kept after the first question in pounds, by the numbers of their sets.
pub const KEPT: [u64; 5] = [64, 48, 8, 5, 3];

/// Hours and pounds of the works.
pub fn hours_and_pounds() -> [HoursAndPounds; 7] {
    let mut prices = [HoursAndPounds::default(); 7];
    for (price, (hours, pounds)) in prices.iter_mut().zip(HOURS.iter().zip(&POUNDS)) {
        *price = HoursAndPounds {
            hours: *hours,
            pounds: *pounds,
        };
    }
    prices
}

/// Prices in pounds, and the bars by the number of their set.
pub fn terms(prices: &[u64], bars: u64) -> Terms<'_, Pounds> {
    Terms {
        prices,
        bars: Set::from_bits(bars),
    }
}

/// Enters the works of the sample junction; nothing is wanted yet.
pub fn enter_works<T: Tariff, C: Chooser>(
    heap: Global,
    planner: &mut Planner<T, C>,
) -> Result<(), Fail> {
    for work in inspection::junction(heap)?.works() {
        planner.enter(*work)?;
    }
    Ok(())
}

/// The sample junction under pounds, above a searcher.
pub fn junction(rt: &impl Abort, heap: Global) -> Result<Planner<Pounds, Searcher>, Fail> {
    let mut planner = opened(heap)?;
    enter_works(heap, &mut planner)?;
    want(rt, &mut planner, 4)?;
    Ok(planner)
}

/// A planner newly opened under pounds, above a searcher.
pub fn opened(heap: Global) -> Result<Planner<Pounds, Searcher>, Fail> {
    Ok(Planner::with_room(Pounds, Searcher::new(heap)?, heap)?)
}

/// Wants an item that was not wanted.
pub fn want<T: Tariff, C: Chooser>(
    rt: &impl Abort,
    planner: &mut Planner<T, C>,
    item: u8,
) -> Result<(), Fail> {
    assert!(rt; planner.want(item)?);
    Ok(())
}

/// Enters a work with no needs.
pub fn enter<T: Tariff, C: Chooser>(planner: &mut Planner<T, C>, gives: u64) -> Result<(), Fail> {
    planner.enter(Work {
        needs: Set::empty(),
        gives: Set::from_bits(gives),
    })?;
    Ok(())
}

/// Asks in pounds and checks the order, the total and the rounds.
pub fn expect<C: Chooser>(
    rt: &impl Abort,
    planner: &mut Planner<Pounds, C>,
    terms: Terms<'_, Pounds>,
    order: &[u8],
    total: u64,
    rounds: usize,
) -> Result<(), Fail> {
    let mut places = [99u8; 64];
    let answer = Answer {
        length: order.len(),
        total,
        rounds,
    };
    assert_eq!(rt; planner.ask(&terms, &mut places)?, answer);
    expect_front(rt, &places, order);
    Ok(())
}

/// Asks in pounds and with no bars for the first time on the sample junction, and checks the answer.
pub fn expect_first(rt: &impl Abort, planner: &mut Planner<Pounds, Searcher>) -> Result<(), Fail> {
    expect(rt, planner, terms(&POUNDS, 0), &[1, 2, 3, 5, 6], 1850, 6)
}

/// Checks that the first places hold an order, and that later places stayed as they were.
pub fn expect_front(rt: &impl Abort, places: &[u8], order: &[u8]) {
    let (front, later) = places.split_at(order.len().min(places.len()));
    assert_eq!(rt; front, order);
    assert!(rt; later.iter().all(|number| *number == 99));
}

/// Checks that a call was refused, by the refusal's number.
pub fn refused<V: Drop>(
    rt: &impl Abort,
    answer: Result<V, Refusal>,
    number: u8,
) -> Result<(), Fail> {
    match answer {
        Ok(_) => Err(Fail::new("not refused")),
        // By number: the numbers are what is tried here.
        Err(refusal) => {
            assert_eq!(rt; refusal.number(), number);
            Ok(())
        }
    }
}

/// Asks in pounds with a list of some places, and checks the refusal's number and that the list stays.
pub fn unanswered<C: Chooser>(
    rt: &impl Abort,
    planner: &mut Planner<Pounds, C>,
    terms: Terms<'_, Pounds>,
    places: usize,
    number: u8,
) -> Result<(), Fail> {
    let mut list = [99u8; 64];
    let end = places.min(64);
    refused(rt, planner.ask(&terms, &mut list[0..end]), number)?;
    expect_front(rt, &list, &[]);
    Ok(())
}

/// Checks the kept landmarks, by the numbers of the sets.
pub fn expect_kept<T: Tariff, C: Chooser>(
    rt: &impl Abort,
    planner: &Planner<T, C>,
    kept: &[u64],
) -> Result<(), Fail> {
    let mut places = [77u64; 80];
    assert_eq!(rt; planner.landmarks(), kept.len());
    assert_eq!(rt; planner.copy_landmarks(&mut places)?, kept.len());
    // By place: the landmarks are read one by one, and past the last there is none.
    for (place, number) in places.iter().enumerate() {
        let wanted = kept.get(place).copied();
        assert_eq!(rt; *number, wanted.unwrap_or(77));
        assert_eq!(rt;
            planner.landmark(place),
            wanted.map(|bits| Set::from_bits(bits))
        );
    }
    Ok(())
}
