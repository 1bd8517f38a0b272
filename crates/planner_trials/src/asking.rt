//! Questions on the sample junction.
use crate::sample::*;
use chooser::Terms;
use planner::Planner;
use scheme::Work;
use searcher::Searcher;
use sets::Set;
use std::process::Abort;
use std::test::Fail;
use tariff::hours_first::HoursFirst;
use tariff::pounds::Pounds;

#[test]
fn one_question_after_another(rt: HostRuntime) -> Result<(), Fail> {
    let mut planner = junction(&rt, rt.alloc())?;
    expect_first(&rt, &mut planner)?;
    expect_kept(&rt, &planner, &KEPT)?;
    expect(
        &rt,
        &mut planner,
        terms(&POUNDS, 0),
        &[1, 2, 3, 5, 6],
        1850,
        1,
    )?;
    expect(
        &rt,
        &mut planner,
        terms(&POUNDS, 32),
        &[1, 2, 3, 4, 6],
        2100,
        1,
    )?;
    expect(&rt, &mut planner, terms(&POUNDS, 2), &[0, 3, 5, 6], 1950, 1)?;
    unanswered(&rt, &mut planner, terms(&POUNDS, 64), 7, 9)?;
    expect_kept(&rt, &planner, &KEPT)
}

/// Asks under hours first, and checks the answer on the sample junction.
fn expect_by_hours(
    rt: &impl Abort,
    planner: &mut Planner<HoursFirst, Searcher>,
) -> Result<(), Fail> {
    let mut places = [99u8; 7];
    let terms = Terms {
        prices: &hours_and_pounds(),
        bars: Set::empty(),
    };
    let answer = planner.ask(&terms, &mut places)?;
    assert_eq!(rt; answer.length, 4);
    assert_eq!(rt; answer.total.hours, 12);
    assert_eq!(rt; answer.total.pounds, 1950);
    expect_front(rt, &places, &[0, 3, 5, 6]);
    Ok(())
}

#[test]
fn hours_first(rt: HostRuntime) -> Result<(), Fail> {
    let heap = rt.alloc();
    let mut planner = Planner::with_room(HoursFirst, Searcher::new(heap)?, heap)?;
    enter_works(heap, &mut planner)?;
    want(&rt, &mut planner, 4)?;
    expect_by_hours(&rt, &mut planner)
}

#[test]
fn nothing_wanted(rt: HostRuntime) -> Result<(), Fail> {
    let mut planner = opened(rt.alloc())?;
    expect(&rt, &mut planner, terms(&[], 0), &[], 0, 1)?;
    enter_works(rt.alloc(), &mut planner)?;
    expect(&rt, &mut planner, terms(&POUNDS, 0), &[], 0, 1)
}

/// Makes item 4 stand.
fn stand(rt: &impl Abort, planner: &mut Planner<Pounds, Searcher>) -> Result<(), Fail> {
    assert!(rt; planner.stand(4)?);
    Ok(())
}

#[test]
fn an_item_that_stands(rt: HostRuntime) -> Result<(), Fail> {
    let mut planner = junction(&rt, rt.alloc())?;
    expect_first(&rt, &mut planner)?;
    stand(&rt, &mut planner)?;
    expect_kept(&rt, &planner, &[])?;
    expect(&rt, &mut planner, terms(&POUNDS, 0), &[], 0, 1)
}

/// Calls that are refused, or add nothing.
fn idle_calls(rt: &impl Abort, planner: &mut Planner<Pounds, Searcher>) -> Result<(), Fail> {
    assert!(rt; !planner.want(4)?);
    assert!(rt; planner.stand(64).is_err());
    assert!(rt; planner.waive(0).is_err());
    let work = Work {
        needs: Set::empty(),
        gives: Set::only(1),
    };
    let idle = Work {
        needs: Set::empty(),
        gives: Set::empty(),
    };
    assert!(rt; planner.amend(7, work).is_err());
    assert!(rt; planner.enter(idle).is_err());
    Ok(())
}

#[test]
fn what_keeps_the_landmarks(rt: HostRuntime) -> Result<(), Fail> {
    let mut planner = junction(&rt, rt.alloc())?;
    expect_first(&rt, &mut planner)?;
    idle_calls(&rt, &mut planner)?;
    want(&rt, &mut planner, 3)?;
    expect_kept(&rt, &planner, &KEPT)?;
    planner.waive(3)?;
    expect_kept(&rt, &planner, &[])
}
