//! Runs that spend the capacity.
use crate::sample::*;
use chooser::Chooser;
use planner::Planner;
use searcher::Searcher;
use sets::Set;
use std::process::Abort;
use std::test::Fail;
use tabler::Tabler;
use tariff::pounds::Pounds;

const NUMBERS: [u8; 13] = [0, 1, 2, 3, 4, 5, 6, 7, 8, 9, 10, 11, 12];

/// The sets of one number each, from 12 down to 1.
const SINGLES: [u64; 12] = [4096, 2048, 1024, 512, 256, 128, 64, 32, 16, 8, 4, 2];

const LAST_DEAR: [u64; 13] = [1, 1, 1, 1, 1, 1, 1, 1, 1, 1, 1, 1, 100];

/// Enters works that each give a wanted item of their own.
fn enter_apart<C: Chooser>(
    rt: &impl Abort,
    planner: &mut Planner<Pounds, C>,
    items: &[u8],
) -> Result<(), Fail> {
    for item in items {
        enter(planner, Set::only(*item as usize).bits())?;
        want(rt, planner, *item)?;
    }
    Ok(())
}

#[test]
fn one_more_landmark_than_the_capacity(rt: HostRuntime) -> Result<(), Fail> {
    let heap = rt.alloc();
    let mut planner = Planner::with_room(Pounds, Tabler::new(heap)?, heap)?;
    enter_apart(&rt, &mut planner, &NUMBERS[0..12])?;
    expect(
        &rt,
        &mut planner,
        terms(&[1; 12], 0),
        &NUMBERS[0..12],
        12,
        13,
    )?;
    enter(&mut planner, 4096)?;
    want(&rt, &mut planner, 12)?;
    unanswered(&rt, &mut planner, terms(&[1; 13], 0), 13, 10)?;
    expect_kept(&rt, &planner, &SINGLES)
}

#[test]
fn room_for_it(rt: HostRuntime) -> Result<(), Fail> {
    let mut planner = opened(rt.alloc())?;
    enter_apart(&rt, &mut planner, &NUMBERS)?;
    expect(&rt, &mut planner, terms(&[1; 13], 0), &NUMBERS, 13, 14)
}

/// The last work gives items 1 to 12. It is needed once item 12 is wanted, and then most kept landmarks tell nothing.
#[test]
fn a_run_that_starts_again(rt: HostRuntime) -> Result<(), Fail> {
    let heap = rt.alloc();
    let mut planner = Planner::with_room(Pounds, Tabler::new(heap)?, heap)?;
    enter_apart(&rt, &mut planner, &NUMBERS[0..12])?;
    enter(&mut planner, 8190)?;
    expect(
        &rt,
        &mut planner,
        terms(&LAST_DEAR, 0),
        &NUMBERS[0..12],
        12,
        13,
    )?;
    want(&rt, &mut planner, 12)?;
    expect(&rt, &mut planner, terms(&LAST_DEAR, 0), &[0, 12], 101, 4)?;
    expect_kept(&rt, &planner, &[4096, 1])
}
