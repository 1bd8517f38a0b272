//! Markings on the sample junction.
use crate::sample::*;
use planner::{Flaw, Planner, Verdict};
use searcher::Searcher;
use std::process::Abort;
use std::test::Fail;
use tariff::pounds::Pounds;

fn barred(place: usize) -> Verdict<u64> {
    Verdict::Flawed(Flaw::Barred { place })
}

fn lacking(place: usize, item: usize) -> Verdict<u64> {
    Verdict::Flawed(Flaw::Lacking { place, item })
}

fn missing(item: usize) -> Verdict<u64> {
    Verdict::Flawed(Flaw::Missing { item })
}

/// Marks a paper in pounds and checks the verdict. The bars are given as the number of their set.
fn expect_told(
    rt: &impl Abort,
    planner: &mut Planner<Pounds, Searcher>,
    bars: u64,
    paper: &[u8],
    verdict: Verdict<u64>,
) -> Result<(), Fail> {
    assert_eq!(rt; planner.mark(&terms(&POUNDS, bars), paper)?, verdict);
    Ok(())
}

#[test]
fn verdicts(rt: HostRuntime) -> Result<(), Fail> {
    let mut planner = junction(&rt, rt.alloc())?;
    expect_told(&rt, &mut planner, 0, &[3], lacking(0, 0))?;
    expect_told(&rt, &mut planner, 0, &[1, 3], lacking(1, 1))?;
    expect_told(&rt, &mut planner, 0, &[1, 2, 3], missing(4))?;
    expect_told(&rt, &mut planner, 0, &[], missing(4))?;
    expect_told(&rt, &mut planner, 32, &[1, 2, 3, 5, 6], barred(3))?;
    expect_kept(&rt, &planner, &[])?;
    expect_told(&rt, &mut planner, 0, &[0, 3, 5, 6], Verdict::Dearer(1950))?;
    expect_kept(&rt, &planner, &KEPT)?;
    expect_told(
        &rt,
        &mut planner,
        0,
        &[2, 1, 3, 5, 6],
        Verdict::Cheapest(1850),
    )?;
    expect_told(&rt, &mut planner, 2, &[0, 3, 5, 6], Verdict::Cheapest(1950))
}

#[test]
fn a_repeated_work_is_charged_each_time(rt: HostRuntime) -> Result<(), Fail> {
    let mut planner = junction(&rt, rt.alloc())?;
    expect_told(
        &rt,
        &mut planner,
        0,
        &[1, 2, 3, 5, 6, 5],
        Verdict::Dearer(2000),
    )
}

#[test]
fn a_barred_work_comes_before_what_it_lacks(rt: HostRuntime) -> Result<(), Fail> {
    let mut planner = junction(&rt, rt.alloc())?;
    expect_told(&rt, &mut planner, 64, &[6], barred(0))?;
    expect_told(&rt, &mut planner, 64, &[3, 6], lacking(0, 0))
}
