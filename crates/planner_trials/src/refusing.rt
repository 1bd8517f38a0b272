//! Each refusal of a question and of a marking, in the order in which they are tested.
use crate::sample::*;
use chooser::Terms;
use planner::Planner;
use searcher::Searcher;
use std::process::Abort;
use std::test::Fail;
use tariff::pounds::Pounds;

const HIGH: [u64; 7] = [900, 500, 300, 65_536, 400, 150, 200];

const TOP: [u64; 7] = [900, 500, 300, 65_535, 400, 150, 200];

#[test]
fn questions(rt: HostRuntime) -> Result<(), Fail> {
    let mut planner = junction(&rt, rt.alloc())?;
    unanswered(&rt, &mut planner, terms(&[65_536; 6], 128), 6, 5)?;
    unanswered(&rt, &mut planner, terms(&[0; 8], 128), 6, 5)?;
    unanswered(&rt, &mut planner, terms(&HIGH, 128), 6, 6)?;
    unanswered(&rt, &mut planner, terms(&POUNDS, 128 + 64), 6, 7)?;
    unanswered(&rt, &mut planner, terms(&POUNDS, 64), 6, 8)?;
    unanswered(&rt, &mut planner, terms(&POUNDS, 64), 7, 9)?;
    expect_kept(&rt, &planner, &[])?;
    expect(
        &rt,
        &mut planner,
        terms(&TOP, 0),
        &[1, 2, 3, 5, 6],
        66_685,
        6,
    )
}

/// Marks, and checks the refusal's number.
fn unmarked(
    rt: &impl Abort,
    planner: &mut Planner<Pounds, Searcher>,
    terms: Terms<'_, Pounds>,
    paper: &[u8],
    number: u8,
) -> Result<(), Fail> {
    refused(rt, planner.mark(&terms, paper), number)
}

#[test]
fn markings(rt: HostRuntime) -> Result<(), Fail> {
    let mut planner = junction(&rt, rt.alloc())?;
    unmarked(&rt, &mut planner, terms(&[65_536; 6], 128), &[7; 65], 5)?;
    unmarked(&rt, &mut planner, terms(&HIGH, 128), &[7; 65], 6)?;
    unmarked(&rt, &mut planner, terms(&POUNDS, 128), &[7; 65], 11)?;
    unmarked(&rt, &mut planner, terms(&POUNDS, 128), &[7; 64], 7)?;
    unmarked(&rt, &mut planner, terms(&POUNDS, 64), &[6, 7], 7)?;
    expect_kept(&rt, &planner, &[])
}

/// Copies the kept landmarks into a list of four places, and checks that it is refused and stays.
fn uncopied(rt: &impl Abort, planner: &Planner<Pounds, Searcher>) -> Result<(), Fail> {
    let mut four = [77u64; 4];
    refused(rt, planner.copy_landmarks(&mut four), 8)?;
    assert_eq!(rt; four, [77; 4]);
    Ok(())
}

#[test]
fn landmarks(rt: HostRuntime) -> Result<(), Fail> {
    let mut planner = junction(&rt, rt.alloc())?;
    expect_first(&rt, &mut planner)?;
    uncopied(&rt, &planner)?;
    expect_kept(&rt, &planner, &KEPT)
}
