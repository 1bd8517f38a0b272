//! Lists of calls, and two planners asked alike.
use crate::sample::*;
use planner::{Answer, Planner, Request, ask_both};
use scheme::Work;
use searcher::Searcher;
use sets::Set;
use std::process::Abort;
use std::test::Fail;
use tabler::Tabler;
use tariff::pounds::Pounds;

#[test]
fn a_list_of_calls(rt: HostRuntime) -> Result<(), Fail> {
    let mut planner = junction(&rt, rt.alloc())?;
    let none = Set::empty();
    let requests = [
        Request::Enter {
            work: Work {
                needs: none,
                gives: Set::only(0),
            },
        },
        Request::Enter {
            work: Work {
                needs: none,
                gives: none,
            },
        },
        Request::Want { item: 0 },
        Request::Ask {
            terms: terms(&[3], 0),
            places: 1,
        },
        Request::Mark {
            terms: terms(&[3], 0),
            paper: &[0],
        },
        Request::Amend {
            number: 0,
            work: Work {
                needs: Set::only(1),
                gives: Set::only(0),
            },
        },
        Request::Stand { item: 1 },
        Request::Want { item: 64 },
        Request::Waive { item: 5 },
    ];
    let mut places = [99u8; 2];
    let answer = planner.conduct(&requests, &terms(&[3], 0), &mut places)?;
    assert_eq!(rt;
        answer,
        Answer {
            length: 1,
            total: 3,
            rounds: 2,
        }
    );
    assert_eq!(rt; places, [0, 99]);
    Ok(())
}

/// Asks both with one work barred, or none, and checks that they agree.
fn agree(
    rt: &impl Abort,
    one: &mut Planner<Pounds, Searcher>,
    other: &mut Planner<Pounds, Tabler>,
    bars: u64,
) -> Result<(), Fail> {
    let mut first = [99u8; 7];
    let mut second = [99u8; 7];
    let (a, b) = ask_both(one, other, &terms(&POUNDS, bars), &mut first, &mut second);
    assert_eq!(rt; a?.total, b?.total);
    assert_eq!(rt; first, second);
    Ok(())
}

#[test]
fn two_choosers(rt: HostRuntime) -> Result<(), Fail> {
    let heap = rt.alloc();
    let mut one = junction(&rt, heap)?;
    let mut other = Planner::with_room(Pounds, Tabler::new(heap)?, heap)?;
    enter_works(heap, &mut other)?;
    want(&rt, &mut other, 4)?;
    agree(&rt, &mut one, &mut other, 0)?;
    agree(&rt, &mut one, &mut other, 32)?;
    agree(&rt, &mut one, &mut other, 2)
}
