//! Reach, order and landmark on worked junctions.
use inspection::junction;
use scheme::{Refusal, Scheme, Stop, Work};
use sets::Set;
use std::alloc::{AllocError, Global};
use std::test::Fail;

#[test]
fn sample_reach_and_order(rt: HostRuntime) -> Result<(), Fail> {
    let scheme = junction(rt.alloc())?;
    assert_eq!(rt; scheme.reach(Set::of(&[0, 3, 5, 6])), Set::below(5));
    assert_eq!(rt; scheme.reach(Set::of(&[1, 3, 4])), Set::of(&[0, 3]));
    assert!(rt; scheme.is_sufficient(Set::of(&[1, 2, 3, 5, 6])));
    assert!(rt; !scheme.is_sufficient(Set::of(&[1, 2, 3, 6])));
    let mut places = [99u8; 8];
    assert_eq!(rt; scheme.order(Set::of(&[6, 5, 3, 2, 1]), &mut places), Ok(5));
    assert!(rt; places == [1, 2, 3, 5, 6, 99, 99, 99]);
    assert_eq!(rt; scheme.order(Set::of(&[4, 6]), &mut places), Ok(0));
    let mut short = [99u8; 6];
    assert_eq!(rt;
        scheme.order(Set::of(&[0]), &mut short),
        Err(Refusal::ListTooShort)
    );
    assert!(rt; short == [99; 6]);
    Ok(())
}

#[test]
fn sample_carried_out(rt: HostRuntime) -> Result<(), Fail> {
    let scheme = junction(rt.alloc())?;
    assert_eq!(rt; scheme.carry_out(&[0, 3, 5, 6]), Ok(Set::below(5)));
    assert_eq!(rt; scheme.carry_out(&[]), Ok(Set::empty()));
    assert_eq!(rt;
        scheme.carry_out(&[3]),
        Err(Stop::Lacking { place: 0, item: 0 })
    );
    assert_eq!(rt;
        scheme.carry_out(&[1, 1, 3]),
        Err(Stop::Lacking { place: 2, item: 1 })
    );
    assert_eq!(rt;
        scheme.carry_out(&[0, 7, 3]),
        Err(Stop::NotHeld { place: 1 })
    );
    Ok(())
}

#[test]
fn sample_landmarks(rt: HostRuntime) -> Result<(), Fail> {
    let scheme = junction(rt.alloc())?;
    assert_eq!(rt; scheme.landmark(Set::empty()), Some(Set::of(&[6])));
    assert_eq!(rt; scheme.landmark(Set::of(&[6])), Some(Set::of(&[4, 5])));
    assert_eq!(rt; scheme.landmark(Set::of(&[5, 6])), Some(Set::of(&[3])));
    assert_eq!(rt;
        scheme.landmark(Set::of(&[3, 5, 6])),
        Some(Set::of(&[0, 2]))
    );
    assert_eq!(rt;
        scheme.landmark(Set::of(&[2, 3, 5, 6])),
        Some(Set::of(&[0, 1]))
    );
    assert_eq!(rt; scheme.landmark(Set::of(&[1, 2, 3, 5, 6])), None);
    Ok(())
}

/// Works that each give the item of their number, with needs by that number, and one wanted item.
fn works_with<F: Fn(usize) -> Set>(
    heap: Global,
    count: usize,
    needs: F,
    wanted: u8,
) -> Result<Scheme, AllocError>
    requires { F.IsAlwaysCallable needs }
{
    let mut scheme = Scheme::new(heap)?;
    for w in 0..count {
        let _ = scheme.enter(Work {
            needs: needs(w),
            gives: Set::only(w),
        });
    }
    let _ = scheme.want(wanted);
    Ok(scheme)
}

/// Two works that each need what the other gives, item 0 wanted.
fn circle(heap: Global) -> Result<Scheme, AllocError> {
    works_with(heap, 2, |w| Set::below(2).without(w), 0)
}

#[test]
fn works_in_a_circle(rt: HostRuntime) -> Result<(), Fail> {
    let scheme = circle(rt.alloc())?;
    let both = Set::below(2);
    let mut places = [99u8; 2];
    assert_eq!(rt; scheme.reach(both), Set::empty());
    assert!(rt; !scheme.is_sufficient(both));
    assert_eq!(rt; scheme.order(both, &mut places), Ok(0));
    assert!(rt; places == [99, 99]);
    assert_eq!(rt; scheme.landmark(both), Some(Set::empty()));
    Ok(())
}

/// 64 works, each of which needs what the one before gives; item 63 is wanted.
fn chain(heap: Global) -> Result<Scheme, AllocError> {
    let before = |w: usize| Set::below(w).minus(Set::below(w.saturating_sub(1)));
    works_with(heap, 64, before, 63)
}

#[test]
fn a_chain_of_64_works(rt: HostRuntime) -> Result<(), Fail> {
    let scheme = chain(rt.alloc())?;
    let all = Set::below(64);
    assert!(rt; scheme.works().len() == 64);
    assert_eq!(rt; scheme.reach(all), all);
    assert_eq!(rt; scheme.reach(all.without(10)), Set::below(10));
    assert_eq!(rt; scheme.landmark(all), None);
    assert_eq!(rt; scheme.landmark(all.without(10)), Some(Set::only(10)));
    assert_eq!(rt; scheme.landmark(Set::empty()), Some(Set::only(63)));
    let mut places = [99u8; 65];
    assert_eq!(rt; scheme.order(all, &mut places), Ok(64));
    assert!(rt; places[0] == 0 && places[10] == 10 && places[63] == 63 && places[64] == 99);
    assert_eq!(rt; scheme.carry_out(&places[0..64]), Ok(all));
    Ok(())
}
