//! Each refusal of an editing call, and that it changes nothing.
use scheme::{Refusal, Scheme, Work};
use sets::Set;
use std::alloc::{AllocError, Global};
use std::test::Fail;

/// A scheme with some works that each give the item of their number modulo 64, item 2 standing and item 5 wanted.
fn scheme_of(heap: Global, works: u8) -> Result<Scheme, AllocError> {
    let mut scheme = Scheme::new(heap)?;
    for w in 0..works {
        let _ = scheme.enter(work(w));
    }
    let _ = scheme.stand(2);
    let _ = scheme.want(5);
    Ok(scheme)
}

fn work(w: u8) -> Work {
    Work {
        needs: Set::empty(),
        gives: Set::only(w as usize % 64),
    }
}

/// Whether a scheme holds just what `scheme_of` makes.
fn is_unchanged(scheme: &Scheme, works: u8) -> bool {
    scheme.works().len() == works as usize
        && scheme
            .works()
            .iter()
            .zip(0..works)
            .all(|(held, w)| *held == work(w))
        && scheme.standing() == Set::only(2)
        && scheme.wanted() == Set::only(5)
}

#[test]
fn item_above_63(rt: HostRuntime) -> Result<(), Fail> {
    let mut scheme = scheme_of(rt.alloc(), 3)?;
    for item in 64..=255u8 {
        assert_eq!(rt; scheme.stand(item), Err(Refusal::ItemTooHigh));
        assert_eq!(rt; scheme.want(item), Err(Refusal::ItemTooHigh));
        assert_eq!(rt; scheme.waive(item), Err(Refusal::ItemTooHigh));
    }
    assert!(rt; is_unchanged(&scheme, 3));
    Ok(())
}

#[test]
fn work_that_gives_nothing(rt: HostRuntime) -> Result<(), Fail> {
    let idle = Work {
        needs: Set::only(3),
        gives: Set::empty(),
    };
    let mut scheme = scheme_of(rt.alloc(), 3)?;
    assert_eq!(rt; scheme.enter(idle), Err(Refusal::GivesNothing));
    assert_eq!(rt; scheme.amend(0, idle), Err(Refusal::GivesNothing));
    assert_eq!(rt; scheme.amend(3, idle), Err(Refusal::NoSuchWork));
    assert!(rt; is_unchanged(&scheme, 3));
    Ok(())
}

#[test]
fn sixty_fifth_entry(rt: HostRuntime) -> Result<(), Fail> {
    let mut scheme = scheme_of(rt.alloc(), 63)?;
    assert_eq!(rt; scheme.enter(work(63)), Ok(63));
    assert_eq!(rt; scheme.enter(work(0)), Err(Refusal::SchemeFull));
    assert!(rt; is_unchanged(&scheme, 64));
    Ok(())
}

#[test]
fn waiver_of_what_is_not_wanted(rt: HostRuntime) -> Result<(), Fail> {
    let mut scheme = scheme_of(rt.alloc(), 3)?;
    assert_eq!(rt; scheme.waive(6), Err(Refusal::NotWanted));
    assert!(rt; is_unchanged(&scheme, 3));
    assert_eq!(rt; scheme.waive(5), Ok(()));
    assert_eq!(rt; scheme.waive(5), Err(Refusal::NotWanted));
    assert!(rt; scheme.wanted() == Set::empty());
    Ok(())
}

#[test]
fn amendment(rt: HostRuntime) -> Result<(), Fail> {
    let mut scheme = scheme_of(rt.alloc(), 3)?;
    assert_eq!(rt; scheme.amend(3, work(9)), Err(Refusal::NoSuchWork));
    assert!(rt; is_unchanged(&scheme, 3));
    assert_eq!(rt; scheme.amend(1, work(9)), Ok(()));
    assert!(rt; scheme.works().len() == 3);
    assert!(rt;
        scheme.works()[0] == work(0) && scheme.works()[1] == work(9) && scheme.works()[2] == work(2)
    );
    Ok(())
}

#[test]
fn what_is_there_already(rt: HostRuntime) -> Result<(), Fail> {
    let mut scheme = scheme_of(rt.alloc(), 3)?;
    assert_eq!(rt; scheme.stand(2), Ok(false));
    assert_eq!(rt; scheme.want(5), Ok(false));
    assert!(rt; is_unchanged(&scheme, 3));
    assert_eq!(rt; scheme.stand(63), Ok(true));
    assert_eq!(rt; scheme.want(63), Ok(true));
    assert!(rt; scheme.standing() == Set::of(&[2, 63]) && scheme.wanted() == Set::of(&[5, 63]));
    scheme.open();
    assert!(rt;
        scheme.works().is_empty()
            && scheme.standing() == Set::empty()
            && scheme.wanted() == Set::empty()
    );
    Ok(())
}
