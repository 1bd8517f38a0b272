//! How many sets each chooser keeps.
use chooser::Chooser;
use searcher::Searcher;
use sets::Set;
use std::process::Abort;
use std::test::Fail;
use tabler::Tabler;

/// Checks that a chooser with no sets keeps `limit` of them, turns one more down, and can be emptied. A failure names the chooser.
fn keeps<C: Chooser>(rt: &impl Abort, chooser: &mut C, limit: usize, name: &str) {
    assert_eq!(rt; C::LIMIT, limit, "{name}");
    assert_eq!(rt; chooser.capacity(), limit, "{name}");
    for k in 0..limit {
        assert_eq!(rt; chooser.count(), k, "{name}");
        assert_eq!(rt; chooser.read(k), None, "{name}, set {k}");
        assert!(rt;
            chooser.add(Set::below(k)).is_ok(),
            "{name}: set {k} is turned down"
        );
    }
    holds(rt, chooser, limit, name);
    assert!(rt;
        chooser.add(Set::only(9)).is_err(),
        "{name}: a set too many is kept"
    );
    holds(rt, chooser, limit, name);
    chooser.clear();
    holds(rt, chooser, 0, name);
    assert!(rt;
        chooser.add(Set::empty()).is_ok(),
        "{name}: a set is turned down"
    );
    holds(rt, chooser, 1, name);
}

/// Checks that a chooser keeps just the sets of the numbers below 0, 1, 2 and so on. A failure names the chooser.
fn holds<C: Chooser>(rt: &impl Abort, chooser: &C, count: usize, name: &str) {
    assert_eq!(rt; chooser.count(), count, "{name}");
    for k in 0..count {
        assert_eq!(rt; chooser.read(k), Some(Set::below(k)), "{name}, set {k}");
    }
    assert_eq!(rt; chooser.read(count), None, "{name}");
    assert_eq!(rt; chooser.read(usize::MAX), None, "{name}");
}

#[test]
fn sixty_four_and_twelve(rt: HostRuntime) -> Result<(), Fail> {
    keeps(&rt, &mut Searcher::new(rt.alloc())?, 64, "searcher");
    keeps(&rt, &mut Tabler::new(rt.alloc())?, 12, "tabler");
    Ok(())
}
