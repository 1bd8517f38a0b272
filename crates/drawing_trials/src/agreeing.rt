//! The choosers answer what a trial of every set answers, and on 64 works the same as one another.
use crate::cases::Case;
use crate::numbers::Numbers;
use crate::trying::least_by_trial;
use chooser::{Chooser, Terms};
use searcher::Searcher;
use sets::Set;
use std::alloc::{AllocError, Global};
use std::process::Abort;
use std::test::Fail;
use tabler::Tabler;
use tariff::Tariff;

/// Has a chooser keep some sets in place of those that it kept.
fn refill<C: Chooser>(rt: &impl Abort, chooser: &mut C, kept: &[Set]) {
    chooser.clear();
    for one in kept {
        assert!(rt; chooser.add(*one).is_ok(), "a set is turned down");
    }
}

/// A chooser of each kind, which keep the same sets.
#[derive(Drop)]
struct Choosers {
    searcher: Searcher,
    tabler: Tabler,
}

impl Choosers {
    fn new(heap: Global) -> Result<Choosers, AllocError> {
        let searcher = Searcher::new(heap)?;
        let tabler = Tabler::new(heap)?;
        Ok(Choosers { searcher, tabler })
    }

    fn keep(&mut self, rt: &impl Abort, kept: &[Set]) {
        refill(rt, &mut self.searcher, kept);
        refill(rt, &mut self.tabler, kept);
    }

    /// Checks that both draw the least set of a small case. A failure names the case.
    fn draw_least<T: Tariff>(
        &self,
        rt: &impl Abort,
        terms: &Terms<'_, T>,
        case: &Case,
        name: &str,
    ) {
        let answer = least_by_trial(terms, case.kept.as_slice(), case.works);
        assert_eq!(rt; self.searcher.draw(terms), answer, "{name}: searcher");
        assert_eq!(rt; self.tabler.draw(terms), answer, "{name}: tabler");
    }

    /// Checks that both draw the same set. A failure names the case.
    fn draw_alike<T: Tariff>(&self, rt: &impl Abort, terms: &Terms<'_, T>, name: &str) {
        assert_eq!(rt;
            self.tabler.draw(terms),
            self.searcher.draw(terms),
            "{name}"
        );
    }
}

#[test]
fn as_a_trial_of_every_set(rt: HostRuntime) -> Result<(), Fail> {
    let heap = rt.alloc();
    let mut choosers = Choosers::new(heap)?;
    let mut drawn = 0u64;
    for seed in 1..=40u64 {
        let mut numbers = Numbers::new(seed);
        for round in 1..=50u64 {
            let case = Case::small(heap, &mut numbers)?;
            choosers.keep(&rt, case.kept.as_slice());
            let name = format!(in heap; "pounds, seed {seed}, round {round}")?;
            choosers.draw_least(&rt, &case.in_pounds(), &case, name.as_str());
            let name = format!(in heap; "hours first, seed {seed}, round {round}")?;
            choosers.draw_least(&rt, &case.by_hours(), &case, name.as_str());
            let answer = choosers.tabler.draw(&case.in_pounds());
            drawn = drawn.saturating_add(u64::from(answer.is_some()));
        }
    }
    assert!(rt;
        drawn > 500 && drawn < 1500,
        "{drawn} of 2000 cases have an answer"
    );
    Ok(())
}

#[test]
fn on_64_works(rt: HostRuntime) -> Result<(), Fail> {
    let heap = rt.alloc();
    let mut choosers = Choosers::new(heap)?;
    for seed in 1..=40u64 {
        let mut numbers = Numbers::new(seed);
        for equal in [false, true] {
            let case = Case::wide(heap, &mut numbers, equal)?;
            choosers.keep(&rt, case.kept.as_slice());
            let name = format!(in heap; "pounds, seed {seed}, equal prices: {equal}")?;
            choosers.draw_alike(&rt, &case.in_pounds(), name.as_str());
            let name = format!(in heap; "hours first, seed {seed}, equal prices: {equal}")?;
            choosers.draw_alike(&rt, &case.by_hours(), name.as_str());
        }
    }
    Ok(())
}
