//! Draws on fixed families of kept sets: how many nodes the searcher goes through and, with the argument `times`, how long it and the
//! tabler take.
#![tactic(auto)]

mod families;

use chooser::{Chooser, Terms};
use families::{FAMILIES, Family, fill};
use searcher::Searcher;
use sets::Set;
use std::env;
use std::time::Instant;
use tabler::Tabler;
use tariff::pounds::Pounds;

/// Instances of each family.
const INSTANCES: u64 = 5;

/// The sum and the largest of some numbers.
#[derive(Clone, Copy, Default)]
struct Tally {
    sum: u64,
    largest: u64,
}

impl Tally {
    fn with(self, n: u64) -> Tally {
        Tally {
            sum: self.sum.saturating_add(n),
            largest: self.largest.max(n),
        }
    }

    /// The average over the instances.
    fn average(self) -> u64 {
        self.sum / INSTANCES
    }
}

/// How long draws take with each chooser, in microseconds.
#[derive(Clone, Copy, Default)]
struct Times {
    searching: Tally,
    tabling: Tally,
}

/// How long a draw takes, in microseconds.
fn time<C: Chooser>(
    rt: &HostRuntime,
    chooser: &C,
    terms: &Terms<'_, Pounds>,
) -> anyhow::Result<u64> {
    let start = Instant::now(rt)?;
    let _ = chooser.draw(terms);
    let taken = start.elapsed(rt)?;
    Ok(u64::try_from(taken.as_micros()).unwrap_or(u64::MAX))
}

/// Draws on each instance of a family, and adds to the times if they are asked for.
fn run(rt: &HostRuntime, family: Family, mut times: Option<Times>) -> anyhow::Result<()> {
    let heap = rt.alloc();
    let mut searcher = Searcher::new(heap)?;
    let mut tabler = Tabler::new(heap)?;
    let mut nodes = Tally::default();
    for seed in 1..=INSTANCES {
        let mut prices = [0u64; 64];
        fill(family, seed, &mut prices, &mut searcher, &mut tabler);
        let terms = Terms {
            prices: &prices,
            bars: Set::empty(),
        };
        nodes = nodes.with(searcher.nodes::<Pounds>(&terms));
        if let Some(so_far) = times {
            times = Some(Times {
                searching: so_far.searching.with(time(rt, &searcher, &terms)?),
                tabling: so_far.tabling.with(time(rt, &tabler, &terms)?),
            });
        }
    }
    print!(rt;
        "{family}: nodes {}, largest {}",
        nodes.average(),
        nodes.largest
    )?;
    if let Some(times) = times {
        tell(rt, family, times)?;
    }
    println!(rt; "")?;
    Ok(())
}

/// Prints the average times; the tabler keeps twelve sets.
fn tell(rt: &HostRuntime, family: Family, times: Times) -> anyhow::Result<()> {
    print!(rt; "; searcher {} us", times.searching.average())?;
    if family.sets as usize <= Tabler::LIMIT {
        print!(rt; "; tabler {} us", times.tabling.average())?;
    }
    Ok(())
}

fn main(rt: HostRuntime) -> anyhow::Result<()> {
    let times = (env::args(&rt)?.count() > 1).then_some(Times::default());
    for family in FAMILIES {
        run(&rt, family, times)?;
    }
    Ok(())
}
