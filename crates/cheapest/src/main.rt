//! Reads a scheme file from the standard input and prints its cheapest order in pounds, or why there is none.
#![tactic(auto)]

use anyhow::bail;
use planner::Planner;
use report::{INPUT, PAGE, report_cheapest};
use searcher::Searcher;
use std::io::{Read, Write};
use tariff::pounds::Pounds;

fn main(rt: HostRuntime) -> anyhow::Result<()> {
    let heap = rt.alloc();
    // The program `inspect` reads its input by the same two lines; a crate for them would be longer than they are.
    let mut bytes = Vec::new(heap);
    rt.stdin().take(INPUT).read_to_end(&mut bytes)?;
    let mut planner = Planner::with_room(Pounds, Searcher::new(heap)?, heap)?;
    let mut page = vec![in heap; 0u8; PAGE]?;
    let Ok(length) = report_cheapest(&mut planner, bytes.as_slice(), page.as_mut_slice()) else {
        bail!("what is printed is longer than the page");
    };
    rt.stdout().write_all(&page[0..length])?;
    Ok(())
}
