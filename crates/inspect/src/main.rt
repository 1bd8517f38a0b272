//! Reads a scheme file from the standard input and prints the record of its scheme, or why it is refused.
#![tactic(auto)]

use inspection::{INPUT, inspect_file};
use std::io::{Read, Write};

fn main(rt: HostRuntime) -> anyhow::Result<()> {
    let heap = rt.alloc();
    // The program `cheapest` reads its input by the same two lines; a crate for them would be longer than they are.
    let mut bytes = Vec::new(heap);
    rt.stdin().take(INPUT).read_to_end(&mut bytes)?;
    let text = inspect_file(heap, bytes.as_slice())?;
    rt.stdout().write_all(text.as_slice())?;
    Ok(())
}
