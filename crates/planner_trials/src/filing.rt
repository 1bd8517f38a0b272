//! Files read into a planner, written back, and what is printed of them.
use crate::sample::*;
use planner::Planner;
use report::report_cheapest;
use scheme_file::{ItemRow, WorkRow};
use searcher::Searcher;
use std::alloc::Global;
use std::process::Abort;
use std::test::Fail;
use tariff::pounds::Pounds;

/// The file of two works: 0 gives item 0, 1 needs it and gives item 1; item 1 is wanted.
const FILE: [u8; 83] = *b"\x02\0\x01\0\
    \x17\0\x03\0\0\0\0\0\0\0\0\0\x01\0\0\0\0\0\0\0\x07\0\x02\0a\
    \x18\0\x03\0\x01\0\0\0\0\0\0\0\x02\0\0\0\0\0\0\0\xff\xff\0\0bc\
    \x0a\0\x04\0\0\0\0\0\0\0\0\0\
    \x0a\0\x05\0\x02\0\0\0\0\0\0\0\
    \x02\0\x06\0";

/// Reads a cut file, and then the whole one.
fn read(
    rt: &impl Abort,
    planner: &mut Planner<Pounds, Searcher>,
    works: &mut [WorkRow],
    items: &mut [ItemRow],
) -> Result<(), Fail> {
    assert!(rt; planner.read(&FILE[0..82], works, items).is_err());
    expect_kept(rt, planner, &KEPT)?;
    assert!(rt; planner.read(&FILE, works, items).is_ok());
    Ok(())
}

#[test]
fn read_and_written_back(rt: HostRuntime) -> Result<(), Fail> {
    let mut planner = junction(&rt, rt.alloc())?;
    expect_first(&rt, &mut planner)?;
    let mut works = [WorkRow::default(); 2];
    let mut items = [ItemRow::default(); 0];
    read(&rt, &mut planner, &mut works, &mut items)?;
    expect_kept(&rt, &planner, &[])?;
    expect(
        &rt,
        &mut planner,
        terms(&[7, 65_535], 0),
        &[0, 1],
        65_542,
        3,
    )?;
    let mut out = [5u8; 84];
    assert!(rt; planner.write(&works, &items, &FILE, &mut out).is_ok());
    assert!(rt; out[0..83] == FILE[0..83]);
    assert_eq!(rt; out[83], 5);
    Ok(())
}

/// Prints what is told of a file into a page, and checks what the page holds then: a text, or what it held where the page is too short.
fn printed(
    rt: &impl Abort,
    heap: Global,
    file: &[u8],
    page: &mut [u8],
    text: Option<&[u8]>,
) -> Result<(), Fail> {
    let mut planner = opened(heap)?;
    assert_eq!(rt;
        report_cheapest(&mut planner, file, page).is_ok(),
        text.is_some()
    );
    let text = text.unwrap_or(b"");
    let (front, later) = page.split_at(text.len().min(page.len()));
    assert_eq!(rt; front, text);
    assert!(rt; later.iter().all(|byte| *byte == b'.'));
    Ok(())
}

#[test]
fn printed_lines(rt: HostRuntime) -> Result<(), Fail> {
    let heap = rt.alloc();
    let text = b"0 7 a\n1 65535 bc\ntotal 65542\n";
    printed(&rt, heap, &FILE, &mut [b'.'; 28], None)?;
    printed(&rt, heap, &FILE, &mut [b'.'; 29], Some(text))?;
    printed(&rt, heap, &FILE, &mut [b'.'; 40], Some(text))
}

#[test]
fn printed_refusals(rt: HostRuntime) -> Result<(), Fail> {
    let heap = rt.alloc();
    printed(&rt, heap, b"", &mut [b'.'; 40], Some(b"refused 12 at 0\n"))?;
    let mut wanting = FILE;
    wanting[71] = 4;
    printed(&rt, heap, &wanting, &mut [b'.'; 40], Some(b"refused 9\n"))
}
