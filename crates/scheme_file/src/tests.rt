//! Examples: the faults, and files read and written back.
use crate::*;
use scheme::{Refusal, Scheme, Work};
use sets::Set;
use std::alloc::Global;
use std::process::Abort;
use std::test::Fail;

/// A file with two items, one work and both sets.
const SAMPLE: [u8; 70] = *b"\x02\0\x01\0\
    \x04\0\x02\0\x05a\
    \x05\0\x02\0\x3fzz\
    \x17\0\x03\0\x20\0\0\0\0\0\0\0\0\0\0\0\0\0\0\x80\xff\xff\x01\0w\
    \x0a\0\x04\0\x20\0\0\0\0\0\0\0\
    \x0a\0\x05\0\0\0\0\0\0\0\0\x80\
    \x02\0\x06\0";

/// A fault of the record that has that number, and begins at that offset.
fn fault(index: usize, offset: usize, cause: Cause) -> Fault {
    Fault {
        index,
        offset,
        cause,
    }
}

/// Reads bytes into rows that are many enough, and checks the fault.
fn refused(rt: &impl Abort, heap: Global, bytes: &[u8], fault: Fault) -> Result<(), Fail> {
    let mut scheme = Scheme::new(heap)?;
    let mut works = [WorkRow::default(); 64];
    let mut items = [ItemRow::default(); 64];
    assert_eq!(rt;
        read(bytes, &mut scheme, &mut works, &mut items),
        Err(fault)
    );
    Ok(())
}

#[test]
fn numbers(rt: HostRuntime) {
    for (cause, number) in [
        (Cause::Refused(Refusal::ItemTooHigh), 1),
        (Cause::Refused(Refusal::GivesNothing), 2),
        (Cause::Refused(Refusal::SchemeFull), 3),
        (Cause::CutShort, 12),
        (Cause::WrongLength, 13),
        (Cause::UnknownKind, 14),
        (Cause::OutOfOrder, 15),
        (Cause::NameByte, 16),
        (Cause::Rows, 17),
    ] {
        assert_eq!(rt; cause.number(), number);
    }
}

#[test]
fn first_record(rt: HostRuntime) -> Result<(), Fail> {
    let heap = rt.alloc();
    refused(&rt, heap, b"", fault(0, 0, Cause::CutShort))?;
    refused(&rt, heap, b"\x02", fault(0, 0, Cause::CutShort))?;
    refused(&rt, heap, b"\x02\0\x01", fault(0, 0, Cause::CutShort))?;
    refused(&rt, heap, b"\x01\0\x01", fault(0, 0, Cause::UnknownKind))?;
    refused(&rt, heap, b"\x02\0\x07\0", fault(0, 0, Cause::UnknownKind))?;
    refused(
        &rt,
        heap,
        b"\x03\0\x01\0\0",
        fault(0, 0, Cause::WrongLength),
    )?;
    refused(&rt, heap, b"\x02\0\x06\0", fault(0, 0, Cause::OutOfOrder))
}

#[test]
fn later_records(rt: HostRuntime) -> Result<(), Fail> {
    let heap = rt.alloc();
    // The sample with one byte changed.
    for (at, byte, fault) in [
        (6, 9, fault(1, 4, Cause::UnknownKind)),
        (6, 1, fault(1, 4, Cause::WrongLength)),
        (68, 5, fault(6, 66, Cause::WrongLength)),
        (14, 5, fault(2, 10, Cause::OutOfOrder)),
        (9, 31, fault(1, 4, Cause::NameByte)),
        (41, 127, fault(3, 17, Cause::NameByte)),
        (14, 64, fault(2, 10, Cause::Refused(Refusal::ItemTooHigh))),
        (36, 0, fault(3, 17, Cause::Refused(Refusal::GivesNothing))),
    ] {
        let mut bytes = SAMPLE;
        *bytes.get_mut(at).ok_or("past the sample")? = byte;
        refused(&rt, heap, &bytes, fault)?;
    }
    let mut longer = [0; 71];
    longer[0..70].copy_from_slice(&SAMPLE);
    refused(&rt, heap, &longer, fault(7, 70, Cause::OutOfOrder))
}

#[test]
fn prefixes(rt: HostRuntime) -> Result<(), Fail> {
    let mut scheme = Scheme::new(rt.alloc())?;
    for n in 0..70 {
        let mut works = [WorkRow::default(); 1];
        let mut items = [ItemRow::default(); 2];
        let outcome = read(&SAMPLE[0..n], &mut scheme, &mut works, &mut items);
        assert_eq!(rt; outcome.map_err(|fault| fault.cause), Err(Cause::CutShort));
    }
    Ok(())
}

#[test]
fn few_rows(rt: HostRuntime) -> Result<(), Fail> {
    let mut scheme = Scheme::new(rt.alloc())?;
    let mut works = [WorkRow::default(); 1];
    let mut items = [ItemRow::default(); 1];
    assert_eq!(rt;
        read(&SAMPLE, &mut scheme, &mut works, &mut items),
        Err(fault(6, 66, Cause::Rows))
    );
    Ok(())
}

#[test]
fn crowded(rt: HostRuntime) -> Result<(), Fail> {
    // The head and 65 works.
    let mut bytes = [0; 1629];
    let (head, works) = bytes.split_at_mut(4);
    head.copy_from_slice(&SAMPLE[0..4]);
    for work in works.chunks_exact_mut(25) {
        work.copy_from_slice(&SAMPLE[17..42]);
    }
    refused(
        &rt,
        rt.alloc(),
        &bytes,
        fault(65, 1604, Cause::Refused(Refusal::SchemeFull)),
    )
}

#[test]
fn rewritten(rt: HostRuntime) -> Result<(), Fail> {
    let mut scheme = Scheme::new(rt.alloc())?;
    // By index: one byte of a copy is another each time.
    for at in 0..70 {
        for byte in [0u8, 1, 2, 3, 5, 32, 64, 126, 127, 255] {
            let mut bytes = SAMPLE;
            bytes[at] = byte;
            let mut works = [WorkRow::default(); 1];
            let mut items = [ItemRow::default(); 2];
            let mut out = [0; 70];
            if rewrite(&bytes, &mut scheme, &mut works, &mut items, &mut out).is_ok() {
                assert!(rt; out == bytes);
            }
        }
    }
    Ok(())
}

#[test]
fn largest(rt: HostRuntime) -> Result<(), Fail> {
    let mut scheme = Scheme::new(rt.alloc())?;
    for _ in 0..64 {
        let _ = scheme.enter(Work {
            needs: Set::empty(),
            gives: Set::from_bits(u64::MAX),
        });
    }
    let name = Name { at: 0, len: 40 };
    let row = WorkRow {
        pounds: 65535,
        hours: 65535,
        name,
    };
    let mut works = [row; 64];
    let mut items = [ItemRow { number: 0, name }; 64];
    for (row, number) in items.iter_mut().zip(0..64) {
        row.number = number;
    }
    let mut file = [0; 7008];
    assert!(rt; write(&scheme, &works, &items, &[b'~'; 40], &mut file).is_ok());
    let mut again = [1; 7008];
    assert!(rt; rewrite(&file, &mut scheme, &mut works, &mut items, &mut again).is_ok());
    assert!(rt; again == file);
    assert_eq!(rt; items[63].number, 63);
    assert_eq!(rt; works[63].pounds, 65535);
    Ok(())
}
