//! Scheme files with changed bytes, beside an independent reading of the format.
use inspection::junction;
use scheme::Scheme;
use scheme_file::{ItemRow, Name, WorkRow, read, write};
use std::process::Abort;
use std::test::Fail;

/// The names of the sample junction's works and items, one after another.
const TEXT: &[u8] = b"TrenchDuctSupplyControllerLoopsRadarPriorityDetection";

const NAMES: [Name; 8] = [
    Name { at: 0, len: 6 },
    Name { at: 6, len: 4 },
    Name { at: 10, len: 6 },
    Name { at: 16, len: 10 },
    Name { at: 26, len: 5 },
    Name { at: 31, len: 5 },
    Name { at: 36, len: 8 },
    Name { at: 44, len: 9 },
];

const VALUES: [u8; 14] = [0, 1, 2, 3, 5, 6, 7, 31, 32, 63, 64, 126, 127, 255];

/// Why the independent reading refuses a file: the reason's number, the record's number and its offset.
#[derive(Clone, Copy, PartialEq, Eq, Debug)]
struct Finding {
    number: u8,
    index: usize,
    offset: usize,
}

fn byte(bytes: &[u8], at: usize) -> u8 {
    // A byte past the end is 0: a record that is cut short is told by its length alone.
    bytes.get(at).copied().unwrap_or(0)
}

fn pair(bytes: &[u8], at: usize) -> usize {
    byte(bytes, at) as usize + 256 * byte(bytes, at.wrapping_add(1)) as usize
}

// Kinds and reasons are numbers here, as a file has them: the reading shares nothing with the reader.
fn has_length(kind: usize, size: usize) -> bool {
    match kind {
        1 | 6 => size == 2,
        2 => size >= 4 && size <= 43,
        3 => size >= 23 && size <= 62,
        _ => size == 10,
    }
}

fn can_follow(last: usize, kind: usize) -> bool {
    match last {
        0 => kind == 1,
        1 | 2 => kind >= 2 && kind <= 4,
        3 => kind == 3 || kind == 4,
        4 => kind == 5,
        _ => kind == 6,
    }
}

/// The bytes from one place up to another, or none where there are not so many.
fn part(bytes: &[u8], from: usize, to: usize) -> &[u8] {
    bytes.get(from..to).unwrap_or(b"")
}

fn is_name(bytes: &[u8]) -> bool {
    bytes.iter().all(|b| *b >= 32 && *b <= 126)
}

/// How far the independent reading has come.
#[derive(Clone, Copy)]
struct Reading {
    at: usize,
    /// The kind of the record before, or 0.
    last: usize,
    /// The least number that an item can have.
    least: usize,
    works: usize,
}

impl Reading {
    /// The offset after the record.
    fn end(self, bytes: &[u8]) -> usize {
        self.at.wrapping_add(2).wrapping_add(pair(bytes, self.at))
    }

    /// Refuses the record by a reason's number.
    fn judge(self, bytes: &[u8]) -> Result<(), u8> {
        let Reading {
            at,
            last,
            least,
            works,
        } = self;
        let rest = bytes.len().saturating_sub(at);
        let size = pair(bytes, at);
        let kind = pair(bytes, at.wrapping_add(2));
        if rest < 2 || rest - 2 < size {
            return Err(12);
        }
        if size < 2 || kind == 0 || kind > 6 {
            return Err(14);
        }
        if !has_length(kind, size) {
            return Err(13);
        }
        let number = byte(bytes, at.wrapping_add(4)) as usize;
        if !can_follow(last, kind) || (kind == 2 && number < least) {
            return Err(15);
        }
        let field = |from: usize, to: usize| part(bytes, at.wrapping_add(from), to);
        match kind {
            2 if !is_name(field(5, self.end(bytes))) => Err(16),
            2 if number > 63 => Err(1),
            3 if !is_name(field(24, self.end(bytes))) => Err(16),
            3 if field(12, at.wrapping_add(20)).iter().all(|b| *b == 0) => Err(2),
            3 if works >= 64 => Err(3),
            _ => Ok(()),
        }
    }

    /// The reading after the record.
    fn next(self, bytes: &[u8]) -> Reading {
        let last = pair(bytes, self.at.wrapping_add(2));
        let least = match last {
            2 => byte(bytes, self.at.wrapping_add(4)) as usize + 1,
            _ => self.least,
        };
        Reading {
            at: self.end(bytes),
            last,
            least,
            works: self.works.saturating_add(usize::from(last == 3)),
        }
    }
}

/// An independent reading: record after record.
fn independent(bytes: &[u8]) -> Result<(), Finding> {
    let mut reading = Reading {
        at: 0,
        last: 0,
        least: 0,
        works: 0,
    };
    for index in 0..=bytes.len() {
        let offset = reading.at;
        let judged = match reading.last {
            6 if offset == bytes.len() => return Ok(()),
            6 => Err(15),
            _ => reading.judge(bytes),
        };
        judged.map_err(|number| Finding {
            number,
            index,
            offset,
        })?;
        reading = reading.next(bytes);
    }
    Err(Finding {
        number: 12,
        index: 0,
        offset: 0,
    })
}

/// Whether the reader and the independent reading agree.
fn agree(bytes: &[u8], scheme: &mut Scheme) -> bool {
    let mut works = [WorkRow {
        pounds: 0,
        hours: 0,
        name: NAMES[0],
    }; 64];
    let mut items = [ItemRow {
        number: 0,
        name: NAMES[0],
    }; 64];
    let told = read(bytes, scheme, &mut works, &mut items);
    let told = told.map(|_| ()).map_err(|fault| Finding {
        number: fault.cause.number(),
        index: fault.index,
        offset: fault.offset,
    });
    told == independent(bytes)
}

/// The rows of the sample junction.
fn work_rows() -> [WorkRow; 7] {
    let mut rows = [WorkRow {
        pounds: 900,
        hours: 65_535,
        name: NAMES[0],
    }; 7];
    for (row, name) in rows.iter_mut().zip(&NAMES) {
        row.name = *name;
    }
    rows
}

const ITEMS: [ItemRow; 3] = [
    ItemRow {
        number: 0,
        name: Name { at: 6, len: 4 },
    },
    ItemRow {
        number: 3,
        name: Name { at: 44, len: 9 },
    },
    ItemRow {
        number: 63,
        name: Name { at: 36, len: 8 },
    },
];

/// Each prefix of a file.
fn try_prefixes(rt: &impl Abort, file: &[u8], scheme: &mut Scheme) {
    for at in 0..file.len() {
        assert!(rt; agree(&file[0..at], scheme));
    }
}

/// A file with each byte changed.
fn try_changes(rt: &impl Abort, file: &mut [u8], scheme: &mut Scheme) {
    // By index: the whole file is read while one byte of it is another.
    for at in 0..file.len() {
        let was = file[at];
        for value in VALUES {
            file[at] = value;
            assert!(rt; agree(file, scheme));
        }
        file[at] = was;
    }
}

#[test]
fn changed_bytes(rt: HostRuntime) -> Result<(), Fail> {
    let mut scheme = junction(rt.alloc())?;
    let mut file = [0u8; 400];
    let Ok(len) = write(&scheme, &work_rows(), &ITEMS, TEXT, &mut file) else {
        return Err(Fail::new("not written"));
    };
    assert!(rt; len > 0 && len < 400);
    assert!(rt; agree(&file[0..len], &mut scheme));
    assert!(rt; agree(&file[0..len + 1], &mut scheme));
    try_prefixes(&rt, &file[0..len], &mut scheme);
    try_changes(&rt, &mut file[0..len], &mut scheme);
    Ok(())
}
