//! The record of a scheme file.
ghost use Rattle.std.specs.Prelude.{◌≡◌, ◌==◌, find, IfOk};
ghost use Rattle.std.specs.Option.{option_copied};
ghost use Rattle.scheme_file.specs.declared.rows.ItemRow.{ItemRow};
ghost use Rattle.inspection.specs.Files.{work_in, item_in, refusal, Inspected};

use crate::{Names, record};
use scheme::Scheme;
use scheme_file::{Fault, ItemRow, WorkRow, read};
use std::alloc::{AllocError, Global};

/// The names of a file that was read, by its rows.
#[derive(Clone, Copy)]
pub struct FileNames<'a> {
    bytes: &'a [u8],
    works: &'a [WorkRow],
    items: &'a [ItemRow],
}

impl Names for FileNames<'_> {
    ghost works = { λ n w. work_in n.bytes.now n.works.now w };

    ghost items = { λ n i. item_in n.bytes.now n.items.now i };

    #[tactic(auto, using(crate::proofs::Rows::work_in_at, crate::proofs::Rows::work_in_past))]
    fn work(&self, number: usize) -> &[u8] {
        match self.works.get(number) {
            Some(row) => row.name.in_text(self.bytes),
            None => b"",
        }
    }

    #[tactic(auto, using(crate::proofs::Rows::item_in_found))]
    fn item(&self, number: usize) -> &[u8] {
        match row_of(self.items, number) {
            Some(row) => row.name.in_text(self.bytes),
            None => b"",
        }
    }
}

/// The first row of an item, if it has one.
fn row_of(items: &[ItemRow], number: usize) -> Option<&ItemRow>
    ensures { option_copied result ≡ find (λ (r : ItemRow). r.number == number) items.now }
{
    items.iter().find(|row| row.number as usize == number)
}

/// What is printed of a file: the record of its scheme, or its fault.
pub fn inspect_file(heap: Global, bytes: &[u8]) -> Result<Vec<u8>, AllocError>
    ensures { IfOk result (λ v. Inspected bytes.now 64 64 v.items) }
{
    let mut scheme = Scheme::new(heap)?;
    // Lent rows, as many as a file can fill: a reading has no memory of its own.
    let mut works = [WorkRow::default(); 64];
    let mut items = [ItemRow::default(); 64];
    match read(bytes, &mut scheme, &mut works, &mut items) {
        Ok(counts) => {
            let names = FileNames {
                bytes,
                works: &works[0..counts.works],
                items: &items[0..counts.items],
            };
            record(heap, &scheme, &names)
        }
        Err(fault) => refused(heap, fault),
    }
}

/// What is printed of a fault.
fn refused(heap: Global, fault: Fault) -> Result<Vec<u8>, AllocError>
    ensures { IfOk result (λ v. v.items ≡ refusal fault) }
{
    let line = format!(in heap; "refused {} at {}\n", fault.cause.number(), fault.offset)?;
    Ok(line.into_bytes())
}
