//! The filling pass: the records of bytes that passed the check are filled in.
ghost use Rattle.std.specs.Prelude.{◌≡◌, ℕ, ◌+◌, ◌≤◌, [], length, take, drop, slice_index};
ghost use Rattle.sets.specs.Member.{none};
ghost use Rattle.scheme.specs.Edits.{with_works};
ghost use Rattle.scheme.specs.Task.{task_of};
ghost use Rattle.scheme_file.specs.Contents.{Reads};
ghost use Rattle.scheme_file.specs.Passes.{Adds, Entering, Itemed, Part, RowAt, WorkAt};
ghost use Rattle.scheme_file.specs.Rules.{size};

use crate::numbers::number_at;
use crate::rows::{ItemRow, Name, WorkRow};
use scheme::{Refusal, Scheme, Work};
use sets::Set;

/// The row of the item at an offset.
// A row tells the offset of its name in all the bytes, so a struct of the bytes and an offset would be no plainer.
fn item_row(bytes: &[u8], at: usize) -> ItemRow
    requires { (at + 5 ≤ length bytes.now) × (3 ≤ size (drop at bytes.now)) × (at + 2 + size (drop at bytes.now) ≤ length bytes.now) }
    ensures number { result.number ≡ slice_index bytes.now (at + 4) }
    ensures start { result.name.at ≡ at + 5 }
    ensures len { result.name.len + 3 ≡ size (drop at bytes.now) }
{
    ItemRow {
        number: bytes[at + 4],
        name: Name {
            at: at + 5,
            len: number_at::<2, u16>(bytes, at) as usize - 3,
        },
    }
}

/// Fills the rows of the items; answers the offset after them.
fn fill_items(bytes: &[u8], rows: &mut [ItemRow]) -> usize
    requires { (m : ℕ) × Itemed bytes.now [] 4 (length rows.old) m }
    ensures { (m : ℕ) → Itemed bytes.now [] 4 (length rows.old) m → Itemed bytes.now rows.new result (length rows.old) m }
{
    let mut at = 4;
    for row in rows.iter_mut() {
        *row = item_row(bytes, at);
        at = row.name.at + row.name.len;
    }
    at
}

/// The work at an offset.
fn work_at(bytes: &[u8], at: usize) -> Work
    requires { at + 24 ≤ length bytes.now }
    ensures { WorkAt bytes.now at result }
{
    Work {
        needs: Set::from_bits(number_at(bytes, at + 4)),
        gives: Set::from_bits(number_at(bytes, at + 12)),
    }
}

/// The row of the work at an offset.
fn work_row(bytes: &[u8], at: usize) -> WorkRow
    requires { (at + 24 ≤ length bytes.now) × (22 ≤ size (drop at bytes.now)) }
    ensures { RowAt bytes.now at result }
{
    WorkRow {
        pounds: number_at::<2, u16>(bytes, at + 20) as u64,
        hours: number_at::<2, u16>(bytes, at + 22) as u64,
        name: Name {
            at: at + 24,
            len: number_at::<2, u16>(bytes, at) as usize - 22,
        },
    }
}

/// Enters the works and fills their rows; answers the offset after them.
fn fill_works(bytes: &[u8], from: usize, scheme: &mut Scheme, rows: &mut [WorkRow]) -> usize
    requires { ((task_of scheme.old).works ≡ []) × Entering bytes.now from [] [] from (length rows.old) }
    ensures filled { Entering bytes.now from (task_of scheme.new).works rows.new result (length rows.old) }
    ensures sets { task_of scheme.new ≡ with_works (task_of scheme.old) (task_of scheme.new).works }
    ensures room { result + 28 ≤ length bytes.now }
{
    let mut at = from;
    for row in rows.iter_mut() {
        // The check has ruled a refusal out.
        let _ = scheme.enter(work_at(bytes, at));
        *row = work_row(bytes, at);
        at = row.name.at + row.name.len;
    }
    at
}

/// Adds the items of a set, one after another, to a part of a scheme that has none.
fn add_all<F: Fn(&mut Scheme, u8) -> Result<bool, Refusal>>(scheme: &mut Scheme, items: Set, add: F)
    ghost part: { Part }
    requires calls { F.IsAlwaysCallable add }
    requires adds { Adds part (F.post add) }
    requires empty { part.get (task_of scheme.old) ≡ none }
    ensures { task_of scheme.new ≡ part.put (task_of scheme.old) items }
{
    for item in items.iter() {
        // A member is below 64, so it is not refused.
        let _ = add(scheme, item as u8);
    }
}

/// Fills in bytes that passed the check, with as many rows as they have.
pub fn fill(bytes: &[u8], scheme: &mut Scheme, works: &mut [WorkRow], items: &mut [ItemRow])
    requires { Itemed bytes.now [] 4 (length items.old) (length works.old) }
    ensures { Reads bytes.now (task_of scheme.new) works.new items.new }
{
    scheme.open();
    let at = fill_items(bytes, items);
    let at = fill_works(bytes, at, scheme, works);
    let standing = Set::from_bits(number_at(bytes, at + 4));
    let wanted = Set::from_bits(number_at(bytes, at + 16));
    add_all(scheme, standing, Scheme::stand);
    add_all(scheme, wanted, Scheme::want);
}
