//! Reading a file.
ghost use Rattle.std.specs.Prelude.{◌≡◌, length, take, Err, MatchResult};
ghost use Rattle.scheme.specs.Task.{task_of};
ghost use Rattle.scheme_file.specs.Contents.{Filled, contents};
ghost use Rattle.scheme_file.specs.Faults.{Faulty, OnlyReading, RowsShort};

use crate::causes::{Cause, Fault};
use crate::checking::check;
use crate::filling::fill;
use crate::rows::{Counts, ItemRow, WorkRow};
use scheme::Scheme;

/// How many bytes of an input are read: one more than a file can have, so that one too many is seen.
pub const INPUT: u64 = 7_009;

/// Reads a file: opens the scheme anew, enters its works, makes its items stand and be wanted, and fills the first rows. A fault leaves
/// all as it was.
// The lists are lent by the caller, each by itself.
pub fn read(
    bytes: &[u8],
    scheme: &mut Scheme,
    works: &mut [WorkRow],
    items: &mut [ItemRow],
) -> Result<Counts, Fault>
    ensures answer { MatchResult result (λ n. Filled bytes.now (task_of scheme.new) works.old works.new items.old items.new n) (λ f. Faulty bytes.now (length works.old) (length items.old) f × (scheme.new ≡ scheme.old) × (works.new ≡ works.old) × (items.new ≡ items.old)) }
    ensures only { OnlyReading bytes.now result (λ n. contents (task_of scheme.new) (take n.works works.new) (take n.items items.new) bytes.now) }
    ensures short { RowsShort bytes.now (length works.old) (length items.old) result }
    ensures sole { (f : Fault) → Faulty bytes.now (length works.old) (length items.old) f → result ≡ Err f }
{
    let end = check(bytes)?;
    let counts = Counts {
        works: end.place.works,
        items: end.place.items,
    };
    if works.len() < counts.works || items.len() < counts.items {
        return Err(Fault {
            index: end.records - 1,
            offset: bytes.len() - 4,
            cause: Cause::Rows,
        });
    }
    fill(
        bytes,
        scheme,
        &mut works[..counts.works],
        &mut items[..counts.items],
    );
    Ok(counts)
}
