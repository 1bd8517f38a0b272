//! Whether rows can be written.
ghost use Rattle.std.specs.Prelude.{◌≡◌, ◌+◌, ◌≤◌, map, length, MatchBool, MatchResult};
ghost use Rattle.scheme_file.specs.declared.causes.Cause.TheVariants.{Rows};
ghost use Rattle.scheme_file.specs.Contents.{Lies, SoundName, bytes_at, entries, item_in};
ghost use Rattle.scheme_file.specs.Format.{bytes_of, item_record, work_record};
ghost use Rattle.scheme_file.specs.Passes.{ItemFits, ItemsFit, WorkFits, WorksFit};

use crate::causes::Cause;
use crate::checking::readable;
use crate::rows::{ItemRow, Name, WorkRow};
use scheme::{Work, check_item};

/// Whether a name lies in the text and keeps the rules of names.
fn name_fits(text: &[u8], name: Name) -> bool
    ensures { MatchBool result (Lies text.now name × SoundName (bytes_at text.now name)) (Lies text.now name × SoundName (bytes_at text.now name) → ⊥) }
{
    let bytes = name.in_text(text);
    bytes.len() == name.len && (1..=40).contains(&name.len) && readable(bytes).is_ok()
}

/// How many bytes an item's record has, if its row can be written where the least number allowed is `least`.
fn item_size(row: ItemRow, least: u8, text: &[u8]) -> Result<usize, Cause>
    ensures { MatchResult result (λ n. ItemFits text.now least row × (n ≡ 5 + row.name.len)) (λ c. (c ≡ Rows) × (ItemFits text.now least row → ⊥)) }
{
    if least <= row.number && check_item(row.number as usize).is_ok() && name_fits(text, row.name) {
        Ok(5 + row.name.len)
    } else {
        Err(Cause::Rows)
    }
}

/// How many bytes the records of the items have.
pub fn items_size(items: &[ItemRow], text: &[u8]) -> Result<usize, Cause>
    ensures { MatchResult result (λ n. ItemsFit items.now text.now × (n ≡ length (bytes_of (map item_record (map (item_in text.now) items.now)))) × (n ≤ 2880)) (λ c. (c ≡ Rows) × (ItemsFit items.now text.now → ⊥)) }
{
    // The sum ends at the first row that does not fit, and the least number goes along: a fold would carry all three.
    let mut least = 0;
    let mut size = 0;
    for row in items {
        size += item_size(*row, least, text)?;
        least = row.number + 1;
    }
    Ok(size)
}

/// How many bytes a work's record has, if its row can be written.
fn work_size(row: WorkRow, text: &[u8]) -> Result<usize, Cause>
    ensures { MatchResult result (λ n. WorkFits text.now row × (n ≡ 24 + row.name.len)) (λ c. (c ≡ Rows) × (WorkFits text.now row → ⊥)) }
{
    if u16::try_from(row.pounds).is_ok()
        && u16::try_from(row.hours).is_ok()
        && name_fits(text, row.name)
    {
        Ok(24 + row.name.len)
    } else {
        Err(Cause::Rows)
    }
}

/// How many bytes the records of the works have.
// One loop over both kinds of row would be no plainer: that over the items takes the least number along.
pub fn works_size(works: &[Work], rows: &[WorkRow], text: &[u8]) -> Result<usize, Cause>
    requires { length works.now ≤ 64 }
    ensures { MatchResult result (λ n. WorksFit works.now rows.now text.now × (n ≡ length (bytes_of (map work_record (entries text.now works.now rows.now)))) × (n ≤ 4096)) (λ c. (c ≡ Rows) × (WorksFit works.now rows.now text.now → ⊥)) }
{
    if rows.len() != works.len() {
        return Err(Cause::Rows);
    }
    let mut size = 0;
    for row in rows {
        size += work_size(*row, text)?;
    }
    Ok(size)
}
