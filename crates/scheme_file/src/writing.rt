//! Writing a file.
ghost use Rattle.std.specs.Prelude.{◌≡◌, MatchResult};
ghost use Rattle.scheme.specs.Task.{task_of};
ghost use Rattle.scheme_file.specs.Contents.{Refuses, Written};

use crate::causes::Cause;
use crate::kinds::Kind;
use crate::putting::Output;
use crate::rows::{ItemRow, WorkRow};
use crate::vetting::{items_size, works_size};
use scheme::Scheme;

/// Writes the file of a scheme, with one row for each work, and answers its length. The names lie in `text`. A refusal leaves `out` as it was.
// The lists are lent by the caller, each by itself.
pub fn write(
    scheme: &Scheme,
    works: &[WorkRow],
    items: &[ItemRow],
    text: &[u8],
    out: &mut [u8],
) -> Result<usize, Cause>
    ensures { MatchResult result (λ n. Written (task_of scheme.now) works.now items.now text.now out.old out.new n) (λ c. Refuses (task_of scheme.now) works.now items.now text.now out.old c × (out.new ≡ out.old)) }
{
    let items_len = items_size(items, text)?;
    let works_len = works_size(scheme.works(), works, text)?;
    let len = 32 + items_len + works_len;
    if out.len() < len {
        return Err(Cause::OutputShort);
    }
    let mut output = Output::new(out, text);
    output.mark(Kind::Head);
    output.items(items);
    output.works(scheme.works(), works);
    output.set(Kind::Standing, scheme.standing());
    output.set(Kind::Wanted, scheme.wanted());
    output.mark(Kind::End);
    Ok(len)
}
