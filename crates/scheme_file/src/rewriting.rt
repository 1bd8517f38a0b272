//! Reading a file and writing it back.
ghost use Rattle.std.specs.Prelude.{◌≡◌, length, MatchResult};
ghost use Rattle.scheme_file.specs.declared.rewriting.Failure.TheVariants.{Read, Write};
ghost use Rattle.scheme.specs.Task.{task_of};
ghost use Rattle.scheme_file.specs.Contents.{Filled};
ghost use Rattle.scheme_file.specs.Rewriting.{Copied, Failed, Left};

use crate::causes::{Cause, Fault};
use crate::reading::read;
use crate::rows::{Counts, ItemRow, WorkRow};
use crate::writing::write;
use scheme::Scheme;

/// Why a file is not written back.
#[derive(Clone, Copy, PartialEq, Eq, Debug)]
pub enum Failure {
    /// The file is refused.
    Read(Fault),
    /// The file is read, and writing it is refused.
    Write(Cause),
}

impl From<Fault> for Failure {
    ghost from_gives = { λ fault failure. failure ≡ Read fault };

    fn from(fault: Fault) -> Failure {
        Failure::Read(fault)
    }
}

impl From<Cause> for Failure {
    ghost from_gives = { λ cause failure. failure ≡ Write cause };

    fn from(cause: Cause) -> Failure {
        Failure::Write(cause)
    }
}

/// Reads a file and writes it back: the same bytes. Answers their number.
// The lists are lent by the caller, each by itself.
pub fn rewrite(
    bytes: &[u8],
    scheme: &mut Scheme,
    works: &mut [WorkRow],
    items: &mut [ItemRow],
    out: &mut [u8],
) -> Result<usize, Failure>
    ensures copied { MatchResult result (λ n. Copied bytes.now out.old out.new n) (λ f. Failed bytes.now (length works.old) (length items.old) out.old f × (out.new ≡ out.old)) }
    ensures left { Left result ((scheme.new ≡ scheme.old) × (works.new ≡ works.old) × (items.new ≡ items.old)) ((n : Counts) × Filled bytes.now (task_of scheme.new) works.old works.new items.old items.new n) }
{
    let counts = read(bytes, scheme, works, items)?;
    let works = &works[..counts.works];
    let items = &items[..counts.items];
    Ok(write(scheme, works, items, bytes, out)?)
}
