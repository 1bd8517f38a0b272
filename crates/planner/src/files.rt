//! Reading a scheme file into a planner, and writing one of its scheme.
ghost use Rattle.std.specs.Prelude.{◌≡◌, MatchResult};
ghost use Rattle.scheme.specs.Task.{task_of};
ghost use Rattle.scheme_file.specs.Contents.{Refuses, Written};
ghost use Rattle.planner.specs.Files.{ReadsFile};

use crate::types::Planner;
use chooser::Chooser;
use scheme_file::{Cause, Counts, Fault, ItemRow, WorkRow};
use tariff::Tariff;

impl<T: Tariff, C: Chooser> Planner<T, C> {
    /// Reads a scheme file: opens the planner anew, enters the file's works, makes its items stand and be wanted, and fills the first
    /// rows. A fault leaves all as it was, the kept landmarks too.
    pub fn read(
        &mut self,
        bytes: &[u8],
        works: &mut [WorkRow],
        items: &mut [ItemRow],
    ) -> Result<Counts, Fault>
        ensures { ReadsFile T.Tariff.scale C.Chooser.room bytes.now self.old.scheme self.new.scheme (C.Chooser.kept self.old.chooser) (C.Chooser.kept self.new.chooser) works.old works.new items.old items.new result }
    {
        let counts = scheme_file::read(bytes, &mut self.scheme, works, items)?;
        self.chooser.clear();
        Ok(counts)
    }

    /// Writes the file of the scheme, with one row for each work, and answers its length. The names lie in `text`. Later bytes stay, and
    /// a refusal leaves all bytes as they were.
    pub fn write(
        &self,
        works: &[WorkRow],
        items: &[ItemRow],
        text: &[u8],
        out: &mut [u8],
    ) -> Result<usize, Cause>
        ensures { MatchResult result (λ n. Written (task_of self.now.scheme) works.now items.now text.now out.old out.new n) (λ c. Refuses (task_of self.now.scheme) works.now items.now text.now out.old c × (out.new ≡ out.old)) }
    {
        scheme_file::write(&self.scheme, works, items, text, out)
    }
}
