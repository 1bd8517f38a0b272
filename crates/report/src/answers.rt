//! The lines of an answer.
ghost use Rattle.std.specs.Prelude.{◌++◌};
ghost use Rattle.std.specs.List.{flat_map};
ghost use Rattle.page.specs.Adds.{Adds};
ghost use Rattle.report.specs.Lines.{total_line};
ghost use Rattle.report.specs.Rows.{row_line};

use page::{Page, Text};
use scheme_file::WorkRow;

/// An order and its total, with the rows of the works and the bytes that their names lie in.
#[derive(Clone, Copy)]
pub struct Lines<'a> {
    pub bytes: &'a [u8],
    pub rows: &'a [WorkRow],
    pub order: &'a [u8],
    pub total: u64,
}

impl Text for Lines<'_> {
    ghost shown = { λ t. flat_map (row_line t.bytes.now t.rows.now) t.order.now ++ total_line t.total };

    fn put(&self, page: &mut Page<'_>) {
        for number in self.order {
            self.put_work(*number as usize, page);
        }
        page.put(b"total ");
        page.put_number(self.total);
        page.put(b"\n");
    }
}

impl Lines<'_> {
    /// Puts a work's number, its pounds and its name; past the last row, those of a blank row.
    fn put_work(&self, w: usize, page: &mut Page<'_>)
        ensures { Adds page.old (row_line self.now.bytes.now self.now.rows.now w) page.new }
    {
        let row = self.rows.get(w).copied().unwrap_or_default();
        page.put_number(w as u64);
        page.put(b" ");
        page.put_number(row.pounds);
        page.put(b" ");
        page.put(row.name.in_text(self.bytes));
        page.put(b"\n");
    }
}
