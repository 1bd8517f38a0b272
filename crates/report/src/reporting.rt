//! From a file's bytes to the bytes printed.
ghost use Rattle.std.specs.Prelude.{List};
ghost use Rattle.scheme.specs.Task.{task_of};
ghost use Rattle.scheme_file.specs.declared.rows.ItemRow.{ItemRow};
ghost use Rattle.scheme_file.specs.Contents.{Reads};
ghost use Rattle.tariff.specs.PoundsScale.{pounds_scale};
ghost use Rattle.planner.specs.Files.{Opens};
ghost use Rattle.planner.specs.Parts.{chooser_of, scheme_of};
ghost use Rattle.report.specs.Report.{Reported, Tells};

use crate::answers::Lines;
use crate::refusals::RefusalLine;
use arrayvec::ArrayVec;
use chooser::{Chooser, Terms};
use page::publish;
use planner::Planner;
use scheme_file::{Cause, ItemRow, WorkRow};
use sets::Set;
use tariff::pounds::Pounds;

/// How many bytes are enough for what is printed of any file.
pub const PAGE: usize = 4_096;

/// Reads a scheme file and puts the lines of its cheapest order in pounds, or its refusal, at the start of a page; answers how many bytes
/// they are, and later bytes stay. Refused where the page is too short, and then the page stays as it was.
pub fn report_cheapest<C: Chooser>(
    planner: &mut Planner<Pounds, C>,
    bytes: &[u8],
    page: &mut [u8],
) -> Result<usize, Cause>
    ensures { Reported C.Chooser.room bytes.now page.old (scheme_of planner.old) (scheme_of planner.new) (C.Chooser.kept (chooser_of planner.old)) (C.Chooser.kept (chooser_of planner.new)) result page.new }
{
    // Lent rows, as many as a file can fill: a reading has no memory of its own.
    let mut works = [WorkRow::default(); 64];
    let mut items = [ItemRow::default(); 64];
    match planner.read(bytes, &mut works, &mut items) {
        Ok(counts) => report_scheme(planner, bytes, &works[0..counts.works], page),
        Err(fault) => publish(&RefusalLine::from(fault), page),
    }
}

/// Puts the lines of the cheapest order of a scheme that was read from a file, with the rows of its works.
fn report_scheme<C: Chooser>(
    planner: &mut Planner<Pounds, C>,
    bytes: &[u8],
    rows: &[WorkRow],
    page: &mut [u8],
) -> Result<usize, Cause>
    requires reads { (items : List ItemRow) × Reads bytes.now (task_of (scheme_of planner.old)) rows.now items }
    requires opens { Opens pounds_scale C.Chooser.room (task_of (scheme_of planner.old)) (C.Chooser.kept (chooser_of planner.old)) }
    ensures { Tells C.Chooser.room bytes.now page.old (task_of (scheme_of planner.new)) (C.Chooser.kept (chooser_of planner.new)) result page.new }
{
    let mut pounds = ArrayVec::<u64, 64>::new();
    for row in rows {
        pounds.push(row.pounds);
    }
    // A lent list of places for 64 works: a question has no memory of its own.
    let mut order = [0u8; 64];
    let terms = Terms {
        prices: pounds.as_slice(),
        bars: Set::empty(),
    };
    match planner.ask(&terms, &mut order) {
        Ok(answer) => {
            let lines = Lines {
                bytes,
                rows,
                order: &order[0..answer.length],
                total: answer.total,
            };
            publish(&lines, page)
        }
        Err(refusal) => publish(&RefusalLine::from(refusal), page),
    }
}
