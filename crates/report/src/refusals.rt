//! The line of a refusal.
ghost use Rattle.std.specs.Prelude.{◌≡◌};
ghost use Rattle.report.specs.Lines.{fault_text, refusal_text};
ghost use Rattle.report.specs.Refused.{refused_text};

use page::{Page, Text};
use scheme::Refusal;
use scheme_file::{Cause, Fault};

/// Why there is no answer, and where the file has a fault its offset.
#[derive(Clone, Copy)]
pub struct RefusalLine {
    cause: Cause,
    offset: Option<usize>,
}

impl From<Refusal> for RefusalLine {
    ghost from_gives = { λ refusal line. refused_text line ≡ refusal_text refusal };

    fn from(refusal: Refusal) -> RefusalLine {
        RefusalLine {
            cause: refusal.into(),
            offset: None,
        }
    }
}

impl From<Fault> for RefusalLine {
    ghost from_gives = { λ fault line. refused_text line ≡ fault_text fault };

    fn from(fault: Fault) -> RefusalLine {
        RefusalLine {
            cause: fault.cause,
            offset: Some(fault.offset),
        }
    }
}

impl Text for RefusalLine {
    ghost shown = { refused_text };

    fn put(&self, page: &mut Page<'_>) {
        page.put(b"refused ");
        page.put_number(self.cause.number() as u64);
        if let Some(offset) = self.offset {
            page.put(b" at ");
            page.put_number(offset as u64);
        }
        page.put(b"\n");
    }
}
