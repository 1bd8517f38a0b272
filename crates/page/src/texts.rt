//! Texts, and a text put from the start of a page.
ghost use Rattle.std.specs.Prelude.{ℕ, List};
ghost use Rattle.page.specs.Adds.{Adds};
ghost use Rattle.page.specs.Puts.{Published};

use crate::Page;
use scheme_file::Cause;

/// What can be put into a page. It is not `Display`: names can have any bytes, and `Display` promises something only where no write failed.
pub trait Text {
    // The bytes of the text.
    ghost shown: { Self → List ℕ };

    /// Puts the text.
    fn put(&self, page: &mut Page<'_>)
        ensures { Adds page.old (shown self.now) page.new };
}

/// Puts a text at the start of a page and answers how many bytes it has; later bytes stay. Refused where the page is too short, and then
/// the page stays as it was.
pub fn publish<T: Text>(text: &T, page: &mut [u8]) -> Result<usize, Cause>
    ensures { Published (T.Text.shown text.now) page.old result page.new }
{
    let mut counted = Page {
        bytes: &mut [],
        at: 0,
    };
    text.put(&mut counted);
    let length = counted.at;
    if page.len() < length {
        return Err(Cause::OutputShort);
    }
    text.put(&mut Page { bytes: page, at: 0 });
    Ok(length)
}
