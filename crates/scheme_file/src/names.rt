//! Names in a text.
ghost use Rattle.std.specs.Prelude.{◌≡◌};
ghost use Rattle.scheme_file.specs.Contents.{bytes_at};

use crate::rows::Name;

impl Name {
    /// The bytes of the name in a text; those of them that there are.
    pub fn in_text<'a>(self, text: &'a [u8]) -> &'a [u8]
        ensures { result.now ≡ bytes_at text.now self }
    {
        let rest = &text[self.at.min(text.len())..];
        &rest[..self.len.min(rest.len())]
    }
}
