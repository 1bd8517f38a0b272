//! A set as text.
ghost use Rattle.std.specs.Prelude.{Some};
ghost use Rattle.sets.specs.Text.{text_of};

use crate::Set;
use std::fmt;

/// The members in rising order, as `{1,2,5}`.
impl fmt::Display for Set {
    ghost output = { λ s. Some (text_of s) };

    fn fmt<W: fmt::Write>(&self, f: &mut fmt::Formatter<W>) -> fmt::Result {
        // `debug_set` would put a space behind each comma.
        f.write_str("{")?;
        let mut between = "";
        for k in self.iter() {
            write!(f, "{between}{k}")?;
            between = ",";
        }
        f.write_str("}")
    }
}
