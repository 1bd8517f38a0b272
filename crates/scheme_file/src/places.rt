//! Where a reading stands between two records.
use crate::stages::Stage;

/// What the records before tell of those that can follow; the default is the start of a file.
// Two counts, and no `Counts`: the rules in specs/ move each by itself.
#[derive(Clone, Copy, PartialEq, Eq, Default, Debug)]
pub struct Place {
    pub stage: Stage,
    /// The least number that the next item can have.
    pub least: usize,
    /// How many items came.
    pub items: usize,
    /// How many works came.
    pub works: usize,
}
