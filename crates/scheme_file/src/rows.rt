//! What a file holds beside the scheme.

/// A name: where its bytes lie in a text.
#[derive(Clone, Copy, PartialEq, Eq, Default, Debug)]
pub struct Name {
    /// The offset of its first byte.
    pub at: usize,
    pub len: usize,
}

/// What a file tells of a work beside its needs and gives.
#[derive(Clone, Copy, PartialEq, Eq, Default, Debug)]
pub struct WorkRow {
    pub pounds: u64,
    pub hours: u64,
    pub name: Name,
}

/// An item that has a name.
#[derive(Clone, Copy, PartialEq, Eq, Default, Debug)]
pub struct ItemRow {
    pub number: u8,
    pub name: Name,
}

/// How many rows of each list a reading filled.
#[derive(Clone, Copy, PartialEq, Eq, Default, Debug)]
pub struct Counts {
    pub works: usize,
    pub items: usize,
}
