//! The kinds of record.
ghost use Rattle.std.specs.Prelude.{◌≡◌, MatchBool, MatchResult, Some, None};
ghost use Rattle.scheme_file.specs.Kinds.{code_of, named, Allowed};

/// What a record tells. A file has its kinds in this order, and each has its code there.
#[derive(Clone, Copy, PartialEq, Eq, Debug)]
pub enum Kind {
    /// The file's first record.
    Head = 1,
    /// An item that has a name.
    Item = 2,
    /// A work of the scheme.
    Work = 3,
    /// The items standing at the start.
    Standing = 4,
    /// The wanted items.
    Wanted = 5,
    /// The file's last record.
    End = 6,
}

/// A code that no kind has.
#[derive(Clone, Copy, PartialEq, Eq, Debug)]
pub struct UnknownKind;

impl TryFrom<u16> for Kind {
    type Error = UnknownKind;

    ghost try_from_gives = { λ code result. MatchResult result (λ kind. named code ≡ Some kind) (λ _. named code ≡ None) };

    /// The kind that a file's code stands for.
    fn try_from(code: u16) -> Result<Kind, UnknownKind> {
        match code {
            1 => Ok(Kind::Head),
            2 => Ok(Kind::Item),
            3 => Ok(Kind::Work),
            4 => Ok(Kind::Standing),
            5 => Ok(Kind::Wanted),
            6 => Ok(Kind::End),
            _ => Err(UnknownKind),
        }
    }
}

impl From<Kind> for u16 {
    ghost from_gives = { λ kind code. code ≡ code_of kind };

    /// The code that stands for the kind in a file.
    fn from(kind: Kind) -> u16 {
        kind as u16
    }
}

impl Kind {
    /// Whether a record of this kind can have that length, its own two bytes not counted.
    pub fn allows(self, length: usize) -> bool
        ensures { MatchBool result (Allowed self length) (Allowed self length → ⊥) }
    {
        match self {
            Kind::Head | Kind::End => length == 2,
            Kind::Item => (4..=43).contains(&length),
            Kind::Work => (23..=62).contains(&length),
            Kind::Standing | Kind::Wanted => length == 10,
        }
    }
}
