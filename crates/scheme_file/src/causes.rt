//! Why a file or a call is refused.
ghost use Rattle.std.specs.Prelude.{◌≡◌};
ghost use Rattle.scheme_file.specs.declared.causes.Cause.TheVariants.{Refused, UnknownKind};
ghost use Rattle.scheme_file.specs.Causes.{cause_number};

use crate::kinds;
use scheme::Refusal;

/// Why a file or a call is refused.
#[derive(Clone, Copy, PartialEq, Eq, Debug)]
pub enum Cause {
    /// What the scheme itself would refuse.
    Refused(Refusal),
    /// The bytes end before the record, or before the end record.
    CutShort,
    /// A length that the record's kind cannot have.
    WrongLength,
    /// A kind that is not known, or a length with no place for a kind.
    UnknownKind,
    /// A record that cannot come here, or an item's number that is not above the one before.
    OutOfOrder,
    /// A byte of a name that is not from 32 to 126.
    NameByte,
    /// Lent rows that are too few, or rows that cannot be written.
    Rows,
    /// Lent bytes that are too few.
    OutputShort,
}

impl Cause {
    /// The number by which the cause is known; that of a refusal is the scheme's.
    pub fn number(self) -> u8
        ensures { result ≡ cause_number self }
    {
        // A match, and no discriminants: one of the causes holds a refusal.
        match self {
            Cause::Refused(refusal) => refusal.number(),
            Cause::CutShort => 12,
            Cause::WrongLength => 13,
            Cause::UnknownKind => 14,
            Cause::OutOfOrder => 15,
            Cause::NameByte => 16,
            Cause::Rows => 17,
            Cause::OutputShort => 18,
        }
    }
}

impl From<Refusal> for Cause {
    ghost from_gives = { λ refusal cause. cause ≡ Refused refusal };

    fn from(refusal: Refusal) -> Cause {
        Self::Refused(refusal)
    }
}

impl From<kinds::UnknownKind> for Cause {
    ghost from_gives = { λ _ cause. cause ≡ UnknownKind };

    fn from(_: kinds::UnknownKind) -> Cause {
        Self::UnknownKind
    }
}

/// Why a file is refused, and where.
#[derive(Clone, Copy, PartialEq, Eq, Debug)]
pub struct Fault {
    /// The record's number, from 0.
    pub index: usize,
    /// The offset of the record's first byte.
    pub offset: usize,
    pub cause: Cause,
}
