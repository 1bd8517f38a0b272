//! Why a call is refused.
ghost use Rattle.std.specs.Prelude.{◌≡◌, Some};
ghost use Rattle.scheme.specs.Refusals.{number_of, reason_of};

use std::error::Error;
use std::fmt;

/// Why a call was refused. A refused call changes nothing, but for the landmarks kept when the capacity is spent.
#[derive(Clone, Copy, PartialEq, Eq, Debug)]
pub enum Refusal {
    /// An item above 63.
    ItemTooHigh = 1,
    /// A work that gives nothing.
    GivesNothing = 2,
    /// A work beyond the 64 that a scheme holds.
    SchemeFull = 3,
    /// A waiver of an item that is not wanted.
    NotWanted = 4,
    /// Not one price for each work.
    PriceCount = 5,
    /// A price above the ceiling.
    PriceTooHigh = 6,
    /// A work that is not held.
    NoSuchWork = 7,
    /// A lent list that is shorter than what it is to take.
    ListTooShort = 8,
    /// No order of unbarred works leaves every wanted item standing.
    OutOfReach = 9,
    /// No place is left for a landmark.
    CapacitySpent = 10,
    /// A candidate's order of more than 64 works.
    PaperTooLong = 11,
}

impl Refusal {
    /// The number by which the refusal is known.
    pub fn number(self) -> u8
        ensures { result ≡ number_of self }
    {
        self as u8
    }

    /// The reason in plain words.
    pub fn reason(self) -> &'static str
        ensures { result.now ≡ reason_of self }
    {
        match self {
            Refusal::ItemTooHigh => "an item above 63",
            Refusal::GivesNothing => "a work that gives nothing",
            Refusal::SchemeFull => "64 works are held already",
            Refusal::NotWanted => "the waived item is not wanted",
            Refusal::PriceCount => "not one price for each work",
            Refusal::PriceTooHigh => "a price above the ceiling",
            Refusal::NoSuchWork => "a work that is not held",
            Refusal::ListTooShort => "the list is too short",
            Refusal::OutOfReach => "out of reach",
            Refusal::CapacitySpent => "the capacity is spent",
            Refusal::PaperTooLong => "a paper of more than 64 works",
        }
    }
}

impl fmt::Display for Refusal {
    ghost output = { λ r. Some (reason_of r) };

    fn fmt<W: fmt::Write>(&self, f: &mut fmt::Formatter<W>) -> fmt::Result {
        f.pad(self.reason())
    }
}

impl Error for Refusal {}
