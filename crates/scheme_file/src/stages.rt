//! Which kind of record can come next.
ghost use Rattle.std.specs.Prelude.{◌≡◌, MatchOption};
ghost use Rattle.scheme_file.specs.Kinds.{Next, stage_after};

use crate::kinds::Kind;

/// How far a file has been read.
#[derive(Clone, Copy, PartialEq, Eq, Default, Debug)]
pub enum Stage {
    /// The head is to come.
    #[default]
    Opening,
    /// An item, a work or the standing set can come.
    Items,
    /// A work or the standing set can come.
    Works,
    /// The wanted set is to come.
    Wants,
    /// The end is to come.
    Closing,
    /// The end has come.
    Closed,
}

impl Stage {
    /// The stage after a record of that kind, if one can come now.
    pub fn after(self, kind: Kind) -> Option<Stage>
        ensures { MatchOption result (Next self kind → ⊥) (λ s. Next self kind × (s ≡ stage_after kind)) }
    {
        match (self, kind) {
            (Stage::Opening, Kind::Head) => Some(Stage::Items),
            (Stage::Items, Kind::Item) => Some(Stage::Items),
            (Stage::Items | Stage::Works, Kind::Work) => Some(Stage::Works),
            (Stage::Items | Stage::Works, Kind::Standing) => Some(Stage::Wants),
            (Stage::Wants, Kind::Wanted) => Some(Stage::Closing),
            (Stage::Closing, Kind::End) => Some(Stage::Closed),
            _ => None,
        }
    }
}
