//! What a draw goes by.
ghost use Rattle.std.specs.Prelude.{◌≡◌, ◌^◌, ◌<◌};
ghost use Rattle.sets.specs.Member.{Members};
ghost use Rattle.chooser.specs.Least.{Allowed, SetCapped};
ghost use Rattle.chooser.specs.Steps.{Held};

use chooser::Terms;
use sets::Set;
use tariff::Tariff;

/// The terms, the kept sets, and the works that a draw need look at, none of which has a price above the ceiling.
#[derive(Drop)]
pub(crate) struct Draw<'a, T: Tariff> {
    pub(crate) terms: Terms<'a, T>,
    pub(crate) sets: &'a [Set],
    pub(crate) works: Set,
    ghost low: { works.bits < 2 ^ 64 },
    ghost capped: { ∥ SetCapped T.Tariff.scale terms.prices.now works ∥₁ },
}

impl<'a, T: Tariff> Draw<'a, T> {
    /// A draw from some kept sets.
    pub(crate) fn new(terms: Terms<'a, T>, sets: &'a [Set]) -> Draw<'a, T>
        ensures terms { result.terms ≡ terms.entry }
        ensures sets { result.sets.now ≡ sets.now }
        ensures works { Members result.works (λ w. Allowed T.Tariff.scale result.terms.prices.now result.terms.bars w × Held result.sets.now w) }
    {
        let works = terms.candidates(sets);
        Draw { terms, sets, works }
    }
}
