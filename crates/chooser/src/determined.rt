//! Every draw has one answer, so that all choosers agree.
ghost use Rattle.std.specs.Prelude.{◌^◌, ◌<◌, List};
ghost use Rattle.sets.specs.declared.Set.{Set};
ghost use Rattle.sets.specs.Member.{Members};
ghost use Rattle.tariff.specs.Amounts.{All};
ghost use Rattle.chooser.specs.Least.{Allowed, Determined};

use crate::Terms;
use sets::Set;
use tariff::Tariff;

impl<T: Tariff> Terms<'_, T> {
    /// For every list of kept sets, a draw at these prices and bars has an answer, and no other.
    pub fn draws_are_determined(&self)
        ensures { (kept : List Set) → All (λ one. one.bits < 2 ^ 64) kept → Determined T.Tariff.scale self.now.prices.now self.now.bars kept }
    {
        self.determine(self.allowed());
    }

    // Where the allowed works are known, the sets of them can be gone through.
    fn determine(&self, free: Set)
        requires { Members free (λ w. Allowed T.Tariff.scale self.now.prices.now self.now.bars w × (w < 64)) }
        ensures { (kept : List Set) → All (λ one. one.bits < 2 ^ 64) kept → Determined T.Tariff.scale self.now.prices.now self.now.bars kept }
    {}
}
