//! A part of the sets of works.
ghost use Rattle.std.specs.Prelude.{◌≡◌, ◌<◌, ◌⊎◌, ◌≢◌, IfSome};
ghost use Rattle.sets.specs.Member.{Has, Members};
ghost use Rattle.searcher.specs.Costs.{Own};

use sets::Set;

/// The sets that have every chosen work, and besides these only free ones.
#[derive(Clone, Copy, Default)]
pub(crate) struct Node {
    pub(crate) chosen: Set,
    pub(crate) free: Set,
}

impl Node {
    /// The part of the sets that have a work.
    pub(crate) fn with(self, w: usize) -> Node
        ensures chosen { Members result.chosen (λ k. Has self.chosen k ⊎ ((k ≡ w) × (w < 64))) }
        ensures free { Members result.free (λ k. Has self.free k × (k ≢ w)) }
    {
        Node {
            chosen: self.chosen.with(w),
            free: self.free.without(w),
        }
    }

    /// The part of the sets that lack a work.
    pub(crate) fn without(self, w: usize) -> Node
        ensures chosen { result.chosen ≡ self.chosen }
        ensures free { Members result.free (λ k. Has self.free k × (k ≢ w)) }
    {
        Node {
            free: self.free.without(w),
            ..self
        }
    }

    /// The free works of a kept set, if it counts: it is not met, and has no free works but those of `rest`.
    pub(crate) fn own_works(self, rest: Set, one: Set) -> Option<Set>
        ensures { IfSome result (Own self rest one) }
    {
        let shared = one.intersection(self.free);
        let counts = !self.chosen.intersects(one) && shared.is_subset(rest);
        counts.then_some(shared)
    }
}
