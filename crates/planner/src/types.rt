//! Planners and their answers.
ghost use Rattle.scheme.specs.Task.{task_of};
ghost use Rattle.planner.specs.Led.{Led};

use chooser::{Chooser, Terms};
use scheme::{Scheme, Work};
use tariff::Tariff;

/// What a question answers: how many works its order has, its total, and the rounds that were made.
#[derive(Clone, Copy, PartialEq, Eq, Debug)]
pub struct Answer<V> {
    pub length: usize,
    pub total: V,
    pub rounds: usize,
}

/// One call on a planner, for a list of calls. An enum, and no closures: the list is what the contract speaks of.
#[derive_where(Clone, Copy)]
pub enum Request<'a, T: Tariff> {
    Enter {
        work: Work,
    },
    Amend {
        number: u8,
        work: Work,
    },
    Stand {
        item: u8,
    },
    Want {
        item: u8,
    },
    Waive {
        item: u8,
    },
    Mark {
        terms: Terms<'a, T>,
        paper: &'a [u8],
    },
    Ask {
        terms: Terms<'a, T>,
        places: usize,
    },
}

/// A scheme above its chooser, under one tariff: what they hold and keep is what some list of calls since an opening leads to.
#[derive(Drop)]
pub struct Planner<T: Tariff, C: Chooser> {
    pub(crate) tariff: T,
    pub(crate) scheme: Scheme,
    pub(crate) chooser: C,
    ghost led: { Led T.Tariff.scale C.Chooser.room (task_of scheme) (C.Chooser.kept chooser) },
}
