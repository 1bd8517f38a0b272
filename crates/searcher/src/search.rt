//! The walk over the nodes.
ghost use Rattle.searcher.specs.Nodes.{Best, Of, Searched, Stepped};

use crate::draw::Draw;
use crate::node::Node;
use arrayvec::ArrayVec;
use sets::Set;
use std::ops::ControlFlow;
use tariff::Tariff;

/// What a walk found, and how many nodes it went through.
#[derive(Clone, Copy)]
pub(crate) struct Walked {
    pub(crate) best: Option<Set>,
    pub(crate) nodes: u64,
}

impl<T: Tariff> Draw<'_, T> {
    /// The first of the sets of the works that meet every kept set, if there is one. A part that is put on the stack has fewer free works
    /// than those below it, so that 64 places are enough.
    pub(crate) fn least(&self) -> Walked
        ensures { Searched T.Tariff.scale self.now.terms.prices.now self.now.works self.now.sets.now result.best }
    {
        let mut stack = ArrayVec::<Node, 64>::new();
        let mut best = None;
        let mut nodes = 0u64;
        let mut node = Node {
            chosen: Set::empty(),
            free: self.works,
        };
        'walk: loop {
            nodes = nodes.wrapping_add(1);
            match self.advance(node, best) {
                ControlFlow::Continue((with, without)) => {
                    stack.push(without);
                    node = with;
                }
                ControlFlow::Break(found) => {
                    best = found;
                    match stack.pop() {
                        None => return Walked { best, nodes },
                        Some(next) => node = next,
                    }
                }
            }
        }
    }

    /// Goes on from a node and the best set so far: a node is split by a free work of a kept set that is not met, or it is done, and this is
    /// then the best set.
    fn advance(&self, node: Node, best: Option<Set>) -> ControlFlow<Option<Set>, (Node, Node)>
        requires node { Of self.now.works node }
        requires best { Best self.now.works self.now.sets.now best }
        ensures { Stepped T.Tariff.scale self.now.terms.prices.now self.now.works self.now.sets.now node best result }
    {
        if self.is_beaten(node, best) {
            return ControlFlow::Break(best);
        }
        let Some(one) = self.branching_set(node) else {
            return ControlFlow::Break(Some(node.chosen));
        };
        let Some(w) = self.cheapest(one.intersection(node.free)) else {
            return ControlFlow::Break(best);
        };
        ControlFlow::Continue((node.with(w), node.without(w)))
    }
}
