//! How much a draw does.
use crate::Searcher;
use crate::draw::Draw;
use chooser::Terms;
use tariff::Tariff;

impl Searcher {
    /// How many nodes a draw goes through. It is told for measuring, and nothing is promised of it.
    pub fn nodes<T: Tariff>(&self, terms: &Terms<'_, T>) -> u64 {
        Draw::new(*terms, self.kept.as_slice()).least().nodes
    }
}
