//! What is asked: a scheme, under prices and bars.
use chooser::Terms;
use scheme::Scheme;
use tariff::Tariff;

/// A question: the scheme that it is put of, and the terms that its answer is drawn under.
#[derive_where(Clone, Copy)]
pub struct Question<'a, T: Tariff> {
    pub scheme: &'a Scheme,
    pub terms: Terms<'a, T>,
}
