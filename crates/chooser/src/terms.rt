//! What is drawn under: prices and bars.
use sets::Set;
use tariff::Tariff;

/// The price of each work, in order of entry, and the barred works. A work past the end of the prices has none.
#[derive_where(Clone, Copy)]
pub struct Terms<'a, T: Tariff> {
    pub prices: &'a [T::Value],
    pub bars: Set,
}
