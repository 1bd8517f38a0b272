//! The least set of works, by a trial of every set.
use chooser::Terms;
use sets::Set;
use tariff::Tariff;

/// The first, in rising number, of the sets of at most ten works that have the lowest total of those that may be drawn.
pub fn least_by_trial<T: Tariff>(terms: &Terms<'_, T>, kept: &[Set], works: usize) -> Option<Set> {
    let mut best = None;
    for number in 0..1u64 << works.min(10) {
        let set = Set::from_bits(number);
        if is_allowed(terms, set) && meets_all(set, kept) && is_cheaper(terms, set, best) {
            best = Some(set);
        }
    }
    best
}

/// Whether every work of a set has a price within the ceiling and is not barred.
fn is_allowed<T: Tariff>(terms: &Terms<'_, T>, set: Set) -> bool {
    set.iter().all(
        |w| matches!(terms.prices.get(w), Some(price) if T::is_price(*price))
            && !terms.bars.contains(w),
    )
}

fn meets_all(set: Set, kept: &[Set]) -> bool {
    kept.iter().all(|one| set.bits() & one.bits() != 0)
}

fn is_cheaper<T: Tariff>(terms: &Terms<'_, T>, set: Set, best: Option<Set>) -> bool {
    best.is_none_or(|other| T::is_less(terms.set_cost(set), terms.set_cost(other)))
}
