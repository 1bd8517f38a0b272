//! What a tabler does as a chooser.
ghost use Rattle.std.proofs.Common.{rules};

use crate::table::{Draw, meets_all};
use crate::{ROOM, Tabler};
use chooser::{Chooser, Full, Terms};
use sets::Set;
use tariff::Tariff;

// All but the draw is handed on to the store: a default body of the trait could not name it.
impl Chooser for Tabler {
    const LIMIT: usize = ROOM;

    ghost kept = { λ c. c.kept.sets.items };

    ghost room = { 12 };

    ghost small = { Prim.search rules };

    ghost fits = { Prim.search rules };

    fn capacity(&self) -> usize {
        Self::LIMIT
    }

    fn clear(&mut self) {
        self.kept.clear();
    }

    fn add(&mut self, set: Set) -> Result<(), Full> {
        self.kept.add(set)
    }

    fn count(&self) -> usize {
        self.kept.count()
    }

    fn read(&self, place: usize) -> Option<Set> {
        self.kept.read(place)
    }

    fn draw<T: Tariff>(&self, terms: &Terms<'_, T>) -> Option<Set> {
        let sets = self.kept.as_slice();
        let free = terms.candidates(sets);
        if meets_all(free, sets) {
            let draw = Draw {
                terms: *terms,
                free,
                sets,
            };
            Some(draw.least())
        } else {
            None
        }
    }
}
