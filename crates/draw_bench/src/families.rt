//! Families of kept sets.
use chooser::Chooser;
use searcher::Searcher;
use sets::Set;
use std::fmt;
use tabler::Tabler;

/// Whether all works of a family have one price.
#[derive(Clone, Copy)]
pub enum Prices {
    Equal,
    Varied,
}

/// Some sets with some members each (fewer where a member repeats) of some works, at equal or at varied prices.
#[derive(Clone, Copy)]
pub struct Family {
    pub works: u8,
    pub sets: u8,
    pub members: u8,
    pub prices: Prices,
}

impl fmt::Display for Prices {
    fn fmt<W: fmt::Write>(&self, f: &mut fmt::Formatter<W>) -> fmt::Result {
        f.write_str(match self {
            Prices::Equal => "equal prices",
            Prices::Varied => "varied prices",
        })
    }
}

impl fmt::Display for Family {
    fn fmt<W: fmt::Write>(&self, f: &mut fmt::Formatter<W>) -> fmt::Result {
        write!(
            f,
            "{} sets of {} of {} works, {}",
            self.sets, self.members, self.works, self.prices
        )
    }
}

pub const FAMILIES: [Family; 8] = [
    Family {
        works: 16,
        sets: 8,
        members: 3,
        prices: Prices::Varied,
    },
    Family {
        works: 30,
        sets: 12,
        members: 4,
        prices: Prices::Varied,
    },
    Family {
        works: 64,
        sets: 12,
        members: 6,
        prices: Prices::Varied,
    },
    Family {
        works: 64,
        sets: 12,
        members: 6,
        prices: Prices::Equal,
    },
    Family {
        works: 64,
        sets: 32,
        members: 5,
        prices: Prices::Varied,
    },
    Family {
        works: 64,
        sets: 64,
        members: 3,
        prices: Prices::Varied,
    },
    Family {
        works: 64,
        sets: 64,
        members: 8,
        prices: Prices::Varied,
    },
    Family {
        works: 64,
        sets: 64,
        members: 5,
        prices: Prices::Equal,
    },
];

/// The next number of a generator (xorshift).
fn next(seed: u64) -> u64 {
    let a = seed ^ (seed << 13);
    let b = a ^ (a >> 7);
    b ^ (b << 17)
}

/// Fills prices and both choosers with an instance; the tabler keeps the sets that it has places for.
pub fn fill(
    family: Family,
    seed: u64,
    prices: &mut [u64],
    searcher: &mut Searcher,
    tabler: &mut Tabler,
) {
    let mut state = seed.wrapping_mul(0x9e37_79b9_7f4a_7c15) | 1;
    for price in prices.iter_mut() {
        state = next(state);
        *price = match family.prices {
            Prices::Equal => 1,
            Prices::Varied => 1 + state % 65_535,
        };
    }
    searcher.clear();
    tabler.clear();
    for _ in 0..family.sets {
        let mut set = Set::empty();
        for _ in 0..family.members {
            state = next(state);
            set = set.with((state >> 20) as usize % (family.works as usize).max(1));
        }
        let _ = searcher.add(set);
        let _ = tabler.add(set);
    }
}
