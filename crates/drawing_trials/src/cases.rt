//! Random cases of a draw.
use crate::numbers::Numbers;
use chooser::Terms;
use sets::Set;
use std::alloc::{AllocError, Global};
use tariff::hours_first::{HoursAndPounds, HoursFirst};
use tariff::pounds::Pounds;

/// What is kept and barred, and prices under each tariff.
#[derive(Drop)]
pub struct Case {
    pub works: usize,
    pub kept: Vec<Set>,
    pub bars: Set,
    pub pounds: Vec<u64>,
    pub hours: Vec<HoursAndPounds>,
}

/// The amounts of a price list: `count` of them, one after another from `least` on.
#[derive(Clone, Copy)]
struct Amounts {
    least: u64,
    count: u64,
}

impl Case {
    /// Up to ten works, of which the last may have no price, and up to twelve sets.
    pub fn small(heap: Global, numbers: &mut Numbers) -> Result<Case, AllocError> {
        let works = numbers.below(11);
        let priced = match numbers.below(4) {
            0 => numbers.below(works),
            _ => works,
        };
        let amounts = Amounts::any(numbers);
        let mut case = Case::new(heap, works as usize, any_bars(numbers));
        for _ in 0..priced {
            let first = amounts.pick_or_odd(numbers);
            let second = amounts.pick_or_odd(numbers);
            case.price(first, second)?;
        }
        let sparse = numbers.below(3);
        for _ in 0..numbers.below(13) {
            let set = case.any_set(numbers, sparse);
            case.kept.push(set)?;
        }
        Ok(case)
    }

    /// 64 works and twelve sets, at equal prices or at any within the ceiling.
    pub fn wide(heap: Global, numbers: &mut Numbers, equal: bool) -> Result<Case, AllocError> {
        let amounts = if equal {
            Amounts {
                least: numbers.below(65_536),
                count: 1,
            }
        } else {
            Amounts {
                least: 0,
                count: 65_536,
            }
        };
        let mut case = Case::new(heap, 64, any_bars(numbers));
        for _ in 0..64 {
            let first = amounts.pick(numbers);
            let second = amounts.pick(numbers);
            case.price(first, second)?;
        }
        for _ in 0..12 {
            let set = Set::from_bits(numbers.bits() & numbers.bits());
            case.kept.push(set)?;
        }
        Ok(case)
    }

    fn new(heap: Global, works: usize, bars: Set) -> Case {
        Case {
            works,
            kept: Vec::new(heap),
            bars,
            pounds: Vec::new(heap),
            hours: Vec::new(heap),
        }
    }

    /// The prices in pounds, and the bars.
    pub fn in_pounds(&self) -> Terms<'_, Pounds> {
        Terms {
            prices: self.pounds.as_slice(),
            bars: self.bars,
        }
    }

    /// The prices by hours first, and the bars.
    pub fn by_hours(&self) -> Terms<'_, HoursFirst> {
        Terms {
            prices: self.hours.as_slice(),
            bars: self.bars,
        }
    }

    /// Prices one work more.
    fn price(&mut self, hours: u64, pounds: u64) -> Result<(), AllocError> {
        self.pounds.push(pounds)?;
        self.hours.push(HoursAndPounds { hours, pounds })?;
        Ok(())
    }

    /// A set of the works, or now and then an empty one, a kept one again or one with members past the works.
    fn any_set(&self, numbers: &mut Numbers, sparse: u64) -> Set {
        let works = Set::below(self.works);
        let mut bits = numbers.bits();
        for _ in 0..sparse {
            bits &= numbers.bits();
        }
        let again = self.kept.get(numbers.below(12) as usize).copied();
        match numbers.below(100) {
            0 => Set::empty(),
            1..=16 => again.unwrap_or(works),
            17..=32 => Set::from_bits(bits),
            _ => {
                let one = numbers.below(self.works as u64) as usize;
                Set::from_bits(bits).with(one).intersection(works)
            }
        }
    }
}

impl Amounts {
    fn any(numbers: &mut Numbers) -> Amounts {
        let (least, count) = match numbers.below(5) {
            0 => (0, 1),
            1 => (7, 1),
            2 => (0, 3),
            3 => (1, 8),
            _ => (0, 65_536),
        };
        Amounts { least, count }
    }

    fn pick(self, numbers: &mut Numbers) -> u64 {
        self.least.saturating_add(numbers.below(self.count))
    }

    /// An amount, or now and then one at the ceiling or above it.
    fn pick_or_odd(self, numbers: &mut Numbers) -> u64 {
        match numbers.below(30) {
            0 => 65_535,
            1 => 65_536,
            2 => u64::MAX,
            _ => self.pick(numbers),
        }
    }
}

/// Any works: half of them, a few or none.
fn any_bars(numbers: &mut Numbers) -> Set {
    let bits = match numbers.below(6) {
        0 => numbers.bits(),
        1..=3 => numbers.bits() & numbers.bits() & numbers.bits(),
        _ => 0,
    };
    Set::from_bits(bits)
}
