//! The answers of the rules on worked junctions.
//!
//! `worked_cases` returns a table. Its contract says that the rules of questions, papers and lists of calls, which the planner's contracts cite too,
//! give the numbers of the table and no others.
#![tactic(auto)]

ghost use Rattle.worked.specs.Worked.{Worked, OnTheSample, OnOthers};

use sets::Set;
use tariff::hours_first::HoursAndPounds;

/// An answer: the works in order, their total and the number of rounds.
#[derive(Clone, Copy, PartialEq, Eq, Debug)]
pub struct Answer<V, const N: usize> {
    pub order: [usize; N],
    pub total: V,
    pub rounds: usize,
}

/// A verdict, in pounds.
#[derive(Clone, Copy, PartialEq, Eq, Debug)]
pub enum Verdict {
    /// The paper can be carried out, but another order is cheaper than its total.
    Dearer { total: u64 },
    /// The work at this place lacks this item.
    Lacking { place: usize, item: usize },
    /// This item is missing after the last work.
    Missing { item: usize },
}

/// A paper: its works in order and the verdict on it.
#[derive(Clone, Copy, PartialEq, Eq, Debug)]
pub struct Paper<const N: usize> {
    pub order: [usize; N],
    pub verdict: Verdict,
}

// Each question stands in the contract, with its answer: in a list of cases here, every bar and price would have to be stated there once more.
/// The sample junction.
#[derive(Clone, Copy, PartialEq, Eq, Debug)]
pub struct SampleCases {
    /// In pounds, from nothing kept.
    pub first: Answer<u64, 5>,
    /// The landmarks kept then and after each later question, as sets of works.
    pub kept: [Set; 5],
    /// The same question again.
    pub again: Answer<u64, 5>,
    /// With the radar, work 5, barred.
    pub radarless: Answer<u64, 5>,
    /// With the duct, work 1, barred.
    pub ductless: Answer<u64, 4>,
    /// By hours first, from nothing kept.
    pub hours: Answer<HoursAndPounds, 4>,
    /// A paper that can be carried out, while another order is cheaper.
    pub dear_paper: Paper<4>,
    /// A paper that lacks an item at a place.
    pub lacking_paper: Paper<1>,
    /// A paper that can be carried out, with an item missing after it.
    pub missing_paper: Paper<3>,
}

/// Other junctions, in pounds, from nothing kept.
#[derive(Clone, Copy, PartialEq, Eq, Debug)]
pub struct OtherCases {
    /// Nothing is wanted.
    pub idle: Answer<u64, 0>,
    /// Three free works that give 0, 1 and both; both are wanted.
    pub free: Answer<u64, 2>,
    /// Two works at 5 pounds that give the wanted item.
    pub equal: Answer<u64, 1>,
    /// Twelve works at 1 pound that each give a wanted item of its own, at a capacity of 12.
    pub twelve: Answer<u64, 12>,
    /// Thirteen such works, at a capacity of 64.
    pub thirteen: Answer<u64, 13>,
}

/// The worked junctions.
#[derive(Clone, Copy, PartialEq, Eq, Debug)]
pub struct Cases {
    pub sample: SampleCases,
    pub others: OtherCases,
}

fn sample_cases() -> SampleCases
    ensures { OnTheSample result }
{
    SampleCases {
        first: Answer {
            order: [1, 2, 3, 5, 6],
            total: 1850,
            rounds: 6,
        },
        kept: [
            Set::of(&[6]),
            Set::of(&[4, 5]),
            Set::of(&[3]),
            Set::of(&[0, 2]),
            Set::of(&[0, 1]),
        ],
        again: Answer {
            order: [1, 2, 3, 5, 6],
            total: 1850,
            rounds: 1,
        },
        radarless: Answer {
            order: [1, 2, 3, 4, 6],
            total: 2100,
            rounds: 1,
        },
        ductless: Answer {
            order: [0, 3, 5, 6],
            total: 1950,
            rounds: 1,
        },
        hours: Answer {
            order: [0, 3, 5, 6],
            total: HoursAndPounds {
                hours: 12,
                pounds: 1950,
            },
            rounds: 6,
        },
        dear_paper: Paper {
            order: [0, 3, 5, 6],
            verdict: Verdict::Dearer { total: 1950 },
        },
        lacking_paper: Paper {
            order: [3],
            verdict: Verdict::Lacking { place: 0, item: 0 },
        },
        missing_paper: Paper {
            order: [1, 2, 3],
            verdict: Verdict::Missing { item: 4 },
        },
    }
}

fn other_cases() -> OtherCases
    ensures { OnOthers result }
{
    OtherCases {
        idle: Answer {
            order: [],
            total: 0,
            rounds: 1,
        },
        free: Answer {
            order: [0, 1],
            total: 0,
            rounds: 3,
        },
        equal: Answer {
            order: [0],
            total: 5,
            rounds: 2,
        },
        twelve: Answer {
            order: [0, 1, 2, 3, 4, 5, 6, 7, 8, 9, 10, 11],
            total: 12,
            rounds: 13,
        },
        thirteen: Answer {
            order: [0, 1, 2, 3, 4, 5, 6, 7, 8, 9, 10, 11, 12],
            total: 13,
            rounds: 14,
        },
    }
}

/// The table of the worked junctions.
pub fn worked_cases() -> Cases
    ensures { Worked result }
{
    Cases {
        sample: sample_cases(),
        others: other_cases(),
    }
}
