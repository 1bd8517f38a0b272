//! The sample junction: seven works that give buses priority at a junction.
ghost use Rattle.std.specs.Prelude.{◌≡◌, ℕ, List, [], map, slice_index_or, IfOk, OnOk};
ghost use Rattle.std.specs.Borrow.{Bor};
ghost use Rattle.scheme.specs.Task.{task_of};
ghost use Rattle.inspection.specs.Sample.{sample, work_name, item_name, Holds};

use crate::Names;
use scheme::{Refusal, Scheme, Work};
use sets::Set;
use std::alloc::{AllocError, Global};

/// The names of the sample junction's works and items.
#[derive(Clone, Copy)]
pub struct SampleNames;

impl Names for SampleNames {
    ghost works = { λ _ w. work_name w };

    ghost items = { λ _ i. item_name i };

    fn work(&self, number: usize) -> &[u8] {
        named(&WORK_NAMES, number)
    }

    fn item(&self, number: usize) -> &[u8] {
        named(&ITEM_NAMES, number)
    }
}

/// The name at a place of a list; empty past its end.
fn named(names: &[&'static [u8]], number: usize) -> &'static [u8]
    ensures { result.now ≡ slice_index_or (map (λ (n : Bor (List ℕ)). n.now) names.now) number [] }
{
    let Some(name) = names.get(number) else {
        return b"";
    };
    *name
}

/// The names of the works.
const WORK_NAMES: [&[u8]; 7] = [
    b"Trench",
    b"Duct",
    b"Supply",
    b"Controller",
    b"Loops",
    b"Radar",
    b"Priority",
];

/// The names of the items.
const ITEM_NAMES: [&[u8]; 5] = [b"Duct", b"Supply", b"Controller", b"Detection", b"Priority"];

/// The needs and gives of the works, as the numbers of the sets.
const WORKS: [(u64, u64); 7] = [(0, 3), (0, 1), (0, 2), (3, 4), (1, 8), (4, 8), (12, 16)];

/// Why a scheme was not made.
#[derive(Debug, Clone, Copy)]
pub enum Failure {
    Memory,
    Refused(Refusal),
}

impl From<AllocError> for Failure {
    fn from(_: AllocError) -> Failure {
        Failure::Memory
    }
}

impl From<Refusal> for Failure {
    fn from(refusal: Refusal) -> Failure {
        Failure::Refused(refusal)
    }
}

/// The sample junction.
pub fn junction(heap: Global) -> Result<Scheme, Failure>
    ensures { IfOk result (λ s. task_of s ≡ sample) }
{
    let mut scheme = Scheme::new(heap)?;
    enter_all(&mut scheme, &WORKS)?;
    scheme.want(4)?;
    Ok(scheme)
}

/// Enters works, each given by the numbers of its needs and gives.
#[tactic(auto, using(crate::proofs::Entries::holds_none, crate::proofs::Entries::holds_more))]
fn enter_all(scheme: &mut Scheme, works: &[(u64, u64)]) -> Result<(), Refusal>
    ensures { OnOk result (Holds (task_of scheme.old) works.now (task_of scheme.new)) }
{
    for (needs, gives) in works {
        scheme.enter(Work {
            needs: Set::from_bits(*needs),
            gives: Set::from_bits(*gives),
        })?;
    }
    Ok(())
}
