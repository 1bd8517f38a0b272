//! The record of a scheme: its works in order, the items that they make stand, and whether the wanted ones are among them.
ghost use Rattle.std.specs.Prelude.{◌≡◌, ◌++◌, IfOk, OnOk};
ghost use Rattle.sets.specs.Listed.{has_bit};
ghost use Rattle.scheme.specs.Task.{task_of};
ghost use Rattle.inspection.specs.Record.{entry, reach_text, Printed, Recorded};

use crate::Names;
use itoa::Buffer;
use scheme::Scheme;
use sets::Set;
use std::alloc::{AllocError, Global};

/// The record of a scheme.
pub fn record<N: Names>(heap: Global, scheme: &Scheme, names: &N) -> Result<Vec<u8>, AllocError>
    ensures { IfOk result (λ v. Recorded (task_of scheme.now) (N.Names.works names.now) (N.Names.items names.now) v.items) }
{
    let all = Set::below(scheme.works().len());
    // A lent list of places for 64 works: an order has no memory of its own.
    let mut places = [0u8; 64];
    let placed = scheme.order(all, &mut places).unwrap();
    print(heap, scheme, names, all, &places[0..placed])
}

/// The text of a record, given the order of the chosen works.
fn print<N: Names>(
    heap: Global,
    scheme: &Scheme,
    names: &N,
    chosen: Set,
    order: &[u8],
) -> Result<Vec<u8>, AllocError>
    ensures { IfOk result (λ v. Printed (task_of scheme.now) (N.Names.works names.now) (N.Names.items names.now) chosen order.now v.items) }
{
    let reach = scheme.reach(chosen);
    let mut text = Vec::from_slice(heap, b"works in order\n")?;
    for number in order {
        let w = *number as usize;
        add_entry(&mut text, w, names.work(w))?;
    }
    text.extend_from_slice(b"standing at the end\n")?;
    for i in reach.iter() {
        add_entry(&mut text, i, names.item(i))?;
    }
    text.extend_from_slice(b"wanted\n")?;
    for i in scheme.wanted().iter() {
        text.extend_from_slice(word(reach, i))?;
        text.extend_from_slice(b" ")?;
        add_entry(&mut text, i, names.item(i))?;
    }
    Ok(text)
}

/// Adds a line with a number and, if there is one, a name behind a blank.
fn add_entry(text: &mut Vec<u8>, number: usize, name: &[u8]) -> Result<(), AllocError>
    ensures { OnOk result (text.new.items ≡ text.old.items ++ entry number name.now) }
{
    text.extend_from_slice(Buffer::new().format(number).as_bytes())?;
    if !name.is_empty() {
        text.extend_from_slice(b" ")?;
        text.extend_from_slice(name)?;
    }
    text.extend_from_slice(b"\n")
}

/// Whether an item lies in the reach, in words.
#[tactic(auto, unfolding(sets::specs::Member::Has))]
fn word(reach: Set, item: usize) -> &'static [u8]
    ensures { result.now ≡ reach_text (has_bit reach item) }
{
    if reach.contains(item) {
        b"in reach"
    } else {
        b"out of reach"
    }
}
