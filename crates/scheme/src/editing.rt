//! Making and editing a scheme.
ghost use Rattle.std.specs.Prelude.{◌≡◌, IfOk};
ghost use Rattle.scheme.specs.Edits.{opened, Entered, Amended, Added, Stood, Wanted, Waived};
ghost use Rattle.scheme.specs.Task.{task_of};

use crate::checks::{check_entry, check_gives, check_item};
use crate::{Refusal, Scheme, Work};
use sets::Set;
use std::alloc::{AllocError, Global};

impl Scheme {
    /// How many works a scheme can hold.
    pub const LIMIT: usize = 64;

    /// A scheme newly opened, with places for all its works reserved.
    pub fn new(heap: Global) -> Result<Scheme, AllocError>
        ensures { IfOk result (λ s. task_of s ≡ opened) }
    {
        let works = Vec::with_capacity(heap, Scheme::LIMIT)?;
        Ok(Scheme {
            works,
            standing: Set::empty(),
            wanted: Set::empty(),
        })
    }

    /// Opens the scheme anew: no works, nothing standing, nothing wanted.
    pub fn open(&mut self)
        ensures { task_of self.new ≡ opened }
    {
        self.works.clear();
        self.standing = Set::empty();
        self.wanted = Set::empty();
    }

    /// Enters a work and answers its number.
    pub fn enter(&mut self, work: Work) -> Result<u8, Refusal>
        ensures { Entered (task_of self.old) work result (task_of self.new) }
    {
        let number = self.works.len();
        check_entry(work.gives, number)?;
        self.works.push_reserved(work);
        Ok(number as u8)
    }

    /// Replaces the needs and gives of a held work.
    pub fn amend(&mut self, number: u8, work: Work) -> Result<(), Refusal>
        ensures { Amended (task_of self.old) number work result (task_of self.new) }
    {
        let at = number as usize;
        if at >= self.works.len() {
            return Err(Refusal::NoSuchWork);
        }
        check_gives(work.gives)?;
        self.works[at] = work;
        Ok(())
    }

    // `stand` and `want` are two calls of the rules; what they do alike is `add`.

    /// Makes an item stand from the start; answers whether it was added.
    pub fn stand(&mut self, item: u8) -> Result<bool, Refusal>
        ensures { Stood (task_of self.old) item result (task_of self.new) }
    {
        add(&mut self.standing, item)
    }

    /// Adds a wanted item; answers whether it was added.
    pub fn want(&mut self, item: u8) -> Result<bool, Refusal>
        ensures { Wanted (task_of self.old) item result (task_of self.new) }
    {
        add(&mut self.wanted, item)
    }

    /// Removes a wanted item.
    pub fn waive(&mut self, item: u8) -> Result<(), Refusal>
        ensures { Waived (task_of self.old) item result (task_of self.new) }
    {
        let item = item as usize;
        check_item(item)?;
        if !self.wanted.contains(item) {
            return Err(Refusal::NotWanted);
        }
        self.wanted = self.wanted.without(item);
        Ok(())
    }
}

/// Adds an item to a set of items; answers whether it was added.
fn add(items: &mut Set, item: u8) -> Result<bool, Refusal>
    ensures { Added items.old item result items.new }
{
    let item = item as usize;
    check_item(item)?;
    if items.contains(item) {
        return Ok(false);
    }
    *items = items.with(item);
    Ok(true)
}
