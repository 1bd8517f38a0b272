//! Opening and editing a planner's scheme. The kept landmarks are let go where they may be landmarks no longer.
ghost use Rattle.std.specs.Prelude.{◌≡◌, [], IfOk};
ghost use Rattle.scheme.specs.Edits.{opened, Entered, Amended, Stood, Wanted, Waived};
ghost use Rattle.scheme.specs.Task.{task_of};
ghost use Rattle.rules.specs.Calls.Call.{enter as to_enter, amend as to_amend, stand as to_stand, want as to_want, waive as to_waive};
ghost use Rattle.planner.specs.Parts.{Does};

use crate::types::Planner;
use chooser::Chooser;
use scheme::{Refusal, Scheme, Work};
use std::alloc::{AllocError, Global};
use tariff::Tariff;

impl<T: Tariff, C: Chooser> Planner<T, C> {
    /// A planner newly opened, above a scheme and a chooser that are emptied.
    pub fn new(tariff: T, mut scheme: Scheme, mut chooser: C) -> Planner<T, C>
        ensures held { task_of result.scheme ≡ opened }
        ensures kept { C.Chooser.kept result.chooser ≡ [] }
    {
        scheme.open();
        chooser.clear();
        Planner {
            tariff,
            scheme,
            chooser,
        }
    }

    /// A planner newly opened, with places for all works reserved, above a chooser that is emptied.
    pub fn with_room(tariff: T, chooser: C, heap: Global) -> Result<Planner<T, C>, AllocError>
    where
        T: Drop,
        C: Drop,
        ensures { IfOk result (λ p. (task_of p.scheme ≡ opened) × (C.Chooser.kept p.chooser ≡ [])) }
    {
        let scheme = Scheme::new(heap)?;
        Ok(Planner::new(tariff, scheme, chooser))
    }

    /// Opens the planner anew: no works, nothing standing, nothing wanted, no landmarks.
    pub fn open(&mut self)
        ensures held { task_of self.new.scheme ≡ opened }
        ensures kept { C.Chooser.kept self.new.chooser ≡ [] }
    {
        self.scheme.open();
        self.chooser.clear();
    }

    /// Enters a work and answers its number.
    pub fn enter(&mut self, work: Work) -> Result<u8, Refusal>
        ensures edit { Entered (task_of self.old.scheme) work result (task_of self.new.scheme) }
        ensures effect { Does T.Tariff.scale C.Chooser.room C.Chooser.kept self.old (to_enter work.needs work.gives) self.new }
    {
        let number = self.scheme.enter(work)?;
        self.chooser.clear();
        Ok(number)
    }

    /// Replaces the needs and gives of a held work.
    pub fn amend(&mut self, number: u8, work: Work) -> Result<(), Refusal>
        ensures edit { Amended (task_of self.old.scheme) number work result (task_of self.new.scheme) }
        ensures effect { Does T.Tariff.scale C.Chooser.room C.Chooser.kept self.old (to_amend number work.needs work.gives) self.new }
    {
        self.scheme.amend(number, work)?;
        self.chooser.clear();
        Ok(())
    }

    /// Makes an item stand from the start; answers whether it was added.
    pub fn stand(&mut self, item: u8) -> Result<bool, Refusal>
        ensures edit { Stood (task_of self.old.scheme) item result (task_of self.new.scheme) }
        ensures effect { Does T.Tariff.scale C.Chooser.room C.Chooser.kept self.old (to_stand item) self.new }
    {
        let added = self.scheme.stand(item)?;
        if added {
            self.chooser.clear();
        }
        Ok(added)
    }

    /// Adds a wanted item; answers whether it was added. Every landmark stays one.
    pub fn want(&mut self, item: u8) -> Result<bool, Refusal>
        ensures edit { Wanted (task_of self.old.scheme) item result (task_of self.new.scheme) }
        ensures effect { Does T.Tariff.scale C.Chooser.room C.Chooser.kept self.old (to_want item) self.new }
    {
        self.scheme.want(item)
    }

    /// Removes a wanted item.
    pub fn waive(&mut self, item: u8) -> Result<(), Refusal>
        ensures edit { Waived (task_of self.old.scheme) item result (task_of self.new.scheme) }
        ensures effect { Does T.Tariff.scale C.Chooser.room C.Chooser.kept self.old (to_waive item) self.new }
    {
        // Read for its contract: that no set has an item above 63 is known only of a set that is read.
        let _wanted = self.scheme.wanted();
        self.scheme.waive(item)?;
        self.chooser.clear();
        Ok(())
    }
}
