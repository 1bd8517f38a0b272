//! What a scheme holds.
ghost use Rattle.std.specs.Prelude.{◌≡◌, ◌≤◌, length};
ghost use Rattle.scheme.specs.Task.{task_of};

use crate::{Scheme, Work};
use sets::Set;

impl Scheme {
    /// The works in order of entry.
    pub fn works(&self) -> &[Work]
        ensures value { result.now ≡ (task_of self.now).works }
        ensures bound { length result.now ≤ 64 }
    {
        self.works.as_slice()
    }

    /// The items standing at the start.
    pub fn standing(&self) -> Set
        ensures { result ≡ (task_of self.now).standing }
    {
        self.standing
    }

    /// The wanted items.
    pub fn wanted(&self) -> Set
        ensures { result ≡ (task_of self.now).wanted }
    {
        self.wanted
    }
}
