//! An empty chooser.
ghost use Rattle.std.specs.Prelude.{◌≡◌, [], IfOk};

use crate::Tabler;
use chooser::Kept;
use std::alloc::{AllocError, Global};

impl Tabler {
    /// A chooser that keeps no sets yet, or an error where there is no memory for twelve.
    pub fn new(heap: Global) -> Result<Tabler, AllocError>
        ensures { IfOk result (λ c. c.kept.sets.items ≡ []) }
    {
        let kept = Kept::new(heap)?;
        Ok(Tabler { kept })
    }
}
