//! A searcher with places for 64 sets.
ghost use Rattle.std.specs.Prelude.{◌≡◌, [], IfOk};

use crate::Searcher;
use chooser::Kept;
use std::alloc::{AllocError, Global};

impl Searcher {
    /// A searcher that keeps no sets yet. Its memory is reserved here, and none is allocated later.
    pub fn new(heap: Global) -> Result<Searcher, AllocError>
        ensures { IfOk result (λ s. s.kept.sets.items ≡ []) }
    {
        let kept = Kept::new(heap)?;
        Ok(Searcher { kept })
    }
}
