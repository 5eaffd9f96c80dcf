//! Whether an engine is closed, which its writer tells all readers.

ghost use Rattle.std.specs.Prelude.{◌≡◌, ◌⊎◌};
ghost use Rattle.ids.specs.declared.refusal.Refusal.TheVariants.{Closed, NoReading};

use ids::Refusal;
use once_cell::race::OnceBool;
use std::alloc::{AllocError, Global};
use std::sync::Arc;

/// The end of an engine: its writer sets it once, and each token looks at it. No contract says when it is set.
#[derive(Drop)]
pub struct End {
    closed: Arc<OnceBool>,
}

impl End {
    /// The end of a new engine. One allocation.
    ///
    /// # Errors
    /// `AllocError` if allocation fails.
    pub fn new(alloc: Global) -> Result<End, AllocError> {
        Ok(End {
            closed: Arc::new(alloc, OnceBool::new())?,
        })
    }

    /// The same end again.
    ///
    /// # Errors
    /// `AllocError` if there are too many references.
    pub fn again(&self) -> Result<End, AllocError> {
        Ok(End {
            closed: Arc::try_clone(&self.closed)?,
        })
    }

    /// Tells all that look from now on that the engine is closed.
    pub fn close(&self) {
        let _ = self.closed.set(true);
    }

    /// Whether the engine is closed.
    pub fn is_closed(&self) -> bool {
        self.closed.get().is_some()
    }

    /// Why the copies gave no reading.
    pub fn no_reading(&self) -> Refusal
        ensures { (result ≡ NoReading) ⊎ (result ≡ Closed) }
    {
        if self.is_closed() {
            Refusal::Closed
        } else {
            Refusal::NoReading
        }
    }
}
