//! Values that are kept once, however many holders they have.

ghost use Rattle.std.specs.Prelude.{◌≡◌, IfOk};

use std::alloc::{AllocError, Global};
use std::marker::Model;
use std::ops::Deref;
use std::sync::Arc;

/// A value that never changes, and that all its clones share. A clone allocates nothing: its `AllocError` says that the count of
/// those that share is full. Contracts see the value.
#[derive(Debug, Drop)]
pub struct Shared<T> {
    value: Arc<T>,
}

impl<T> Model for Shared<T> {
    ghost use Rattle.std.specs.Arc.{arc_value};

    ghost Value = { T };

    ghost view = { λ s. arc_value s.value };
}

impl<T: Drop> Shared<T> {
    /// Moves the value into memory that its clones share.
    ///
    /// # Errors
    /// `AllocError` if allocation fails.
    pub fn new(alloc: Global, value: T) -> Result<Shared<T>, AllocError>
        ensures { IfOk result (λ s. s ≡ value) }
    {
        Ok(Shared {
            value: Arc::new(alloc, value)?,
        })
    }
}

impl<T> Deref for Shared<T> {
    type Target = T;

    ghost deref_gives = { λ s x. x ≡ s };

    fn deref(&self) -> &T
        ensures { result.now ≡ self.now }
    {
        &self.value
    }
}

impl<T: Drop> Clone for Shared<T> {
    ghost is_clone = { λ s t. t ≡ s };

    fn clone(&self) -> Result<Shared<T>, AllocError> {
        Ok(Shared {
            value: Arc::try_clone(&self.value)?,
        })
    }
}

impl<T: PartialEq> PartialEq for Shared<T> {
    ghost eq = { λ s t. T.eq s t };

    ghost laws = { T.laws };

    fn eq(&self, other: &Shared<T>) -> bool {
        **self == **other
    }
}
