//! Where the rings of a list begin.

ghost use Rattle.std.specs.Prelude.{◌≡◌, ◌<◌, ◌≤◌, ◌++◌, ◌∷◌, [], length, take, OnOk};
ghost use Rattle.rings.specs.Starts.{capacity_of, starts_of};

use std::alloc::{AllocError, Global};

/// For each ring, the slot at which it begins.
///
/// Without rings it allocates nothing, and is smaller than an empty vector, so that many small lists cost little.
#[derive(Debug, Drop)]
pub struct Starts {
    /// `None` until room for a first start is asked for.
    pub starts: Option<Box<Vec<usize>>>,
}

impl Starts {
    /// Returns the starts of no rings. Allocates nothing.
    pub fn new() -> Starts
        ensures starts { starts_of result ≡ [] }
        ensures capacity { capacity_of result ≡ 0 }
    {
        Starts { starts: None }
    }

    /// Returns the starts, that of the first ring first.
    pub fn as_slice(&self) -> &[usize]
        ensures { result.now ≡ starts_of self.now }
    {
        match &self.starts {
            Some(starts) => starts,
            None => &[],
        }
    }

    /// Makes room for one more start.
    ///
    /// # Errors
    /// Returns `AllocError` if allocation fails; the starts stay as they are.
    pub fn reserve_one(&mut self, alloc: Global) -> Result<(), AllocError>
        ensures same { starts_of self.new ≡ starts_of self.old }
        ensures room { OnOk result (length (starts_of self.new) < capacity_of self.new) }
        ensures kept { capacity_of self.old ≤ capacity_of self.new }
    {
        match &mut self.starts {
            Some(starts) => starts.reserve(1),
            None => {
                let starts = Vec::with_capacity(alloc, 1)?;
                self.starts = Some(Box::new(alloc, starts)?);
                Ok(())
            }
        }
    }

    /// Appends the start of one more ring. Allocates nothing.
    pub fn push_reserved(&mut self, start: usize)
        requires { length (starts_of self.old) < capacity_of self.old }
        ensures starts { starts_of self.new ≡ starts_of self.old ++ start ∷ [] }
        ensures capacity { capacity_of self.new ≡ capacity_of self.old }
    {
        if let Some(starts) = &mut self.starts {
            starts.push_reserved(start);
        }
    }

    /// Keeps the starts of the first `count` rings.
    pub fn truncate(&mut self, count: usize)
        ensures starts { starts_of self.new ≡ take count (starts_of self.old) }
        ensures capacity { capacity_of self.new ≡ capacity_of self.old }
    {
        if let Some(starts) = &mut self.starts {
            starts.truncate(count);
        }
    }
}
