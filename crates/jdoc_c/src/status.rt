//! What a call from C returns.

ghost use Rattle.std.specs.Prelude.{◌≡◌};
ghost use Rattle.jdoc_c.specs.Statuses.{code_of, number_of};

use std::alloc::{AllocError, AllocFailed};

/// What C sees of a call that did its job.
const DONE: u32 = 0;

/// Why a call didn't do its job. `jdoc.h` has the numbers.
#[derive(Clone, Copy, Debug, PartialEq, Eq)]
pub enum Status {
    /// An allocation failed.
    NoMemory = 1,
    /// The reply or the lines don't fit into the buffer for them.
    TooShort = 2,
    /// The handle is closed.
    Closed = 3,
    /// The handle to be opened is already open.
    WasOpen = 4,
    /// The number is 0 and the journal has none, or it differs from the journal's.
    BadNumber = 5,
    /// A line of the journal, or an operation that came to a reader, doesn't fit.
    Unfit = 6,
    /// The call is for a document and this is a reader, or the other way round.
    WrongKind = 7,
}

impl Status {
    /// The number that C sees.
    pub fn number(self) -> u32
        ensures { result ≡ number_of self }
    {
        self as u32
    }
}

impl From<AllocError> for Status {
    ghost use Rattle.std.specs.Prelude.{◌≡◌};
    ghost use Rattle.jdoc_c.specs.declared.status.Status.TheVariants.{NoMemory};

    ghost from_gives = { λ _ why. why ≡ NoMemory };

    fn from(_error: AllocError) -> Status {
        Status::NoMemory
    }
}

impl<T: Drop> From<AllocFailed<T>> for Status {
    ghost use Rattle.std.specs.Prelude.{◌≡◌};
    ghost use Rattle.jdoc_c.specs.declared.status.Status.TheVariants.{NoMemory};

    ghost from_gives = { λ _ why. why ≡ NoMemory };

    fn from(_error: AllocFailed<T>) -> Status {
        Status::NoMemory
    }
}

/// What C sees of how a call ended.
pub fn code_of(outcome: Result<(), Status>) -> u32
    ensures { result ≡ code_of outcome }
{
    match outcome {
        Ok(()) => DONE,
        Err(status) => status.number(),
    }
}
