//! Why a call is refused.

ghost use Rattle.std.specs.Prelude.{◌≡◌};

use std::alloc::{AllocError, AllocFailed};
use std::error::Error;
use std::fmt;

/// Why a call is refused. A refused call leaves its object as it was, unless its documentation says otherwise. Prints as its number
/// (`E9`), and by `{:?}` as its name. `docs/RULES.md`, 'Refusals', says what to do then.
#[derive(Clone, Copy, Debug, PartialEq, Eq)]
pub enum Refusal {
    /// An allocation failed.
    NoMemory = 1,
    /// A step, a question, an assign or a delete at the head of a list.
    AtHead = 2,
    /// An index past the last visible item.
    PastEnd = 3,
    /// An insert at neither an item nor a head.
    NotInList = 4,
    /// A path of more than 32 keys.
    TooDeep = 5,
    /// A map key of more than 256 bytes.
    KeyTooLong = 6,
    /// A text of more than 4,096 bytes.
    TextTooLong = 7,
    /// The history has all the operations that it may hold.
    HistoryFull = 8,
    /// The queue was full.
    QueueFull = 9,
    /// The client has used all its serials.
    SerialEnd = 10,
    /// The ticket isn't one of this client's.
    Foreign = 11,
    /// The history is shorter than what the client had seen.
    BadFloor = 12,
    /// The replica isn't in the table of replicas, which is full.
    UnknownReplica = 13,
    /// The counter isn't 1 plus the greatest of the vector.
    BadCounter = 14,
    /// The vector's counter for the operation's own replica isn't the greatest that was applied.
    BrokenChain = 15,
    /// A counter in the vector that is above 0 is that of no applied operation.
    NamesNothing = 16,
    /// An operation that the vector names has a vector that isn't at most this one.
    NotClosed = 17,
    /// An assign or a delete at a head, or an item of the place that the vector doesn't cover or that was never inserted into that list.
    BadPlace = 18,
    /// The inbox is full.
    InboxFull = 19,
    /// An operation of the own replica that isn't applied here.
    OwnName = 20,
    /// A number that isn't whole, where a value is expected.
    NotWhole = 21,
    /// A line or a value that isn't of its format.
    BadLine = 22,
    /// The published copies gave no place to a reader.
    NoReaderPlace = 23,
    /// A configuration outside the limits.
    BadConfig = 24,
    /// The published copies gave no reading.
    NoReading = 25,
    /// The engine is closed.
    Closed = 26,
}

impl Refusal {
    ghost use Rattle.ids.specs.Refusals.{number_of};

    /// The refusal's number, as it is printed in `E22`.
    pub fn number(self) -> u8
        ensures { result ≡ number_of self }
    {
        self as u8
    }
}

impl fmt::Display for Refusal {
    fn fmt<W: fmt::Write>(&self, f: &mut fmt::Formatter<W>) -> fmt::Result {
        let number = self.number();
        write!(f, "E{number}")
    }
}

impl Error for Refusal {}

impl From<AllocError> for Refusal {
    ghost use Rattle.std.specs.Prelude.{◌≡◌};
    ghost use Rattle.ids.specs.declared.refusal.Refusal.TheVariants.{NoMemory};

    ghost from_gives = { λ _ why. why ≡ NoMemory };

    fn from(_error: AllocError) -> Refusal {
        Refusal::NoMemory
    }
}

impl<T: Drop> From<AllocFailed<T>> for Refusal {
    ghost use Rattle.std.specs.Prelude.{◌≡◌};
    ghost use Rattle.ids.specs.declared.refusal.Refusal.TheVariants.{NoMemory};

    ghost from_gives = { λ _ why. why ≡ NoMemory };

    fn from(_error: AllocFailed<T>) -> Refusal {
        Refusal::NoMemory
    }
}
