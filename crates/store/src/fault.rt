//! Why a call that stores something fails.

use crate::store::StoreFailed;
use ids::Refusal;
use records::Unfit;
use std::alloc::AllocError;
use std::fmt;
use thiserror::Error;

/// Why a call that stores something fails.
#[derive(Clone, Copy, Debug, PartialEq, Eq, Error)]
pub enum Fault {
    /// The engine refuses it, and nothing of it is in the document.
    Refused(Refusal),
    /// An allocation failed when it was to be published or written down. The next call that stores something publishes and stores it: don't
    /// submit it again.
    Held,
    /// A line of the journal, counted from 1, doesn't fit: the file was changed, or it isn't a journal. The store is unchanged.
    Damaged { line: u64, why: Unfit },
    /// The store failed, and has what it had. What was written is in the document, and the next call that stores something stores it: don't
    /// submit it again.
    Store(StoreFailed),
    /// A sync or a cut failed, so it isn't known what the store has. Nothing more is stored: stop, and open the store again.
    MustStartAgain,
}

impl fmt::Display for Fault {
    fn fmt<W: fmt::Write>(&self, f: &mut fmt::Formatter<W>) -> fmt::Result {
        match self {
            Fault::Refused(why) => write!(f, "refused: {why:?}"),
            Fault::Held => f.write_str("memory was short: not saved yet"),
            Fault::Damaged { line, why } => write!(f, "line {line} doesn't fit: {why:?}"),
            Fault::Store(failed) => write!(f, "{failed}"),
            Fault::MustStartAgain => f.write_str("the store failed: start again"),
        }
    }
}

impl From<Refusal> for Fault {
    ghost use Rattle.std.specs.Prelude.{◌≡◌};
    ghost use Rattle.store.specs.declared.fault.Fault.TheVariants.{Refused};

    ghost from_gives = { λ why fault. fault ≡ Refused why };

    fn from(refusal: Refusal) -> Fault {
        Fault::Refused(refusal)
    }
}

impl From<AllocError> for Fault {
    ghost use Rattle.std.specs.Prelude.{◌≡◌};
    ghost use Rattle.ids.specs.declared.refusal.Refusal.TheVariants.{NoMemory};
    ghost use Rattle.store.specs.declared.fault.Fault.TheVariants.{Refused};

    ghost from_gives = { λ _ fault. fault ≡ Refused NoMemory };

    fn from(_error: AllocError) -> Fault {
        Fault::Refused(Refusal::NoMemory)
    }
}

impl From<StoreFailed> for Fault {
    ghost use Rattle.std.specs.Prelude.{◌≡◌};
    ghost use Rattle.store.specs.declared.fault.Fault.TheVariants.{Store};

    ghost from_gives = { λ why fault. fault ≡ Store why };

    fn from(failed: StoreFailed) -> Fault {
        Fault::Store(failed)
    }
}

/// A store whose document couldn't be opened, and why.
#[derive(Debug, Drop)]
pub struct Unopened<S> {
    pub store: S,
    pub why: Fault,
}
