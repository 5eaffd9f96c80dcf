//! A place for the bytes of a journal.

ghost use Rattle.std.specs.Prelude.{◌≡◌, ℕ, List, Option, None, IfOk, OnOk, OnErr};
ghost use Rattle.std.specs.Io.KnownBytes.{append_known};
ghost use Rattle.store.specs.Shelves.{AppendsSome, AreKnown, AreWithin, first_known};

use std::alloc::Global;
use std::io::ErrorKind;
use std::{fmt, io};
use thiserror::Error;

/// A call of a store failed, for the reason that the system gives.
#[derive(Clone, Copy, Debug, PartialEq, Eq, Error)]
pub struct StoreFailed {
    pub kind: ErrorKind,
}

impl fmt::Display for StoreFailed {
    fn fmt<W: fmt::Write>(&self, f: &mut fmt::Formatter<W>) -> fmt::Result {
        let kind = self.kind;
        write!(f, "the store failed: {kind}")
    }
}

impl From<io::Error> for StoreFailed {
    fn from(error: io::Error) -> StoreFailed {
        StoreFailed { kind: error.kind() }
    }
}

/// A place for bytes that survive a loss of power, such as a file. It belongs to one document of one program at a time.
///
/// Contracts see which bytes it has, as a read returns them, and which were there at the last sync that succeeded, if a store says so. That
/// these survive is up to the store: it isn't proved.
pub trait Store {
    ghost contents: { Self → Option (List ℕ) } = { λ _. None };

    ghost synced: { Self → Option (List ℕ) } = { λ _. None };

    /// All its bytes, from the first one on, also those that aren't synced.
    ///
    /// # Errors
    /// `StoreFailed`.
    fn read(&mut self, alloc: Global) -> Result<Vec<u8>, StoreFailed>
        ensures bytes { IfOk result (λ bytes. AreKnown (contents self.old) bytes.items) }
        ensures same { (contents self.new ≡ contents self.old) × (synced self.new ≡ synced self.old) };

    /// Appends the bytes to those it has.
    ///
    /// # Errors
    /// `StoreFailed`. It may then have appended the first of the bytes.
    fn append(&mut self, bytes: &[u8]) -> Result<(), StoreFailed>
        ensures ok { OnOk result (contents self.new ≡ append_known (contents self.old) bytes.now) }
        ensures err { OnErr result (AppendsSome (contents self.old) (contents self.new)) }
        ensures same { synced self.new ≡ synced self.old };

    /// Makes all that it has survive a loss of power. What was there at a sync that succeeded is there until a `cut` removes it. Of what
    /// came after that sync, a loss of power may leave nothing, everything, or the first bytes.
    ///
    /// # Errors
    /// `StoreFailed`. It isn't known then what would survive, and a later sync may succeed without having written it.
    fn sync(&mut self) -> Result<(), StoreFailed>
        ensures ok { OnOk result (synced self.new ≡ contents self.new) }
        ensures same { contents self.new ≡ contents self.old };

    /// Removes all bytes after the first `len`. It must have at least that many.
    ///
    /// # Errors
    /// `StoreFailed`. It may then have removed some of them.
    fn cut(&mut self, len: u64) -> Result<(), StoreFailed>
        ensures ok { OnOk result (contents self.new ≡ first_known len (contents self.old)) }
        ensures survives { OnOk result (AreWithin (synced self.old) len → synced self.new ≡ synced self.old) };
}
