//! A publisher for tests, which keeps the entries that it is given.

ghost use Rattle.std.specs.Prelude.{[], ◌≡◌};

use operation::Entry;
use replica::Publish;
use std::alloc::{AllocError, Global};
use std::marker::{Brand, PhantomData};

/// A replica's number, its members, and its history before a drain, in proofs alone. The caller that drains picks them.
pub trait Before {
    ghost use Rattle.std.specs.Prelude.{ℕ, List};
    ghost use Rattle.semantics.specs.Entries.{Entry as TheEntry};

    ghost own: { ℕ };

    ghost members: { List ℕ };

    ghost entries: { List TheEntry };
}

/// These values hold only if no caller picks others.
impl Before for Brand {
    ghost use Rattle.std.specs.Prelude.{[]};

    ghost own = { 0 };

    ghost members = { [] };

    ghost entries = { [] };
}

/// The entries of one drain, the oldest first.
#[derive(Drop)]
pub struct Recorder<B: Before> {
    entries: Vec<Entry>,
    of: PhantomData<B>,
}

impl<B: Before> Recorder<B> {
    /// A recorder that was given nothing.
    pub fn new(alloc: Global) -> Recorder<B>
        ensures { result.entries.items ≡ [] }
    {
        Recorder {
            entries: Vec::new(alloc),
            of: PhantomData,
        }
    }
}

impl<B: Before> Publish for Recorder<B> {
    ghost use Rattle.std.specs.Prelude.{[], ◌++◌};
    ghost use Rattle.replica.specs.oplog.Logs.{history};

    ghost publication = { λ p. record {
      own = B.own;
      members = B.members;
      published = [];
      appended = history p.entries.items ++ B.entries;
    } };

    fn add(&mut self, entry: Entry) -> Result<(), AllocError> {
        self.entries.push(entry)?;
        Ok(())
    }
}
