//! Where the entries of a history go, to be published.

ghost use Rattle.std.specs.Prelude.{◌≡◌, ◌∷◌, IsFalse, OnErr, OnOk};
ghost use Rattle.ids.specs.Tables.{lacks_room};
ghost use Rattle.semantics.specs.Making.{is_full};
ghost use Rattle.semantics.specs.Entries.{IsEntryHistory, stamped_in};
ghost use Rattle.semantics.specs.Joining.{table_after};
ghost use Rattle.semantics.specs.Publication.{with_entry};
ghost use Rattle.operation.specs.Ops.{entry_of};

use operation::Entry;
use std::alloc::AllocError;

/// Receives each entry of a replica's history before the replica appends it, and publishes them later.
pub trait Publish {
    ghost use Rattle.semantics.specs.Publication.{Publication};

    ghost publication: { Self → Publication };

    /// Appends the entry as the next one. What is published stays.
    ///
    /// # Errors
    /// `AllocError` if allocation fails. Nothing has changed then.
    fn add(&mut self, entry: Entry) -> Result<(), AllocError>
        requires lawful { IsEntryHistory (publication self.old).own
            (entry_of entry ∷ (publication self.old).appended) }
        requires room { IsFalse (is_full (publication self.old).appended) }
        requires fits { IsFalse (lacks_room (table_after (publication self.old).members (publication self.old).appended)
            (stamped_in (entry_of entry)).id.replica) }
        ensures added { OnOk result
            (publication self.new ≡ with_entry (publication self.old) (entry_of entry)) }
        ensures same { OnErr result (publication self.new ≡ publication self.old) };
}
