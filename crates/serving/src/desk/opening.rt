//! A desk that resumes from a journal.

ghost use Rattle.std.specs.Prelude.{◌≡◌, ℕ, [], length, false, IfOk};
ghost use Rattle.session.specs.wire.Lines.{cut};
ghost use Rattle.session.specs.records.Replays.{BringsBackLines};
ghost use Rattle.store.specs.Shelves.{first_known};
ghost use Rattle.store.specs.WholeLines.{AreWhole};

use super::Desk;
use ids::{Refusal, ReplicaId};
use session::{Session, Unfit};
use std::alloc::Global;
use store::{Fault, Journal, Shelf, Store, Unopened, is_begun, unfit, whole_len};

impl<S: Store> Desk<S> {
    /// A desk that resumes from a journal, as the replica of this number. Takes the whole lines, cuts the store after them, and syncs it.
    /// Costs what receiving as many lines costs.
    ///
    /// # Errors
    /// The store is returned with the reason: `Damaged` with the first line that doesn't fit, also one without a line feed that doesn't
    /// begin like a line, and the store is unchanged; `Store` if it can't be cut or synced; `Refused` with `NoMemory` if allocation fails.
    pub fn open(alloc: Global, own: ReplicaId, journal: Journal<S>) -> Result<Desk<S>, Unopened<S>>
        ensures own { IfOk result (λ d. d.replica.own ≡ own) }
        ensures brought { IfOk result (λ d. BringsBackLines [] (cut journal.bytes.items).lines d.replica.entries) }
        ensures stored { IfOk result (λ d. d.stored ≡ length d.replica.entries) }
        ensures held { IfOk result
            (λ d. (d.is_lost ≡ false) × (d.synced ≡ d.held)
            × ((whole : ℕ) × AreWhole whole journal.bytes.items × (d.held ≡ first_known whole (S.contents journal.store)))) }
    {
        let Journal { store, bytes } = journal;
        match brought_back(alloc, own, &bytes) {
            Ok((session, whole)) => {
                let stored = session.len();
                let shelf = Shelf::of(store, whole, bytes.len())?;
                Ok(Desk {
                    session,
                    shelf,
                    stored,
                })
            }
            Err(why) => Err(Unopened { store, why }),
        }
    }
}

/// A session that resumes from the whole lines of these bytes, and how many bytes the lines have.
fn brought_back(alloc: Global, own: ReplicaId, bytes: &[u8]) -> Result<(Session, usize), Fault>
    ensures own { IfOk result (λ r. r.0.own ≡ own) }
    ensures brought { IfOk result (λ r. BringsBackLines [] (cut bytes.now).lines r.0.entries) }
    ensures whole { IfOk result (λ r. AreWhole r.1 bytes.now) }
{
    let whole = whole_len(bytes);
    let mut session = Session::open(alloc, own.number())?;
    let replayed = session.replay(alloc, &bytes[..whole]);
    if let Some((line, why)) = replayed.stopped {
        return Err(unfit(line, why));
    }
    if !is_begun(&bytes[whole..]) {
        let line = replayed.entries.saturating_add(1);
        return Err(unfit(line, Unfit::Refused(Refusal::BadLine)));
    }
    Ok((session, whole))
}
