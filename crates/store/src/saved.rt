//! What a store had when it was read.

ghost use Rattle.std.specs.Prelude.{◌≡◌, IfOk, MatchResult};
ghost use Rattle.std.specs.Coded.{codes};
ghost use Rattle.records.specs.wire.Lines.{cut};
ghost use Rattle.records.specs.Lines.{record_form};
ghost use Rattle.store.specs.Shelves.{AreKnown};
ghost use Rattle.store.specs.WholeLines.{AreWhole, first_own, own_on};

use crate::fault::{Fault, Unopened};
use crate::store::Store;
use ids::{Refusal, ReplicaId};
use memchr::memrchr;
use records::{Lines, Recorded, Scratch, Unfit, read_record};
use std::alloc::Global;

/// The beginning of each line of a journal.
const START: &[u8] = b"[\"o";

/// A store and what it had when it was read.
#[derive(Drop)]
pub struct Journal<S: Store> {
    pub store: S,
    pub bytes: Vec<u8>,
    pub ghost read: { AreKnown (S.contents store) bytes.items } by { Prim.hlevel codes },
}

impl<S: Store> Journal<S> {
    /// Reads the whole store, without changing it.
    ///
    /// # Errors
    /// `Store` if it can't be read.
    pub fn read(alloc: Global, store: S) -> Result<Journal<S>, Unopened<S>>
        ensures { MatchResult result (λ j. S.contents j.store ≡ S.contents store) (λ u. S.contents u.store ≡ S.contents store) }
    {
        let mut store = store;
        match store.read(alloc) {
            Ok(bytes) => Ok(Journal { store, bytes }),
            Err(failed) => Err(Unopened {
                store,
                why: Fault::Store(failed),
            }),
        }
    }

    /// The number whose own commands it has: an engine that goes on from it has this number. `None` if it has no own command: then none was
    /// handed out, and a new random number will do. Reads the lines up to the first own command.
    ///
    /// `Damaged` if a line before it isn't a line of a journal; `Refused` with `NoMemory` if allocation fails.
    pub fn own(&self, alloc: Global) -> Result<Option<ReplicaId>, Fault>
        ensures { IfOk result (λ own. own ≡ first_own (cut self.now.bytes.items).lines) }
    {
        let mut scratch = Scratch::new(alloc);
        let mut lines = Lines::new(&self.bytes);
        while let Some(line) = lines.take_line() {
            let own = match own_on(alloc, &mut scratch, line.text) {
                Ok(own) => own,
                Err(why) => return Err(unfit(line.number, Unfit::Refused(why))),
            };
            if own.is_some() {
                return Ok(own);
            }
        }
        Ok(None)
    }

    /// The store, as it was read.
    pub fn into_store(self) -> S
        ensures { S.contents result ≡ S.contents self.store }
    {
        self.store
    }
}

/// The number of the own command on a line, if it has one.
fn own_on(alloc: Global, scratch: &mut Scratch, line: &[u8]) -> Result<Option<ReplicaId>, Refusal>
    ensures { IfOk result (λ own. own ≡ own_on (record_form line.now)) }
{
    let said = read_record(alloc, scratch, line)?;
    match &said {
        Recorded::Commanded(id, _) => Ok(Some(id.replica)),
        Recorded::Received(_) => Ok(None),
    }
}

/// The fault of a line that wasn't taken.
pub fn unfit(line: u64, why: Unfit) -> Fault {
    match why {
        Unfit::Refused(Refusal::NoMemory) => Fault::Refused(Refusal::NoMemory),
        _ => Fault::Damaged { line, why },
    }
}

/// How many bytes the whole lines have. What is after them was being written when the power went, and was never reported as saved.
pub fn whole_len(bytes: &[u8]) -> usize
    ensures { AreWhole result bytes.now }
{
    match memrchr(b'\n', bytes) {
        Some(last) => last + 1,
        None => 0,
    }
}

/// Whether this is what a loss of power may leave of a line that was being written: its beginning, and zeros for what wasn't written, as
/// file systems leave them. A file that ends in something else isn't a journal.
pub fn is_begun(rest: &[u8]) -> bool {
    let written = match rest.iter().rposition(|byte| *byte != 0) {
        Some(last) => &rest[..last + 1],
        None => &[],
    };
    written.starts_with(START) || START.starts_with(written)
}
