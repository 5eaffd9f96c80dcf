//! The reader's end.

ghost use Rattle.std.specs.Prelude.{◌≡◌, ◌∷◌, [], None, Some, IsTrue, IsFalse, IfOk, OnErr, MatchResult, is_none, length};
ghost use Rattle.ids.specs.Tables.{lacks_room};
ghost use Rattle.semantics.specs.Joining.{table_after};
ghost use Rattle.semantics.specs.Faults.{StandsAlone};
ghost use Rattle.semantics.specs.Stamped.{MayFollow};
ghost use Rattle.semantics.specs.Entries.{applied};
ghost use Rattle.document.specs.operation.Alone.{alone_fault_of_op};
ghost use Rattle.document.specs.operation.Ops.{entry_of, op_in, stamped_of};
ghost use Rattle.document.specs.Lawful.{is_lawful};
ghost use Rattle.rtrb.specs.Ring.{SameConsumer, received};
ghost use Rattle.followers.specs.Feeds.{IsFollowing, TakesOne};

use document::{Document, Entry, Op, check_alone};
use ids::Refusal;
use rtrb::Consumer;
use std::alloc::Global;

/// The reader's end of a ring: a document of what came through it. It may be on another thread than the feed.
#[derive(Drop)]
pub struct Follower {
    document: Document,
    pub(crate) from: Consumer<Entry>,
    /// An entry that came but couldn't be taken in yet.
    kept: Option<Entry>,
}

impl Follower {
    /// A follower that has taken in nothing.
    pub(crate) fn new(document: Document, from: Consumer<Entry>) -> Follower
        requires { (document.entries ≡ []) × (received from ≡ []) }
        ensures { (result.document ≡ document) × (result.from ≡ from) × (result.kept ≡ None) }
    {
        Follower {
            document,
            from,
            kept: None,
        }
    }

    /// The document of what was taken in, for questions and glances.
    pub fn document(&self) -> &Document
        ensures { result.now ≡ self.now.document }
    {
        &self.document
    }

    /// How many entries were taken in.
    pub fn len(&self) -> usize
        ensures { result ≡ length self.now.document.entries }
    {
        self.document.len()
    }

    /// Takes in the oldest entry that has come and isn't taken in yet. Returns whether there was one.
    ///
    /// # Errors
    /// `NoReading` if its operation can't follow the history here, which a feed of one document never sends; `NoMemory` if allocation
    /// fails. The entry is kept, and the next call tries it again.
    pub fn take_in(&mut self, alloc: Global) -> Result<bool, Refusal>
        ensures members { self.new.document.members ≡ self.old.document.members }
        ensures took { IfOk result (λ took. TakesOne took self.old.document.entries self.new.document.entries) }
        ensures refused { OnErr result (self.new.document.entries ≡ self.old.document.entries) }
        ensures follows { IsFollowing self.old.document.entries self.old.kept (received self.old.from)
            → IsFollowing self.new.document.entries self.new.kept (received self.new.from) }
        ensures ring { SameConsumer self.old.from self.new.from }
    {
        let Some(entry) = self.next_entry() else {
            return Ok(false);
        };
        match take_in(alloc, &mut self.document, entry) {
            Ok(()) => Ok(true),
            Err((why, entry)) => {
                keep(&mut self.kept, entry);
                Err(why)
            }
        }
    }

    /// The entry that is kept, else the next one from the ring.
    fn next_entry(&mut self) -> Option<Entry>
        ensures same { self.new.document ≡ self.old.document }
        ensures kept { self.new.kept ≡ None }
        ensures follows { IsFollowing self.old.document.entries self.old.kept (received self.old.from)
            → IsFollowing self.old.document.entries result (received self.new.from) }
        ensures ring { SameConsumer self.old.from self.new.from }
    {
        match self.kept.take() {
            Some(entry) => Some(entry),
            None => self.from.pop().ok(),
        }
    }
}

/// Keeps an entry, where none was kept.
fn keep(kept: &mut Option<Entry>, entry: Entry)
    ensures { kept.new ≡ Some entry }
{
    *kept = Some(entry);
}

/// Appends an entry, if its operation may follow.
///
/// # Errors
/// As `Follower::take_in`, with the entry. The document is as before.
fn take_in(alloc: Global, document: &mut Document, entry: Entry) -> Result<(), (Refusal, Entry)>
    ensures members { document.new.members ≡ document.old.members }
    ensures entries { MatchResult result (λ _. document.new.entries ≡ entry_of entry ∷ document.old.entries)
        (λ e. (e.1 ≡ entry) × (document.new.entries ≡ document.old.entries)) }
{
    if !is_lawful(document, entry.op()) {
        return Err((Refusal::NoReading, entry));
    }
    append(alloc, document, entry)
}

/// Whether the operation passes every test of a received one: a follower can't rely on what the owner of the feed sends.
fn is_lawful(document: &Document, op: &Op) -> bool
    ensures tests { result ≡ is_lawful document.now.members document.now.entries op.now }
    ensures lawful { IsTrue result → MayFollow (applied document.now.entries) (stamped_of op.now) }
    ensures fits { IsTrue result → IsFalse (lacks_room (table_after document.now.members document.now.entries) op.now.id.replica) }
{
    stands_alone(op) && document.ready(op) && document.check(op).is_ok()
}

/// Whether the operation passes the tests that need no history.
fn stands_alone(op: &Op) -> bool
    ensures tests { result ≡ is_none (alone_fault_of_op op.now) }
    ensures alone { IsTrue result → StandsAlone (stamped_of op.now) }
{
    check_alone(op).is_ok()
}

/// Appends an entry whose operation may follow.
///
/// # Errors
/// `NoMemory` if allocation fails, with the entry. The document is as before.
fn append(alloc: Global, document: &mut Document, entry: Entry) -> Result<(), (Refusal, Entry)>
    requires lawful { MayFollow (applied document.old.entries) (stamped_of (op_in entry)) }
    requires fits { IsFalse (lacks_room (table_after document.old.members document.old.entries) (op_in entry).id.replica) }
    ensures members { document.new.members ≡ document.old.members }
    ensures entries { MatchResult result (λ _. document.new.entries ≡ entry_of entry ∷ document.old.entries)
        (λ e. (e.1 ≡ entry) × (document.new.entries ≡ document.old.entries)) }
{
    if document.reserve(alloc, entry.op()).is_err() {
        return Err((Refusal::NoMemory, entry));
    }
    document.commit(entry);
    Ok(())
}
