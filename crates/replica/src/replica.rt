//! A replica: its own operations, those of peers, and what can be asked of it.

ghost use Rattle.std.specs.Prelude.{◌≡◌, ◌⊎◌, ◌↔◌, ◌&&◌, ◌∷◌, ℕ, [], Ok, Err, Some, None, IsTrue, IsFalse, length, option_map};
ghost use Rattle.std.specs.Prelude.{IfOk, IfErr, IfSome, MatchResult, OnErr, OnOk};
ghost use Rattle.ids.specs.declared.refusal.Refusal.TheVariants.{NoMemory, BadConfig};
ghost use Rattle.ids.specs.Members.{in_order, is_member};
ghost use Rattle.ids.specs.Configurations.{are_members};
ghost use Rattle.semantics.specs.Stamped.{Stamped};
ghost use Rattle.semantics.specs.Entries.{IsAbove, applied};
ghost use Rattle.semantics.specs.Making.{make};
ghost use Rattle.semantics.specs.Replica.{IsRunning, commit_own};
ghost use Rattle.semantics.specs.Delivery.{Kept as ToBeKept, NotKept, answer_to, deliver};
ghost use Rattle.semantics.specs.Drain.{counted, IsDrained, drain, drain_for};
ghost use Rattle.semantics.specs.Publication.{Holds};
ghost use Rattle.inbox.specs.operation.Alone.{alone_fault_of_op};
ghost use Rattle.inbox.specs.operation.Ops.{command_of, entry_of, stamped_of};
ghost use Rattle.inbox.specs.oplog.Logs.{history};
ghost use Rattle.inbox.specs.document.Documents.{HasRoomFor};
ghost use Rattle.inbox.specs.Inboxes.{delivered_of};

use crate::make::make;
use crate::waiting::{Turn, check_wanted, next_turn};
use ids::{OpId, Refusal, ReplicaId};
use inbox::{Command, Delivered, Document, Entry, Inbox, Op, Publish, Shared, check_alone};
use std::alloc::{AllocError, Global};
use std::marker::Model;

/// One replica of a document. Contracts see its own number, its document, what waits and how many operations were dropped.
#[derive(Debug, Drop)]
pub struct Replica {
    own: ReplicaId,
    document: Document,
    inbox: Inbox,
    /// How many operations of peers were dropped, at most 18446744073709551615.
    dropped: u64,
}

impl Model for Replica {
    ghost use Rattle.std.specs.Coded.{codes};
    ghost use Rattle.semantics.specs.Codes.{coded_element};
    ghost use Rattle.replica.specs.Replicas.{IsReplica, Running};

    ghost Value = { Running };

    ghost coded = { Prim.hlevel (codes, coded_element) };

    ghost view = { λ r. record { own = r.own; document = r.document; waiting = r.inbox; dropped = r.dropped } };

    ghost invariant = { λ r. IsReplica (record { own = r.own; document = r.document; waiting = r.inbox; dropped = r.dropped }) };
}

impl Replica {
    ghost use Rattle.replica.specs.Replicas.{IsMade, IsNextOwn, IsNextReady, next_of, replica_of};

    /// A replica with this number among these members, and with an empty history.
    ///
    /// # Errors
    /// `BadConfig` if the members aren't 1 to 64 distinct numbers above 0, or the own number isn't one of them, else `NoMemory` if
    /// allocation fails.
    pub fn new(alloc: Global, own: u32, members: &[u32]) -> Result<Replica, Refusal>
        ensures new { IfOk result
            (λ r. replica_of r ≡ record { own = own; members = in_order members.now; entries = []; waiting = []; dropped = 0 }) }
        ensures bad_config { (result ≡ Err BadConfig) ↔ IsFalse (are_members members.now && is_member members.now own) }
        ensures err { IfErr result (λ why. (why ≡ BadConfig) ⊎ (why ≡ NoMemory)) }
    {
        let own = own_among(own, members)?;
        let document = Document::new(alloc, members)?;
        Ok(Replica {
            own,
            document,
            inbox: Inbox::new(alloc),
            dropped: 0,
        })
    }

    /// The document of what was applied. Its entries are an entry history of this replica, whatever was delivered.
    pub fn document(&self) -> &Document
        ensures document { result.now ≡ self.now.document }
        ensures running { IsRunning (replica_of self.now) }
    {
        &self.document
    }

    /// How many operations were applied.
    pub fn history_len(&self) -> usize
        ensures { result ≡ length self.now.document.entries }
    {
        self.document.len()
    }

    /// How many operations of peers were dropped because they turned out to be unlawful. Saturates at 18446744073709551615.
    pub fn dropped(&self) -> u64
        ensures { result ≡ self.now.dropped }
    {
        self.dropped
    }

    /// The operation that the command makes after the history. Reserves everything that committing it needs, and changes no content.
    ///
    /// # Errors
    /// In this order: `HistoryFull`; the refusal of the expression; `NotInList` for an insert that would stand neither at a head
    /// nor at an item, `AtHead` for another command at a head. Or `NoMemory` if allocation fails.
    pub fn make(&mut self, alloc: Global, command: &Command) -> Result<Shared<Op>, Refusal>
        ensures same { replica_of self.new ≡ replica_of self.old }
        ensures made { IfOk result
            (λ op. IsMade self.old.document.entries self.old.own (command_of command.now) (stamped_of op)) }
        ensures member { IfOk result (λ op. IsTrue (is_member self.old.document.members op.id.replica)) }
        ensures room { IfOk result (λ op. HasRoomFor self.new.document (stamped_of op)) }
        ensures err { IfErr result
            (λ why. (why ≡ NoMemory) ⊎ (make (applied self.old.document.entries) self.old.own (command_of command.now) ≡ Err why)) }
    {
        let op = make(alloc, self.own, &self.document, command)?;
        let op = Shared::new(alloc, op)?;
        self.document.reserve(alloc, &op)?;
        Ok(op)
    }

    /// Appends what the last `make` returned, under a serial greater than any that the client had. Allocates nothing.
    pub fn commit_own(
        &mut self,
        client: usize,
        serial: u64,
        command: Shared<Command>,
        op: Shared<Op>,
    )
        requires made { IsMade self.old.document.entries self.old.own (command_of command) (stamped_of op) }
        requires room { HasRoomFor self.old.document (stamped_of op) }
        requires above { IsAbove client serial self.old.document.entries }
        ensures { replica_of self.new
            ≡ commit_own (replica_of self.old) client serial (command_of command) (stamped_of op) }
    {
        self.commit_made(Entry::Own {
            client,
            serial,
            command,
            op,
        });
    }

    /// As `commit_own`, for an entry that is already made. Allocates nothing.
    pub(crate) fn commit_made(&mut self, entry: Entry)
        requires { IsNextOwn self.old entry }
        ensures { replica_of self.new
            ≡ record (replica_of self.old) { entries = entry_of entry ∷ self.old.document.entries } }
    {
        self.document.commit(entry);
    }

    /// Keeps an operation of a peer in the inbox until it is causally ready. Applies nothing: `next_ready` and `commit_peer`, or `drain`,
    /// do that.
    ///
    /// `Known` if an operation with its id was applied or waits, whatever else is in it. The operation is dropped, unless it is `Kept`.
    /// Costs binary searches in the log and the inbox, and for a ready operation also what `Document::check` does.
    ///
    /// # Errors
    /// The first of these that applies, and then the replica stays as it was: those of `check_alone`; then, unless the operation is known,
    /// `OwnName` for the own number, `HistoryFull`, and `InboxFull`; and those of `Document::check` if it is ready. Or `NoMemory` if
    /// allocation fails.
    pub fn deliver(&mut self, op: Shared<Op>) -> Result<Delivered, Refusal>
        ensures answer { MatchResult result
            (λ d. answer_to (replica_of self.old) (stamped_of op) ≡ delivered_of d)
            (λ why. ((why ≡ NoMemory) × (answer_to (replica_of self.old) (stamped_of op) ≡ ToBeKept))
            ⊎ (answer_to (replica_of self.old) (stamped_of op) ≡ NotKept why)) }
        ensures delivered { OnOk result (replica_of self.new ≡ deliver (replica_of self.old) (stamped_of op)) }
        ensures same { OnErr result (replica_of self.new ≡ replica_of self.old) }
    {
        check_alone(&op)?;
        if self.document.contains(op.id) || self.inbox.contains(op.id) {
            return Ok(Delivered::Known);
        }
        check_wanted(self.own, &self.document, &self.inbox, &op)?;
        self.inbox.put(op, &self.document)
    }

    /// The next operation of a peer that `commit_peer` appends: the smallest one that is ready, or `None` if there is none or the history
    /// is full. Drops and counts smaller ones that are ready and unlawful. Reserves everything that committing it needs. A search of the
    /// inbox for each that is dropped, and one more.
    ///
    /// # Errors
    /// `AllocError` if allocation fails. What was dropped then stays dropped, and nothing else has changed.
    pub fn next_ready(&mut self, alloc: Global) -> Result<Option<Shared<Op>>, AllocError>
        ensures dropped { (n : ℕ) × (replica_of self.new ≡ counted (drain_for n (replica_of self.old)))
            × (self.new.document.entries ≡ self.old.document.entries) }
        ensures next { IfOk result (λ o. option_map stamped_of o ≡ next_of (replica_of self.new)) }
        ensures alone { IfOk result (λ o. IfSome o (λ op. alone_fault_of_op op ≡ None)) }
        ensures ready { IfOk result (λ o. IfSome o (λ op. IsNextReady self.new (stamped_of op))) }
    {
        let Some(id) = self.prepare(alloc)? else {
            return Ok(None);
        };
        let Some(op) = self.inbox.get(id) else {
            unreachable!()
        };
        Ok(Some(op.clone()?))
    }

    /// Appends what the last `next_ready` returned, which has this id. Takes it out of the inbox, as `Inbox::take`. Allocates nothing.
    pub fn commit_peer(&mut self, id: OpId)
        requires { (s : Stamped) × (s.id ≡ id) × IsNextReady self.old s }
        ensures { replica_of self.new ≡ drain_for 1 (replica_of self.old) }
    {
        let Some(op) = self.inbox.take(id) else {
            unreachable!()
        };
        self.document.commit(Entry::Peer(op));
    }

    /// Appends or drops each operation that is ready, and each that becomes ready by that, the smallest id first, until the history is
    /// full. An operation that is appended goes to the publisher first, and both share it. A search of the inbox for each of them.
    ///
    /// # Errors
    /// `AllocError` if allocation fails. The drain has then ended early, and another one continues it.
    pub fn drain<P: Publish>(&mut self, alloc: Global, publisher: &mut P) -> Result<(), AllocError>
        requires holds { Holds (P.publication publisher.old) (replica_of self.old) }
        ensures drained { OnOk result (replica_of self.new ≡ counted (drain (replica_of self.old))) }
        ensures settled { OnOk result (IsDrained (replica_of self.new)) }
        ensures partly { (n : ℕ) × (replica_of self.new ≡ counted (drain_for n (replica_of self.old))) }
        ensures holds { Holds (P.publication publisher.new) (replica_of self.new) }
        ensures published { (P.publication publisher.new).published ≡ (P.publication publisher.old).published }
    {
        for _ in 0..self.inbox.len() {
            let Some(op) = self.next_ready(alloc)? else {
                return Ok(());
            };
            let next = op.id;
            publisher.add(Entry::Peer(op))?;
            self.commit_peer(next);
        }
        Ok(())
    }

    /// Drops what is ready and unlawful until the next one is lawful, and reserves everything that committing that one needs. Returns its
    /// id, or `None` if there is none.
    fn prepare(&mut self, alloc: Global) -> Result<Option<OpId>, AllocError>
        ensures dropped { (n : ℕ) × (replica_of self.new ≡ counted (drain_for n (replica_of self.old)))
            × (self.new.document.entries ≡ self.old.document.entries) }
        ensures none { result ≡ Ok None → next_of (replica_of self.new) ≡ None }
        ensures next { (a : OpId) → result ≡ Ok (Some a) → (s : Stamped) × (s.id ≡ a) × IsNextReady self.new s }
    {
        self.advance();
        while let Some(turn) = next_turn(alloc, &mut self.document, &self.inbox)? {
            match turn {
                Turn::Append(id) => return Ok(Some(id)),
                Turn::Drop(id) => {
                    self.inbox.take(id);
                    self.dropped = self.dropped.saturating_add(1);
                }
            }
        }
        Ok(None)
    }

    /// Lets the inbox move on what waits for counters that were applied since the last time.
    fn advance(&mut self)
        ensures { self.new ≡ self.old }
    {
        self.inbox.advance(&self.document);
    }

    /// The entries of the history, the oldest first. Allocates nothing. What waits is dropped.
    pub fn into_entries(self) -> Vec<Entry>
        ensures { history result.items ≡ self.document.entries }
    {
        self.document.into_entries()
    }
}

/// The own number, if it is one of the members.
fn own_among(own: u32, members: &[u32]) -> Result<ReplicaId, Refusal>
    ensures { MatchResult result (λ p. (p ≡ own) × IsTrue (is_member members.now own))
        (λ why. (why ≡ BadConfig) × ((own ≡ 0) ⊎ IsFalse (is_member members.now own))) }
{
    if !members.contains(&own) {
        return Err(Refusal::BadConfig);
    }
    ReplicaId::new(own).ok_or(Refusal::BadConfig)
}
