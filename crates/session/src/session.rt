//! One document of one replica, and what can be done with it.

ghost use Rattle.std.specs.Prelude.{◌≡◌, ◌⊎◌, ◌↔◌, ℕ, [], ◌∷◌, Ok, Err, IfOk, IfErr, OnErr, OnOk, MatchResult, length};
ghost use Rattle.ids.specs.declared.refusal.Refusal.TheVariants.{BadConfig, NoMemory};
ghost use Rattle.semantics.specs.Delivery.{Kept as ToBeKept, NotKept, answer_to, deliver};
ghost use Rattle.semantics.specs.Drain.{counted, drain, drain_for};
ghost use Rattle.semantics.specs.Entries.{IsAbove, applied};
ghost use Rattle.semantics.specs.Making.{make};
ghost use Rattle.semantics.specs.Replica.{IsRunning, commit_own};
ghost use Rattle.semantics.specs.Stamped.{Stamped};
ghost use Rattle.semantics.specs.WorldHistory.{BeginsWith};
ghost use Rattle.replica.specs.document.Documents.{HasRoomFor};
ghost use Rattle.replica.specs.inbox.Inboxes.{delivered_of};
ghost use Rattle.replica.specs.operation.Ops.{command_of, stamped_of};
ghost use Rattle.replica.specs.Replicas.{IsMade, replica_of};
ghost use Rattle.session.specs.Receipts.{settled};

mod answering;
mod receiving;
mod replaying;

pub use answering::Answered;
use ids::{OpId, Refusal, ReplicaId};
pub use receiving::{Received, Refused};
use replica::{Command, Delivered, Document, Op, Replica, Shared};
use std::alloc::{AllocError, Global};
use std::marker::Model;

/// One document of one replica, on one thread. Contracts see the replica of the definitions, whose own entries are client 0's.
#[derive(Debug, Drop)]
pub struct Session {
    own: ReplicaId,
    replica: Replica,
}

impl Model for Session {
    ghost use Rattle.std.specs.Coded.{codes};
    ghost use Rattle.semantics.specs.Codes.{coded_element};
    ghost use Rattle.semantics.specs.Replica.{Replica as TheReplica};
    ghost use Rattle.replica.specs.Replicas.{replica_of};
    ghost use Rattle.session.specs.Sessions.{IsSession};

    ghost Value = { TheReplica };

    ghost coded = { Prim.hlevel (codes, coded_element) };

    ghost view = { λ s. replica_of s.replica };

    ghost invariant = { λ s. IsSession s.own (replica_of s.replica) };
}

impl Session {
    /// A session with this number and an empty history. The only member is the number itself; others join with their first operation.
    ///
    /// # Errors
    /// `BadConfig` for 0, else `NoMemory` if allocation fails.
    pub fn open(alloc: Global, own: u32) -> Result<Session, Refusal>
        ensures new { IfOk result (λ s. s ≡ record { own = own; members = own ∷ []; entries = []; waiting = []; dropped = 0 }) }
        ensures bad_config { (result ≡ Err BadConfig) ↔ (own ≡ 0) }
        ensures err { IfErr result (λ why. (why ≡ BadConfig) ⊎ (why ≡ NoMemory)) }
    {
        let number = ReplicaId::new(own).ok_or(Refusal::BadConfig)?;
        let replica = Replica::new(alloc, own, &[own])?;
        Ok(Session {
            own: number,
            replica,
        })
    }

    /// Its number.
    pub fn own(&self) -> ReplicaId
        ensures { result ≡ self.now.own }
    {
        self.own
    }

    /// How many entries the history has.
    pub fn len(&self) -> usize
        ensures { result ≡ length self.now.entries }
    {
        self.replica.history_len()
    }

    /// The document of the history, for questions and glances.
    pub fn document(&self) -> &Document
        ensures members { result.now.members ≡ self.now.members }
        ensures entries { result.now.entries ≡ self.now.entries }
        ensures running { IsRunning self.now }
    {
        self.replica.document()
    }

    /// Makes an operation of a command, and appends it. Returns its id; its position is the length of the history before.
    ///
    /// # Errors
    /// In this order: `HistoryFull`; the refusal of the expression; `NotInList` for an insert whose place is neither a head nor an item,
    /// `AtHead` for any other command at a head. Or `NoMemory` if allocation fails. Nothing has changed then.
    pub fn write(&mut self, alloc: Global, command: Command) -> Result<OpId, Refusal>
        ensures made { IfOk result
            (λ a. (s : Stamped) × IsMade self.old.entries self.old.own (command_of command) s × (s.id ≡ a)
            × (self.new ≡ commit_own self.old 0 (length self.old.entries) (command_of command) s)) }
        ensures err { IfErr result
            (λ why. (why ≡ NoMemory) ⊎ (make (applied self.old.entries) self.old.own (command_of command) ≡ Err why)) }
        ensures same { OnErr result (self.new ≡ self.old) }
    {
        let command = Shared::new(alloc, command)?;
        let op = self.replica.make(alloc, &command)?;
        let id = op.id;
        append(&mut self.replica, command, op);
        Ok(id)
    }

    /// Delivers an operation of a peer, as `Replica::deliver`.
    ///
    /// # Errors
    /// As `Replica::deliver`.
    fn deliver(&mut self, op: Shared<Op>) -> Result<Delivered, Refusal>
        ensures answer { MatchResult result
            (λ d. answer_to self.old (stamped_of op) ≡ delivered_of d)
            (λ why. ((why ≡ NoMemory) × (answer_to self.old (stamped_of op) ≡ ToBeKept))
            ⊎ (answer_to self.old (stamped_of op) ≡ NotKept why)) }
        ensures delivered { OnOk result (self.new ≡ deliver self.old (stamped_of op)) }
        ensures same { OnErr result (self.new ≡ self.old) }
        ensures entries { self.new.entries ≡ self.old.entries }
        ensures own { self.new.own ≡ self.old.own }
    {
        self.replica.deliver(op)
    }

    /// Appends or drops each operation that is ready, and each that becomes ready by that, as `drain`.
    ///
    /// # Errors
    /// `AllocError` if allocation fails. The drain has then ended early, and the next one goes on with it.
    fn settle(&mut self, alloc: Global) -> Result<(), AllocError>
        ensures settled { OnOk result (self.new ≡ settled self.old) }
        ensures partly { (n : ℕ) × (self.new ≡ counted (drain_for n self.old)) }
        ensures grows { BeginsWith self.new.entries self.old.entries }
        ensures own { self.new.own ≡ self.old.own }
    {
        drain(&mut self.replica, alloc)
    }
}

/// Appends what was made of a command: as client 0's, with its position as the serial.
fn append(replica: &mut Replica, command: Shared<Command>, op: Shared<Op>)
    requires made { IsMade replica.old.document.entries replica.old.own (command_of command) (stamped_of op) }
    requires room { HasRoomFor replica.old.document (stamped_of op) }
    requires above { IsAbove 0 (length replica.old.document.entries) replica.old.document.entries }
    ensures { replica_of replica.new
        ≡ commit_own (replica_of replica.old) 0 (length replica.old.document.entries) (command_of command) (stamped_of op) }
{
    let serial = replica.history_len() as u64;
    replica.commit_own(0, serial, command, op);
}

/// Appends or drops each operation that is ready, and each that becomes ready by that, the smallest id first, until the history is full.
/// Costs a search of the inbox for each.
///
/// # Errors
/// `AllocError` if allocation fails. The drain has then ended early, and the next one goes on with it.
fn drain(replica: &mut Replica, alloc: Global) -> Result<(), AllocError>
    ensures running { IsRunning (replica_of replica.old) }
    ensures drained { OnOk result (replica_of replica.new ≡ counted (drain (replica_of replica.old))) }
    ensures partly { (n : ℕ) × (replica_of replica.new ≡ counted (drain_for n (replica_of replica.old))) }
{
    // The replica's invariant, and that its length fits into a `usize`.
    prove!(replica.document().len() <= usize::MAX);
    prove!(replica.dropped() <= u64::MAX);
    while let Some(op) = replica.next_ready(alloc)? {
        replica.commit_peer(op.id);
    }
    Ok(())
}
