//! Writing, and storing what was written.

ghost use Rattle.std.specs.Prelude.{◌≡◌, false, length, true, Err, IfErr, IfOk, MatchResult};
ghost use Rattle.semantics.specs.Making.{Command as TheCommand};
ghost use Rattle.semantics.specs.WorldHistory.{BeginsWith};
ghost use Rattle.engine.specs.operation.Ops.{command_of};
ghost use Rattle.store.specs.declared.fault.Fault.TheVariants.{Held, MustStartAgain};
ghost use Rattle.notebook.specs.Notebooks.{GoesOn, IsCommandUnder, IsMadeOf, IsNotSaved, IsSaved};

use crate::opening::{Ends, end};
use engine::{
    Client, Command, EngineName, OpId, ReaderToken, Refusal, Reply, Step, Ticket, Writer,
};
use ids::ReplicaId;
use journal::{Outgoing, Written};
use std::alloc::Global;
use std::marker::Model;
use std::sync::Wait;
use store::{Fault, Shelf, Store};

/// A document in a store, for one thread at a time. Whatever one of its calls says is saved, or sends, is there at the next start. Its
/// engine's writer isn't `Drop`: call `end`.
pub struct Notebook<N: EngineName, S: Store> {
    pub(crate) writer: Writer<N>,
    pub(crate) client: Client<N>,
    others: Vec<Client<N>>,
    pub(crate) reader: ReaderToken<N>,
    pub(crate) outgoing: Outgoing<N>,
    pub(crate) shelf: Shelf<S>,
}

impl<N: EngineName, S: Store> Model for Notebook<N, S> {
    ghost use Rattle.std.specs.Coded.{codes};
    ghost use Rattle.semantics.specs.Codes.{coded_element};
    ghost use Rattle.notebook.specs.Notebooks.{Notebook};

    ghost Value = { Notebook };

    ghost coded = { Prim.hlevel (codes, coded_element) };

    ghost view = { λ n. record {
      own = n.outgoing.own;
      seen = n.outgoing.seen;
      stored = n.outgoing.stored;
      client = n.client;
      shown = n.reader.seen;
      published = n.writer.published;
      held = n.shelf.held;
      synced = n.shelf.synced;
      is_lost = n.shelf.is_lost;
    } };
}

impl<N: EngineName, S: Store> Notebook<N, S> {
    /// The notebook of an engine that resumed from what is on the shelf: all of that is stored.
    pub(crate) fn of(ends: Ends<N>, shelf: Shelf<S>) -> Notebook<N, S>
        ensures history { (result.own ≡ ends.outgoing.own) × (result.seen ≡ ends.outgoing.seen)
            × (result.stored ≡ length ends.outgoing.seen) × (result.client ≡ ends.client) }
        ensures shelf { (result.held ≡ shelf.held) × (result.synced ≡ shelf.synced) × (result.is_lost ≡ shelf.is_lost) }
    {
        let Ends {
            writer,
            client,
            others,
            reader,
            outgoing,
            length: _,
        } = ends;
        let mut outgoing = outgoing;
        outgoing.call_stored(usize::MAX);
        Notebook {
            writer,
            client,
            others,
            reader,
            outgoing,
            shelf,
        }
    }

    /// The number under which it writes.
    pub fn own(&self) -> ReplicaId
        ensures { result ≡ self.now.client.replica }
    {
        self.client.replica()
    }

    /// Makes the engine handle a command, and stores what came of it: once this returns the id of its operation, it is saved. Appends to
    /// the store and syncs it once.
    ///
    /// # Errors
    /// `MustStartAgain` if a sync or a cut failed before: nothing is written then. `Refused` as `submit`, or as the reply says: nothing of
    /// it is in the document. `Held`, `Store`, and `MustStartAgain` by this call's own sync or cut: it is in the document but not saved.
    pub fn write(&mut self, rt: &impl Wait, alloc: Global, command: Command) -> Result<OpId, Fault>
        ensures made { IfOk result (λ id. IsMadeOf self.new.client.seen (command_of command) id) }
        ensures saved { MatchResult result (λ _. IsSaved self.old self.new) (λ why. IsNotSaved self.old self.new why) }
        ensures goes_on { GoesOn self.old self.new }
        ensures lost { self.old.is_lost ≡ true → (result ≡ Err MustStartAgain) × (self.new ≡ self.old) }
    {
        self.shelf.check()?;
        let ticket = self.client.submit(rt, alloc, command)?;
        settle(rt, alloc, &mut self.writer)?;
        let id = self.made(&ticket)?;
        self.store_all(alloc)?;
        Ok(id)
    }

    /// Stores what is in the document but isn't stored, as after a `Held` or a `Store`.
    ///
    /// # Errors
    /// `MustStartAgain`, `Held` and `Store`, as `write`.
    pub fn save(&mut self, rt: &impl Wait, alloc: Global) -> Result<(), Fault>
        ensures saved { MatchResult result (λ _. IsSaved self.old self.new) (λ why. IsNotSaved self.old self.new why) }
        ensures goes_on { GoesOn self.old self.new }
        ensures lost { self.old.is_lost ≡ true → (result ≡ Err MustStartAgain) × (self.new ≡ self.old) }
    {
        self.shelf.check()?;
        settle(rt, alloc, &mut self.writer)?;
        self.store_all(alloc)
    }

    /// Ends the engine with all its clients, and returns the store. What isn't saved is lost.
    pub fn end(self, rt: &impl Wait) -> S
        ensures { (S.contents result ≡ self.held) × (S.synced result ≡ self.synced) }
    {
        let Notebook {
            writer,
            client,
            others,
            reader: _reader,
            outgoing: _outgoing,
            shelf,
        } = self;
        end(rt, writer, client, others);
        shelf.into_store()
    }

    /// The id of the operation that was made under this ticket, once the writer is idle.
    fn made(&mut self, ticket: &Ticket) -> Result<OpId, Refusal>
        ensures same { self.new ≡ record self.old { client = self.new.client } }
        ensures grows { BeginsWith self.new.client.seen self.old.client.seen }
        ensures made { IfOk result
            (λ id. (command : TheCommand) → IsCommandUnder self.old.client ticket.now command
            → IsMadeOf self.new.client.seen command id) }
    {
        match self.client.poll(ticket)? {
            Some(Reply::Made(id, _)) => Ok(id),
            Some(Reply::Refused(why, _)) => Err(why),
            // Unreachable: an idle writer has answered everything, and a command is either made or refused.
            _ => Err(Refusal::Closed),
        }
    }

    /// Stores the entries that aren't stored, and calls them stored once the store has synced them.
    ///
    /// # Errors
    /// `Held` if an allocation for their lines failed; `MustStartAgain` and `Store` as `put` of the shelf.
    pub(crate) fn store_all(&mut self, alloc: Global) -> Result<(), Fault>
        requires { self.old.is_lost ≡ false }
        ensures saved { MatchResult result (λ _. IsSaved self.old self.new) (λ why. IsNotSaved self.old self.new why) }
        ensures same { self.new
            ≡ record self.old {
              seen = self.new.seen;
              stored = self.new.stored;
              held = self.new.held;
              synced = self.new.synced;
              is_lost = self.new.is_lost;
            } }
        ensures grows { BeginsWith self.new.seen self.old.seen }
    {
        let Ok(Written { lines, upto }) = self.outgoing.unstored(alloc) else {
            return Err(Fault::Held);
        };
        self.shelf.put(&lines)?;
        self.outgoing.call_stored(upto);
        Ok(())
    }
}

/// Makes the writer handle and publish all that was submitted.
///
/// # Errors
/// `Held` if an allocation failed in a publish.
pub fn settle<N: EngineName>(
    rt: &impl Wait,
    alloc: Global,
    writer: &mut Writer<N>,
) -> Result<(), Fault>
    ensures { IfErr result (λ why. why ≡ Held) }
{
    for _ in rt.forever() {
        match writer.step(rt, alloc) {
            Step::Published(_) => {}
            Step::Idle => break,
            Step::Held => return Err(Fault::Held),
        }
    }
    Ok(())
}
