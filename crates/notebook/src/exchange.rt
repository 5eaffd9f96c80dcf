//! Exchange with peers.

ghost use Rattle.std.specs.Prelude.{◌≡◌, ◌⊎◌, [], Ok, Err, IfErr, IfOk, MatchResult, true};
ghost use Rattle.ids.specs.declared.refusal.Refusal.TheVariants.{NoMemory};
ghost use Rattle.semantics.specs.Entries.{IsEntryHistory, applied, first_entries, lacked_of};
ghost use Rattle.semantics.specs.NamedIds.{vector_of};
ghost use Rattle.semantics.specs.Vectors.{Vector};
ghost use Rattle.semantics.specs.WorldHistory.{BeginsWith};
ghost use Rattle.engine.specs.published.Tokens.{GivesNoReading};
ghost use Rattle.journal.specs.wire.Bundles.{bundle_form, bundle_text};
ghost use Rattle.journal.specs.wire.Messages.{hello_form};
ghost use Rattle.journal.specs.peer_sync.Sending.{hello_text, without_end};
ghost use Rattle.journal.specs.records.Lost.{is_beyond};
ghost use Rattle.store.specs.declared.fault.Fault.TheVariants.{Held, MustStartAgain};
ghost use Rattle.notebook.specs.Notebooks.{GoesOn, IsNotSaved, IsSaved};

use crate::writing::{Notebook, settle};
use engine::{Client, EngineName, Refusal, Reply, Step, Writer};
use journal::{Answered, BundleReader, Received, receive_on};
use std::alloc::Global;
use std::sync::Wait;
use store::{Fault, Store};

/// The outcome of receiving a bundle.
#[derive(Clone, Copy, Debug, PartialEq, Eq)]
pub struct Receipt {
    /// How many operations it brought: those of the lines before the stop. Except for the refused ones, they are applied, wait for others,
    /// or were known. Those that are applied are saved.
    pub taken: u64,
    /// How many of them were refused.
    pub refused: u64,
    /// The line, counted from 1, of the first refused one, and why.
    pub first_refused: Option<(u64, Refusal)>,
    /// The line, counted from 1, at which the receipt stopped, and why: the line is bad, or memory or the serials ran out. `None` if all
    /// were taken.
    pub stopped: Option<(u64, Refusal)>,
}

/// The operations of a bundle that were submitted.
#[derive(Drop)]
struct Submitted {
    first_serial: u64,
    taken: u64,
    stopped: Option<(u64, Refusal)>,
}

impl<N: EngineName, S: Store> Notebook<N, S> {
    /// Receives a whole bundle, as `answer` of a peer gives it, stores what was applied, and returns the outcome. The same operations may
    /// be received again. The bytes may come from anywhere; a bundle that lost its first lines isn't a bundle, as `receive` of `peer_sync`
    /// says.
    ///
    /// # Errors
    /// `MustStartAgain`, `Held` and `Store` as `write`. What was received is in the document all the same, or comes again with an exchange.
    pub fn receive(
        &mut self,
        rt: &impl Wait,
        alloc: Global,
        bundle: &[u8],
    ) -> Result<Receipt, Fault>
        ensures saved { MatchResult result (λ _. IsSaved self.old self.new) (λ why. IsNotSaved self.old self.new why) }
        ensures goes_on { GoesOn self.old self.new }
        ensures lost { self.old.is_lost ≡ true → (result ≡ Err MustStartAgain) × (self.new ≡ self.old) }
    {
        self.shelf.check()?;
        let submitted = submit_all(rt, alloc, &mut self.writer, &mut self.client, bundle)?;
        settle(rt, alloc, &mut self.writer)?;
        let receipt = receipt_of(&mut self.client, &submitted)?;
        self.store_all(alloc)?;
        Ok(receipt)
    }

    /// The hello for a peer, which tells it what is missing here. It hands out no operation.
    ///
    /// # Errors
    /// As `hello` of `Outgoing`.
    pub fn hello(&mut self, alloc: Global) -> Result<Vec<u8>, Refusal>
        ensures line { IfOk result (λ text. text.items ≡ hello_text self.new.seen) }
        ensures reads_back { IfOk result (λ text. hello_form (without_end text.items) ≡ Ok (vector_of (applied self.new.seen))) }
        ensures err { IfErr result GivesNoReading }
        ensures grows { BeginsWith self.new.seen self.old.seen × IsEntryHistory N.own self.new.seen }
        ensures same { self.new ≡ record self.old { seen = self.new.seen } }
    {
        self.outgoing.hello(alloc)
    }

    /// The answer to a peer's hello: what it lacks of the operations that are stored. `is_beyond` means that the peer knows more of this
    /// number's operations than are here: this file was rolled back, or is used twice. Write no more then.
    ///
    /// # Errors
    /// As `answer` of `Outgoing`.
    pub fn answer(&mut self, alloc: Global, hello: &[u8]) -> Result<Answered, Refusal>
        ensures lines { IfOk result
            (λ a. (v : Vector) × (hello_form (without_end hello.now) ≡ Ok v)
            × (a.lines.items ≡ bundle_text [] (lacked_of (first_entries self.old.stored self.old.seen) v))
            × (a.is_beyond ≡ is_beyond self.old.own self.new.seen v)) }
        ensures reads_back { IfOk result
            (λ a. (v : Vector) → hello_form (without_end hello.now) ≡ Ok v
            → bundle_form [] a.lines.items ≡ Ok (lacked_of (first_entries self.old.stored self.old.seen) v)) }
        ensures err { IfErr result (λ why. GivesNoReading why ⊎ (hello_form (without_end hello.now) ≡ Err why)) }
        ensures bad { IfErr (hello_form (without_end hello.now))
            (λ why. ((result ≡ Err why) ⊎ (result ≡ Err NoMemory)) × (self.new ≡ self.old)) }
        ensures grows { BeginsWith self.new.seen self.old.seen × IsEntryHistory N.own self.new.seen }
        ensures same { self.new ≡ record self.old { seen = self.new.seen } }
    {
        self.outgoing.answer(alloc, hello)
    }
}

/// Submits the operations of a bundle, and steps whenever the queue is full.
fn submit_all<N: EngineName>(
    rt: &impl Wait,
    alloc: Global,
    writer: &mut Writer<N>,
    client: &mut Client<N>,
    bundle: &[u8],
) -> Result<Submitted, Fault>
    ensures seen { client.new.seen ≡ client.old.seen }
    ensures err { IfErr result (λ why. why ≡ Held) }
{
    let mut reader = BundleReader::new();
    let mut rest = bundle;
    let mut submitted = Submitted {
        first_serial: 0,
        taken: 0,
        stopped: None,
    };
    for _ in rt.forever() {
        let received = receive_on(rt, alloc, client, &mut reader, rest);
        rest = &rest[received.bytes..];
        submitted.count(&received);
        match received.stopped {
            Some((_, Refusal::QueueFull)) => step(rt, alloc, writer)?,
            _ => break,
        }
    }
    Ok(submitted)
}

/// Lets the writer step once.
fn step<N: EngineName>(rt: &impl Wait, alloc: Global, writer: &mut Writer<N>) -> Result<(), Fault>
    ensures { IfErr result (λ why. why ≡ Held) }
{
    match writer.step(rt, alloc) {
        Step::Held => Err(Fault::Held),
        Step::Published(_) | Step::Idle => Ok(()),
    }
}

impl Submitted {
    /// Counts how much of a piece of the bundle was submitted, and where it stopped.
    fn count(&mut self, received: &Received) {
        if self.taken == 0 {
            self.first_serial = received.first_serial;
        }
        self.taken = self.taken.saturating_add(received.submitted);
        self.stopped = match received.stopped {
            Some((_, why)) => Some((self.taken.saturating_add(1), why)),
            None => None,
        };
    }
}

/// The outcome of the operations, once the writer is idle.
fn receipt_of<N: EngineName>(
    client: &mut Client<N>,
    submitted: &Submitted,
) -> Result<Receipt, Refusal>
    ensures { BeginsWith client.new.seen client.old.seen }
{
    let mut receipt = Receipt {
        taken: submitted.taken,
        refused: 0,
        first_refused: None,
        stopped: submitted.stopped,
    };
    for number in 0..submitted.taken {
        let serial = submitted.first_serial.saturating_add(number);
        if let Some(why) = refusal_of(client, serial)? {
            receipt.refuse(number.saturating_add(1), why);
        }
    }
    Ok(receipt)
}

/// Why what was submitted under this serial was refused, if it was.
fn refusal_of<N: EngineName>(
    client: &mut Client<N>,
    serial: u64,
) -> Result<Option<Refusal>, Refusal>
    ensures { BeginsWith client.new.seen client.old.seen }
{
    let ticket = client.ticket_of(serial)?;
    match client.poll(&ticket)? {
        Some(Reply::Refused(why, _)) => Ok(Some(why)),
        _ => Ok(None),
    }
}

impl Receipt {
    /// Counts a refused operation, which is on this line.
    fn refuse(&mut self, line: u64, why: Refusal) {
        if self.refused == 0 {
            self.first_refused = Some((line, why));
        }
        self.refused = self.refused.saturating_add(1);
    }
}
