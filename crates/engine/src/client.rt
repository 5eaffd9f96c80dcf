//! Clients: they submit commands and operations of peers, poll for the answers, and ask questions.

ghost use Rattle.std.specs.Prelude.{◌≡◌, ◌+◌, ◌-◌, ◌<◌, ◌≤◌, ◌⊎◌, ◌++◌, ◌∷◌, ◌↔◌, [], List, length, Option, Some, None, Ok, Err, IfOk};
ghost use Rattle.std.specs.Prelude.{IfErr, IfSome, MatchBool, MatchResult, map, option_map, slice_get};
ghost use Rattle.std.specs.Arc.{arc_value};
ghost use Rattle.crossbeam_queue.specs.Passes.{ruled_capacity, view as pass_view};
ghost use Rattle.ids.specs.declared.refusal.Refusal.TheVariants.{Closed, Foreign, NoMemory, QueueFull, SerialEnd};
ghost use Rattle.semantics.specs.Entries.{Entry as TheEntry, IsEntryHistory, applied};
ghost use Rattle.semantics.specs.Journals.{entries_from};
ghost use Rattle.semantics.specs.WorldHistory.{BeginsWith};
ghost use Rattle.semantics.specs.Questions.{Question as TheQuestion, Refused};
ghost use Rattle.semantics.specs.LegalAnswer.{Answered, OfDocument, reading_of};
ghost use Rattle.semantics.specs.PeerAnswers.{IsAnswer};
ghost use Rattle.semantics.specs.View.{view};
ghost use Rattle.replica.specs.document.Documents.{asked_of, said_by};
ghost use Rattle.replica.specs.operation.declared.submission.Submission.{Submission as ASubmission};
ghost use Rattle.replica.specs.operation.declared.submission.Request.TheVariants.{Command as OfCommand, Peer as OfPeer};
ghost use Rattle.replica.specs.operation.Ops.{entry_of};
ghost use Rattle.replica.specs.operation.Submissions.{reply_of, submitted_of};
ghost use Rattle.command.specs.Answers.{Given};
ghost use Rattle.command.specs.published.Rules.{IsQueueOf};
ghost use Rattle.command.specs.published.Tokens.{GivesNoReading};
ghost use Rattle.engine.specs.Clients.{HasNotice, IsAnswered, IsMine, Looks, after_refusal, submissions_by, with_request};

use crate::pending::Pending;
use command::{EngineName, Envelope, Notice, QueueName, ReaderToken, Sender, Taker, Ticket};
use ids::{Refusal, ReplicaId};
use replica::{Command, Entry, Op, Question, Reading, Reply, Request, Shared, Submission};
use std::alloc::{AllocError, Global};
use std::marker::Model;
use std::sync::Wait;

/// A client of an engine, for one thread at a time. It numbers what it submits from 1 on, and for its whole life keeps each serial's
/// submission and the cell of its answer. Its token reads as a `ReaderToken` does.
#[derive(Drop)]
pub struct Client<N: EngineName> {
    replica: ReplicaId,
    number: usize,
    serials: u64,
    token: ReaderToken<N>,
    sender: Sender<N>,
    queue_name: QueueName<N>,
    kept: Vec<Pending<N>>,
}

impl<N: EngineName> Model for Client<N> {
    ghost use Rattle.std.specs.Prelude.{◌≡◌, map};
    ghost use Rattle.std.specs.Arc.{arc_value};
    ghost use Rattle.std.specs.Coded.{codes};
    ghost use Rattle.semantics.specs.Codes.{coded_element};
    ghost use Rattle.crossbeam_queue.specs.Passes.{view as pass_view, ruled_capacity};
    ghost use Rattle.command.specs.published.Rules.{IsQueueOf};
    ghost use Rattle.engine.specs.Clients.{AreBy, Client};

    ghost Value = { Client };

    ghost coded = { Prim.hlevel (codes, coded_element) };

    ghost view = { λ c. record {
      replica = c.replica;
      number = c.number;
      serials = c.serials;
      capacity = ruled_capacity (arc_value c.sender.queue);
      found_full = c.sender.found_full;
      seen = c.token.seen;
      read = c.token.read;
      reads = c.token.reads;
      kept = c.kept.items;
    } };

    ghost invariant = { λ c. ((pass_view c.sender.pass).from ≡ c.number)
        × ((pass_view c.sender.pass).put ≡ map (λ k. k.submission) c.kept.items)
        × AreBy c.number 1 (map (λ k. k.submission) c.kept.items)
        × IsQueueOf c.sender.pass.table_id c.queue_name.seen.log };
}

impl<N: EngineName> Client<N> {
    pub(crate) fn new(
        alloc: Global,
        replica: ReplicaId,
        number: usize,
        serials: u64,
        token: ReaderToken<N>,
        sender: Sender<N>,
        queue_name: QueueName<N>,
    ) -> Client<N>
        requires sender { ((pass_view sender.pass).from ≡ number) × ((pass_view sender.pass).put ≡ []) }
        requires queue_name { IsQueueOf sender.pass.table_id queue_name.seen.log }
        ensures { (result.replica ≡ replica) × (result.number ≡ number) × (result.serials ≡ serials)
            × (result.capacity ≡ ruled_capacity (arc_value sender.queue)) × (result.kept ≡ []) × (result.seen ≡ token.seen)
            × (result.found_full ≡ sender.found_full) }
    {
        Client {
            replica,
            number,
            serials,
            token,
            sender,
            queue_name,
            kept: Vec::new(alloc),
        }
    }

    /// Submits a command to the writer, and returns its ticket: `poll` gives the answer after a step. The position or the length that it
    /// names is at least `seen_len` at this call, except for `BadFloor`. One copy of the command is kept, for as long as the client lives
    /// or an entry has it. May spin while another thread is in the queue; never waits for room. Four allocations, and space for the serial,
    /// which is kept for good.
    ///
    /// # Errors
    /// `SerialEnd` if all serials are used, else `Closed` if the engine is closed, else `NoMemory` if allocation fails, else `QueueFull` if
    /// the queue was full at some moment of the call, which `found_full` counts. A refused call takes no serial and drops the command.
    pub fn submit(
        &mut self,
        rt: &impl Wait,
        alloc: Global,
        command: Command,
    ) -> Result<Ticket, Refusal>
        ensures ticket { IfOk result
            (λ t. t ≡ record { replica = self.old.replica; client = self.old.number; serial = length self.old.kept + 1 }) }
        ensures kept { MatchResult result (λ _. self.new ≡ with_request self.old (OfCommand command))
            (λ why. self.new ≡ after_refusal self.old why) }
        ensures end { (result ≡ Err SerialEnd) ↔ (self.old.serials ≤ length self.old.kept) }
        ensures err { IfErr result (λ why. (why ≡ SerialEnd) ⊎ (why ≡ Closed) ⊎ (why ≡ NoMemory) ⊎ (why ≡ QueueFull)) }
    {
        let serial = self.next_serial()?;
        let command = Shared::new(alloc, command)?;
        self.send(rt, alloc, serial, Request::Command(command))
    }

    /// Submits a command as `submit` does, but leaves it with the caller: trying again, after a refusal or after a reply with `NoMemory`,
    /// needs no clone of it. One allocation fewer than `submit`.
    ///
    /// # Errors
    /// As `submit`.
    pub fn submit_shared(
        &mut self,
        rt: &impl Wait,
        alloc: Global,
        command: &Shared<Command>,
    ) -> Result<Ticket, Refusal>
        ensures ticket { IfOk result
            (λ t. t ≡ record { replica = self.old.replica; client = self.old.number; serial = length self.old.kept + 1 }) }
        ensures kept { MatchResult result (λ _. self.new ≡ with_request self.old (OfCommand command.now))
            (λ why. self.new ≡ after_refusal self.old why) }
        ensures end { (result ≡ Err SerialEnd) ↔ (self.old.serials ≤ length self.old.kept) }
        ensures err { IfErr result (λ why. (why ≡ SerialEnd) ⊎ (why ≡ Closed) ⊎ (why ≡ NoMemory) ⊎ (why ≡ QueueFull)) }
    {
        let serial = self.next_serial()?;
        let command = command.clone()?;
        self.send(rt, alloc, serial, Request::Command(command))
    }

    /// Submits an operation that a peer sent, as `submit` does a command. The operation is shared, not copied.
    ///
    /// # Errors
    /// As `submit`.
    pub fn deliver(
        &mut self,
        rt: &impl Wait,
        alloc: Global,
        op: Shared<Op>,
    ) -> Result<Ticket, Refusal>
        ensures ticket { IfOk result
            (λ t. t ≡ record { replica = self.old.replica; client = self.old.number; serial = length self.old.kept + 1 }) }
        ensures kept { MatchResult result (λ _. self.new ≡ with_request self.old (OfPeer op))
            (λ why. self.new ≡ after_refusal self.old why) }
        ensures end { (result ≡ Err SerialEnd) ↔ (self.old.serials ≤ length self.old.kept) }
        ensures err { IfErr result (λ why. (why ≡ SerialEnd) ⊎ (why ≡ Closed) ⊎ (why ≡ NoMemory) ⊎ (why ≡ QueueFull)) }
    {
        let serial = self.next_serial()?;
        self.send(rt, alloc, serial, Request::Peer(op))
    }

    /// The serial of the next submission.
    ///
    /// # Errors
    /// `SerialEnd` if all serials are used, else `Closed` if the engine is closed.
    fn next_serial(&self) -> Result<u64, Refusal>
        ensures ok { IfOk result (λ serial. serial ≡ length self.now.kept + 1) }
        ensures end { (result ≡ Err SerialEnd) ↔ (self.now.serials ≤ length self.now.kept) }
        ensures err { IfErr result (λ why. (why ≡ SerialEnd) ⊎ (why ≡ Closed)) }
    {
        let used = self.kept.len() as u64;
        if used >= self.serials {
            return Err(Refusal::SerialEnd);
        }
        if self.is_closed() {
            return Err(Refusal::Closed);
        }
        Ok(used + 1)
    }

    /// Submits a request under the next serial, which is this one.
    fn send(
        &mut self,
        rt: &impl Wait,
        alloc: Global,
        serial: u64,
        request: Request,
    ) -> Result<Ticket, Refusal>
        requires { serial ≡ length self.old.kept + 1 }
        ensures ticket { IfOk result
            (λ t. t ≡ record { replica = self.old.replica; client = self.old.number; serial = length self.old.kept + 1 }) }
        ensures kept { MatchResult result (λ _. self.new ≡ with_request self.old request) (λ why. self.new ≡ after_refusal self.old why) }
        ensures err { IfErr result (λ why. (why ≡ NoMemory) ⊎ (why ≡ QueueFull)) }
    {
        let submission = Submission {
            client: self.number,
            serial,
            floor: self.token.seen_len(),
            request,
        };
        let Ok((envelope, kept)) = envelope_for::<N>(alloc, submission) else {
            return Err(Refusal::NoMemory);
        };
        if self.kept.reserve(1).is_err() {
            return Err(Refusal::NoMemory);
        }
        match self.sender.send(rt, envelope) {
            Ok(()) => {
                self.kept.push_reserved(kept);
                Ok(Ticket {
                    replica: self.replica,
                    client: self.number,
                    serial,
                })
            }
            Err((refusal, _envelope)) => Err(refusal),
        }
    }

    /// Takes the client apart for `close`: its sender goes back to the taker, and the notice begins with all that the client had seen.
    pub(crate) fn end(
        self,
        rt: &impl Wait,
        taker: &mut Taker<N>,
        queue_name: &QueueName<N>,
        notice: &Notice<N>,
    )
        requires { IsQueueOf taker.old.pass.table_id queue_name.now.seen.log }
        ensures taker { (taker.new.pass.table_id ≡ taker.old.pass.table_id)
            × ((pass_view taker.new.pass).got ≡ (pass_view taker.old.pass).got)
            × ((pass_view taker.new.pass).known ≡ (pass_view taker.old.pass).known ++ (self.number, submissions_by self) ∷ [])
            × ((pass_view taker.new.pass).made ≡ (pass_view taker.old.pass).made) }
        ensures seen { BeginsWith notice.now self.seen }
    {
        let Client {
            token,
            sender,
            queue_name: own,
            ..
        } = self;
        own.agree(queue_name);
        taker.end(sender);
        if !token.begins(notice) {
            // Unreachable: what a token has seen was published before, and the notice is of all that was published. No contract says so.
            for _ in rt.forever() {}
            unreachable!()
        }
    }

    /// The reply to the ticket's submission once the writer has answered it, else `None`. From then on the client has seen all that was
    /// published with the answer, and the reply stays the same. If it is a refusal, the submission has no entry in that history, so it can
    /// be submitted again. Never waits; allocates nothing. Linear in the size of what was submitted.
    ///
    /// # Errors
    /// `Foreign` if the ticket is of another replica number or another client, or of a serial that wasn't taken. `Closed` if the engine is
    /// closed and the ticket wasn't answered: it never will be.
    pub fn poll(&mut self, ticket: &Ticket) -> Result<Option<Reply>, Refusal>
        ensures mine { MatchResult result (λ _. IsMine self.old ticket.now)
            (λ e. ((e ≡ Foreign) × (IsMine self.old ticket.now → ⊥) × (self.new ≡ self.old))
            ⊎ ((e ≡ Closed) × IsMine self.old ticket.now × Looks self.old self.new (ticket.now.serial - 1) None)) }
        ensures grows { BeginsWith self.new.seen self.old.seen }
        ensures same { self.new ≡ record self.old { seen = self.new.seen; kept = self.new.kept } }
        ensures items { submissions_by self.new ≡ submissions_by self.old }
        ensures polls { IfOk result
            (λ o. (g : Option Given) × Looks self.old self.new (ticket.now.serial - 1) g × (o ≡ option_map (λ x. x.reply) g)) }
        ensures answered { IfOk result
            (λ o. IfSome o (λ r. (G : List TheEntry) × IsAnswered N.own N.table self.new ticket.now r G × BeginsWith self.new.seen G)) }
        ensures legal { IfOk result
            (λ o. IfSome o
            (λ r. (x : ASubmission) × (slice_get (submissions_by self.old) (ticket.now.serial - 1) ≡ Some x)
            × IsAnswer N.own N.table self.new.seen (submitted_of x) (reply_of r))) }
    {
        // Read first: what isn't answered once the engine is closed never will be.
        let is_closed = self.is_closed();
        let Some((reply, notice)) = self.look(ticket)? else {
            return if is_closed {
                Err(Refusal::Closed)
            } else {
                Ok(None)
            };
        };
        self.token.learn(&notice);
        Ok(Some(reply))
    }

    /// The notice of the ticket's answer once the writer has answered it, else `None`. It is of what was published with the answer: after a
    /// `poll` that returned the reply, it is there, and is the one that `poll` learnt of. Never waits; allocates nothing. Linear in the
    /// size of what was submitted.
    ///
    /// # Errors
    /// `Foreign` and `Closed`, as `poll`.
    pub fn notice_of(&self, ticket: &Ticket) -> Result<Option<&Notice<N>>, Refusal>
        ensures mine { MatchResult result (λ _. IsMine self.now ticket.now)
            (λ e. ((e ≡ Foreign) × (IsMine self.now ticket.now → ⊥))
            ⊎ ((e ≡ Closed) × IsMine self.now ticket.now × HasNotice N.own N.table self.now ticket.now None)) }
        ensures notice { IfOk result (λ o. HasNotice N.own N.table self.now ticket.now (option_map (λ n. n.now) o)) }
    {
        if !self.is_mine(ticket) {
            return Err(Refusal::Foreign);
        }
        let is_closed = self.is_closed();
        match self.kept[ticket.serial as usize - 1].notice() {
            None if is_closed => Err(Refusal::Closed),
            notice => Ok(notice),
        }
    }

    /// The reply to the ticket's submission and its notice, once it was answered.
    ///
    /// # Errors
    /// `Foreign`, as `poll`.
    fn look(&mut self, ticket: &Ticket) -> Result<Option<(Reply, Notice<N>)>, Refusal>
        ensures mine { MatchResult result (λ _. IsMine self.old ticket.now)
            (λ e. (e ≡ Foreign) × (IsMine self.old ticket.now → ⊥) × (self.new ≡ self.old)) }
        ensures same { self.new ≡ record self.old { kept = self.new.kept } }
        ensures items { submissions_by self.new ≡ submissions_by self.old }
        ensures looks { IfOk result
            (λ o. Looks self.old self.new (ticket.now.serial - 1) (option_map (λ r. record { reply = r.0; history = r.1 }) o)) }
        ensures answered { IfOk result (λ o. IfSome o (λ r. IsAnswered N.own N.table self.new ticket.now r.0 r.1)) }
    {
        if !self.is_mine(ticket) {
            return Err(Refusal::Foreign);
        }
        Ok(self.kept[ticket.serial as usize - 1].look())
    }

    /// The ticket of a serial that this client took, as `submit` and `deliver` return it: `receive` returns serials alone.
    ///
    /// # Errors
    /// `Foreign` if the serial wasn't taken.
    pub fn ticket_of(&self, serial: u64) -> Result<Ticket, Refusal>
        ensures { MatchResult result (λ t. IsMine self.now t × (t.serial ≡ serial))
            (λ e. (e ≡ Foreign) × ((0 < serial) × (serial ≤ length self.now.kept) → ⊥)) }
    {
        let ticket = Ticket {
            replica: self.replica,
            client: self.number,
            serial,
        };
        if !self.is_mine(&ticket) {
            return Err(Refusal::Foreign);
        }
        Ok(ticket)
    }

    /// Whether the ticket is one of this client's.
    fn is_mine(&self, ticket: &Ticket) -> bool
        ensures { MatchBool result (IsMine self.now ticket.now) (IsMine self.now ticket.now → ⊥) }
    {
        ticket.replica == self.replica
            && ticket.client == self.number
            && ticket.serial > 0
            && ticket.serial <= self.kept.len() as u64
    }

    /// Whether the engine is closed: no more answers or readings come. Never waits.
    pub fn is_closed(&self) -> bool {
        self.token.is_closed()
    }

    /// The number of the engine's replica.
    pub fn replica(&self) -> ReplicaId
        ensures { result ≡ self.now.replica }
    {
        self.replica
    }

    /// How many entries the client has seen.
    pub fn seen_len(&self) -> usize
        ensures length { result ≡ length self.now.seen }
        ensures legal { IsEntryHistory N.own self.now.seen }
    {
        self.token.seen_len()
    }

    /// Learns of a notice of the same engine: the client has then seen the longer of the two histories. Never waits.
    pub fn learn(&mut self, notice: &Notice<N>)
        ensures grows { BeginsWith self.new.seen self.old.seen }
        ensures learns { BeginsWith self.new.seen notice.now }
        ensures one { (self.new.seen ≡ self.old.seen) ⊎ (self.new.seen ≡ notice.now) }
        ensures same { self.new ≡ record self.old { seen = self.new.seen } }
    {
        self.token.learn(notice);
    }

    /// The entries from a position on, the oldest first, of what is published at the one step of this read, which the client has then
    /// seen. Never waits.
    ///
    /// # Errors
    /// As a `ReaderToken`'s.
    pub fn entries_from(&mut self, alloc: Global, position: usize) -> Result<Vec<Entry>, Refusal>
        ensures grows { BeginsWith self.new.seen self.old.seen }
        ensures legal { IsEntryHistory N.own self.new.seen }
        ensures entries { IfOk result (λ entries. map entry_of entries.items ≡ entries_from position self.new.seen) }
        ensures err { IfErr result GivesNoReading }
        ensures same { self.new ≡ record self.old { seen = self.new.seen; read = self.new.read; reads = self.new.reads } }
    {
        self.token.entries_from(alloc, position)
    }

    /// Answers a question from what is published at the one step of this read, which the client has then seen. Never waits.
    ///
    /// # Errors
    /// As a `ReaderToken`'s.
    pub fn ask(&mut self, alloc: Global, question: &Question) -> Result<Reading, Refusal>
        ensures grows { BeginsWith self.new.seen self.old.seen }
        ensures legal { IsEntryHistory N.own self.new.seen }
        ensures answer { IfOk result (λ r. said_by r ≡ reading_of self.new.seen (asked_of question.now)) }
        ensures view { IfOk result
            (λ r. (q : TheQuestion) → asked_of question.now ≡ OfDocument q
            → said_by r ≡ Answered (view (applied self.new.seen) q)) }
        ensures err { IfErr result
            (λ why. GivesNoReading why
            ⊎ (reading_of self.new.seen (asked_of question.now) ≡ Answered (Refused why))) }
        ensures view_refuses { IfErr result
            (λ why. GivesNoReading why
            ⊎ ((q : TheQuestion) → asked_of question.now ≡ OfDocument q → view (applied self.new.seen) q ≡ Refused why)) }
        ensures published { MatchResult result (λ _. self.new.read ≡ self.new.seen)
            (λ why. GivesNoReading why ⊎ (self.new.read ≡ self.new.seen)) }
        ensures step { MatchResult result (λ _. self.new.reads ≡ self.old.reads + 1)
            (λ why. GivesNoReading why ⊎ (self.new.reads ≡ self.old.reads + 1)) }
        ensures same { self.new ≡ record self.old { seen = self.new.seen; read = self.new.read; reads = self.new.reads } }
    {
        self.token.ask(alloc, question)
    }
}

/// The envelope of a submission, with a blank answer and an empty cell, and what the client keeps of it. Both share the submission.
///
/// # Errors
/// `AllocError` if allocation fails.
fn envelope_for<N: EngineName>(
    alloc: Global,
    submission: Submission,
) -> Result<(Envelope<N>, Pending<N>), AllocError>
    ensures submission { IfOk result
        (λ r. (r.0.answer.value.submission ≡ submission) × (r.1.submission ≡ submission) × (r.1.known ≡ None)) }
{
    let submission = Shared::new(alloc, submission)?;
    let (envelope, cell) = Envelope::new(alloc, submission.clone()?)?;
    Ok((envelope, Pending::new(submission, cell)))
}
