//! The writer: it takes what clients submitted, handles it, publishes, and only then answers.

ghost use Rattle.std.specs.Prelude.{◌≡◌, ◌<◌, ◌≤◌, ◌++◌, [], List, MatchBool, MatchResult, cond, false, length, nat_lt, vec_capacity};
ghost use Rattle.command.specs.Counts.{one_more};
ghost use Rattle.command.specs.published.Rules.{IsQueueOf};
ghost use Rattle.crossbeam_queue.specs.Passes.{view};
ghost use Rattle.semantics.specs.Engine.{Handled as TheHandled};
ghost use Rattle.semantics.specs.Entries.{IsAbove};
ghost use Rattle.semantics.specs.Replica.{IsRunning};
ghost use Rattle.semantics.specs.Handling.{Handles};
ghost use Rattle.semantics.specs.Batches.{AreAnswers, IsBatch, ComeFrom, items_of};
ghost use Rattle.semantics.specs.Publication.{Holds};
ghost use Rattle.replica.specs.operation.declared.submission.Submission.{Submission as ASubmission};
ghost use Rattle.replica.specs.operation.Submissions.{submitted_of};
ghost use Rattle.replica.specs.Replicas.{replica_of};
ghost use Rattle.replica.specs.Handlers.{handler_of};
ghost use Rattle.engine.specs.WriterSteps.{Ends, IsWriterStep, Shows, publication_of, submitted_in};

use command::{EngineName, Envelope, Handled, Notice, Publisher, QueueName, Taker};
use replica::{Handler, Replica};
use std::alloc::{AllocError, Global};
use std::marker::Model;
use std::sync::Wait;

/// What a step did.
#[derive(Clone, Copy, Debug, PartialEq, Eq)]
pub enum Step {
    /// The queue was empty at some moment of the step, nothing was taken, and there was nothing to publish. After a failed allocation,
    /// operations of peers that could be applied may still wait; the next step tries again.
    Idle,
    /// All entries are published, and this many submissions were answered, possibly none. If there are fewer than a batch, and none was
    /// held before, the queue was empty at some moment of the step.
    Published(usize),
    /// An allocation of the publish failed. The whole batch is held, and none of it is answered. Step again: nothing else is handled before
    /// that, unless the batch is empty, after a drain alone.
    Held,
}

/// The one writer of an engine, which owns the replica. It isn't `Drop`: call `close`.
pub struct Writer<N: EngineName> {
    pub(crate) publisher: Publisher<N>,
    pub(crate) handler: Handler,
    pub(crate) taker: Taker<N>,
    pub(crate) queue_name: QueueName<N>,
    /// Handled but not answered, the oldest first, with capacity for a batch.
    pub(crate) held: Vec<Handled<N>>,
    pub(crate) batch: usize,
}

impl<N: EngineName> Model for Writer<N> {
    ghost use Rattle.std.specs.Prelude.{vec_capacity};
    ghost use Rattle.std.specs.Coded.{codes};
    ghost use Rattle.semantics.specs.Codes.{coded_element};
    ghost use Rattle.crossbeam_queue.specs.Passes.{view as view_of};
    ghost use Rattle.replica.specs.Handlers.{handler_of};
    ghost use Rattle.engine.specs.WriterSteps.{Writer, IsWriter};

    ghost Value = { Writer };

    ghost coded = { Prim.hlevel (codes, coded_element) };

    ghost view = { λ w. record {
      clients = (view_of w.taker.pass).made;
      batch = w.batch;
      handler = handler_of w.handler;
      published = w.publisher.published;
      took = (view_of w.taker.pass).got;
      found_empty = w.taker.found_empty;
      held = w.held.items;
    } };

    ghost invariant = { λ w. IsWriter N.own N.table w.publisher (handler_of w.handler) (view_of w.taker.pass) w.held.items w.batch
        (vec_capacity w.held) w.taker.pass.table_id w.queue_name.seen.log };
}

impl<N: EngineName> Writer<N> {
    /// The writer of a new engine, with capacity for a batch.
    pub(crate) fn new(
        publisher: Publisher<N>,
        replica: Replica,
        taker: Taker<N>,
        queue_name: QueueName<N>,
        held: Vec<Handled<N>>,
        batch: usize,
    ) -> Writer<N>
        requires name { (replica.own ≡ N.own) × (replica.document.members ≡ N.table) }
        requires none { (publisher.appended ≡ []) × (replica.document.entries ≡ []) × ((view taker.pass).got ≡ [])
            × ((view taker.pass).known ≡ []) × (held.items ≡ []) }
        requires batch { (0 < batch) × (batch ≤ vec_capacity held) }
        requires queue_name { IsQueueOf taker.pass.table_id queue_name.seen.log }
        ensures { result
            ≡ record {
              clients = (view taker.pass).made;
              batch = batch;
              handler = record { replica = replica_of replica; behind = false };
              published = publisher.published;
              took = [];
              found_empty = taker.found_empty;
              held = [];
            } }
    {
        let _ = replica.document();
        Writer {
            publisher,
            handler: Handler::new(replica),
            taker,
            queue_name,
            held,
            batch,
        }
    }

    /// A notice of what is published, which any token of the engine may learn.
    pub fn notice(&self) -> Notice<N>
        ensures { result ≡ self.now.published }
    {
        self.publisher.notice()
    }

    /// How many operations of peers were dropped because they turned out to be unlawful; saturates.
    pub fn dropped(&self) -> u64
        ensures { result ≡ self.now.handler.replica.dropped }
    {
        self.handler.replica.dropped()
    }

    /// Goes on with the drain of peers' operations if a failed allocation ended it early; takes up to a batch of submissions and handles
    /// them one after another; publishes all entries at once; and then answers the submissions, the oldest first. If a batch is held,
    /// publishes and answers that, and does nothing else. Returns at once if there is nothing to do. May spin behind a thread that is in
    /// the queue, and waits for readers of the copy that is brought up to date. Applies each new entry three times: to the replica and to
    /// both copies.
    pub fn step(&mut self, rt: &impl Wait, alloc: Global) -> Step
        ensures same { (self.new.clients ≡ self.old.clients) × (self.new.batch ≡ self.old.batch)
            × (0 < self.new.batch) }
        ensures fresh { length self.old.held ≡ 0
            → (hs : List TheHandled) × IsWriterStep self.old hs self.new × Ends self.old hs result self.new }
        ensures again { 0 < length self.old.held → Shows self.old result self.new }
    {
        if self.held.is_empty() {
            self.turn(rt, alloc)
        } else {
            self.show(rt)
        }
    }

    /// A step that begins with nothing held.
    fn turn(&mut self, rt: &impl Wait, alloc: Global) -> Step
        requires { length self.old.held ≡ 0 }
        ensures same { (self.new.clients ≡ self.old.clients) × (self.new.batch ≡ self.old.batch)
            × (0 < self.new.batch) }
        ensures turn { (hs : List TheHandled) × IsWriterStep self.old hs self.new × Ends self.old hs result self.new }
    {
        self.take_all(rt, alloc);
        if self.is_done() {
            return Step::Idle;
        }
        self.show(rt)
    }

    /// The first part of a step that begins with nothing held: goes on with a drain that ended early, and then takes and handles up to a
    /// batch of submissions. May spin behind a thread that is in the queue.
    pub fn take_all(&mut self, rt: &impl Wait, alloc: Global)
        requires { length self.old.held ≡ 0 }
        ensures same { (self.new.clients ≡ self.old.clients) × (self.new.batch ≡ self.old.batch)
            × (self.new.published ≡ self.old.published)
            × (0 < self.new.batch) }
        ensures turn { IsWriterStep self.old self.new.held self.new }
    {
        self.handler.resume(alloc, &mut self.publisher);
        fill(
            rt,
            alloc,
            &mut self.publisher,
            &mut self.handler,
            &mut self.taker,
            &mut self.held,
            self.batch,
        );
    }

    /// How many submissions are handled but not answered yet.
    pub fn held_len(&self) -> usize
        ensures { result ≡ length self.now.held }
    {
        self.held.len()
    }

    /// Whether all entries are published.
    pub fn is_all_published(&self) -> bool
        ensures { MatchBool result (self.now.published ≡ self.now.handler.replica.entries)
            (length self.now.published < length self.now.handler.replica.entries) }
    {
        is_all_published(&self.publisher, &self.handler)
    }

    /// Whether nothing is held and all entries are published.
    fn is_done(&self) -> bool
        ensures { MatchBool result
            ((self.now.held ≡ []) × (self.now.published ≡ self.now.handler.replica.entries))
            (length self.now.held ≡ 0 → length self.now.published < length self.now.handler.replica.entries) }
    {
        if !self.held.is_empty() {
            return false;
        }
        is_all_published(&self.publisher, &self.handler)
    }

    /// Publishes all entries, and then answers what is held.
    fn show(&mut self, rt: &impl Wait) -> Step
        ensures shows { Shows self.old result self.new }
        ensures positive { 0 < self.new.batch }
    {
        let count = self.held.len();
        if self.publish_all(rt).is_err() {
            return Step::Held;
        }
        self.answer_all();
        Step::Published(count)
    }

    /// The second part of a step: publishes all entries. Waits for readers of the copy that is brought up to date. `AllocError` if
    /// allocation fails; nothing changes then.
    pub fn publish_all(&mut self, rt: &impl Wait) -> Result<(), AllocError>
        ensures publishes { MatchResult result (λ _. self.new ≡ record self.old { published = self.old.handler.replica.entries })
            (λ _. self.new ≡ self.old) }
        ensures positive { 0 < self.new.batch }
    {
        self.publisher.publish(rt)
    }

    /// The last part of a step: answers what is held, once all entries are published.
    pub fn answer_all(&mut self)
        requires { self.old.published ≡ self.old.handler.replica.entries }
        ensures answers { self.new ≡ record self.old { held = [] } }
        ensures positive { 0 < self.new.batch }
    {
        let notice = self.publisher.notice();
        give(&mut self.held, &notice);
    }
}

/// Whether all entries are published.
fn is_all_published<N: EngineName>(publisher: &Publisher<N>, handler: &Handler) -> bool
    requires { publisher.now.appended ≡ handler.now.replica.document.entries }
    ensures { MatchBool result (publisher.now.published
        ≡ handler.now.replica.document.entries) (length publisher.now.published < length handler.now.replica.document.entries) }
{
    publisher.notice().len() >= handler.replica.history_len()
}

/// Fills an empty batch. Ends early exactly when the queue is found empty.
fn fill<N: EngineName>(
    rt: &impl Wait,
    alloc: Global,
    publisher: &mut Publisher<N>,
    handler: &mut Handler,
    taker: &mut Taker<N>,
    held: &mut Vec<Handled<N>>,
    batch: usize,
)
    requires empty { length held.old.items ≡ 0 }
    requires room { batch ≤ vec_capacity held.old }
    requires holds { Holds (publication_of N.own N.table publisher.old) (replica_of handler.old.replica) }
    requires running { IsRunning (replica_of handler.old.replica) }
    requires come_from { ComeFrom (submitted_in (view taker.old.pass).got) handler.old.replica.document.entries }
    ensures batch { IsBatch (handler_of handler.old) (submitted_in (view taker.old.pass).got) held.new.items
        (handler_of handler.new) }
    ensures took { (items : List ASubmission) × ((view taker.new.pass).got ≡ (view taker.old.pass).got ++ items)
        × (items_of held.new.items ≡ submitted_in items) }
    ensures taker { (taker.new.pass.table_id ≡ taker.old.pass.table_id) × ((view taker.new.pass).known ≡ (view taker.old.pass).known)
        × ((view taker.new.pass).made ≡ (view taker.old.pass).made) }
    ensures holds { Holds (publication_of N.own N.table publisher.new) (replica_of handler.new.replica) }
    ensures published { publisher.new.published ≡ publisher.old.published }
    ensures room { batch ≤ vec_capacity held.new }
    ensures few { length held.new.items ≤ batch }
    ensures empty { taker.new.found_empty
        ≡ cond (nat_lt (length held.new.items) batch) (one_more taker.old.found_empty) taker.old.found_empty }
{
    for _ in 0..batch {
        let Some(envelope) = taker.take(rt) else {
            return;
        };
        let handled = handle_one(alloc, publisher, handler, envelope);
        held.push_reserved(handled);
    }
}

/// Handles one submission.
fn handle_one<N: EngineName>(
    alloc: Global,
    publisher: &mut Publisher<N>,
    handler: &mut Handler,
    envelope: Envelope<N>,
) -> Handled<N>
    requires holds { Holds (publication_of N.own N.table publisher.old) (replica_of handler.old.replica) }
    requires running { IsRunning (replica_of handler.old.replica) }
    requires above { IsAbove envelope.answer.value.submission.client envelope.answer.value.submission.serial
        handler.old.replica.document.entries }
    ensures submission { result.submitted ≡ submitted_of envelope.answer.value.submission }
    ensures handled { Handles (handler_of handler.old) (submitted_of envelope.answer.value.submission) result.reply
        (handler_of handler.new) }
    ensures holds { Holds (publication_of N.own N.table publisher.new) (replica_of handler.new.replica) }
    ensures published { publisher.new.published ≡ publisher.old.published }
{
    let reply = handler.handle(alloc, publisher, envelope.submission());
    envelope.replied(reply)
}

/// Answers the batch, the oldest submission first, each with its reply and a notice of the published history. That each answer is set is
/// only tested.
fn give<N: EngineName>(held: &mut Vec<Handled<N>>, notice: &Notice<N>)
    requires { AreAnswers N.own N.table notice.now held.old.items }
    ensures held { held.new.items ≡ [] }
    ensures room { vec_capacity held.new ≡ vec_capacity held.old }
{
    held.reverse();
    while let Some(handled) = held.pop() {
        let _told = handled.tell(notice.again());
    }
}
