//! Closing an engine.

ghost use Rattle.std.specs.Prelude.{◌≡◌, ◌+◌, ◌<◌, ◌++◌, ℕ, List, length, Some, slice_get};
ghost use Rattle.std.specs.List.{All};
ghost use Rattle.semantics.specs.Batches.{AsksFor};
ghost use Rattle.semantics.specs.Entries.{IsEntryHistory, Own, entry_at};
ghost use Rattle.semantics.specs.Making.{Command};
ghost use Rattle.semantics.specs.Stamped.{Stamped};
ghost use Rattle.semantics.specs.WorldHistory.{BeginsWith};
ghost use Rattle.replica.specs.oplog.Logs.{history};
ghost use Rattle.replica.specs.operation.declared.submission.Submission.{Submission as ASubmission};
ghost use Rattle.command.specs.InOrder.{of};
ghost use Rattle.engine.specs.Clients.{Client as TheClient, submissions_by};
ghost use Rattle.engine.specs.WriterSteps.{submitted_in};

use crate::client::Client;
use crate::writer::Writer;
use command::EngineName;
use replica::Entry;
use std::sync::Wait;

/// What is left of an engine: the published history, the oldest entry first, and how many submissions weren't answered.
#[derive(Drop)]
pub struct Final {
    pub history: Vec<Entry>,
    pub left: u64,
}

/// Closes the engine of this writer. What is queued, or held and unanswered, is dropped and counted in `left`; operations of peers that
/// wait for others are dropped too, and come again with an exchange. To leave nothing behind, step until `Idle` before.
///
/// Clients and readers that still exist are told: from then on each call of theirs that would read, submit or wait for an answer is refused
/// with `Closed`; answers that came before can still be polled. What is submitted while this runs may be left in the queue without being
/// counted; its poll returns `Closed`.
///
/// `clients` are those of the engine that the caller still has, in any order. The contract says what became of all that these submitted;
/// given all of them, `left` is exactly what they submitted that wasn't answered. Waits for readers that are still reading. Allocates
/// nothing, copies nothing, and is linear in what the clients keep. If a client had seen more than is published, this would wait forever.
/// That can't happen, since each notice is of what was published, but no contract says so yet.
pub fn close<N: EngineName>(rt: &impl Wait, writer: Writer<N>, clients: Vec<Client<N>>) -> Final
    ensures history { (history result.history.items ≡ writer.published) × IsEntryHistory N.own writer.published }
    ensures seen { (k : ℕ) (c : TheClient) → slice_get clients.items k ≡ Some c → BeginsWith writer.published c.seen }
    ensures own { (k : ℕ) (c : TheClient) → slice_get clients.items k ≡ Some c → (n serial : ℕ) (command : Command) (s : Stamped) →
        entry_at n writer.published ≡ Some (Own c.number serial command s) → AsksFor (submitted_in (submissions_by c)) serial command }
    ensures taken { (queued : List ASubmission) × (result.left ≡ length writer.held + length queued)
        × ((k : ℕ) (c : TheClient) → slice_get clients.items k ≡ Some c → of c.number (writer.took ++ queued) ≡ submissions_by c)
        × All (λ x. x.client < writer.clients) (writer.took ++ queued) }
{
    let Writer {
        publisher,
        handler: _handler,
        mut taker,
        queue_name,
        held,
        batch: _,
    } = writer;
    publisher.close();
    let notice = publisher.notice();
    let _ = notice.len();
    for client in clients {
        client.end(rt, &mut taker, &queue_name, &notice);
    }
    let left = held.len() as u64 + taker.rest(rt) as u64;
    let (document, _notice) = publisher.end(rt);
    Final {
        history: document.into_entries(),
        left,
    }
}
