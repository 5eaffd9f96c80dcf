//! An engine that resumes from its journal.

ghost use Rattle.std.specs.Prelude.{◌≡◌, [], ◌∷◌, List, None, OnOk, length, take};
ghost use Rattle.semantics.specs.Entries.{Entry as TheEntry};
ghost use Rattle.semantics.specs.WorldHistory.{BeginsWith};
ghost use Rattle.records.specs.wire.Lines.{cut};
ghost use Rattle.peer_sync.specs.Receiving.{bytes_of};
ghost use Rattle.records.specs.Replays.{BringsBackLines};

use ids::{OpId, Refusal};
use peer_sync::{Client, EngineName, Reply, Step, Ticket, Writer};
use records::{Lines, Recorded, Replayed, Scratch, Unfit, check_recorded, read_record};
use std::alloc::Global;
use std::sync::Wait;

/// Replays a journal into a new engine, in one piece or in several. Meanwhile nobody else may write to the engine.
#[derive(Debug, Drop)]
pub struct Replay {
    /// The greatest counter of the lines that were taken.
    latest: u64,
}

impl Replay {
    /// A replay that has taken nothing, for an engine whose history is empty.
    pub fn new() -> Replay {
        Replay { latest: 0 }
    }

    /// Takes the lines of a journal, one after the other, and stops at the first that doesn't fit. The client submits each, and the writer
    /// handles and publishes it: after this the history is what it was, with an entry for each line that was taken, own ones as own
    /// commands of this client. A line that is refused by the rules, or that would make another id, has changed nothing: the engine has the
    /// lines before it. After `NotApplied` its operation may wait. After `NotAlone`, and if allocation failed (`NoMemory`), its entry may
    /// be in the history or held all the same: close this engine, and start over. Each line takes one of the client's serials. May spin
    /// while another thread is in the queue. Costs what receiving as many lines costs.
    pub fn take<N: EngineName>(
        &mut self,
        rt: &impl Wait,
        alloc: Global,
        writer: &mut Writer<N>,
        client: &mut Client<N>,
        journal: &[u8],
    ) -> Replayed
        ensures taken { (G : List TheEntry)
            × BringsBackLines client.old.seen (take result.entries (cut journal.now).lines) G
            × BeginsWith client.new.seen G
            × (result.stopped ≡ None → (client.new.seen ≡ G) × (result.bytes ≡ length journal.now)) }
        ensures bytes { result.bytes ≡ bytes_of (take result.entries (cut journal.now).lines) }
    {
        let mut scratch = Scratch::new(alloc);
        let mut lines = Lines::new(journal);
        let mut replayed = Replayed {
            entries: 0,
            bytes: 0,
            stopped: None,
        };
        while let Some(line) = lines.take_line() {
            match self.take_line(rt, alloc, &mut scratch, writer, client, line.text) {
                Ok(()) => replayed.count(line.text.len() + 1),
                Err(why) => {
                    replayed.stopped = Some((line.number, why));
                    return replayed;
                }
            }
        }
        if let Some(number) = lines.cut_line() {
            replayed.stopped = Some((number, Unfit::Refused(Refusal::BadLine)));
            return replayed;
        }
        replayed
    }

    /// Takes a line.
    fn take_line<N: EngineName>(
        &mut self,
        rt: &impl Wait,
        alloc: Global,
        scratch: &mut Scratch,
        writer: &mut Writer<N>,
        client: &mut Client<N>,
        line: &[u8],
    ) -> Result<(), Unfit>
        ensures ok { OnOk result (BringsBackLines client.old.seen (line.now ∷ []) client.new.seen) }
        ensures grows { BeginsWith client.new.seen client.old.seen }
    {
        let said = read_record(alloc, scratch, line)?;
        let position = client.seen_len();
        let ticket = self.submit(rt, alloc, client, &said)?;
        settle(rt, alloc, writer, client, &ticket)?;
        let entries = client.entries_from(alloc, position)?;
        let counter = check_recorded(entries.as_slice(), &said)?;
        self.latest = self.latest.max(counter);
        Ok(())
    }

    /// Submits what a line records.
    fn submit<N: EngineName>(
        &self,
        rt: &impl Wait,
        alloc: Global,
        client: &mut Client<N>,
        said: &Recorded,
    ) -> Result<Ticket, Unfit>
        ensures { client.new.seen ≡ client.old.seen }
    {
        match said {
            Recorded::Commanded(id, command) => {
                self.check_next(*id, client)?;
                Ok(client.submit_shared(rt, alloc, command)?)
            }
            Recorded::Received(op) => {
                let Ok(op) = op.clone() else {
                    return Err(Unfit::Refused(Refusal::NoMemory));
                };
                Ok(client.deliver(rt, alloc, op)?)
            }
        }
    }

    /// Tests that the id is the one that the engine of this client makes next.
    fn check_next<N: EngineName>(&self, id: OpId, client: &Client<N>) -> Result<(), Unfit> {
        let next = OpId {
            counter: self.latest.saturating_add(1),
            replica: client.replica(),
        };
        if id != next {
            return Err(Unfit::OtherId(next));
        }
        Ok(())
    }
}

/// Makes the writer handle and publish what was submitted.
fn settle<N: EngineName>(
    rt: &impl Wait,
    alloc: Global,
    writer: &mut Writer<N>,
    client: &mut Client<N>,
    ticket: &Ticket,
) -> Result<(), Unfit>
    ensures { BeginsWith client.new.seen client.old.seen }
{
    if let Step::Held = writer.step(rt, alloc) {
        return Err(Unfit::Refused(Refusal::NoMemory));
    }
    match client.poll(ticket)? {
        Some(Reply::Refused(why, _)) => Err(Unfit::Refused(why)),
        Some(_) => Ok(()),
        None => Err(Unfit::NotAlone),
    }
}
