//! What a client receives from a peer.

ghost use Rattle.std.specs.Prelude.{◌≡◌, ◌≢◌, ◌⊎◌, ◌+◌, ◌<◌, ◌≤◌, ◌^◌, ◌==◌, cond, [], List, Ok, Err, IfOk, IfErr, MatchOption, length};
ghost use Rattle.std.specs.Prelude.{drop, map, take};
ghost use Rattle.ids.specs.declared.refusal.Refusal.TheVariants.{BadLine, NoMemory};
ghost use Rattle.engine.specs.operation.declared.op.Op.{Op};
ghost use Rattle.engine.specs.operation.Ops.{stamped_of};
ghost use Rattle.wire.specs.Bundles.{readable};
ghost use Rattle.wire.specs.Lines.{cut};
ghost use Rattle.wire.specs.Profiles.{line_form};
ghost use Rattle.peer_sync.specs.Receiving.{EndsAfter, GoesOn, IsDenied, StopsAfter, all_submitted, bytes_of, submitted};

use engine::{Client, EngineName, Ticket};
use ids::Refusal;
use std::alloc::Global;
use std::sync::Wait;
use wire::{BundleReader, Lines};

/// The result of a receipt.
#[derive(Clone, Copy, Debug, PartialEq, Eq)]
pub struct Received {
    /// The serial of the first operation that was submitted, 0 if there is none. The others have the next ones.
    pub first_serial: u64,
    /// How many operations were submitted: those of the lines before the stop.
    pub submitted: u64,
    /// How many bytes those lines have, each with its line feed.
    pub bytes: usize,
    /// The line, counted from 1, at which the receipt stopped, and why; `None` if all lines were submitted.
    pub stopped: Option<(u64, Refusal)>,
}

/// Submits the operations of a whole bundle, as `receive_on` does with a new reader.
///
/// A line of profile 2 has only what changed since the line before it, and the first one since the empty vector: pass whole bundles. The
/// first lines of a bundle are a bundle, but the lines after them aren't: if passed all the same, they may be refused, or be kept under a
/// true id as an operation that nobody made, which no exchange repairs. To go on after a stop, say hello again, or use `receive_on`.
pub fn receive<N: EngineName>(
    rt: &impl Wait,
    alloc: Global,
    client: &mut Client<N>,
    bundle: &[u8],
) -> Received
    ensures submitted { (ops : List Op) × (length ops ≡ result.submitted)
        × (client.new ≡ record (all_submitted client.old ops) { found_full = client.new.found_full })
        × (map stamped_of ops ≡ take result.submitted (readable [] bundle.now).operations) }
    ensures bytes { result.bytes ≡ bytes_of (take result.submitted (cut bundle.now).lines) }
    ensures first { result.first_serial ≡ cond (result.submitted == 0) 0 (length client.old.kept + 1) }
    ensures serials { (result.submitted ≡ 0) ⊎ (length client.new.kept ≤ client.new.serials) }
    ensures stopped { MatchOption result.stopped
        (EndsAfter (readable [] bundle.now) result.submitted × (client.new.found_full ≡ client.old.found_full))
        (λ stop. (stop.0 ≡ result.submitted + 1)
        × StopsAfter (readable [] bundle.now) result.submitted client.old.found_full client.new stop.1) }
{
    let mut reader = BundleReader::new();
    receive_on(rt, alloc, client, &mut reader, bundle)
}

/// Submits the operations of a piece of a bundle, of lines in either profile, line by line, and stops at the first line that is bad or that
/// the client refuses. What came before that line stays submitted, and the reader is then after it. So a bundle may come in pieces, and a
/// receipt can go on where it stopped, with the bytes after `Received::bytes` and the same reader; if the queue was full, once the writer
/// has stepped. The bytes may come from anywhere. May spin while another thread is in the queue, as `Client::deliver`; never waits for
/// room.
///
/// The stop in the result is either a fault of the line itself: `BadLine`, also for bytes after the last line feed, `TooDeep`,
/// `KeyTooLong`, `TextTooLong` or `NotWhole`; such a line is refused each time. Or it is a refusal of `Client::deliver`: `QueueFull`, if
/// the queue was full at some moment of this call, `SerialEnd` or `Closed`; or `NoMemory` if allocation fails. Reads each line whole before
/// it is judged: bound its length. What becomes of each operation, only the reply says.
pub fn receive_on<N: EngineName>(
    rt: &impl Wait,
    alloc: Global,
    client: &mut Client<N>,
    reader: &mut BundleReader,
    bundle: &[u8],
) -> Received
    ensures submitted { (ops : List Op) × (length ops ≡ result.submitted)
        × (client.new ≡ record (all_submitted client.old ops) { found_full = client.new.found_full })
        × (map stamped_of ops ≡ take result.submitted (readable reader.old bundle.now).operations) }
    ensures bytes { result.bytes ≡ bytes_of (take result.submitted (cut bundle.now).lines) }
    ensures within { result.bytes ≤ length bundle.now }
    ensures goes_on { GoesOn (readable reader.old bundle.now) result.submitted (readable reader.new (drop result.bytes bundle.now)) }
    ensures first { result.first_serial ≡ cond (result.submitted == 0) 0 (length client.old.kept + 1) }
    ensures serials { (result.submitted ≡ 0) ⊎ (length client.new.kept ≤ client.new.serials) }
    ensures stopped { MatchOption result.stopped
        (EndsAfter (readable reader.old bundle.now) result.submitted × (client.new.found_full ≡ client.old.found_full))
        (λ stop. (stop.0 ≡ result.submitted + 1)
        × StopsAfter (readable reader.old bundle.now) result.submitted client.old.found_full client.new stop.1) }
{
    let mut lines = Lines::new(bundle);
    let mut received = Received {
        first_serial: 0,
        submitted: 0,
        bytes: 0,
        stopped: None,
    };
    while let Some(line) = lines.take_line() {
        match submit_line(rt, alloc, client, reader, line.text) {
            Ok(ticket) => received.count(ticket.serial, line.text.len() + 1),
            Err(why) => {
                received.stopped = Some((line.number, why));
                return received;
            }
        }
    }
    received.stopped = cut_stop(&lines);
    received
}

/// The stop at bytes after the last line feed, if there are any.
fn cut_stop(lines: &Lines) -> Option<(u64, Refusal)>
    ensures { MatchOption result (lines.now.rest.now ≡ [])
        (λ stop. (stop.0 ≡ lines.now.taken + 1) × (stop.1 ≡ BadLine) × (lines.now.rest.now ≢ [])) }
{
    let number = lines.cut_line()?;
    Some((number, Refusal::BadLine))
}

/// Submits the operation on a line, and moves the reader past it.
///
/// # Errors
/// Those of the line, else those of `Client::deliver`. The reader is then unchanged, and so is the client, except that it may have found
/// the queue full.
fn submit_line<N: EngineName>(
    rt: &impl Wait,
    alloc: Global,
    client: &mut Client<N>,
    reader: &mut BundleReader,
    line: &[u8],
) -> Result<Ticket, Refusal>
    ensures ok { IfOk result
        (λ ticket. (op : Op) × (line_form reader.old line.now ≡ Ok (stamped_of op))
        × (reader.new ≡ op.deps) × (client.new ≡ submitted client.old op) × (ticket.serial ≡ length client.old.kept + 1)
        × (length client.new.kept ≤ client.new.serials)) }
    ensures err { IfErr result
        (λ why. (client.new ≡ record client.old { found_full = client.new.found_full }) × (reader.new ≡ reader.old)
        × (((why ≡ NoMemory) × (client.new.found_full ≡ client.old.found_full))
        ⊎ ((line_form reader.old line.now ≡ Err why) × (client.new.found_full ≡ client.old.found_full))
        ⊎ ((op : Op) × (line_form reader.old line.now ≡ Ok (stamped_of op)) × IsDenied client.old.found_full client.new why))) }
{
    let op = reader.peek(alloc, line)?;
    let last = op.clone()?;
    let ticket = client.deliver(rt, alloc, op)?;
    reader.keep(last);
    Ok(ticket)
}

impl Received {
    /// Counts an operation that was submitted under this serial, and the bytes of its line.
    fn count(&mut self, serial: u64, bytes: usize)
        requires submitted { self.old.submitted + 1 < 2 ^ 64 }
        requires bytes { self.old.bytes + bytes < 2 ^ 64 }
        ensures { self.new
            ≡ record self.old {
              first_serial = cond (self.old.submitted == 0) serial self.old.first_serial;
              submitted = self.old.submitted + 1;
              bytes = self.old.bytes + bytes;
            } }
    {
        if self.submitted == 0 {
            self.first_serial = serial;
        }
        self.submitted += 1;
        self.bytes += bytes;
    }
}
