//! What a session receives from a peer.

ghost use Rattle.std.specs.Prelude.{⊤, ◌≡◌, ◌≢◌, ◌⊎◌, ◌+◌, ◌<◌, ◌^◌, [], Ok, Err, Some, IfErr, IfOk, MatchOption, length, take};
ghost use Rattle.ids.specs.declared.refusal.Refusal.TheVariants.{BadLine, NoMemory};
ghost use Rattle.semantics.specs.Delivery.{answer_to, deliver};
ghost use Rattle.semantics.specs.Handling.{DrainsTo};
ghost use Rattle.semantics.specs.Stamped.{Stamped};
ghost use Rattle.records.specs.wire.Bundles.{readable};
ghost use Rattle.records.specs.wire.Profiles.{line_form};
ghost use Rattle.session.specs.Receipts.{EndsBehind, StopsBehind, delivered, is_short, refusal_of, refusals, refused_lines, summary};
ghost use Rattle.session.specs.Receipts.{with_refusal};

use super::Session;
use ids::Refusal;
use records::{BundleReader, Lines};
use std::alloc::Global;

/// The operations of a receipt that the rules refused.
#[derive(Clone, Copy, Debug, PartialEq, Eq)]
pub struct Refused {
    /// How many there are, at least 1.
    pub count: u64,
    /// The line of the first one, counted from 1.
    pub first_line: u64,
    /// Why that one was refused.
    pub why: Refusal,
}

/// The result of a receipt.
#[derive(Clone, Copy, Debug, PartialEq, Eq)]
pub struct Received {
    /// How many lines were taken: their operations are applied, wait for others, are known, or were refused.
    pub taken: u64,
    /// Those that were refused, if there are any.
    pub refused: Option<Refused>,
    /// The line, counted from 1, at which the receipt stopped, and why; `None` if all lines were taken.
    pub stopped: Option<(u64, Refusal)>,
}

impl Session {
    /// Receives a whole bundle line by line, of lines in either profile: each operation is delivered, and what is then ready is applied, or
    /// dropped if it turns out to be unlawful. If memory ran out in the last receipt, what was ready then goes first, even before an empty
    /// bundle. The bytes may come from anywhere; each line is read whole before it is judged.
    ///
    /// An operation that the rules refuse changes nothing, and the next line is taken. The receipt stops at the first bad line: `BadLine`,
    /// also for bytes after the last line feed, `TooDeep`, `KeyTooLong`, `TextTooLong` or `NotWhole`. It stops with `NoMemory` if
    /// allocation fails: either for the line itself, which then isn't taken, or after a line that was taken, while applying what was ready,
    /// and then the next receipt goes on with that. To go on after a stop, say hello again.
    pub fn receive(&mut self, alloc: Global, bundle: &[u8]) -> Received
        ensures replica { DrainsTo (delivered self.old (take result.taken (readable [] bundle.now).operations)) (is_short result.stopped)
            self.new }
        ensures refused { result.refused
            ≡ summary (refused_lines 1 (refusals self.old (take result.taken (readable [] bundle.now).operations))) }
        ensures stopped { MatchOption result.stopped (EndsBehind (readable [] bundle.now) result.taken)
            (λ stop. (stop.0 ≡ result.taken + 1) × StopsBehind (readable [] bundle.now) result.taken stop.1) }
    {
        // So the number after that of the last line fits too.
        prove!(bundle.len() < usize::MAX);
        let mut received = Received {
            taken: 0,
            refused: None,
            stopped: None,
        };
        if self.settle(alloc).is_err() {
            received.stopped = Some((1, Refusal::NoMemory));
            return received;
        }
        let mut lines = Lines::new(bundle);
        let mut reader = BundleReader::new();
        while let Some(line) = lines.take_line() {
            match self.take_line(alloc, &mut reader, line.text) {
                Ok(why) => received.count(line.number, why),
                Err(why) => {
                    received.stopped = Some((line.number, why));
                    return received;
                }
            }
            if self.settle(alloc).is_err() {
                received.stopped = Some((line.number + 1, Refusal::NoMemory));
                return received;
            }
        }
        received.stopped = cut_stop(&lines);
        received
    }

    /// Delivers the operation on a line, and says why the rules refuse it, if they do.
    ///
    /// # Errors
    /// Those of the line, or `NoMemory` if allocation fails. Nothing was delivered then.
    fn take_line(
        &mut self,
        alloc: Global,
        reader: &mut BundleReader,
        line: &[u8],
    ) -> Result<Option<Refusal>, Refusal>
        ensures ok { IfOk result
            (λ refused. (s : Stamped) × (line_form reader.old line.now ≡ Ok s) × (reader.new ≡ s.vector)
            × (self.new ≡ deliver self.old s) × (refused ≡ refusal_of (answer_to self.old s))) }
        ensures err { IfErr result (λ why. (self.new ≡ self.old) × ((why ≡ NoMemory) ⊎ (line_form reader.old line.now ≡ Err why))) }
    {
        let op = reader.read(alloc, line)?;
        match self.deliver(op) {
            Ok(_) => Ok(None),
            Err(Refusal::NoMemory) => Err(Refusal::NoMemory),
            Err(why) => Ok(Some(why)),
        }
    }
}

impl Received {
    /// Counts a line that was taken, and notes why its operation was refused, if it was.
    fn count(&mut self, line: u64, refused: Option<Refusal>)
        requires taken { self.old.taken + 1 < 2 ^ 64 }
        requires fits { MatchOption self.old.refused ⊤ (λ r. r.count + 1 < 2 ^ 64) }
        ensures { self.new
            ≡ record self.old { taken = self.old.taken + 1; refused = with_refusal self.old.refused line refused } }
    {
        self.taken += 1;
        if let Some(why) = refused {
            self.refused = Some(one_more(self.refused, line, why));
        }
    }
}

/// The summary of the refused operations with one more.
fn one_more(refused: Option<Refused>, line: u64, why: Refusal) -> Refused
    requires fits { MatchOption refused ⊤ (λ r. r.count + 1 < 2 ^ 64) }
    ensures { Some result ≡ with_refusal refused line (Some why) }
{
    match refused {
        None => Refused {
            count: 1,
            first_line: line,
            why,
        },
        Some(before) => Refused {
            count: before.count + 1,
            ..before
        },
    }
}

/// The stop at bytes after the last line feed, if there are any.
fn cut_stop(lines: &Lines) -> Option<(u64, Refusal)>
    ensures { MatchOption result (lines.now.rest.now ≡ [])
        (λ stop. (stop.0 ≡ lines.now.taken + 1) × (stop.1 ≡ BadLine) × (lines.now.rest.now ≢ [])) }
{
    let number = lines.cut_line()?;
    Some((number, Refusal::BadLine))
}
