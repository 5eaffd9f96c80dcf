//! What a session sends to peers, and to the store that keeps its history.

ghost use Rattle.std.specs.Prelude.{◌≡◌, ◌⊎◌, ◌+◌, ◌<◌, ◌≤◌, [], Ok, Err, IfErr, IfOk, IsFalse, IsTrue, map, take};
ghost use Rattle.std.specs.List.{All};
ghost use Rattle.ids.specs.declared.refusal.Refusal.TheVariants.{NoMemory};
ghost use Rattle.semantics.specs.Entries.{applied};
ghost use Rattle.semantics.specs.Journals.{entries_from};
ghost use Rattle.semantics.specs.NamedIds.{vector_of};
ghost use Rattle.semantics.specs.Vectors.{Vector};
ghost use Rattle.replica.specs.operation.Ops.{stamped_of};
ghost use Rattle.records.specs.wire.Bundles.{bundle_form};
ghost use Rattle.records.specs.wire.Messages.{hello_form};
ghost use Rattle.records.specs.wire.Sent.{CanBeSent};
ghost use Rattle.records.specs.Lines.{journal_text};
ghost use Rattle.records.specs.Lost.{is_beyond};
ghost use Rattle.session.specs.Answers.{IsAnswer, IsCutAt};

use super::Session;
use ids::{NamedVector, Refusal, ReplicaId, counter_of};
use records::{BundleWriter, LINE_END, lines_of, read_vector};
use replica::{Document, Op, Shared};
use std::alloc::{AllocError, Global};

/// The most bytes of an answer, unless its first line alone has more.
const MOST_BYTES: usize = 4_194_304;

/// An answer to a hello.
#[derive(Debug, Drop)]
pub struct Answered {
    /// The bundle for the peer: the first lines of what it lacks.
    pub lines: Vec<u8>,
    /// Whether it lacks more.
    pub has_more: bool,
    /// Whether the hello names more operations of this session's own number than are known here. If so, this replica, or another one with
    /// its number, has handed out operations that its journal lost: it must write no more until an exchange has brought them back, or it
    /// needs a new number.
    pub is_beyond: bool,
}

/// The first lines of a bundle.
#[derive(Debug, Drop)]
struct FirstLines {
    text: Vec<u8>,
    count: usize,
}

impl Session {
    /// The vector of all that was applied.
    ///
    /// # Errors
    /// `AllocError` if allocation fails.
    pub fn hello(&self, alloc: Global) -> Result<NamedVector, AllocError>
        ensures { IfOk result (λ v. v ≡ vector_of (applied self.now.entries)) }
    {
        NamedVector::of(alloc, self.replica.document().applied().ids())
    }

    /// The answer to a hello, as `answer_within` gives it for 4,194,304 bytes.
    ///
    /// # Errors
    /// As `answer_within`.
    pub fn answer(&self, alloc: Global, hello: &[u8], stored: usize) -> Result<Answered, Refusal>
        ensures ok { IfOk result (λ a. (v : Vector) × (hello_form hello.now ≡ Ok v) × IsAnswer 4194304 self.now stored v a) }
        ensures err { IfErr result (λ why. (why ≡ NoMemory) ⊎ (hello_form hello.now ≡ Err why)) }
    {
        self.answer_within(alloc, hello, stored, MOST_BYTES)
    }

    /// The answer to a hello, a line whose line feed counts as white space: the lines, each with its line feed, of those operations among
    /// the first `stored` entries that its vector doesn't cover, the oldest first; as many as fit into `most` bytes, and at least one if
    /// there is one. A peer reads the same operations, and says hello again if there are more. Takes time and memory in proportion to what
    /// is missing and to the text.
    ///
    /// # Errors
    /// `BadLine` if the hello isn't such a line, as in `read_vector`; `NoMemory` if allocation fails.
    pub fn answer_within(
        &self,
        alloc: Global,
        hello: &[u8],
        stored: usize,
        most: usize,
    ) -> Result<Answered, Refusal>
        ensures ok { IfOk result (λ a. (v : Vector) × (hello_form hello.now ≡ Ok v) × IsAnswer most self.now stored v a) }
        ensures err { IfErr result (λ why. (why ≡ NoMemory) ⊎ (hello_form hello.now ≡ Err why)) }
    {
        let vector = read_vector(alloc, hello)?;
        let document = self.document();
        let ops = document.missing_before(alloc, stored, &vector)?;
        let FirstLines { text, count } = first_lines(alloc, ops.as_slice(), most)?;
        Ok(Answered {
            lines: text,
            has_more: count < ops.len(),
            is_beyond: is_beyond(document, self.own, &vector),
        })
    }

    /// The lines of a journal of the entries from a position on, each with its line feed: an own entry as `["own",ID,COMMAND]`, one that a
    /// peer sent as its line in the first profile. `replay` reads each line by itself. Takes time and memory in proportion to their number.
    ///
    /// # Errors
    /// `AllocError` if allocation fails.
    pub fn lines_from(&self, alloc: Global, position: usize) -> Result<Vec<u8>, AllocError>
        ensures { IfOk result (λ text. text.items ≡ journal_text (entries_from position self.now.entries)) }
    {
        let entries = self.replica.document().entries_from(alloc, position)?;
        lines_of(alloc, entries.as_slice())
    }
}

/// Whether the vector names more operations of a replica than were applied.
fn is_beyond(document: &Document, own: ReplicaId, vector: &NamedVector) -> bool
    ensures { result ≡ is_beyond own document.now.entries vector.now }
{
    counter_of(document.applied().ids(), own) < vector.at(own)
}

/// The first lines of the bundle of these operations: as many as fit into `most` bytes, and at least one if there is one. A peer reads the
/// same first operations.
///
/// # Errors
/// `AllocError` if allocation fails.
fn first_lines(alloc: Global, ops: &[Shared<Op>], most: usize) -> Result<FirstLines, AllocError>
    ensures cut { IfOk result (λ f. IsCutAt most (map stamped_of ops.now) f.count f.text.items) }
    ensures reads_back { IfOk result
        (λ f. All (λ o. CanBeSent (stamped_of o)) ops.now
        → bundle_form [] f.text.items ≡ Ok (take f.count (map stamped_of ops.now))) }
{
    let mut text = Vec::new(alloc);
    let mut writer = BundleWriter::new(alloc);
    for count in 0..ops.len() {
        let line = writer.write(alloc, &ops[count])?;
        if is_behind(count, text.len(), line.len(), most) {
            return Ok(FirstLines { text, count });
        }
        text.extend_from_slice(line.as_slice())?;
        text.push(LINE_END)?;
    }
    Ok(FirstLines {
        text,
        count: ops.len(),
    })
}

/// Whether a line of this many bytes, with its line feed, doesn't fit after this many lines and bytes; the first line always fits.
fn is_behind(count: usize, bytes: usize, line: usize, most: usize) -> bool
    ensures yes { IsTrue result → (0 < count) × (most < bytes + (line + 1)) }
    ensures no { IsFalse result → (count ≡ 0) ⊎ (bytes + (line + 1) ≤ most) }
{
    count > 0 && line >= most.saturating_sub(bytes)
}
