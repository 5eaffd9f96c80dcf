//! The lines of a bundle, one after another: profile 2 has each operation's vector as what changed since the operation before. A reader
//! takes lines of profile 1 too, which have their vectors whole.

ghost use Rattle.std.specs.Prelude.{◌≡◌, [], Ok, IfOk, IfSome, IsUtf8, MatchResult};
ghost use Rattle.std.specs.Option.{option_map_or};
ghost use Rattle.ids.specs.Vectors.{IsCanonical};
ghost use Rattle.operation.specs.Ops.{stamped_of};
ghost use Rattle.semantics.specs.Stamped.{Stamped};
ghost use Rattle.semantics.specs.Vectors.{Vector};
ghost use Rattle.wire.specs.Forms.{IsRead};
ghost use Rattle.wire.specs.Profiles.{IsSentBeside, line_form, op2_line};
ghost use Rattle.wire.specs.Sent.{CanBeSent};

use crate::canonical::{read_canonical, read_canonical_beside};
use crate::forms::json_of;
use crate::messages::LINE_BYTES;
use crate::reading::operation_beside;
use crate::writing::with_line_beside;
use ids::{OpId, Refusal};
use operation::{Op, Shared};
use std::alloc::{AllocError, Global};
use std::marker::Model;

/// What a line of profile 2 begins with.
const BESIDE: &[u8] = b"[\"op2\"";

/// Reads the lines of a bundle, in order. Contracts see it as the base of the next line: the vector of the last operation that it read, or
/// the empty one.
#[derive(Debug, Drop)]
pub struct BundleReader {
    last: Option<Shared<Op>>,
}

impl Model for BundleReader {
    ghost use Rattle.std.specs.Prelude.{[]};
    ghost use Rattle.std.specs.Option.{option_map_or};
    ghost use Rattle.semantics.specs.Vectors.{Vector};

    ghost Value = { Vector };

    ghost view = { λ r. option_map_or (λ op. op.deps) r.last [] };
}

impl BundleReader {
    /// A reader before the first line. Allocates nothing.
    pub fn new() -> BundleReader
        ensures { result ≡ [] }
    {
        BundleReader { last: None }
    }

    /// The operation on the next line, of either profile. A line that is refused leaves the reader as it was.
    ///
    /// A line in the form in which it is written is read directly, and any other as JSON, as `read_op` does, in time and memory in
    /// proportion to its length and that of the base. The reader holds the operation, shared, until the next one replaces it.
    ///
    /// # Errors
    /// The first fault in the order of `read_op`, except that a list of six may begin with `op2` too. Its vector has these faults, all
    /// `BadLine`: the first pair from the left of another form, out of ascending order or with the base's own counter, and then a resulting
    /// vector of more than 256 pairs. `NoMemory` if allocation fails.
    pub fn read(&mut self, alloc: Global, line: &[u8]) -> Result<Shared<Op>, Refusal>
        ensures read { IsRead stamped_of result (line_form self.old line.now) }
        ensures base { MatchResult result (λ o. self.new ≡ o.deps) (λ _. self.new ≡ self.old) }
    {
        let op = self.peek(alloc, line)?;
        self.keep(op.clone()?);
        Ok(op)
    }

    /// The operation on the next line, as `read` gives it. The reader stays as it was: call `keep` with the operation once its line counts
    /// as read.
    ///
    /// # Errors
    /// Those of `read`.
    pub fn peek(&self, alloc: Global, line: &[u8]) -> Result<Shared<Op>, Refusal>
        ensures { IsRead stamped_of result (line_form self.now line.now) }
    {
        Ok(Shared::new(alloc, op_beside(alloc, self.base(), line)?)?)
    }

    /// Makes this operation the last one that was read: the next line is relative to its vector.
    pub fn keep(&mut self, op: Shared<Op>)
        ensures { self.new ≡ op.deps }
    {
        self.last = Some(op);
    }

    /// The vector of the last operation.
    fn base(&self) -> &[OpId]
        ensures base { result.now ≡ self.now }
        ensures canonical { IsCanonical result.now }
    {
        match &self.last {
            Some(op) => op.deps.ids(),
            None => &[],
        }
    }
}

/// Writes the lines of a bundle, in order, in profile 2. Contracts see it as the base of the next line: the vector of the last operation
/// that it wrote, or the empty one.
#[derive(Debug, Drop)]
pub struct BundleWriter {
    base: Vec<OpId>,
}

impl Model for BundleWriter {
    ghost use Rattle.semantics.specs.Vectors.{IsCanonical, Vector};

    ghost Value = { Vector };

    ghost view = { λ w. w.base.items };

    ghost invariant = { λ w. IsCanonical w.base.items };
}

impl BundleWriter {
    /// A writer before the first line. Allocates nothing.
    pub fn new(alloc: Global) -> BundleWriter
        ensures { result ≡ [] }
    {
        BundleWriter {
            base: Vec::new(alloc),
        }
    }

    /// The operation's line, without a line feed. If its counters are within the limits of the wire, a reader with the same base reads it
    /// as the same operation. Passes its vector and the base once; the writer keeps capacity for the longest vector that it wrote.
    ///
    /// # Errors
    /// `AllocError` if allocation fails. The writer is then unchanged.
    pub fn write(&mut self, alloc: Global, op: &Op) -> Result<Vec<u8>, AllocError>
        ensures line { IfOk result (λ text. text.items ≡ op2_line self.old (stamped_of op.now)) }
        ensures base { MatchResult result (λ _. self.new ≡ op.now.deps) (λ _. self.new ≡ self.old) }
        ensures reads_back { IfOk result
            (λ text. CanBeSent (stamped_of op.now) → line_form self.old text.items ≡ Ok (stamped_of op.now)) }
    {
        let room = Vec::with_capacity(alloc, LINE_BYTES)?;
        let line = with_line_beside(room, self.base.as_slice(), op)?;
        replace(&mut self.base, op.deps.ids())?;
        Ok(line)
    }
}

/// The operation on a line of either profile relative to a base: read directly if the line is as it would be written, else as any JSON.
fn op_beside(alloc: Global, base: &[OpId], line: &[u8]) -> Result<Op, Refusal>
    requires { IsCanonical base.now }
    ensures { IsRead stamped_of result (line_form base.now line.now) }
{
    if let Some(op) = written_op(alloc, base, line) {
        return Ok(op);
    }
    let value = json_of(alloc, line)?;
    operation_beside(alloc, base, &value)
}

/// The operation on a line that is as it would be written.
fn written_op(alloc: Global, base: &[OpId], line: &[u8]) -> Option<Op>
    requires { IsCanonical base.now }
    ensures { IfSome result (λ o. line_form base.now line.now ≡ Ok (stamped_of o)) }
{
    if line.starts_with(BESIDE) {
        return read_canonical_beside(alloc, base, line);
    }
    read_canonical(alloc, line)
}

/// Replaces the base by these ids. Reserves before anything changes.
fn replace(base: &mut Vec<OpId>, ids: &[OpId]) -> Result<(), AllocError>
    ensures { MatchResult result (λ _. base.new.items ≡ ids.now) (λ _. base.new.items ≡ base.old.items) }
{
    base.reserve(ids.len().saturating_sub(base.len()))?;
    base.clear();
    base.extend_from_slice(ids)
}

/// An operation's line relative to a base is read there as that operation, if all lengths and numbers are within their limits and its texts
/// are UTF-8.
pub fn lines_beside_are_read_back()
    ensures { (base : Vector) (s : Stamped) → IsCanonical base → IsSentBeside base s → IsUtf8 (op2_line base s)
        → line_form base (op2_line base s) ≡ Ok s }
{}
