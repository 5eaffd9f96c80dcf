//! Bundles: operations that are sent together, one per line, each line with its line feed. They are written in profile 2, and read in
//! either profile.

ghost use Rattle.std.specs.Prelude.{◌≡◌, ◌⊎◌, ◌++◌, ℕ, List, [], Some, Ok, IfOk, MatchResult, length, map, take};
ghost use Rattle.std.specs.List.{All};
ghost use Rattle.ids.specs.declared.refusal.Refusal.TheVariants.{NoMemory};
ghost use Rattle.ids.specs.Vectors.{IsCanonical};
ghost use Rattle.semantics.specs.Stamped.{Stamped};
ghost use Rattle.semantics.specs.Vectors.{Vector};
ghost use Rattle.operation.specs.Ops.{stamped_of};
ghost use Rattle.wire.specs.Bundles.{AreReadBack, AreUtf8, IsBadOf, base_after, bundle_form, bundle_text, jsons_in, lines_text};
ghost use Rattle.wire.specs.Bundles.{readable};
ghost use Rattle.wire.specs.Forms.{json_form};
ghost use Rattle.wire.specs.Lines.{cut};
ghost use Rattle.wire.specs.Profiles.{Differences, Profile};
ghost use Rattle.wire.specs.Sent.{CanBeSent, IsSent, IsSentVector};

use crate::lines::{LINE_END, Lines};
use crate::profiles::BundleReader;
use crate::writing::with_line_beside;
use ids::{OpId, Refusal};
use operation::{Op, Shared};
use std::alloc::{AllocError, Global};

/// The lines of the operations, in order, in profile 2: each has its vector as what changed since the operation before, the first one since
/// the empty vector. An empty bundle has no bytes. If all counters are within the limits of the wire, `read_bundle` reads the same
/// operations from the whole text, or from its first lines; lines without those before them are another bundle. Takes time and memory in
/// proportion to the text and the vectors.
///
/// # Errors
/// `AllocError` if allocation fails.
pub fn write_bundle(alloc: Global, ops: &[Shared<Op>]) -> Result<Vec<u8>, AllocError>
    ensures text { IfOk result (λ text. text.items ≡ bundle_text [] (map stamped_of ops.now)) }
    ensures reads_back { IfOk result
        (λ text. All (λ o. CanBeSent (stamped_of o)) ops.now
        → bundle_form [] text.items ≡ Ok (map stamped_of ops.now)) }
{
    let mut text = Vec::new(alloc);
    let mut base: &[OpId] = &[];
    // Each line is written to a buffer of its own and copied: the writer clears its buffer's spare capacity, which is large for a long
    // text.
    let mut line = Vec::new(alloc);
    for op in ops {
        line.clear();
        line = with_line_beside(line, base, op)?;
        text.extend_from_slice(line.as_slice())?;
        text.push(LINE_END)?;
        base = op.deps.ids();
    }
    Ok(text)
}

/// What could be read of a text.
#[derive(Debug, Drop)]
pub struct LinesRead {
    /// The operations of the lines before the first bad one, in their order.
    pub ops: Vec<Shared<Op>>,
    /// Why the line after those is bad, or `None` if the whole text was read.
    pub stopped: Option<Refusal>,
}

/// The operations of a bundle whose lines are in either profile, as far as it can be read.
///
/// Reading stops at the first bad line, with the refusal of `BundleReader::read`; bytes after the last line feed are a bad line, `BadLine`.
/// It also stops with `NoMemory` if allocation fails: what was read before that is kept.
pub fn read_lines(alloc: Global, text: &[u8]) -> LinesRead
    ensures read { (result.stopped ≡ Some NoMemory)
        ⊎ ((map stamped_of result.ops.items ≡ (readable [] text.now).operations)
        × (result.stopped ≡ (readable [] text.now).stopped)) }
    ensures first { map stamped_of result.ops.items ≡ take (length result.ops.items) (readable [] text.now).operations }
{
    let mut lines = Lines::new(text);
    let mut reader = BundleReader::new();
    let mut ops = Vec::new(alloc);
    while let Some(line) = lines.take_line() {
        match reader.read(alloc, line.text) {
            Ok(op) => {
                if ops.push(op).is_err() {
                    return LinesRead {
                        ops,
                        stopped: Some(Refusal::NoMemory),
                    };
                }
            }
            Err(why) => {
                return LinesRead {
                    ops,
                    stopped: Some(why),
                };
            }
        }
    }
    let stopped = match lines.cut_line() {
        Some(_) => Some(Refusal::BadLine),
        None => None,
    };
    LinesRead { ops, stopped }
}

/// The operations of a bundle whose lines are in either profile, in order.
///
/// # Errors
/// The number of the first bad line, from 1, with the refusal of `BundleReader::read`; bytes after the last line feed are a bad line,
/// `BadLine`. If allocation fails, `NoMemory` with the line that was being read.
pub fn read_bundle(alloc: Global, text: &[u8]) -> Result<Vec<Shared<Op>>, (u64, Refusal)>
    ensures { MatchResult result
        (λ ops. bundle_form [] text.now ≡ Ok (map stamped_of ops.items)) (IsBadOf (bundle_form [] text.now)) }
{
    let LinesRead { ops, stopped } = read_lines(alloc, text);
    match stopped {
        Some(why) => Err((ops.len() as u64 + 1, why)),
        None => Ok(ops),
    }
}

/// If each of these lines, of either profile, is read as its operation relative to the vector of the one before it, then the text of the
/// lines is read as these operations, whatever follows it; what follows is read relative to the last vector. Operations whose lengths and
/// numbers are within their limits have such lines, relative to any base that a line can carry. A bundle is such lines, all of profile 2.
pub fn bundles_are_read_back()
    ensures whole { (base : Vector) (ls : List (Profile × Stamped)) → AreReadBack base ls
        → bundle_form base (lines_text (jsons_in base ls)) ≡ Ok (map (λ l. l.1) ls) }
    ensures operations { (base : Vector) (ls : List (Profile × Stamped)) (rest : List ℕ) → AreReadBack base ls
        → (readable base (lines_text (jsons_in base ls) ++ rest)).operations
        ≡ map (λ l. l.1) ls ++ (readable (base_after base (map (λ l. l.1) ls)) rest).operations }
    ensures stopped { (base : Vector) (ls : List (Profile × Stamped)) (rest : List ℕ) → AreReadBack base ls
        → (readable base (lines_text (jsons_in base ls) ++ rest)).stopped
        ≡ (readable (base_after base (map (λ l. l.1) ls)) rest).stopped }
    ensures sent { (base : Vector) (ls : List (Profile × Stamped)) → IsSentVector 0 base → All IsSent (map (λ l. l.1) ls)
        → AreUtf8 (jsons_in base ls) → AreReadBack base ls }
    ensures bundle { (base : Vector) (ss : List Stamped)
        → bundle_text base ss ≡ lines_text (jsons_in base (map (λ s. (Differences, s)) ss)) }
{}

/// A text that is read as a bundle consists of whole lines, each with the JSON that writing its operation in one of the profiles gives.
pub fn bundles_are_written_alike()
    ensures lines { (base : Vector) (text : List ℕ) (ss : List Stamped) → IsCanonical base → bundle_form base text ≡ Ok ss
        → (ls : List (Profile × Stamped)) × (map (λ l. l.1) ls ≡ ss)
        × (map json_form (cut text).lines ≡ map (λ d. Ok d) (jsons_in base ls)) }
    ensures tail { (base : Vector) (text : List ℕ) (ss : List Stamped) → bundle_form base text ≡ Ok ss → (cut text).tail ≡ [] }
{}
