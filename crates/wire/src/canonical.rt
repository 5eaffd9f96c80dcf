//! A fast path for the lines that `write_op` and `BundleWriter` write, without a JSON value in between.
//!
//! `Scan` takes the bytes of a line apart in the one form in which operations are written, and gives up on anything else. The operation
//! that it finds is written again, and counts only if that gives the very same bytes. So what is read rests on the writer alone: if a step
//! of `Scan` goes wrong, the line is read like any other JSON.

ghost use Rattle.std.specs.Prelude.{◌≡◌, ◌&&◌, Ok, IfSome, map};
ghost use Rattle.std.specs.Bool.{OnTrue};
ghost use Rattle.std.specs.List.{list_all};
ghost use Rattle.ids.specs.Vectors.{IsCanonical};
ghost use Rattle.semantics.specs.Operations.{element_of};
ghost use Rattle.semantics.specs.Paths.{hops_from_root};
ghost use Rattle.operation.specs.Ops.{stamped_of};
ghost use Rattle.wire.specs.Profiles.{line_form};
ghost use Rattle.wire.specs.Reading.{op_form};
ghost use Rattle.wire.specs.Sent.{are_counters, is_counter, key_counted};
ghost use Rattle.operation.specs.cursor.Steps.{hop_of};

use crate::scan::Scan;
use crate::writing::{with_line, with_line_beside};
use ids::{MOST_COUNTER, OpId};
use operation::{Hop, Op};
use std::alloc::Global;

/// How many bytes the writer reserves beyond the length of the line.
const ROOM_AHEAD: usize = 8;

/// No line without an escape is longer: it has at most 512 pairs of 33 bytes, 33 keys of 265, and a text of 4,096. Longer ones are left to
/// the JSON reader, before anything is allocated.
const LONGEST: usize = 1 << 15;

/// The operation on a line in the form in which it is written. `None` if the line has another form, a character that is escaped by its
/// number or the least whole number, if it is longer than `LONGEST`, or if allocation fails. Takes time at most in proportion to the length
/// of the line.
pub(crate) fn read_canonical(alloc: Global, text: &[u8]) -> Option<Op>
    ensures { IfSome result (λ o. op_form text.now ≡ Ok (stamped_of o)) }
{
    if text.len() > LONGEST {
        return None;
    }
    let op = Scan::new(text).op(alloc)?;
    if !writes_back_as(alloc, text, &op) {
        return None;
    }
    Some(op)
}

/// The operation on a line of profile 2 relative to a base, in the form in which it is written there. `None` as above.
pub(crate) fn read_canonical_beside(alloc: Global, base: &[OpId], text: &[u8]) -> Option<Op>
    requires { IsCanonical base.now }
    ensures { IfSome result (λ o. line_form base.now text.now ≡ Ok (stamped_of o)) }
{
    if text.len() > LONGEST {
        return None;
    }
    let op = Scan::new(text).op_beside(alloc, base)?;
    if !writes_back_beside(alloc, base, text, &op) {
        return None;
    }
    Some(op)
}

/// Whether the text is the line of the operation, and the operation can be sent.
fn writes_back_as(alloc: Global, text: &[u8], op: &Op) -> bool
    ensures { OnTrue result (op_form text.now ≡ Ok (stamped_of op.now)) }
{
    if !is_counted(op) {
        return false;
    }
    let Ok(room) = Vec::with_capacity(alloc, text.len() + ROOM_AHEAD) else {
        return false;
    };
    match with_line(room, op) {
        Ok(line) => line.as_slice() == text,
        Err(_) => false,
    }
}

/// Whether the text is the line of the operation relative to a base, and the operation can be sent.
fn writes_back_beside(alloc: Global, base: &[OpId], text: &[u8], op: &Op) -> bool
    requires { IsCanonical base.now }
    ensures { OnTrue result (line_form base.now text.now ≡ Ok (stamped_of op.now)) }
{
    if !is_counted(op) {
        return false;
    }
    let Ok(room) = Vec::with_capacity(alloc, text.len() + ROOM_AHEAD) else {
        return false;
    };
    let Ok(line) = with_line_beside(room, base, op) else {
        return false;
    };
    line.as_slice() == text
}

/// Whether the counters of the id, the vector and the items of the place are within the limits of the wire.
fn is_counted(op: &Op) -> bool
    ensures { result ≡ (is_counter op.now.id.counter && are_counters op.now.deps
        && list_all key_counted (hops_from_root (element_of op.now.place))) }
{
    is_counter(op.id.counter) && are_counters(op.deps.ids()) && are_counted(op.place.hops())
}

/// Whether the counter of each id is within the limits of the wire.
fn are_counters(ids: &[OpId]) -> bool
    ensures { result ≡ are_counters ids.now }
{
    ids.iter().all(|id| is_counter(id.counter))
}

/// Whether the counter of each item is within the limits of the wire.
fn are_counted(hops: &[Hop]) -> bool
    ensures { result ≡ list_all key_counted (map hop_of hops.now) }
{
    hops.iter().all(|hop| is_hop_counted(hop))
}

fn is_counter(counter: u64) -> bool
    ensures { result ≡ is_counter counter }
{
    counter >= 1 && counter <= MOST_COUNTER
}

/// Whether the hop is to a field, or to an item whose counter is within the limits of the wire.
fn is_hop_counted(hop: &Hop) -> bool
    ensures { result ≡ key_counted (hop_of hop.now) }
{
    match hop {
        Hop::Field(_) => true,
        Hop::Item(id) => is_counter(id.counter),
    }
}
