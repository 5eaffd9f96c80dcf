//! Whether what was written is read back the same. This is proved: a run tests what a compiler made of it.

ghost use Rattle.std.specs.Prelude.{◌≡◌, List, [], map, Ok, IfOk, IsTrue};
ghost use Rattle.std.specs.List.{All};
ghost use Rattle.semantics.specs.Stamped.{Stamped};
ghost use Rattle.operation.specs.Ops.{stamped_of};
ghost use Rattle.wire.specs.Bundles.{bundle_form, bundle_text};
ghost use Rattle.wire.specs.Messages.{op_line};
ghost use Rattle.wire.specs.Reading.{op_form};
ghost use Rattle.wire.specs.Sent.{CanBeSent};

use crate::lines::samples::Sample;
use ids::Refusal;
use operation::{Op, Shared};
use std::alloc::{AllocError, Global};
use std::io;
use wire::{read_bundle, read_op, write_bundle, write_op};

/// Prints for each sample whether what is written in each profile is read back the same.
pub fn compare(rt: &impl Print, alloc: Global, samples: &[Sample]) -> io::Result<()> {
    for sample in samples {
        let name = sample.name;
        let count = sample.ops.len();
        match are_read_back(alloc, sample.ops.as_slice()) {
            Ok(true) => println!(rt; "{name}: all of {count} are read back")?,
            Ok(false) => println!(rt; "{name}: others are read back")?,
            Err(AllocError) => println!(rt; "{name}: no memory")?,
        }
    }
    Ok(())
}

/// Whether the operations are read back from a bundle in profile 2, and from one line each in profile 1.
///
/// # Errors
/// `AllocError` if allocation fails.
fn are_read_back(alloc: Global, ops: &[Shared<Op>]) -> Result<bool, AllocError>
    ensures sent { All (λ o. CanBeSent (stamped_of o)) ops.now → IfOk result IsTrue }
{
    Ok(is_bundle_read_back(alloc, ops)? && are_lines_read_back(alloc, ops)?)
}

/// Whether a bundle of the operations is read back, and what is read is written as the same bundle.
///
/// # Errors
/// `AllocError` if allocation fails.
fn is_bundle_read_back(alloc: Global, ops: &[Shared<Op>]) -> Result<bool, AllocError>
    ensures sent { All (λ o. CanBeSent (stamped_of o)) ops.now → IfOk result IsTrue }
    ensures same { IfOk result
        (λ same. IsTrue same
        → (again : List Stamped) × (bundle_form [] (bundle_text [] (map stamped_of ops.now)) ≡ Ok again)
        × (bundle_text [] again ≡ bundle_text [] (map stamped_of ops.now))) }
{
    let text = write_bundle(alloc, ops)?;
    match read_bundle(alloc, text.as_slice()) {
        Ok(again) => {
            let rewritten = write_bundle(alloc, again.as_slice())?;
            Ok(rewritten.as_slice() == text.as_slice())
        }
        Err((_, Refusal::NoMemory)) => Err(AllocError),
        Err(_) => Ok(false),
    }
}

/// Whether the line of each operation is read back, and what is read is written as the same line.
///
/// # Errors
/// `AllocError` if allocation fails.
fn are_lines_read_back(alloc: Global, ops: &[Shared<Op>]) -> Result<bool, AllocError>
    ensures sent { All (λ o. CanBeSent (stamped_of o)) ops.now → IfOk result IsTrue }
{
    for op in ops {
        if !is_line_read_back(alloc, op)? {
            return Ok(false);
        }
    }
    Ok(true)
}

/// The same for one operation.
fn is_line_read_back(alloc: Global, op: &Op) -> Result<bool, AllocError>
    ensures sent { CanBeSent (stamped_of op.now) → IfOk result IsTrue }
    ensures same { IfOk result
        (λ same. IsTrue same
        → (again : Stamped) × (op_form (op_line (stamped_of op.now)) ≡ Ok again) × (op_line again ≡ op_line (stamped_of op.now))) }
{
    let line = write_op(alloc, op)?;
    match read_op(alloc, line.as_slice()) {
        Ok(again) => {
            let rewritten = write_op(alloc, &again)?;
            Ok(rewritten.as_slice() == line.as_slice())
        }
        Err(Refusal::NoMemory) => Err(AllocError),
        Err(_) => Ok(false),
    }
}
