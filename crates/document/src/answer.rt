//! The answers to questions.

ghost use Rattle.std.specs.Prelude.{◌≡◌, ◌⊎◌, ◌++◌, [], Ok, map, option_map, reverse, IfOk, IfErr, OnOk};
ghost use Rattle.std.specs.List.{All, cons_option};
ghost use Rattle.ids.specs.Vectors.{IsNamed};
ghost use Rattle.ids.specs.declared.refusal.Refusal.TheVariants.{NoMemory};
ghost use Rattle.semantics.specs.Entries.{entry_at, first_entries, lacked_of, missing, stamped_in, stamped_entries};
ghost use Rattle.semantics.specs.Questions.{Refused};
ghost use Rattle.semantics.specs.LegalAnswer.{reading_of, Answered};
ghost use Rattle.oplog.specs.operation.Ops.{stamped_of};
ghost use Rattle.document.specs.Documents.{IsConsistent, asked_of, said_by};

use crate::question::{Question, Reading};
use ids::{MOST_NAMED, NamedVector, Refusal};
use oplog::{GrowingVector, Log, Op, Shared};
use std::alloc::{AllocError, Global};
use tree::Tree;

/// What the history answers, if the tree holds its document.
pub fn answer(
    alloc: Global,
    log: &Log,
    applied: &GrowingVector,
    tree: &Tree,
    question: &Question,
) -> Result<Reading, Refusal>
    requires { IsConsistent log.now.table applied.now.ids log.now.entries tree.now }
    ensures answer { IfOk result (λ r. said_by r ≡ reading_of log.now.entries (asked_of question.now)) }
    ensures err { IfErr result
        (λ why. (why ≡ NoMemory) ⊎ (reading_of log.now.entries (asked_of question.now) ≡ Answered (Refused why))) }
{
    match question {
        Question::Values(expression) => Ok(Reading::Values(tree.values(alloc, expression)?)),
        Question::Keys(expression) => Ok(Reading::Keys(tree.keys(alloc, expression)?)),
        Question::Items(expression) => Ok(Reading::Items(tree.items(alloc, expression)?)),
        Question::Conflicts(expression) => Ok(Reading::Conflicts(tree.conflicts(
            alloc, expression,
        )?)),
        Question::Missing(vector) => Ok(Reading::Missing(missing(alloc, log, vector)?)),
        Question::Vector => Ok(Reading::Vector(NamedVector::of(alloc, applied.ids())?)),
    }
}

/// The operations that the vector doesn't cover, the oldest first.
pub fn missing(
    alloc: Global,
    log: &Log,
    vector: &NamedVector,
) -> Result<Vec<Shared<Op>>, AllocError>
    ensures ok { IfOk result
        (λ ops. reverse (map stamped_of ops.items)
        ≡ missing vector.now (stamped_entries log.now.entries)) }
    ensures named { IfOk result (λ ops. All (λ o. IsNamed o.deps) ops.items) }
{
    let positions = log.missing(alloc, vector)?;
    let mut ops = Vec::with_capacity(alloc, positions.len())?;
    for position in &positions {
        push_op(&mut ops, log, *position)?;
    }
    Ok(ops)
}

/// The operations before a position that the vector doesn't cover, the oldest first.
pub fn missing_before(
    alloc: Global,
    log: &Log,
    position: usize,
    vector: &NamedVector,
) -> Result<Vec<Shared<Op>>, AllocError>
    ensures ok { IfOk result
        (λ ops. map stamped_of ops.items ≡ lacked_of (first_entries position log.now.entries) vector.now) }
    ensures named { IfOk result (λ ops. All (λ o. IsNamed o.deps) ops.items) }
{
    let positions = log.missing(alloc, vector)?;
    let mut ops = Vec::with_capacity(alloc, positions.len())?;
    for missing in &positions {
        if *missing < position {
            push_op(&mut ops, log, *missing)?;
        }
    }
    Ok(ops)
}

/// Appends the operation at a position, if there is one.
fn push_op(ops: &mut Vec<Shared<Op>>, log: &Log, position: usize) -> Result<(), AllocError>
    ensures op { OnOk result (map stamped_of ops.new.items
        ≡ map stamped_of ops.old.items ++ cons_option (option_map stamped_in (entry_at position log.now.entries)) []) }
    ensures named { OnOk result (All (λ o. IsNamed o.deps) ops.old.items → All (λ o. IsNamed o.deps) ops.new.items) }
{
    if let Some(entry) = log.get(position) {
        let op = entry.op().clone()?;
        prove!(op.deps.ids().len() <= MOST_NAMED);
        ops.push(op)?;
    }
    Ok(())
}
