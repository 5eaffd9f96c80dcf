//! The operation that a replica makes of a command.

ghost use Rattle.std.specs.Prelude.{◌≡◌, ◌⊎◌, IfOk, IfErr, MatchResult, Ok, Err};
ghost use Rattle.ids.specs.declared.refusal.Refusal.TheVariants.{NoMemory};
ghost use Rattle.semantics.specs.Operations.{misplaced};
ghost use Rattle.semantics.specs.Entries.{applied};
ghost use Rattle.semantics.specs.Making.{is_full, make, place_unless};
ghost use Rattle.inbox.specs.operation.Ops.{command_of, stamped_of};
ghost use Rattle.replica.specs.Replicas.{IsMade};

use ids::{NamedVector, OpId, Refusal, ReplicaId};
use inbox::{Command, Document, Misplaced, Op, Place};
use std::alloc::Global;

/// The most operations that a history holds.
const MOST_ENTRIES: usize = 1_048_576;

/// Whether the history is full.
pub fn is_full(document: &Document) -> bool
    ensures { result ≡ is_full document.now.entries }
{
    document.len() >= MOST_ENTRIES
}

/// The operation that the command makes after the history.
///
/// # Errors
/// In this order: `HistoryFull`; the refusal of the expression; `NotInList` for an insert that would stand neither at a head nor at
/// an item, `AtHead` for another command at a head. Or `NoMemory` if allocation fails.
pub fn make(
    alloc: Global,
    own: ReplicaId,
    document: &Document,
    command: &Command,
) -> Result<Op, Refusal>
    ensures made { IfOk result (λ op. IsMade document.now.entries own (command_of command.now) (stamped_of op)) }
    ensures err { IfErr result (λ why. (why ≡ NoMemory) ⊎ (make (applied document.now.entries) own (command_of command.now) ≡ Err why)) }
{
    if is_full(document) {
        return Err(Refusal::HistoryFull);
    }
    let place = document.resolve(alloc, command.expression())?;
    check_place(command, &place)?;
    let applied = document.applied();
    let counter = applied.greatest() + 1;
    let deps = NamedVector::of(alloc, applied.ids())?;
    let mutation = command.mutation()?;
    Ok(Op {
        id: OpId {
            counter,
            replica: own,
        },
        deps,
        place,
        mutation,
    })
}

/// Tests whether the command's mutation may stand at this place.
fn check_place(command: &Command, place: &Place) -> Result<(), Refusal>
    ensures { MatchResult result
        (λ _. place_unless (misplaced (command_of command.now).mutation place.now) place.now ≡ Ok place.now)
        (λ why. place_unless (misplaced (command_of command.now).mutation place.now) place.now ≡ Err why) }
{
    match command.misplaced_at(place) {
        None => Ok(()),
        Some(Misplaced::OutsideList) => Err(Refusal::NotInList),
        Some(Misplaced::OnHead) => Err(Refusal::AtHead),
    }
}
