//! Reading operations: first their fields, still unread, and then each field by a method of its own.
#![tactic(auto, using(crate::proofs::WrongLengths::wrong_lengths))]

ghost use Rattle.std.specs.Prelude.{◌≡◌, MatchResult, Ok, Err};
ghost use Rattle.ids.specs.Vectors.{IsCanonical};
ghost use Rattle.serde_json.specs.View.{view, items_view};
ghost use Rattle.semantics.specs.Operations.{Delete};
ghost use Rattle.operation.specs.value.Values.{value_of};
ghost use Rattle.operation.specs.Ops.{mutation_of, stamped_of};
ghost use Rattle.wire.specs.Forms.{IsRead, IsOrNoMemory};
ghost use Rattle.wire.specs.Parts.{fields_meant};
ghost use Rattle.wire.specs.OpIds.{id_form};
ghost use Rattle.wire.specs.Places.{place_form};
ghost use Rattle.wire.specs.Profiles.{fields_beside, operation_beside};
ghost use Rattle.wire.specs.Reading.{fields_form, fields_of, five_parts, mutation_form, nothing_more, only_value, operation_form};
ghost use Rattle.wire.specs.Vectors.{vector_form};

use crate::changes::delta_in;
use crate::forms::phrase_in;
use crate::op_ids::id_in;
use crate::places::place_in;
use crate::vectors::vector_in;
use ids::{NamedVector, OpId, Refusal};
use operation::{Mutation, Op, Place, Val};
use serde_json::Value;
use std::alloc::Global;

/// The operation of a JSON value, as on a line of the first profile. The first fault from the left decides.
///
/// # Errors
/// Those of `read_op` after its first.
pub fn operation_in(alloc: Global, value: &Value) -> Result<Op, Refusal>
    ensures { IsRead stamped_of result (operation_form (view value.now)) }
{
    OperationFields::of(value)?.operation(alloc)
}

/// The operation of a JSON value of either profile, relative to a base. The first fault from the left decides.
pub(crate) fn operation_beside(alloc: Global, base: &[OpId], value: &Value) -> Result<Op, Refusal>
    requires { IsCanonical base.now }
    ensures { IsRead stamped_of result (operation_beside base.now (view value.now)) }
{
    let (word, parts) = phrase_in(value)?;
    match word {
        "op" => OperationFields::of_parts(parts)?.operation(alloc),
        "op2" => OperationFields::of_parts(parts)?.operation_beside(alloc, base),
        _ => Err(Refusal::BadLine),
    }
}

/// The fields of an operation, unread. Each method reads its own field and returns that field's refusals alone, so another way to write one
/// of them takes one more method here.
#[derive(Drop)]
struct OperationFields<'a> {
    id: &'a Value,
    vector: &'a Value,
    path: &'a Value,
    last: &'a Value,
    mutation: &'a Value,
}

impl<'a> OperationFields<'a> {
    /// The parts after the word `op`.
    fn of(value: &'a Value) -> Result<OperationFields<'a>, Refusal>
        ensures { MatchResult result (λ f. fields_form (view value.entry.now) ≡ Ok (fields_meant f))
            (λ why. fields_form (view value.entry.now) ≡ Err why) }
    {
        let (word, parts) = phrase_in(value)?;
        match word {
            "op" => OperationFields::of_parts(parts),
            _ => Err(Refusal::BadLine),
        }
    }

    fn of_parts(parts: &'a [Value]) -> Result<OperationFields<'a>, Refusal>
        ensures { MatchResult result (λ f. five_parts (items_view parts.entry.now) ≡ Ok (fields_meant f))
            (λ why. five_parts (items_view parts.entry.now) ≡ Err why) }
    {
        let [id, vector, path, last, mutation] = parts else {
            return Err(Refusal::BadLine);
        };
        Ok(OperationFields {
            id,
            vector,
            path,
            last,
            mutation,
        })
    }

    /// The operation with its whole vector.
    fn operation(&self, alloc: Global) -> Result<Op, Refusal>
        ensures { IsRead stamped_of result (fields_of (fields_meant self.now)) }
    {
        let id = self.id()?;
        let deps = self.vector(alloc)?;
        let place = self.place(alloc)?;
        let mutation = self.mutation(alloc)?;
        Ok(Op {
            id,
            deps,
            place,
            mutation,
        })
    }

    /// The operation whose vector is written as what changed from a base.
    fn operation_beside(&self, alloc: Global, base: &[OpId]) -> Result<Op, Refusal>
        requires { IsCanonical base.now }
        ensures { IsRead stamped_of result (fields_beside base.now (fields_meant self.now)) }
    {
        let id = self.id()?;
        let deps = delta_in(alloc, base, self.vector)?;
        let place = self.place(alloc)?;
        let mutation = self.mutation(alloc)?;
        Ok(Op {
            id,
            deps,
            place,
            mutation,
        })
    }

    fn id(&self) -> Result<OpId, Refusal>
        ensures { result ≡ id_form (view self.now.id.now) }
    {
        id_in(self.id)
    }

    fn vector(&self, alloc: Global) -> Result<NamedVector, Refusal>
        ensures { IsRead (λ v. v) result (vector_form (view self.now.vector.now)) }
    {
        vector_in(alloc, self.vector)
    }

    /// The place of the path and the last key.
    fn place(&self, alloc: Global) -> Result<Place, Refusal>
        ensures { IsOrNoMemory result (place_form (view self.now.path.now) (view self.now.last.now)) }
    {
        place_in(alloc, self.path, self.last)
    }

    /// The mutation: a word, and the value that is written.
    fn mutation(&self, alloc: Global) -> Result<Mutation, Refusal>
        ensures { IsRead mutation_of result (mutation_form (view self.now.mutation.now)) }
    {
        let (word, parts) = phrase_in(self.mutation)?;
        match word {
            "a" => Ok(Mutation::Assign(only_value_in(alloc, parts)?)),
            "i" => Ok(Mutation::Insert(only_value_in(alloc, parts)?)),
            "d" => {
                check_no_more(parts)?;
                Ok(Mutation::Delete)
            }
            _ => Err(Refusal::BadLine),
        }
    }
}

/// The value of a list that holds nothing else.
fn only_value_in(alloc: Global, parts: &[Value]) -> Result<Val, Refusal>
    ensures { IsRead value_of result (only_value (items_view parts.now)) }
{
    let [written] = parts else {
        return Err(Refusal::BadLine);
    };
    Val::from_json(alloc, written)
}

/// Tests that nothing follows the word.
fn check_no_more(parts: &[Value]) -> Result<(), Refusal>
    ensures { IsRead (λ _. Delete) result (nothing_more (items_view parts.now)) }
{
    let [] = parts else {
        return Err(Refusal::BadLine);
    };
    Ok(())
}
