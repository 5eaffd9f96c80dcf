//! Operations, as they are kept and sent.

ghost use Rattle.std.specs.Prelude.{◌≡◌};
ghost use Rattle.std.specs.Cmp;
ghost use Rattle.operation.specs.SameOps.{is_same_mutation, is_same_operation, same_mutation_equiv, same_operation_equiv};
ghost use Rattle.operation.specs.Ops.{mutation_of, stamped_of};

use cursor::{Place, Val};
use ids::{NamedVector, OpId};
use std::alloc::AllocError;

/// What an operation does at its place.
#[derive(Debug, Drop)]
pub enum Mutation {
    /// Clears the element, and writes the value there.
    Assign(Val),
    /// Inserts a new item into the list, after the place's item or head, and writes the value there.
    Insert(Val),
    /// Clears the element.
    Delete,
}

impl Clone for Mutation {
    ghost is_clone = { λ m n. n ≡ m };

    fn clone(&self) -> Result<Mutation, AllocError> {
        match self {
            Mutation::Assign(value) => Ok(Mutation::Assign(value.clone()?)),
            Mutation::Insert(value) => Ok(Mutation::Insert(value.clone()?)),
            Mutation::Delete => Ok(Mutation::Delete),
        }
    }
}

impl PartialEq for Mutation {
    ghost eq = { λ m n. is_same_mutation (mutation_of m) (mutation_of n) };

    ghost laws = { Cmp.partial_equiv_from_equiv (Cmp.on_equiv mutation_of same_mutation_equiv) };

    fn eq(&self, other: &Mutation) -> bool {
        match (self, other) {
            (Mutation::Assign(value), Mutation::Assign(other)) => value == other,
            (Mutation::Insert(value), Mutation::Insert(other)) => value == other,
            (Mutation::Delete, Mutation::Delete) => true,
            _ => false,
        }
    }
}

impl Eq for Mutation {
    ghost laws = { Cmp.on_equiv mutation_of same_mutation_equiv };
}

/// An operation: its id, what it depends on, where it stands and what it does there.
#[derive(Debug, Drop)]
pub struct Op {
    pub id: OpId,
    /// The vector of all that its replica had applied. (`vector` of the definitions' `Stamped`.)
    pub deps: NamedVector,
    pub place: Place,
    pub mutation: Mutation,
}

impl Clone for Op {
    ghost is_clone = { λ o p. p ≡ o };

    fn clone(&self) -> Result<Op, AllocError> {
        Ok(Op {
            id: self.id,
            deps: self.deps.clone()?,
            place: self.place.clone()?,
            mutation: self.mutation.clone()?,
        })
    }
}

impl PartialEq for Op {
    ghost eq = { λ o p. is_same_operation (stamped_of o) (stamped_of p) };

    ghost laws = { Cmp.partial_equiv_from_equiv (Cmp.on_equiv stamped_of same_operation_equiv) };

    fn eq(&self, other: &Op) -> bool {
        self.id == other.id
            && self.deps == other.deps
            && self.place == other.place
            && self.mutation == other.mutation
    }
}

impl Eq for Op {
    ghost laws = { Cmp.on_equiv stamped_of same_operation_equiv };
}
