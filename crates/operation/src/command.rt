//! Commands, the entries of a history, and the answers to a delivery.

ghost use Rattle.std.specs.Prelude.{◌≡◌, IfOk};
ghost use Rattle.std.specs.Cmp;
ghost use Rattle.operation.specs.SameOps.{is_same_command, same_command_equiv};
ghost use Rattle.operation.specs.Ops.{command_of};

use crate::op::{Mutation, Op};
use crate::shared::Shared;
use cursor::{Expr, Val};
use std::alloc::AllocError;

/// What a client wants done: a mutation, and an expression that says where. Each may be refused with `HistoryFull`, `AtHead`, `PastEnd` or
/// `TooDeep`, in its reply. Maps and lists are created when a path goes through them.
#[derive(Debug, Drop)]
pub enum Command {
    /// Clears the element, with all beneath it, of what this engine had applied, and writes the value. What a peer wrote concurrently stays
    /// beside it. So assigning `EmptyMap` or `EmptyList` empties what stands there. Refused with `AtHead` at a head.
    Assign(Expr, Val),
    /// Inserts a new item with the value after the item, or first in the list if the expression leads to a head. Refused with `NotInList`
    /// if it leads to neither.
    InsertAfter(Expr, Val),
    /// Clears the element, with all beneath it, as an assign does, and writes nothing. An operation is made of it even if nothing stands
    /// there. Refused with `AtHead` at a head.
    Delete(Expr),
}

impl Command {
    ghost use Rattle.operation.specs.Ops.{command_of, mutation_of};

    /// The expression of the element, item or head that the command is about.
    pub fn expression(&self) -> &Expr
        ensures { result.now ≡ (command_of self.now).expression }
    {
        match self {
            Command::Assign(expression, _)
            | Command::InsertAfter(expression, _)
            | Command::Delete(expression) => expression,
        }
    }

    /// The mutation that the command asks for. A text is shared.
    ///
    /// # Errors
    /// `AllocError` if the count of those that share the text is full.
    pub fn mutation(&self) -> Result<Mutation, AllocError>
        ensures { IfOk result (λ m. mutation_of m ≡ (command_of self.now).mutation) }
    {
        match self {
            Command::Assign(_, value) => Ok(Mutation::Assign(value.clone()?)),
            Command::InsertAfter(_, value) => Ok(Mutation::Insert(value.clone()?)),
            Command::Delete(_) => Ok(Mutation::Delete),
        }
    }
}

impl Clone for Command {
    ghost is_clone = { λ c d. d ≡ c };

    fn clone(&self) -> Result<Command, AllocError> {
        match self {
            Command::Assign(expression, value) => {
                Ok(Command::Assign(expression.clone()?, value.clone()?))
            }
            Command::InsertAfter(expression, value) => {
                Ok(Command::InsertAfter(expression.clone()?, value.clone()?))
            }
            Command::Delete(expression) => Ok(Command::Delete(expression.clone()?)),
        }
    }
}

impl PartialEq for Command {
    ghost eq = { λ c d. is_same_command (command_of c) (command_of d) };

    ghost laws = { Cmp.partial_equiv_from_equiv (Cmp.on_equiv command_of same_command_equiv) };

    fn eq(&self, other: &Command) -> bool {
        match (self, other) {
            (Command::Assign(place, value), Command::Assign(other_place, other))
            | (Command::InsertAfter(place, value), Command::InsertAfter(other_place, other)) => {
                place == other_place && value == other
            }
            (Command::Delete(place), Command::Delete(other)) => place == other,
            _ => false,
        }
    }
}

impl Eq for Command {
    ghost laws = { Cmp.on_equiv command_of same_command_equiv };
}

/// An operation of a history, with where it came from. Clones share the operation and the command.
#[derive(Debug, Drop)]
pub enum Entry {
    /// Made of the command of one of this replica's clients, under this serial.
    Own {
        client: usize,
        serial: u64,
        command: Shared<Command>,
        op: Shared<Op>,
    },
    /// Delivered by a peer.
    Peer(Shared<Op>),
}

impl Entry {
    ghost use Rattle.operation.specs.Ops.{entry_of, op_in, stamped_of};
    ghost use Rattle.semantics.specs.Entries.{stamped_in};

    /// The operation, whoever made it.
    pub fn op(&self) -> &Shared<Op>
        ensures op { result.now ≡ op_in self.now }
        ensures stamped { stamped_of result.now ≡ stamped_in (entry_of self.now) }
    {
        match self {
            Entry::Own { op, .. } | Entry::Peer(op) => op,
        }
    }
}

impl Clone for Entry {
    ghost is_clone = { λ e f. f ≡ e };

    fn clone(&self) -> Result<Entry, AllocError> {
        match self {
            Entry::Own {
                client,
                serial,
                command,
                op,
            } => Ok(Entry::Own {
                client: *client,
                serial: *serial,
                command: command.clone()?,
                op: op.clone()?,
            }),
            Entry::Peer(op) => Ok(Entry::Peer(op.clone()?)),
        }
    }
}

/// The answer to a delivery that isn't refused.
#[derive(Clone, Copy, Debug, PartialEq, Eq)]
pub enum Delivered {
    /// It is applied already, or waits.
    Known,
    /// It waits until all that it depends on is applied.
    Kept,
}
