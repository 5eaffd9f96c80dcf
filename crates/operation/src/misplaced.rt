//! Which mutations may stand at which places.

ghost use Rattle.std.specs.Prelude.{◌≡◌, option_map};
ghost use Rattle.semantics.specs.Elements.{Value};
ghost use Rattle.semantics.specs.Operations.{Assign, Delete, Insert, misplaced};
ghost use Rattle.operation.specs.Ops.{command_of, misplaced_of, mutation_of};

use crate::command::Command;
use crate::op::Mutation;
use cursor::{Last, Place};

/// Why a mutation can't stand at a place.
#[derive(Clone, Copy, Debug, PartialEq, Eq)]
pub enum Misplaced {
    /// An insert stands in a list, at its head or at an item.
    OutsideList,
    /// An assign or a delete stands at an element, not at a head.
    OnHead,
}

impl Mutation {
    /// Why this can't stand at the place, or `None` if it can.
    pub fn misplaced_at(&self, place: &Place) -> Option<Misplaced>
        ensures { option_map misplaced_of result ≡ misplaced (mutation_of self.now) place.now }
    {
        match self {
            Mutation::Insert(_) => insert_misplaced(place),
            Mutation::Assign(_) | Mutation::Delete => change_misplaced(place),
        }
    }
}

impl Command {
    /// Why its mutation can't stand at the place, or `None` if it can.
    pub fn misplaced_at(&self, place: &Place) -> Option<Misplaced>
        ensures { option_map misplaced_of result ≡ misplaced (command_of self.now).mutation place.now }
    {
        match self {
            Command::InsertAfter(..) => insert_misplaced(place),
            Command::Assign(..) | Command::Delete(..) => change_misplaced(place),
        }
    }
}

/// Why an insert can't stand at the place.
fn insert_misplaced(place: &Place) -> Option<Misplaced>
    ensures { (v : Value) → option_map misplaced_of result ≡ misplaced (Insert v) place.now }
{
    match place.last() {
        Last::Doc | Last::Key(_) => Some(Misplaced::OutsideList),
        Last::Elem(_) | Last::Head => None,
    }
}

/// Why an assign or a delete can't stand at the place.
fn change_misplaced(place: &Place) -> Option<Misplaced>
    ensures assign { (v : Value) → option_map misplaced_of result ≡ misplaced (Assign v) place.now }
    ensures delete { option_map misplaced_of result ≡ misplaced Delete place.now }
{
    if place.is_head() {
        return Some(Misplaced::OnHead);
    }
    None
}
