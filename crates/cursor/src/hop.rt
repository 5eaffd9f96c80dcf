//! The keys that a place is made of.

ghost use Rattle.std.specs.Prelude.{◌≡◌};
ghost use Rattle.std.specs.Cmp;
ghost use Rattle.semantics.specs.Paths.{is_same_hop};
ghost use Rattle.cursor.specs.SamePlaces.{same_hop_equiv};
ghost use Rattle.cursor.specs.Steps.{hop_of};

use ids::OpId;
use std::alloc::AllocError;
use value::Key;

/// One step down from an element.
#[derive(Debug, Drop)]
pub enum Hop {
    /// Into the map here, to the field with this key.
    Field(Key),
    /// Into the list here, to the item with this id.
    Item(OpId),
}

impl Clone for Hop {
    ghost is_clone = { λ h k. k ≡ h };

    fn clone(&self) -> Result<Hop, AllocError> {
        match self {
            Hop::Field(key) => Ok(Hop::Field(key.clone()?)),
            Hop::Item(id) => Ok(Hop::Item(*id)),
        }
    }
}

impl PartialEq for Hop {
    ghost eq = { λ h k. is_same_hop (hop_of h) (hop_of k) };

    ghost laws = { Cmp.partial_equiv_from_equiv (Cmp.on_equiv hop_of same_hop_equiv) };

    fn eq(&self, other: &Hop) -> bool {
        match (self, other) {
            (Hop::Field(key), Hop::Field(other)) => key == other,
            (Hop::Item(id), Hop::Item(other)) => id == other,
            _ => false,
        }
    }
}

impl Eq for Hop {
    ghost laws = { Cmp.on_equiv hop_of same_hop_equiv };
}

/// The last key of a place.
#[derive(Clone, Copy, Debug, PartialEq, Eq)]
pub enum Last<'a> {
    /// The root.
    Doc,
    /// A field of a map.
    Key(&'a Key),
    /// An item of a list.
    Elem(OpId),
    /// The head of a list.
    Head,
}
