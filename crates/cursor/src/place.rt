//! Places: what an operation's cursor names.

ghost use Rattle.std.specs.Prelude.{◌≡◌, ◌≤◌, ℕ, suc, List, [], ◌∷◌, ◌++◌, map, Some, slice_get, IfOk};
ghost use Rattle.semantics.specs.Limits.{most_keys};
ghost use Rattle.semantics.specs.Elements.{Element, Doc, At};
ghost use Rattle.semantics.specs.Operations.{element_of};
ghost use Rattle.semantics.specs.Paths.{child, hops_from_root};
ghost use Rattle.semantics.specs.Questions.{Get, Idx, Lists, step_from};
ghost use Rattle.cursor.specs.Steps.{hop_of, last_key};
ghost use Rattle.cursor.specs.Places.{IsUnlessMemory, depth_of, is_head, last_of, one_down, place_at, place_from, room_at};
ghost use Rattle.cursor.specs.SamePlaces.{is_same_place, same_place_equiv};
ghost use Rattle.std.specs.Cmp;

use crate::hop::{Hop, Last};
use ids::{OpId, Refusal};
use std::alloc::{AllocError, Global};
use std::marker::Model;
use value::Key;

/// The most keys that a path may have.
pub const MOST_KEYS: usize = 32;

/// An element, or the head of the list at an element. Its path has at most 32 keys. Contracts see the place.
#[derive(Debug, Drop)]
pub struct Place {
    /// From the root down.
    hops: Vec<Hop>,
    is_head: bool,
}

impl Model for Place {
    ghost use Rattle.std.specs.Prelude.{◌≤◌, map};
    ghost use Rattle.std.specs.Coded.{codes};
    ghost use Rattle.semantics.specs.Codes.{coded_element};
    ghost use Rattle.semantics.specs.Elements.{Place as ThePlace};
    ghost use Rattle.semantics.specs.Limits.{most_keys};
    ghost use Rattle.cursor.specs.Steps.{hop_of};
    ghost use Rattle.cursor.specs.Places.{depth_of, place_at};

    ghost Value = { ThePlace };

    ghost coded = { Prim.hlevel (codes, coded_element) };

    ghost view = { λ p. place_at (map hop_of p.hops.items) p.is_head };

    ghost invariant = { λ p. depth_of (place_at (map hop_of p.hops.items) p.is_head) ≤ most_keys };
}

impl Place {
    /// The root.
    pub fn doc(alloc: Global) -> Place
        ensures { result ≡ At Doc }
    {
        Place {
            hops: Vec::new(alloc),
            is_head: false,
        }
    }

    /// The element that these hops lead to from the root, or the head of the list there.
    ///
    /// # Errors
    /// `TooDeep` for a path of more than 32 keys, counting a head as one.
    pub fn new(hops: Vec<Hop>, is_head: bool) -> Result<Place, Refusal>
        ensures { result ≡ place_from (map hop_of hops.items) is_head }
    {
        if count_keys(&hops, is_head) > MOST_KEYS {
            return Err(Refusal::TooDeep);
        }
        Ok(Place { hops, is_head })
    }

    /// The field with this key of the map here.
    ///
    /// # Errors
    /// `AtHead` from a head, else `TooDeep` if the path has 32 keys already, else `NoMemory` if allocation fails.
    pub fn get(&self, alloc: Global, key: Key) -> Result<Place, Refusal>
        ensures { (lists : Lists) → IsUnlessMemory result (step_from lists self.now (Get key)) }
    {
        self.with_hop(alloc, Hop::Field(key))
    }

    /// The head of the list here.
    ///
    /// # Errors
    /// Those of `get`.
    pub fn head(&self, alloc: Global) -> Result<Place, Refusal>
        ensures { (lists : Lists) → IsUnlessMemory result (step_from lists self.now (Idx 0)) }
    {
        self.check_room()?;
        Ok(Place {
            hops: Vec::from_clones(alloc, self.hops())?,
            is_head: true,
        })
    }

    /// The item with this id of the list here.
    ///
    /// # Errors
    /// Those of `get`.
    pub fn item(&self, alloc: Global, id: OpId) -> Result<Place, Refusal>
        ensures { (lists : Lists) (i : ℕ) → slice_get (lists.shown (element_of self.now)) i ≡ Some id →
            IsUnlessMemory result (step_from lists self.now (Idx (suc i))) }
    {
        self.with_hop(alloc, Hop::Item(id))
    }

    /// Whether this is the head of a list.
    pub fn is_head(&self) -> bool
        ensures { result ≡ is_head self.now }
    {
        self.is_head
    }

    /// How many keys the path has.
    pub fn depth(&self) -> usize
        ensures keys { result ≡ depth_of self.now }
        ensures most { result ≤ most_keys }
    {
        count_keys(&self.hops, self.is_head)
    }

    /// The hops from the root to the element, or to the one whose list has the head.
    pub fn hops(&self) -> &[Hop]
        ensures { map hop_of result.now ≡ hops_from_root (element_of self.now) }
    {
        &self.hops
    }

    /// The last key of the path, or what takes its place at the root and at a head.
    pub fn last(&self) -> Last<'_>
        ensures { last_key result ≡ last_of self.now }
    {
        if self.is_head() {
            return Last::Head;
        }
        match self.hops().last() {
            None => Last::Doc,
            Some(Hop::Field(key)) => Last::Key(key),
            Some(Hop::Item(id)) => Last::Elem(*id),
        }
    }

    /// Tests whether one more key may follow here.
    fn check_room(&self) -> Result<(), Refusal>
        ensures { result ≡ room_at self.now }
    {
        if self.is_head() {
            return Err(Refusal::AtHead);
        }
        if self.depth() >= MOST_KEYS {
            return Err(Refusal::TooDeep);
        }
        Ok(())
    }

    /// The element one step down.
    fn with_hop(&self, alloc: Global, hop: Hop) -> Result<Place, Refusal>
        ensures { IsUnlessMemory result (one_down self.now (λ e. At (child e (hop_of hop)))) }
    {
        self.check_room()?;
        Ok(Place {
            hops: longer(alloc, self.hops(), hop)?,
            is_head: false,
        })
    }
}

/// A copy of the hops, with this one at the end.
fn longer(alloc: Global, hops: &[Hop], hop: Hop) -> Result<Vec<Hop>, AllocError>
    ensures { IfOk result (λ v. v.items ≡ hops.now ++ hop ∷ []) }
{
    let mut copy = Vec::with_capacity(alloc, hops.len() + 1)?;
    copy.extend_with_clones(hops)?;
    copy.push(hop)?;
    Ok(copy)
}

/// How many keys a path has: one for each hop, and one for a head.
fn count_keys(hops: &[Hop], is_head: bool) -> usize
    ensures { result ≡ depth_of (place_at (map hop_of hops.now) is_head) }
{
    if is_head { hops.len() + 1 } else { hops.len() }
}

impl Clone for Place {
    ghost is_clone = { λ p q. q ≡ p };

    fn clone(&self) -> Result<Place, AllocError> {
        Ok(Place {
            hops: self.hops.clone()?,
            is_head: self.is_head,
        })
    }
}

impl PartialEq for Place {
    ghost eq = { is_same_place };

    ghost laws = { Cmp.partial_equiv_from_equiv same_place_equiv };

    fn eq(&self, other: &Place) -> bool {
        self.is_head() == other.is_head() && self.hops() == other.hops()
    }
}

impl Eq for Place {
    ghost laws = { same_place_equiv };
}
