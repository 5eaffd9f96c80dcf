//! Where a presence holds its entries: a single one inline, few in a list, and many in columns by replica.

ghost use Rattle.std.specs.Prelude.{◌≡◌, ◌<◌, [], IfOk, OnOk};

use crate::entry::Entry;
use crate::tag_columns::TagColumns;
use crate::tag_list::TagList;
use cursor::Tag;
use std::alloc::{AllocError, Global};
use std::mem::replace;

/// The entries of a presence.
#[derive(Debug, Drop)]
pub enum HeldTags {
    Empty,
    Single(Entry<Tag>),
    Many(Box<TagList>),
    Wide(Box<TagColumns>),
}

impl HeldTags {
    ghost use Rattle.columns.specs.HeldTags.{IsList, IsSingleTag, held_tags};
    ghost use Rattle.columns.specs.declared.held_tags.HeldTags.TheVariants.{Empty, Many, Single};

    /// Takes the single entry out.
    pub fn take_single(&mut self) -> Entry<Tag>
        requires { IsSingleTag self.old }
        ensures entry { self.old ≡ Single result }
        ensures empty { self.new ≡ Empty }
    {
        let HeldTags::Single(entry) = replace(self, HeldTags::Empty) else {
            unreachable!()
        };
        entry
    }

    /// Moves the single entry into a list that has room for one more.
    ///
    /// # Errors
    /// `AllocError` if allocation fails. The entry stays, there or in the list.
    pub fn spread(&mut self, alloc: Global) -> Result<(), AllocError>
        requires { IsSingleTag self.old }
        ensures entries { (held_tags self.new).entries ≡ (held_tags self.old).entries }
        ensures indices { (held_tags self.new).indices ≡ (held_tags self.old).indices }
        ensures room { OnOk result (0 < (held_tags self.new).room) }
    {
        let mut list = first_list(alloc)?;
        let entry = self.take_single();
        list.put(entry.id(), entry.index, entry.value);
        let reserved = list.reserve_one();
        *self = HeldTags::Many(list);
        reserved
    }

    /// Takes the list out.
    fn take_list(&mut self) -> Box<TagList>
        requires { IsList self.old }
        ensures { self.old ≡ Many result }
    {
        let HeldTags::Many(list) = replace(self, HeldTags::Empty) else {
            unreachable!()
        };
        list
    }

    /// Puts the list where new entries go into columns.
    ///
    /// # Errors
    /// `AllocError` if allocation fails. The list stays as it is.
    pub fn widen(&mut self, alloc: Global) -> Result<(), AllocError>
        requires { IsList self.old }
        ensures { held_tags self.new ≡ held_tags self.old }
    {
        let mut columns = Box::new(alloc, TagColumns::new(alloc))?;
        columns.hold(Box::into_inner(self.take_list()));
        *self = HeldTags::Wide(columns);
        Ok(())
    }
}

/// An empty list with room for an entry.
///
/// # Errors
/// `AllocError` if allocation fails.
fn first_list(alloc: Global) -> Result<Box<TagList>, AllocError>
    ensures entries { IfOk result (λ list. list.value.entries ≡ []) }
    ensures indices { IfOk result (λ list. list.value.indices ≡ []) }
    ensures room { IfOk result (λ list. 0 < list.value.room) }
{
    let mut list = Box::new(alloc, TagList::new(alloc))?;
    list.reserve_one()?;
    Ok(list)
}
