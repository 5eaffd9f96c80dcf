//! Where a map by id holds its entries: a single one inline, several in a list.

ghost use Rattle.std.specs.Prelude.{◌≡◌, ◌<◌, [], IfOk, OnOk};

use crate::entry::Entry;
use crate::entry_list::EntryList;
use std::alloc::{AllocError, Global};
use std::mem::replace;

/// The entries of a map by id.
#[derive(Debug, Drop)]
pub enum Held<T> {
    Empty,
    Single(Entry<T>),
    Many(Box<EntryList<T>>),
}

impl<T: Drop> Held<T> {
    ghost use Rattle.columns.specs.Held.{IsSingle, held_entries};
    ghost use Rattle.columns.specs.declared.held.Held.TheVariants.{Empty, Single};

    /// Takes the single entry out.
    pub fn take_single(&mut self) -> Entry<T>
        requires { IsSingle self.old }
        ensures entry { self.old ≡ Single result }
        ensures empty { self.new ≡ Empty }
    {
        let Held::Single(entry) = replace(self, Held::Empty) else {
            unreachable!()
        };
        entry
    }

    /// Moves the single entry into a list that has room for one more.
    ///
    /// # Errors
    /// `AllocError` if allocation fails. The entry is kept, inline or in the list.
    pub fn spread(&mut self, alloc: Global) -> Result<(), AllocError>
        requires { IsSingle self.old }
        ensures entries { (held_entries self.new).entries ≡ (held_entries self.old).entries }
        ensures indices { (held_entries self.new).indices ≡ (held_entries self.old).indices }
        ensures room { OnOk result (0 < (held_entries self.new).room) }
    {
        let mut list = first_list(alloc)?;
        let entry = self.take_single();
        list.put(entry.id(), entry.index, entry.value);
        let reserved = list.reserve_one();
        *self = Held::Many(list);
        reserved
    }
}

/// An empty list with room for an entry.
///
/// # Errors
/// `AllocError` if allocation fails.
fn first_list<T: Drop>(alloc: Global) -> Result<Box<EntryList<T>>, AllocError>
    ensures entries { IfOk result (λ list. list.value.entries ≡ []) }
    ensures indices { IfOk result (λ list. list.value.indices ≡ []) }
    ensures room { IfOk result (λ list. 0 < list.value.room) }
{
    let mut list = Box::new(alloc, EntryList::new(alloc))?;
    list.reserve_one()?;
    Ok(list)
}
