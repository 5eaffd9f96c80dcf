//! The number of each item's block.

ghost use Rattle.std.specs.Prelude.{◌≡◌, ◌≤◌, ◌<◌, ◌+◌, ◌++◌, ◌∷◌, [], List, IsTrue, IsFalse, IsSome, None, Some, IfOk, OnOk, MatchOption};
ghost use Rattle.std.specs.Prelude.{length, slice_index_or};
ghost use Rattle.std.specs.FinMap.{find, put};
ghost use Rattle.ids.specs.Members.{is_member};
ghost use Rattle.semantics.specs.Ids.{OpId as TheId, id_cmp};
ghost use Rattle.columns.specs.NumberColumns.{AreNumberColumns, NumbersStandAt, numbered, numbering};
ghost use Rattle.columns.specs.ReplicaColumns.{is_rising, put_each};
ghost use Rattle.columns.specs.declared.number_column.NumberColumn.{NumberColumn as TheColumn};

use crate::number_column::NumberColumn;
use crate::numbers::Numbers;
use ids::{OpId, ReplicaId};
use std::alloc::{AllocError, Global};
use std::marker::Model;

/// How many ids stand in the list before a replica gets a column.
const FEW: usize = 512;

/// How many hints there are.
const HINTS: usize = 256;

/// A finite map from ids to numbers, for ids of which those of each replica come in ascending order, and which are never removed.
///
/// From the 512th entry on each replica has a column, to which an id that is its greatest is pushed. What doesn't fit goes into a list: an
/// id that isn't the greatest of its replica, and the first one, for which there is no column yet.
///
/// Contracts see the entries in ascending order of id, and for how many more there is room, which is the room of the list: what a full
/// column can't take goes into the list.
#[derive(Debug, Drop)]
pub struct Homes {
    list: Numbers,
    columns: Vec<NumberColumn>,
    /// The places at which the columns of replicas are looked for first, by the remainders of their numbers; none before the first column.
    hints: Vec<usize>,
    /// The replica whose column the next `reserve_one` makes, or extends.
    wanted: Option<ReplicaId>,
}

impl Model for Homes {
    ghost use Rattle.semantics.specs.Ids.{OpId as TheId};
    ghost use Rattle.columns.specs.Numbered.{Numbered};
    ghost use Rattle.columns.specs.NumberColumns.{AreNumberColumns, with_numbers};

    ghost Value = { Numbered TheId };

    ghost view = { λ h. with_numbers h.list h.columns.items };

    ghost invariant = { λ h. AreNumberColumns h.columns.items };
}

impl Homes {
    /// Returns an empty map. Allocates nothing.
    pub fn new(alloc: Global) -> Homes
        ensures { result.entries ≡ [] }
    {
        Homes {
            list: Numbers::new(alloc),
            columns: Vec::new(alloc),
            hints: Vec::new(alloc),
            wanted: None,
        }
    }

    /// The number of an id. Binary search.
    pub fn get(&self, id: &OpId) -> Option<usize>
        ensures { result ≡ find id_cmp id.now self.now.entries }
    {
        match number_in(&self.columns, &self.hints, id) {
            Some(number) => Some(number),
            None => self.list.get(id),
        }
    }

    /// Makes room for one more entry: in the list, and in the column that the last entry filled, or would have gone to.
    ///
    /// # Errors
    /// `AllocError` if allocation fails.
    pub fn reserve_one(&mut self) -> Result<(), AllocError>
        ensures same { self.new.entries ≡ self.old.entries }
        ensures room { OnOk result (0 < self.new.room) }
        ensures kept { self.old.room ≤ self.new.room }
    {
        self.list.reserve_one()?;
        if let Some(replica) = self.wanted {
            reserve_column(&mut self.columns, &mut self.hints, replica)?;
            self.wanted = None;
        }
        Ok(())
    }

    /// Sets the number of an id, in place of the number that it had, if any.
    ///
    /// Allocates nothing. One push if the id is the greatest of its replica and this has a column; else what `put` of `Numbers` costs.
    pub fn put(&mut self, id: OpId, number: usize)
        requires { 0 < self.old.room }
        ensures entries { self.new.entries ≡ put id_cmp id number self.old.entries }
        ensures room { self.old.room ≤ self.new.room + 1 }
    {
        let replica = id.replica;
        let place = place_of(&self.columns, &self.hints, replica);
        let wants = put_number(&mut self.list, &mut self.columns, place, id, number);
        self.note(wants, replica);
    }

    /// Sets the number of an id that is there. Allocates nothing. A binary search, and one write.
    pub fn set(&mut self, id: &OpId, number: usize)
        requires { IsSome (find id_cmp id.now self.old.entries) }
        ensures entries { self.new.entries ≡ put id_cmp id.now number self.old.entries }
        ensures room { self.new.room ≡ self.old.room }
    {
        let place = place_of(&self.columns, &self.hints, id.replica);
        set_number(&mut self.list, &mut self.columns, place, id, number);
    }

    /// Notes whether the replica's column should be made or extended.
    fn note(&mut self, wants: bool, replica: ReplicaId)
        ensures { self.new ≡ self.old }
    {
        if wants && self.list.len() >= FEW {
            self.wanted = Some(replica);
        }
    }
}

/// Where the hint for a replica stands: the same for all whose numbers leave this remainder.
fn slot_of(replica: ReplicaId) -> usize
    ensures { result < 256 }
{
    replica.number() as usize % HINTS
}

/// The place of a replica's column, or `None` if it has none. Looks first where the hint says, then at each.
fn place_of(columns: &[NumberColumn], hints: &[usize], replica: ReplicaId) -> Option<usize>
    ensures { MatchOption result (IsFalse (is_member (numbering columns.now) replica))
        (λ place. NumbersStandAt columns.now replica place) }
{
    let slot = slot_of(replica);
    if slot < hints.len() {
        let place = hints[slot];
        if place < columns.len() && columns[place].replica == replica {
            return Some(place);
        }
    }
    search(columns, replica)
}

/// The place of a replica's column, or `None` if it has none. Looks at each column.
fn search(columns: &[NumberColumn], replica: ReplicaId) -> Option<usize>
    ensures { MatchOption result (IsFalse (is_member (numbering columns.now) replica))
        (λ place. NumbersStandAt columns.now replica place) }
{
    for place in 0..columns.len() {
        if columns[place].replica == replica {
            return Some(place);
        }
    }
    None
}

/// The number of an id in the columns.
fn number_in(columns: &[NumberColumn], hints: &[usize], id: &OpId) -> Option<usize>
    requires { AreNumberColumns columns.now }
    ensures { result ≡ find id_cmp id.now (numbered columns.now) }
{
    match place_of(columns, hints, id.replica) {
        None => None,
        Some(place) => columns[place].get(id.counter),
    }
}

/// Notes the place of a replica's column.
///
/// # Errors
/// `AllocError` if allocation fails.
fn note_hint(hints: &mut Vec<usize>, replica: ReplicaId, place: usize) -> Result<(), AllocError> {
    if hints.is_empty() {
        hints.resize(HINTS, 0)?;
    }
    let slot = slot_of(replica);
    if slot < hints.len() {
        hints[slot] = place;
    }
    Ok(())
}

/// Makes an empty column of a replica that has none, or room in the one that it has.
///
/// # Errors
/// `AllocError` if allocation fails.
fn reserve_column(
    columns: &mut Vec<NumberColumn>,
    hints: &mut Vec<usize>,
    replica: ReplicaId,
) -> Result<(), AllocError>
    requires { AreNumberColumns columns.old.items }
    ensures same { numbered columns.new.items ≡ numbered columns.old.items }
    ensures columns { AreNumberColumns columns.new.items }
{
    match place_of(columns, hints, replica) {
        Some(place) => columns[place].reserve_one(),
        None => {
            note_hint(hints, replica, columns.len())?;
            columns.push(NumberColumn::with_room(*columns.allocator(), replica)?)?;
            Ok(())
        }
    }
}

/// Puts the number of an id, given the place of its replica's column, and returns whether that column should be made or extended.
/// Allocates nothing.
fn put_number(
    list: &mut Numbers,
    columns: &mut [NumberColumn],
    place: Option<usize>,
    id: OpId,
    number: usize,
) -> bool
    requires room { 0 < list.old.room }
    requires columns { AreNumberColumns columns.old }
    requires place { MatchOption place (IsFalse (is_member (numbering columns.old) id.replica))
        (λ place. NumbersStandAt columns.old id.replica place) }
    ensures entries { put_each (numbered columns.new) list.new.entries
        ≡ put id_cmp id number (put_each (numbered columns.old) list.old.entries) }
    ensures columns { AreNumberColumns columns.new }
    ensures room { list.old.room ≤ list.new.room + 1 }
{
    match place {
        None => {
            prove!(list.len() <= usize::MAX);
            list.put(id, number);
            true
        }
        Some(place) => {
            if columns[place].is_behind(id.counter) {
                return put_behind(list, columns, place, id, number);
            }
            put_late(list, columns, place, id, number);
            false
        }
    }
}

/// Puts the number of an id that is the greatest of its replica, into the list if its column has no room. Returns whether the column has
/// none afterwards.
fn put_behind(
    list: &mut Numbers,
    columns: &mut [NumberColumn],
    place: usize,
    id: OpId,
    number: usize,
) -> bool
    requires room { 0 < list.old.room }
    requires columns { AreNumberColumns columns.old }
    requires inside { place < length columns.old }
    requires place { NumbersStandAt columns.old id.replica place }
    requires behind { (c : TheColumn) → IsTrue (is_rising ((slice_index_or columns.old place c).counters.items ++ id.counter ∷ [])) }
    ensures entries { put_each (numbered columns.new) list.new.entries
        ≡ put id_cmp id number (put_each (numbered columns.old) list.old.entries) }
    ensures columns { AreNumberColumns columns.new }
    ensures room { list.old.room ≤ list.new.room + 1 }
{
    prove!(list.len() <= usize::MAX);
    let counter = id.counter;
    if !columns[place].has_room() {
        list.put(id, number);
        return true;
    }
    let column = &mut columns[place];
    column.push_reserved(counter, number);
    !column.has_room()
}

/// Puts the number of an id that isn't the greatest of its replica: in its column if it is there, else into the list.
fn put_late(list: &mut Numbers, columns: &mut [NumberColumn], place: usize, id: OpId, number: usize)
    requires room { 0 < list.old.room }
    requires columns { AreNumberColumns columns.old }
    requires inside { place < length columns.old }
    requires place { NumbersStandAt columns.old id.replica place }
    ensures entries { put_each (numbered columns.new) list.new.entries
        ≡ put id_cmp id number (put_each (numbered columns.old) list.old.entries) }
    ensures columns { AreNumberColumns columns.new }
    ensures room { list.old.room ≤ list.new.room + 1 }
{
    prove!(list.len() <= usize::MAX);
    match columns[place].position(id.counter) {
        None => list.put(id, number),
        Some(position) => columns[place].set(position, number),
    }
}

/// Sets the number of an id that is there.
fn set_number(
    list: &mut Numbers,
    columns: &mut [NumberColumn],
    place: Option<usize>,
    id: &OpId,
    number: usize,
)
    requires there { IsSome (find id_cmp id.now (put_each (numbered columns.old) list.old.entries)) }
    requires columns { AreNumberColumns columns.old }
    requires place { MatchOption place (IsFalse (is_member (numbering columns.old) id.now.replica))
        (λ place. NumbersStandAt columns.old id.now.replica place) }
    ensures entries { put_each (numbered columns.new) list.new.entries
        ≡ put id_cmp id.now number (put_each (numbered columns.old) list.old.entries) }
    ensures columns { AreNumberColumns columns.new }
    ensures room { list.new.room ≡ list.old.room }
{
    prove!(list.len() <= usize::MAX);
    match place {
        None => list.set(id, number),
        Some(place) => set_in(list, columns, place, id, number),
    }
}

/// Sets the number of an id that is there, given the place of its replica's column.
fn set_in(list: &mut Numbers, columns: &mut [NumberColumn], place: usize, id: &OpId, number: usize)
    requires there { IsSome (find id_cmp id.now (put_each (numbered columns.old) list.old.entries)) }
    requires columns { AreNumberColumns columns.old }
    requires inside { place < length columns.old }
    requires place { NumbersStandAt columns.old id.now.replica place }
    ensures entries { put_each (numbered columns.new) list.new.entries
        ≡ put id_cmp id.now number (put_each (numbered columns.old) list.old.entries) }
    ensures columns { AreNumberColumns columns.new }
    ensures room { list.new.room ≡ list.old.room }
{
    prove!(list.len() <= usize::MAX);
    match columns[place].position(id.counter) {
        None => list.set(id, number),
        Some(position) => columns[place].set(position, number),
    }
}
