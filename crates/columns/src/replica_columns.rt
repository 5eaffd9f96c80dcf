//! Columns of ids, one for each replica.

ghost use Rattle.std.specs.Prelude.{◌≡◌, ◌≤◌, ◌<◌, ◌+◌, ◌||◌, ◌++◌, ◌∷◌, ℕ, List, [], length, map, Some, false, drop, slice_index_or};
ghost use Rattle.std.specs.Prelude.{IsTrue, IsFalse, IfOk, OnOk};
ghost use Rattle.std.specs.Prelude.{MatchOption};
ghost use Rattle.std.specs.List.{All, filter};
ghost use Rattle.std.specs.FinMap.{put, is_sorted};
ghost use Rattle.ids.specs.Members.{is_member};
ghost use Rattle.semantics.specs.Elements.{Tag as TheTag};
ghost use Rattle.semantics.specs.Ids.{OpId as TheId, id_cmp};
ghost use Rattle.version.specs.Columns.{is_uncovered};
ghost use Rattle.columns.specs.Kinds.{has_kind};
ghost use Rattle.columns.specs.Entries.{Entries};
ghost use Rattle.columns.specs.Marks.{AreMarked, is_set};
ghost use Rattle.columns.specs.Rank.{has_key, keys_of};
ghost use Rattle.columns.specs.declared.replica_column.ReplicaColumn.{ReplicaColumn as TheColumn};
ghost use Rattle.cursor.specs.declared.tag.Tag.{Tag};
ghost use Rattle.columns.specs.ReplicaColumns.{AreApart, AreCounted, GoesBetween, IsColumnAt, IsUpTo, Standing, all_standing, index_at};
ghost use Rattle.columns.specs.ReplicaColumns.{is_rising, put_each, replicas_of, standing, standing_in, stands_in, tags_of};

use crate::kinds::Kinds;
use crate::replica_column::ReplicaColumn;
use crate::tag_list::TagList;
use cursor::Tag;
use ids::{OpId, ReplicaId};
use std::alloc::{AllocError, Global};
use std::cmp::Ordering;
use version::VersionVector;

/// The most ids that may be in columns; any more go into the list. So the number of all ids fits a `usize`.
const MOST: usize = 4_611_686_018_427_387_904;

/// Replicas with an index below this one have a place at which their column is looked for first.
const PLACES: usize = 1_024;

/// How many marks there are.
pub const MARKS: usize = 256;

/// Whether the mark of the replica is set: without it, the replica has no column.
fn is_marked(marks: &[bool; MARKS], replica: ReplicaId) -> bool
    ensures { result ≡ is_set marks.now replica }
{
    marks[replica.number() as usize % MARKS]
}

/// Sets the mark of the replica, and so of all whose numbers leave the same remainder.
fn mark(marks: &mut [bool; MARKS], replica: ReplicaId)
    ensures own { IsTrue (is_set marks.new replica) }
    ensures kept { (p : ℕ) → IsTrue (is_set marks.old p) → IsTrue (is_set marks.new p) }
{
    marks[replica.number() as usize % MARKS] = true;
}

/// The place of a replica's column, or `None` if it has none. Looks at the replica's mark first, then where its index says, then at each
/// column.
pub fn place_of(
    columns: &[ReplicaColumn],
    places: &[usize],
    marks: &[bool; MARKS],
    replica: ReplicaId,
    index: usize,
) -> Option<usize>
    requires { AreMarked marks.now (replicas_of columns.now) }
    ensures { MatchOption result (IsFalse (is_member (replicas_of columns.now) replica)) (λ place. IsColumnAt columns.now replica place) }
{
    if !is_marked(marks, replica) {
        return None;
    }
    if index < places.len() {
        let place = places[index];
        if place < columns.len() && columns[place].replica == replica {
            return Some(place);
        }
    }
    search(columns, replica)
}

/// The place of a replica's column, or `None` if it has none. Looks at each column.
fn search(columns: &[ReplicaColumn], replica: ReplicaId) -> Option<usize>
    ensures { MatchOption result (IsFalse (is_member (replicas_of columns.now) replica)) (λ place. IsColumnAt columns.now replica place) }
{
    for place in 0..columns.len() {
        if columns[place].replica == replica {
            return Some(place);
        }
    }
    None
}

/// These kinds, and those of the ids in the columns. Looks at each column.
pub fn kinds_of(columns: &[ReplicaColumn], kinds: Kinds) -> Kinds
    ensures { (t : TheTag) → has_kind result t ≡ (has_kind kinds t || stands_in t (standing columns.now)) }
{
    let mut all = kinds;
    for place in 0..columns.len() {
        all = with_column(all, &columns[place]);
    }
    all
}

/// These kinds, and that of a column's ids, if it has any.
fn with_column(kinds: Kinds, column: &ReplicaColumn) -> Kinds
    ensures { (t : TheTag) → has_kind result t ≡ (has_kind kinds t || stands_in t (standing_in column.now)) }
{
    if column.counters.is_empty() {
        return kinds;
    }
    kinds.with(column.tag)
}

/// Makes an empty column for a replica that has none, or room in the one that it has. A new column costs a look at each entry of the list.
///
/// # Errors
/// `AllocError` if allocation fails.
pub fn reserve_column(
    list: &TagList,
    columns: &mut Vec<ReplicaColumn>,
    places: &mut Vec<usize>,
    marks: &mut [bool; MARKS],
    replica: ReplicaId,
    index: usize,
    tag: Tag,
) -> Result<(), AllocError>
    requires { AreMarked marks.old (replicas_of columns.old.items) }
    ensures marked { AreMarked marks.new (replicas_of columns.new.items) }
    ensures standing { standing columns.new.items ≡ standing columns.old.items }
    ensures apart { AreApart list.now columns.old.items → AreApart list.now columns.new.items }
    ensures up_to { All (IsUpTo (all_standing list.now columns.old.items)) columns.old.items
        → All (IsUpTo (all_standing list.now columns.old.items)) columns.new.items }
{
    match place_of(columns, places, marks, replica, index) {
        Some(place) => columns[place].reserve_one(),
        None => {
            note_place(places, index, columns.len())?;
            let greatest = greatest_of(list, replica);
            let column = ReplicaColumn::with_room(
                *columns.allocator(),
                replica,
                index,
                tag,
                greatest,
            )?;
            columns.push(column)?;
            mark(marks, replica);
            Ok(())
        }
    }
}

/// The greatest counter of a replica in the list, or 0 if it has none there. Looks at the last entry first, which is the replica's if all
/// ids come in ascending order, and then at each.
fn greatest_of(list: &TagList, replica: ReplicaId) -> u64
    ensures { (q : TheId) → q.replica ≡ replica → IsTrue (has_key id_cmp q (keys_of list.now.entries)) → q.counter ≤ result }
{
    let count = list.len();
    if count > 0 {
        let (last, _) = list.at(count - 1);
        if last.replica == replica {
            return last.counter;
        }
    }
    search_greatest(list, replica)
}

/// The greatest counter of a replica in the list, or 0 if it has none there. Looks at each entry.
fn search_greatest(list: &TagList, replica: ReplicaId) -> u64
    ensures { (q : TheId) → q.replica ≡ replica → IsTrue (has_key id_cmp q (keys_of list.now.entries)) → q.counter ≤ result }
{
    let mut greatest = 0;
    for position in 0..list.len() {
        greatest = raised(greatest, list.at(position).0, replica);
    }
    greatest
}

/// The greater of the two counters, if the id is one of the replica, else the first.
fn raised(greatest: u64, id: OpId, replica: ReplicaId) -> u64
    ensures kept { greatest ≤ result }
    ensures own { id.replica ≡ replica → id.counter ≤ result }
{
    if id.replica == replica && id.counter > greatest {
        return id.counter;
    }
    greatest
}

/// Notes the place of the column of the replica with this index.
///
/// # Errors
/// `AllocError` if allocation fails.
fn note_place(places: &mut Vec<usize>, index: usize, place: usize) -> Result<(), AllocError> {
    if index >= PLACES {
        return Ok(());
    }
    if index >= places.len() {
        places.resize(index + 1, 0)?;
    }
    places[index] = place;
    Ok(())
}

/// Puts an id where it belongs, given the place of its replica's column, and returns whether that column should be made or extended.
/// Allocates nothing.
pub fn put_standing(
    list: &mut TagList,
    columns: &mut [ReplicaColumn],
    count: &mut usize,
    place: Option<usize>,
    id: OpId,
    index: usize,
    tag: Tag,
) -> bool
    requires room { 0 < list.old.room }
    requires counted { AreCounted list.old columns.old count.old }
    requires place { MatchOption place (IsFalse (is_member (replicas_of columns.old) id.replica))
        (λ place. IsColumnAt columns.old id.replica place) }
    ensures standing { all_standing list.new columns.new
        ≡ put id_cmp id (tag, index_at id index (all_standing list.old columns.old)) (all_standing list.old columns.old) }
    ensures counted { AreCounted list.new columns.new count.new }
    ensures room { list.old.room ≤ list.new.room + 1 }
    ensures replicas { replicas_of columns.new ≡ replicas_of columns.old }
{
    match place {
        None => {
            prove!(list.len() <= usize::MAX);
            list.put(id, index, tag);
            true
        }
        Some(place) => {
            if id.counter > columns[place].greatest {
                return put_behind(list, columns, count, place, id, index, tag);
            }
            put_late(list, columns, count, place, id, index, tag);
            false
        }
    }
}

/// Puts an id that is the greatest of its replica into the replica's column, or into the list if it doesn't fit. Returns whether the column
/// is full afterwards.
fn put_behind(
    list: &mut TagList,
    columns: &mut [ReplicaColumn],
    count: &mut usize,
    place: usize,
    id: OpId,
    index: usize,
    tag: Tag,
) -> bool
    requires room { 0 < list.old.room }
    requires counted { AreCounted list.old columns.old count.old }
    requires inside { place < length columns.old }
    requires place { IsColumnAt columns.old id.replica place }
    requires greater { (c : TheColumn) → (slice_index_or columns.old place c).greatest < id.counter }
    ensures standing { all_standing list.new columns.new
        ≡ put id_cmp id (tag, index_at id index (all_standing list.old columns.old)) (all_standing list.old columns.old) }
    ensures counted { AreCounted list.new columns.new count.new }
    ensures room { list.old.room ≤ list.new.room + 1 }
    ensures replicas { replicas_of columns.new ≡ replicas_of columns.old }
{
    prove!(list.len() <= usize::MAX);
    let before = *count;
    let counter = id.counter;
    let column = &mut columns[place];
    column.raise(counter);
    if !fits(column, before, index, tag) {
        list.put(id, index, tag);
        return !column.has_room();
    }
    column.push_reserved(counter);
    *count = before + 1;
    !column.has_room()
}

/// Whether an id with this index and this tag fits a column: the column has both and has room, and the columns may take one more id.
fn fits(column: &ReplicaColumn, count: usize, index: usize, tag: Tag) -> bool
    ensures few { IsTrue result → count < 4_611_686_018_427_387_904 }
    ensures room { IsTrue result → 0 < column.now.counters.room }
    ensures index { IsTrue result → column.now.index ≡ index }
    ensures tag { IsTrue result → column.now.tag ≡ tag }
{
    count < MOST && column.takes(index, tag)
}

/// Puts an id that isn't the greatest of its replica into the list, and removes it from its column if it is there.
fn put_late(
    list: &mut TagList,
    columns: &mut [ReplicaColumn],
    count: &mut usize,
    place: usize,
    id: OpId,
    index: usize,
    tag: Tag,
)
    requires room { 0 < list.old.room }
    requires counted { AreCounted list.old columns.old count.old }
    requires inside { place < length columns.old }
    requires place { IsColumnAt columns.old id.replica place }
    requires seen { (c : TheColumn) → id.counter ≤ (slice_index_or columns.old place c).greatest }
    ensures standing { all_standing list.new columns.new
        ≡ put id_cmp id (tag, index_at id index (all_standing list.old columns.old)) (all_standing list.old columns.old) }
    ensures counted { AreCounted list.new columns.new count.new }
    ensures room { list.old.room ≤ list.new.room + 1 }
    ensures replicas { replicas_of columns.new ≡ replicas_of columns.old }
{
    prove!(list.len() <= usize::MAX);
    let column = &mut columns[place];
    if column.remove(id.counter) {
        *count -= 1;
        list.put(id, column.index, tag);
    } else {
        list.put(id, index, tag);
    }
}

/// Removes the ids that the vector covers from the columns, and returns how many are left.
pub fn clear_columns(columns: &mut [ReplicaColumn], count: usize, vector: &VersionVector) -> usize
    requires rising { All (λ c. IsTrue (is_rising c.counters.items)) columns.old }
    requires within { All (λ c. 0 < length c.counters.items → c.index < length vector.now) columns.old }
    requires counted { count ≡ length (standing columns.old) }
    ensures standing { standing columns.new ≡ filter (λ e. is_uncovered vector.now (e.0.counter, e.1.1)) (standing columns.old) }
    ensures rising { All (λ c. IsTrue (is_rising c.counters.items)) columns.new }
    ensures replicas { replicas_of columns.new ≡ replicas_of columns.old }
    ensures up_to { (m : List (TheId × Standing)) → All (IsUpTo m) columns.old → All (IsUpTo m) columns.new }
    ensures counted { result ≡ length (standing columns.new) }
{
    let mut left = count;
    for place in 0..columns.len() {
        left -= columns[place].cut(vector);
    }
    left
}

/// The entries and those of the columns, in ascending order of id. A merge sort over the columns: with k of them it looks at each entry
/// about log2 k times.
///
/// # Errors
/// `AllocError` if allocation fails.
pub fn merge(
    columns: &[ReplicaColumn],
    entries: Vec<(OpId, Tag)>,
    alloc: Global,
) -> Result<Vec<(OpId, Tag)>, AllocError>
    requires rising { All (λ c. IsTrue (is_rising c.counters.items)) columns.now }
    requires sorted { IsTrue (is_sorted id_cmp entries.items) }
    ensures { IfOk result (λ v. v.items ≡ put_each (tags_of (standing columns.now)) entries.items) }
{
    match columns.len() {
        0 => Ok(entries),
        1 => {
            let own = tags_in(&columns[0], alloc)?;
            merge_entries(&own, &entries, alloc)
        }
        count => {
            let (first, rest) = columns.split_at(count / 2);
            let own = merge(first, Vec::new(alloc), alloc)?;
            let others = merge(rest, entries, alloc)?;
            merge_entries(&own, &others, alloc)
        }
    }
}

/// The entries of a column, in ascending order of id.
///
/// # Errors
/// `AllocError` if allocation fails.
fn tags_in(column: &ReplicaColumn, alloc: Global) -> Result<Vec<(OpId, Tag)>, AllocError>
    ensures { IfOk result (λ v. v.items ≡ tags_of (standing_in column.now)) }
{
    let replica = column.replica;
    let mut tags = Vec::with_capacity(alloc, column.counters.len())?;
    for position in 0..column.counters.len() {
        let counter = column.counters.at(position);
        tags.push((OpId { counter, replica }, column.tag))?;
    }
    Ok(tags)
}

/// The entries of both, in ascending order of id; an id that is in both has the tag that it has in `own`. Looks at each entry once.
///
/// # Errors
/// `AllocError` if allocation fails.
fn merge_entries(
    own: &[(OpId, Tag)],
    others: &[(OpId, Tag)],
    alloc: Global,
) -> Result<Vec<(OpId, Tag)>, AllocError>
    requires own { IsTrue (is_sorted id_cmp own.now) }
    requires others { IsTrue (is_sorted id_cmp others.now) }
    ensures { IfOk result (λ v. v.items ≡ put_each own.now others.now) }
{
    let mut all = Vec::new(alloc);
    let mut next = 0;
    for position in 0..own.len() {
        let entry = own[position];
        next = push_smaller(&mut all, others, next, &entry.0)?;
        all.push(entry)?;
    }
    push_from(&mut all, others, next)?;
    Ok(all)
}

/// Appends the entries from a position on that are smaller than an id, and returns the position of the first greater one.
///
/// # Errors
/// `AllocError` if allocation fails.
fn push_smaller(
    all: &mut Vec<(OpId, Tag)>,
    entries: &[(OpId, Tag)],
    from: usize,
    id: &OpId,
) -> Result<usize, AllocError>
    requires { IsTrue (is_sorted id_cmp entries.now) }
    ensures { IfOk result (λ next. GoesBetween id.now all.old.items (drop from entries.now) all.new.items (drop next entries.now)) }
{
    let mut next = from;
    while next < entries.len() {
        match entries[next].0.cmp(id) {
            Ordering::Less => all.push(entries[next])?,
            Ordering::Equal => return Ok(next + 1),
            Ordering::Greater => return Ok(next),
        }
        next += 1;
    }
    Ok(next)
}

/// Appends the entries from a position on.
///
/// # Errors
/// `AllocError` if allocation fails.
fn push_from(
    all: &mut Vec<(OpId, Tag)>,
    entries: &[(OpId, Tag)],
    from: usize,
) -> Result<(), AllocError>
    ensures { OnOk result (all.new.items ≡ all.old.items ++ drop from entries.now) }
{
    for position in from..entries.len() {
        all.push(entries[position])?;
    }
    Ok(())
}
