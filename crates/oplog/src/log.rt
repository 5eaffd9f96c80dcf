//! A list of entries, and for each replica of a table the positions of its operations.

ghost use Rattle.std.specs.Prelude.{◌≡◌, ◌≤◌, ◌<◌, ◌+◌, ◌-◌, ◌++◌, ◌∷◌, [], ℕ, List, Some, false, nat_lt, option_map, map, replicate};
ghost use Rattle.std.specs.Prelude.{reverse, set, length, IfOk, OnOk, slice_index_or};
ghost use Rattle.std.specs.List.{filter};
ghost use Rattle.std.specs.FinMap.{put};
ghost use Rattle.ids.specs.Tables.{joined, lacks_room};
ghost use Rattle.semantics.specs.Ids.{id_cmp};
ghost use Rattle.semantics.specs.Vectors.{Vector, at};
ghost use Rattle.semantics.specs.LegalHistory.{has_id};
ghost use Rattle.semantics.specs.Stamped.{MayFollow, Stamped};
ghost use Rattle.semantics.specs.Entries.{Entry as TheEntry, applied, entry_at, missing, stamped_in, stamped_entries};
ghost use Rattle.semantics.specs.Journals.{entries_from};
ghost use Rattle.operation.specs.Ops.{entry_of};
ghost use Rattle.oplog.specs.Logs.{HaveRoomBut, history, least_room, missing_positions, numbers_above, numbers_of, position_of};

use columns::Numbers;
use ids::{NamedVector, OpId, ReplicaTable, counter_near};
use operation::Entry;
use std::alloc::{AllocError, Global};
use std::marker::Model;

/// The entries of a history, with the table of its replicas. Contracts see the table, the entries, the newest first, and for how
/// many more there is room.
#[derive(Debug, Drop)]
pub struct Log {
    table: ReplicaTable,
    entries: Vec<Entry>,
    /// For each replica of the table the positions of its operations, by id; and then an empty column, for a replica that joins.
    positions: Vec<Numbers>,
    /// The index of the column that was written to last: the only one that may lack room.
    last: usize,
}

impl Model for Log {
    ghost use Rattle.std.specs.Prelude.{◌-◌, vec_len, vec_capacity};
    ghost use Rattle.std.specs.Coded.{codes};
    ghost use Rattle.semantics.specs.Codes.{coded_element};
    ghost use Rattle.oplog.specs.Logs.{Logged, IsIndexed, history, room_beside};

    ghost Value = { Logged };

    ghost coded = { Prim.hlevel (codes, coded_element) };

    ghost view = { λ l. record {
      table = l.table.numbers;
      entries = history l.entries.items;
      room = room_beside (vec_capacity l.entries - vec_len l.entries) l.table l.positions.items;
    } };

    ghost invariant = { λ l. IsIndexed l.table.numbers l.positions.items l.entries.items l.last };
}

impl Log {
    /// A log with no entries.
    ///
    /// # Errors
    /// `AllocError` if allocation fails.
    pub fn new(alloc: Global, table: ReplicaTable) -> Result<Log, AllocError>
        ensures table { IfOk result (λ l. l.table ≡ table.numbers) }
        ensures entries { IfOk result (λ l. l.entries ≡ []) }
    {
        let positions = no_positions(alloc, table.len())?;
        Ok(Log {
            table,
            entries: Vec::new(alloc),
            positions,
            last: 0,
        })
    }

    /// The table of the replicas.
    pub fn table(&self) -> &ReplicaTable
        ensures { result.now.numbers ≡ self.now.table }
    {
        &self.table
    }

    /// How many entries there are.
    pub fn len(&self) -> usize
        ensures { result ≡ length self.now.entries }
    {
        self.entries.len()
    }

    /// The entry at this position, where the oldest is at 0, or `None` past the end.
    pub fn get(&self, position: usize) -> Option<&Entry>
        ensures { option_map (λ e. entry_of e.now) result ≡ entry_at position self.now.entries }
    {
        self.entries.get(position)
    }

    /// The entries from a position on, the oldest first: none if the log has no more than that.
    pub fn entries_from(&self, position: usize) -> &[Entry]
        ensures { map entry_of result.now ≡ entries_from position self.now.entries }
    {
        &self.entries[position.min(self.entries.len())..]
    }

    /// The position of the operation with this id, if there is one. A binary search among those of its replica.
    pub fn find(&self, id: OpId) -> Option<usize>
        ensures { result ≡ position_of id self.now.entries }
    {
        let index = self.table.index_of(id.replica)?;
        self.positions[index].get(&id)
    }

    /// The positions of the operations that the vector doesn't cover, in ascending order. A binary search for each replica, and a sort of
    /// what is found.
    ///
    /// # Errors
    /// `AllocError` if allocation fails.
    pub fn missing(&self, alloc: Global, vector: &NamedVector) -> Result<Vec<usize>, AllocError>
        ensures { IfOk result (λ positions. positions.items ≡ missing_positions vector.now self.now.entries) }
    {
        let columns = &self.positions[..self.table.len()];
        let mut positions = positions_above(alloc, &self.table, columns, vector)?;
        positions.sort_unstable();
        Ok(positions)
    }

    /// Makes room for one more entry, of any replica, which may join the table. Amortized O(1).
    ///
    /// # Errors
    /// `AllocError` if allocation fails.
    pub fn reserve_one(&mut self, alloc: Global) -> Result<(), AllocError>
        ensures table { self.new.table ≡ self.old.table }
        ensures entries { self.new.entries ≡ self.old.entries }
        ensures room { OnOk result (0 < self.new.room) }
        ensures kept { self.old.room ≤ self.new.room }
    {
        self.entries.reserve(1)?;
        self.table.reserve_one()?;
        reserve_column(&mut self.positions, self.table.len(), alloc)?;
        reserve_last(&mut self.positions, self.last)
    }

    /// Appends an entry, for which there must be room. Allocates nothing. Shifts the positions of its replica's greater ids, of which a
    /// legal history has none. A replica that isn't in the table joins it.
    ///
    /// Its id must be new, as that of an operation that may follow is (`what_may_follow_is_new`). That the table has room for its replica
    /// doesn't follow from the history.
    pub fn push(&mut self, entry: Entry)
        requires room { 0 < self.old.room }
        requires fits { lacks_room self.old.table (stamped_in (entry_of entry)).id.replica ≡ false }
        requires new { has_id (applied self.old.entries) (stamped_in (entry_of entry)).id ≡ false }
        ensures table { self.new.table ≡ joined (stamped_in (entry_of entry)).id.replica self.old.table }
        ensures entries { self.new.entries ≡ entry_of entry ∷ self.old.entries }
        ensures room { self.old.room ≤ self.new.room + 1 }
    {
        let OpId { counter, replica } = entry.op().id;
        let index = self.table.index_or_join(replica);
        let id = OpId { counter, replica };
        let position = self.entries.len();
        put_position(&mut self.positions, index, id, position);
        self.last = index;
        self.entries.push_reserved(entry);
    }

    /// The entries, the oldest first. Allocates nothing.
    pub fn into_entries(self) -> Vec<Entry>
        ensures { history result.items ≡ self.entries }
    {
        self.entries
    }
}

/// Empty columns of positions, one for each replica, with room in each.
fn no_positions(alloc: Global, count: usize) -> Result<Vec<Numbers>, AllocError>
    ensures numbers { IfOk result (λ v. numbers_of v.items ≡ replicate count []) }
    ensures room { IfOk result (λ v. 0 < least_room 1 v.items) }
{
    let mut positions = Vec::with_capacity(alloc, count)?;
    for _ in 0..count {
        positions.push(column_with_room(alloc)?)?;
    }
    Ok(positions)
}

/// An empty column of positions, with room for one.
fn column_with_room(alloc: Global) -> Result<Numbers, AllocError>
    ensures { IfOk result (λ n. (n.entries ≡ []) × (0 < n.room)) }
{
    let mut column = Numbers::new(alloc);
    column.reserve_one()?;
    Ok(column)
}

/// Appends an empty column of positions, if there are only this many.
fn reserve_column(
    positions: &mut Vec<Numbers>,
    count: usize,
    alloc: Global,
) -> Result<(), AllocError>
    requires { count ≤ length positions.old.items }
    ensures numbers { numbers_of positions.new.items
        ≡ numbers_of positions.old.items ++ replicate (length positions.new.items - length positions.old.items) [] }
    ensures column { OnOk result (count < length positions.new.items) }
    ensures kept { count < length positions.old.items → positions.new.items ≡ positions.old.items }
    ensures roomy { (last : ℕ) → HaveRoomBut last positions.old.items → HaveRoomBut last positions.new.items }
{
    if positions.len() == count {
        positions.push(column_with_room(alloc)?)?;
    }
    Ok(())
}

/// Makes room for one more position in the column that was written to last. Every other column has room.
fn reserve_last(positions: &mut Vec<Numbers>, last: usize) -> Result<(), AllocError>
    requires inside { last < length positions.old.items }
    requires roomy { HaveRoomBut last positions.old.items }
    ensures same { numbers_of positions.new.items ≡ numbers_of positions.old.items }
    ensures room { OnOk result (0 < least_room 1 positions.new.items) }
    ensures roomy { HaveRoomBut last positions.new.items }
    ensures kept { (n : ℕ) → least_room n positions.old.items ≤ least_room n positions.new.items }
{
    let numbers = &mut positions[last];
    numbers.reserve_one()
}

/// Inserts the position of an operation among those of its replica. Shifts none if its id is the greatest of them.
fn put_position(positions: &mut Vec<Numbers>, index: usize, id: OpId, position: usize)
    requires inside { index < length positions.old.items }
    requires room { 0 < least_room 1 positions.old.items }
    ensures numbers { numbers_of positions.new.items
        ≡ set (numbers_of positions.old.items) index (put id_cmp id position (slice_index_or (numbers_of positions.old.items) index [])) }
    ensures room { (n : ℕ) → least_room (n + 1) positions.old.items ≤ least_room n positions.new.items + 1 }
    ensures roomy { HaveRoomBut index positions.new.items }
{
    let numbers = &mut positions[index];
    numbers.put(id, position);
}

/// The positions of the ids that the vector doesn't cover, replica by replica.
fn positions_above(
    alloc: Global,
    table: &ReplicaTable,
    positions: &[Numbers],
    vector: &NamedVector,
) -> Result<Vec<usize>, AllocError>
    requires { length positions.now ≡ length table.now.numbers }
    ensures { IfOk result (λ v. v.items ≡ numbers_above (map (at vector.now) table.now.numbers) (numbers_of positions.now)) }
{
    let mut above = Vec::new(alloc);
    for (index, numbers) in positions.iter().enumerate() {
        let Some(replica) = table.at(index) else {
            unreachable!()
        };
        let counter = counter_near(vector.ids(), index, replica);
        push_numbers(&mut above, numbers, counter)?;
    }
    Ok(above)
}

/// Appends the number of each id with a greater counter than this, in ascending order of id. A binary search, and one read for each.
fn push_numbers(numbers: &mut Vec<usize>, from: &Numbers, counter: u64) -> Result<(), AllocError>
    ensures { OnOk result
        (numbers.new.items ≡ numbers.old.items ++ map (λ e. e.1) (filter (λ e. nat_lt counter e.0.counter) from.now.entries)) }
{
    let first = from.first_above(counter);
    let count = from.len();
    numbers.reserve(count - first)?;
    for position in first..count {
        numbers.push_reserved(from.at(position).1);
    }
    Ok(())
}

/// An operation that may follow has an id that no entry has.
pub fn what_may_follow_is_new()
    ensures { (G : List TheEntry) (s : Stamped) → MayFollow (applied G) s → has_id (applied G) s.id ≡ false }
{}

/// The operations at the missing positions are those that the rules call missing, the oldest first.
pub fn positions_name_what_is_missing()
    ensures { (v : Vector) (G : List TheEntry) →
        map (λ n. option_map stamped_in (entry_at n G)) (missing_positions v G) ≡ map Some (reverse (missing v (stamped_entries G))) }
{}
