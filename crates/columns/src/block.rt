//! A block of a list: a run of neighbouring items.

ghost use Rattle.std.specs.Prelude.{◌≡◌, ◌≤◌, ◌<◌, ◌+◌, ℕ, List, [], ◌∷◌, ◌++◌, length, take, drop, slice_get, slice_set, Some, cond};
ghost use Rattle.std.specs.Prelude.{false, IsTrue, OnOk, OnErr, IfOk};
ghost use Rattle.std.specs.List.{insert, items_where_true};
ghost use Rattle.semantics.specs.Ids.{OpId as TheId};
ghost use Rattle.columns.specs.Blocks.{AreApart, AreGreater, IsFirstSmaller, IsFloor, IsPositionOf};

use ids::OpId;
use rings::insert_reserved;
use std::alloc::{AllocError, Global};
use std::marker::Model;
use std::mem::replace;

/// Neighbouring items of a list, with what lets a walk skip them: how many are shown, and an id that none of theirs is smaller than.
///
/// Contracts see the number of the block, its items in list order, for each whether it is shown, and for how many more there is room.
#[derive(Debug, Drop)]
pub(crate) struct Block {
    number: usize,
    ids: Vec<OpId>,
    /// For each item whether it is shown.
    flags: Vec<bool>,
    /// How many items are shown.
    shown: usize,
    /// No item is smaller. `None` if there are no items.
    floor: Option<OpId>,
}

impl Model for Block {
    ghost use Rattle.std.specs.Prelude.{◌-◌, min, vec_len, vec_capacity};
    ghost use Rattle.columns.specs.Blocks.{IsBlock, ListBlock};

    ghost Value = { ListBlock };

    ghost view = { λ b. record {
      number = b.number;
      items = b.ids.items;
      flags = b.flags.items;
      room = min (vec_capacity b.ids - vec_len b.ids) (vec_capacity b.flags - vec_len b.flags);
    } };

    ghost invariant = { λ b. IsBlock b.ids.items b.flags.items b.shown b.floor };
}

impl Block {
    /// Returns an empty block with this number. Allocates nothing.
    pub fn new(number: usize, alloc: Global) -> Block
        ensures number { result.number ≡ number }
        ensures items { result.items ≡ [] }
        ensures flags { result.flags ≡ [] }
    {
        Block {
            number,
            ids: Vec::new(alloc),
            flags: Vec::new(alloc),
            shown: 0,
            floor: None,
        }
    }

    /// The block's number.
    pub fn number(&self) -> usize
        ensures { result ≡ self.now.number }
    {
        self.number
    }

    /// How many items there are.
    pub fn len(&self) -> usize
        ensures items { result ≡ length self.now.items }
        ensures flags { result ≡ length self.now.flags }
    {
        self.ids.len()
    }

    /// How many items are shown.
    pub fn shown(&self) -> usize
        ensures { result ≡ length (items_where_true self.now.flags self.now.items) }
    {
        self.shown
    }

    /// The item at an index.
    pub fn at(&self, index: usize) -> OpId
        requires { index < length self.now.items }
        ensures { slice_get self.now.items index ≡ Some result }
    {
        self.ids[index]
    }

    /// The index of an item. Tries the item at `hint`, and otherwise looks at each one up to the one sought.
    pub fn position(&self, id: &OpId, hint: usize) -> Option<usize>
        requires { AreApart self.now.items }
        ensures { IsPositionOf id.now self.now.items result }
    {
        match self.ids.get(hint) {
            Some(other) if other == id => Some(hint),
            _ => position_in(&self.ids, id),
        }
    }

    /// The shown item with this index, counted from 0. Looks at each flag up to there, unless all are shown.
    pub fn nth_shown(&self, index: usize) -> Option<OpId>
        ensures { result ≡ slice_get (items_where_true self.now.flags self.now.items) index }
    {
        if self.shown == self.ids.len() {
            return id_in(&self.ids, index);
        }
        nth_shown_in(&self.ids, &self.flags, index)
    }

    /// Appends the shown items. Looks at each flag, unless none is shown.
    ///
    /// # Errors
    /// `AllocError` if allocation fails.
    pub fn push_shown(&self, items: &mut Vec<OpId>) -> Result<(), AllocError>
        ensures { OnOk result (items.new.items ≡ items.old.items ++ items_where_true self.now.flags self.now.items) }
    {
        if self.shown == 0 {
            return Ok(());
        }
        push_shown_of(&self.ids, &self.flags, items)
    }

    /// The index of the first item, from `from` on, that is smaller than this id. Looks at one id if all items of the block are greater,
    /// and otherwise at each from `from` up to the result.
    pub fn first_smaller(&self, from: usize, id: &OpId) -> Option<usize>
        requires { from ≤ length self.now.items }
        ensures { IsFirstSmaller id.now self.now.items from result }
    {
        if is_above(&self.floor, id) {
            return None;
        }
        first_smaller_in(&self.ids, from, id)
    }

    /// Makes room for one more item.
    ///
    /// # Errors
    /// `AllocError` if allocation fails.
    pub fn reserve_one(&mut self) -> Result<(), AllocError>
        ensures number { self.new.number ≡ self.old.number }
        ensures items { self.new.items ≡ self.old.items }
        ensures flags { self.new.flags ≡ self.old.flags }
        ensures room { OnOk result (0 < self.new.room) }
        ensures kept { self.old.room ≤ self.new.room }
    {
        self.ids.reserve(1)?;
        self.flags.reserve(1)
    }

    /// Inserts an item at an index, not shown. Allocates nothing, and shifts each item behind it.
    pub fn put(&mut self, index: usize, id: OpId)
        requires within { index ≤ length self.old.items }
        requires room { 0 < self.old.room }
        ensures number { self.new.number ≡ self.old.number }
        ensures items { self.new.items ≡ insert self.old.items index id }
        ensures flags { self.new.flags ≡ insert self.old.flags index false }
    {
        self.floor = lower(&self.floor, &id);
        insert_reserved(&mut self.ids, index, id);
        insert_reserved(&mut self.flags, index, false);
    }

    /// Sets whether the item at an index is shown.
    pub fn set_shown(&mut self, index: usize, is_shown: bool)
        requires { index < length self.old.items }
        ensures number { self.new.number ≡ self.old.number }
        ensures items { self.new.items ≡ self.old.items }
        ensures flags { self.new.flags ≡ slice_set self.old.flags index is_shown }
        ensures room { self.new.room ≡ self.old.room }
    {
        let was_shown = replace(&mut self.flags[index], is_shown);
        self.shown = self.shown - count_of(was_shown) + count_of(is_shown);
    }

    /// Splits off the items from an index on, as a block with this number. Both then have room for one more item.
    ///
    /// # Errors
    /// `AllocError` if allocation fails; then all items stay.
    pub fn split_off(&mut self, at: usize, number: usize) -> Result<Block, AllocError>
        requires { at < length self.old.items }
        ensures number { self.new.number ≡ self.old.number }
        ensures items { OnOk result (self.new.items ≡ take at self.old.items) }
        ensures flags { OnOk result (self.new.flags ≡ take at self.old.flags) }
        ensures room { OnOk result (0 < self.new.room) }
        ensures back_number { IfOk result (λ back. back.number ≡ number) }
        ensures back_items { IfOk result (λ back. back.items ≡ drop at self.old.items) }
        ensures back_flags { IfOk result (λ back. back.flags ≡ drop at self.old.flags) }
        ensures back_room { IfOk result (λ back. 0 < back.room) }
        ensures refused_items { OnErr result (self.new.items ≡ self.old.items) }
        ensures refused_flags { OnErr result (self.new.flags ≡ self.old.flags) }
        ensures kept { self.old.room ≤ self.new.room }
    {
        let alloc = *self.ids.allocator();
        let back = block_of(alloc, number, &self.ids[at..], &self.flags[at..])?;
        self.ids.truncate(at);
        self.flags.truncate(at);
        self.shown -= back.shown;
        self.floor = floor_of(&self.ids);
        Ok(back)
    }
}

/// A block of these items, with room for one more.
///
/// # Errors
/// `AllocError` if allocation fails.
fn block_of(alloc: Global, number: usize, ids: &[OpId], flags: &[bool]) -> Result<Block, AllocError>
    requires { length flags.now ≡ length ids.now }
    ensures number { IfOk result (λ block. block.number ≡ number) }
    ensures items { IfOk result (λ block. block.items ≡ ids.now) }
    ensures flags { IfOk result (λ block. block.flags ≡ flags.now) }
    ensures room { IfOk result (λ block. 0 < block.room) }
{
    let mut block = Block {
        number,
        ids: Vec::with_capacity(alloc, ids.len() + 1)?,
        flags: Vec::with_capacity(alloc, ids.len() + 1)?,
        shown: count_shown(ids, flags),
        floor: floor_of(ids),
    };
    block.ids.extend_from_slice(ids)?;
    block.flags.extend_from_slice(flags)?;
    Ok(block)
}

/// The id at an index, if there is one.
fn id_in(ids: &[OpId], index: usize) -> Option<OpId>
    ensures { result ≡ slice_get ids.now index }
{
    ids.get(index).copied()
}

/// What an item adds to the count of shown ones: 1 if it is shown, otherwise 0.
fn count_of(is_shown: bool) -> usize
    ensures { result ≡ cond is_shown 1 0 }
{
    if is_shown { 1 } else { 0 }
}

/// How many of the items are shown.
fn count_shown(ids: &[OpId], flags: &[bool]) -> usize
    requires { length flags.now ≡ length ids.now }
    ensures { result ≡ length (items_where_true flags.now ids.now) }
{
    let mut shown = 0;
    for at in 0..ids.len() {
        if flags[at] {
            shown += 1;
        }
    }
    shown
}

/// The least of the ids, `None` if there are none.
fn floor_of(ids: &[OpId]) -> Option<OpId>
    ensures { IsFloor result ids.now }
{
    let mut floor = None;
    for id in ids {
        floor = lower(&floor, id);
    }
    floor
}

/// The smaller of a floor and an id.
fn lower(floor: &Option<OpId>, id: &OpId) -> Option<OpId>
    ensures { (ids : List TheId) → IsFloor floor.now ids → IsFloor result (id.now ∷ ids) }
{
    match floor {
        Some(least) if least < id => Some(*least),
        _ => Some(*id),
    }
}

/// Whether no item of a block with this floor is smaller than an id.
fn is_above(floor: &Option<OpId>, id: &OpId) -> bool
    ensures { (ids : List TheId) → IsFloor floor.now ids → IsTrue result → AreGreater id.now ids }
{
    match floor {
        Some(least) => id < least,
        None => true,
    }
}

/// The index of an id among others. Looks at each one before it.
fn position_in(ids: &[OpId], id: &OpId) -> Option<usize>
    ensures { IsPositionOf id.now ids.now result }
{
    for index in 0..ids.len() {
        if ids[index] == *id {
            return Some(index);
        }
    }
    None
}

/// The index of the first id, from `from` on, that is smaller than this one.
fn first_smaller_in(ids: &[OpId], from: usize, id: &OpId) -> Option<usize>
    requires { from ≤ length ids.now }
    ensures { IsFirstSmaller id.now ids.now from result }
{
    for index in from..ids.len() {
        if ids[index] < *id {
            return Some(index);
        }
    }
    None
}

/// How many flags are counted at a time when an item is sought by its index.
const RUN: usize = 16;

/// The shown id with this index, counted from 0. Counts flags in runs of 16.
fn nth_shown_in(ids: &[OpId], flags: &[bool], index: usize) -> Option<OpId>
    requires { length flags.now ≡ length ids.now }
    ensures { result ≡ slice_get (items_where_true flags.now ids.now) index }
{
    let mut left = index;
    let mut at = 0;
    while ids.len() - at >= RUN {
        let run = &ids[at..at + RUN];
        let shown = count_shown(run, &flags[at..at + RUN]);
        if left < shown {
            return nth_shown_among(run, &flags[at..at + RUN], left);
        }
        left -= shown;
        at += RUN;
    }
    nth_shown_among(&ids[at..], &flags[at..], left)
}

/// The same, flag by flag.
fn nth_shown_among(ids: &[OpId], flags: &[bool], index: usize) -> Option<OpId>
    requires { length flags.now ≡ length ids.now }
    ensures { result ≡ slice_get (items_where_true flags.now ids.now) index }
{
    let mut left = index;
    for at in 0..ids.len() {
        if flags[at] {
            if left == 0 {
                return Some(ids[at]);
            }
            left -= 1;
        }
    }
    None
}

/// Appends the ids that are shown. Skips runs of 16 that aren't.
fn push_shown_of(ids: &[OpId], flags: &[bool], items: &mut Vec<OpId>) -> Result<(), AllocError>
    requires { length flags.now ≡ length ids.now }
    ensures { OnOk result (items.new.items ≡ items.old.items ++ items_where_true flags.now ids.now) }
{
    let mut at = 0;
    while ids.len() - at >= RUN {
        push_run(&ids[at..at + RUN], &flags[at..at + RUN], items)?;
        at += RUN;
    }
    push_shown_among(&ids[at..], &flags[at..], items)
}

/// Appends the ids that are shown, if any is.
fn push_run(ids: &[OpId], flags: &[bool], items: &mut Vec<OpId>) -> Result<(), AllocError>
    requires { length flags.now ≡ length ids.now }
    ensures { OnOk result (items.new.items ≡ items.old.items ++ items_where_true flags.now ids.now) }
{
    if count_shown(ids, flags) == 0 {
        return Ok(());
    }
    push_shown_among(ids, flags, items)
}

/// Appends the ids that are shown, flag by flag.
fn push_shown_among(ids: &[OpId], flags: &[bool], items: &mut Vec<OpId>) -> Result<(), AllocError>
    requires { length flags.now ≡ length ids.now }
    ensures { OnOk result (items.new.items ≡ items.old.items ++ items_where_true flags.now ids.now) }
{
    for at in 0..ids.len() {
        if flags[at] {
            items.push(ids[at])?;
        }
    }
    Ok(())
}
