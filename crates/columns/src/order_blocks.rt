//! The order of a list, in blocks of neighbouring items.

ghost use Rattle.std.specs.Prelude.{◌≡◌, ◌≤◌, ◌<◌, ◌+◌, ℕ, Bool, List, cond, [], length, IsTrue, IsFalse, IsSome, IfOk, OnOk, true};
ghost use Rattle.std.specs.Prelude.{slice_get, take};
ghost use Rattle.std.specs.List.{filter};
ghost use Rattle.std.specs.FinMap.{find};
ghost use Rattle.semantics.specs.Ids.{OpId as TheId, id_cmp, is_same_id};
ghost use Rattle.semantics.specs.Context.{insert_after, has_item, has_position};
ghost use Rattle.columns.specs.Blocks.{AreBlocks, AreMoved, AreIndexed, IsSameList, items_at, room_at};

use crate::block::Block;
use crate::block_indices::BlockIndices;
use crate::homes::Homes;
use crate::walks::{Position, behind, find, first_shown, goes_to, nth_shown, shown_items};
use ids::OpId;
use std::alloc::{AllocError, Global};
use std::marker::Model;

/// The most items that a block has once there is room for one more.
const MOST: usize = 512;

/// The order of a list's items, and which of them are shown.
///
/// Neighbouring items share a block of at most 512, so that a walk goes from block to block. Each item's home is the number of its
/// block. Contracts see the items in their order, those of them that are shown, and whether there is room for one more.
#[derive(Debug, Drop)]
pub(crate) struct OrderBlocks {
    /// In list order.
    blocks: Vec<Block>,
    /// The number of each item's block.
    homes: Homes,
    /// The index of each block, by its number.
    indices: BlockIndices,
    /// Where the last item went in. No other block is full.
    last: Position,
}

impl Model for OrderBlocks {
    ghost use Rattle.std.specs.Prelude.{min};
    ghost use Rattle.columns.specs.Orders.{Order};
    ghost use Rattle.columns.specs.Blocks.{AreBlocks, AreIndexed, joined, joined_shown, room_at};

    ghost Value = { Order };

    ghost view = { λ o. record {
      items = joined o.blocks.items;
      visible = joined_shown o.blocks.items;
      room = min o.homes.room (min 1 (room_at o.blocks.items o.last.block));
    } };

    ghost invariant = { λ o. AreBlocks o.blocks.items o.homes.entries o.last.block × AreIndexed o.blocks.items o.indices.by_number };
}

impl OrderBlocks {
    /// Returns the order of an empty list. Allocates nothing.
    pub fn new(alloc: Global) -> OrderBlocks
        ensures items { result.items ≡ [] }
        ensures visible { result.visible ≡ [] }
    {
        OrderBlocks {
            blocks: Vec::new(alloc),
            homes: Homes::new(alloc),
            indices: BlockIndices::new(alloc),
            last: Position { block: 0, index: 0 },
        }
    }

    /// Makes room for one more item. If the block that the last one went into is full, it is cut, which costs a binary search for each
    /// item that gets another block, and a look at each block's index.
    ///
    /// # Errors
    /// `AllocError` if allocation fails.
    pub fn reserve_one(&mut self) -> Result<(), AllocError>
        ensures same { self.new.items ≡ self.old.items }
        ensures visible { self.new.visible ≡ self.old.visible }
        ensures room { OnOk result (0 < self.new.room) }
        ensures kept { self.old.room ≤ self.new.room }
    {
        self.homes.reserve_one()?;
        make_room(
            &mut self.blocks,
            &mut self.homes,
            &mut self.indices,
            self.last,
        )
    }

    /// Puts a new item after `prev`, or after the head, past each next item with a greater id: the skipping rule of RGA. It isn't
    /// shown yet.
    ///
    /// Allocates nothing. Finds `prev` by a binary search and a walk in one block, unless it was inserted last, and goes past a block
    /// of greater items by a look at one id. Moves the items behind the new one in its block.
    pub fn insert_after(&mut self, prev: Option<OpId>, id: OpId)
        requires prev { IsTrue (has_position prev self.old.items) }
        requires id { IsFalse (has_item id self.old.items) }
        requires room { 0 < self.old.room }
        ensures items { self.new.items ≡ insert_after prev id self.old.items }
        ensures visible { self.new.visible ≡ self.old.visible }
        ensures room { self.old.room ≤ self.new.room + 1 }
    {
        let Some(from) = behind(
            &self.blocks,
            &self.indices,
            &self.homes,
            prev,
            self.last.index,
        ) else {
            unreachable!()
        };
        let at = goes_to(&self.blocks, from, &id);
        self.homes.put(id, self.blocks[at.block].number());
        self.blocks[at.block].put(at.index, id);
        self.last = at;
    }

    /// Shows an item, or hides it; another id changes nothing. A binary search and a walk in one block, unless the item was inserted
    /// last.
    pub fn set_shown(&mut self, id: &OpId, shown: bool)
        ensures items { self.new.items ≡ self.old.items }
        ensures visible { (f : TheId → Bool) → self.old.visible ≡ filter f self.old.items
            → self.new.visible ≡ filter (λ a. cond (is_same_id a id.now) shown (f a)) self.old.items }
        ensures room { self.new.room ≡ self.old.room }
    {
        let Some(home) = self.homes.get(id) else {
            return;
        };
        let at = find(&self.blocks, &self.indices, home, id, self.last.index).unwrap();
        self.blocks[at.block].set_shown(at.index, shown);
    }

    /// The item with this index among those that are shown, `None` past the last. Looks at how many are shown in each block, and at
    /// the items of one.
    pub fn nth_visible(&self, index: usize) -> Option<OpId>
        ensures { result ≡ slice_get self.now.visible index }
    {
        nth_shown(&self.blocks, index)
    }

    /// Whether the id is one of the items. Binary search.
    pub fn contains(&self, id: &OpId) -> bool
        ensures { result ≡ has_item id.now self.now.items }
    {
        self.homes.get(id).is_some()
    }

    /// The items that are shown, in list order. Looks at each item of the blocks in which one is shown, tombstones included.
    ///
    /// # Errors
    /// `AllocError` if allocation fails.
    pub fn visible(&self, alloc: Global) -> Result<Vec<OpId>, AllocError>
        ensures { IfOk result (λ v. v.items ≡ self.now.visible) }
    {
        shown_items(&self.blocks, alloc)
    }

    /// The first of the items that are shown, at most `count`, in list order. Looks at how many are shown in each block up to the one that
    /// has the last of them, and at each item of those in which one is shown.
    ///
    /// # Errors
    /// `AllocError` if allocation fails.
    pub fn first_visible(&self, count: usize, alloc: Global) -> Result<Vec<OpId>, AllocError>
        ensures { IfOk result (λ v. v.items ≡ take count self.now.visible) }
    {
        first_shown(&self.blocks, count, alloc)
    }
}

/// Makes room for an item in the block that the last one went into, or in a list's first block.
///
/// # Errors
/// `AllocError` if allocation fails; then all stays.
fn make_room(
    blocks: &mut Vec<Block>,
    homes: &mut Homes,
    indices: &mut BlockIndices,
    last: Position,
) -> Result<(), AllocError>
    requires blocks { AreBlocks blocks.old.items homes.old.entries last.block }
    requires indexed { AreIndexed blocks.old.items indices.old.by_number }
    ensures same { IsSameList blocks.old.items blocks.new.items homes.new.entries last.block }
    ensures indexed { AreIndexed blocks.new.items indices.new.by_number }
    ensures room { OnOk result (0 < room_at blocks.new.items last.block) }
    ensures homes { homes.new.room ≡ homes.old.room }
{
    if blocks.is_empty() {
        return open(blocks, indices);
    }
    if blocks[last.block].len() < MOST {
        return reserve_in(blocks, last.block);
    }
    cut(blocks, homes, indices, last)
}

/// Gives an empty list its first block, with room for an item.
///
/// # Errors
/// `AllocError` if allocation fails.
fn open(blocks: &mut Vec<Block>, indices: &mut BlockIndices) -> Result<(), AllocError>
    requires none { blocks.old.items ≡ [] }
    requires indexed { AreIndexed blocks.old.items indices.old.by_number }
    ensures indexed { AreIndexed blocks.new.items indices.new.by_number }
    ensures same { (homes : List (TheId × ℕ)) (last : ℕ) → AreBlocks blocks.old.items homes last
        → IsSameList blocks.old.items blocks.new.items homes last }
    ensures room { (homes : List (TheId × ℕ)) (last : ℕ) → AreBlocks blocks.old.items homes last
        → OnOk result (0 < room_at blocks.new.items last) }
{
    let mut first = Block::new(0, *blocks.allocator());
    first.reserve_one()?;
    // Most lists are short, so there is room for this block alone.
    blocks.reserve_exact(1)?;
    indices.reserve_one()?;
    blocks.push_reserved(first);
    indices.make(0);
    Ok(())
}

/// Makes room for an item in a block.
///
/// # Errors
/// `AllocError` if allocation fails.
fn reserve_in(blocks: &mut Vec<Block>, block: usize) -> Result<(), AllocError>
    requires { block < length blocks.old.items }
    ensures same { (homes : List (TheId × ℕ)) → AreBlocks blocks.old.items homes block
        → IsSameList blocks.old.items blocks.new.items homes block }
    ensures indexed { (indices : List ℕ) → AreIndexed blocks.old.items indices → AreIndexed blocks.new.items indices }
    ensures room { OnOk result (0 < room_at blocks.new.items block) }
{
    blocks[block].reserve_one()
}

/// Cuts the block that the last item went into: at that item, so that a list that grows at its end has full blocks, or in the middle
/// where that is further back.
///
/// # Errors
/// `AllocError` if allocation fails; then all stays.
fn cut(
    blocks: &mut Vec<Block>,
    homes: &mut Homes,
    indices: &mut BlockIndices,
    last: Position,
) -> Result<(), AllocError>
    requires blocks { AreBlocks blocks.old.items homes.old.entries last.block }
    requires inside { last.block < length blocks.old.items }
    requires full { 512 ≤ length (items_at blocks.old.items last.block) }
    requires indexed { AreIndexed blocks.old.items indices.old.by_number }
    ensures indexed { AreIndexed blocks.new.items indices.new.by_number }
    ensures same { IsSameList blocks.old.items blocks.new.items homes.new.entries last.block }
    ensures room { OnOk result (0 < room_at blocks.new.items last.block) }
    ensures homes { homes.new.room ≡ homes.old.room }
{
    blocks.reserve(1)?;
    indices.reserve_one()?;
    let at = last.index.clamp(MOST / 2, MOST - 1);
    let number = blocks.len();
    let back = blocks[last.block].split_off(at, number)?;
    move_home(homes, &back);
    // There is room, so it isn't refused.
    let _ = blocks.insert(last.block + 1, back);
    indices.make(last.block + 1);
    Ok(())
}

/// Gives the items of a block its number as their home. A binary search for each.
fn move_home(homes: &mut Homes, block: &Block)
    requires { (a : TheId) → has_item a block.now.items ≡ true → IsSome (find id_cmp a homes.old.entries) }
    ensures moved { AreMoved block.now.items block.now.number homes.old.entries homes.new.entries }
    ensures room { homes.new.room ≡ homes.old.room }
{
    for index in 0..block.len() {
        homes.set(&block.at(index), block.number());
    }
}
