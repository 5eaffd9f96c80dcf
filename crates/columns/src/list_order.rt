//! The order of a list (RGA).

ghost use Rattle.std.specs.Prelude.{◌≡◌, ◌≤◌, ◌<◌, ◌+◌, Bool, cond, [], IsTrue, IsFalse, IfOk, OnOk, slice_get, take};
ghost use Rattle.std.specs.List.{filter};
ghost use Rattle.semantics.specs.Ids.{OpId as TheId, is_same_id};
ghost use Rattle.semantics.specs.Context.{insert_after, has_item, has_position};

use crate::order_blocks::OrderBlocks;
use ids::OpId;
use std::alloc::{AllocError, Global};
use std::marker::Model;

/// The order of the items of a list, tombstones included, as RGA has it, and which of them are shown.
///
/// Most elements have no list, so the items are behind a box that the first `reserve_one` makes: 16 bytes until then. They are in blocks of
/// at most 512, so a walk goes from block to block.
///
/// Contracts see the items in their order, those of them that are shown, and whether there is room for one more.
#[derive(Debug, Drop)]
pub struct ListOrder {
    blocks: Option<Box<OrderBlocks>>,
    alloc: Global,
}

impl Model for ListOrder {
    ghost use Rattle.std.specs.Prelude.{option_map};
    ghost use Rattle.columns.specs.Orders.{Order, order_or_empty};

    ghost Value = { Order };

    ghost view = { λ o. order_or_empty (option_map (λ blocks. blocks.value) o.blocks) };
}

impl ListOrder {
    /// Returns the order of an empty list. Allocates nothing.
    pub fn new(alloc: Global) -> ListOrder
        ensures items { result.items ≡ [] }
        ensures visible { result.visible ≡ [] }
    {
        ListOrder {
            blocks: None,
            alloc,
        }
    }

    /// Makes room for one more item. If the block that the last one went into is full, splits it, which costs a binary search for each item
    /// that gets another block, and a look at each block's index.
    ///
    /// # Errors
    /// `AllocError` if allocation fails.
    pub fn reserve_one(&mut self) -> Result<(), AllocError>
        ensures same { self.new.items ≡ self.old.items }
        ensures visible { self.new.visible ≡ self.old.visible }
        ensures room { OnOk result (0 < self.new.room) }
        ensures kept { self.old.room ≤ self.new.room }
    {
        match &mut self.blocks {
            None => {
                let blocks = first_blocks(self.alloc)?;
                self.blocks = Some(blocks);
                Ok(())
            }
            Some(blocks) => blocks.reserve_one(),
        }
    }

    /// Inserts a new item after `prev`, or after the head, past each following item with a greater id: the skipping rule of RGA. It isn't
    /// shown yet.
    ///
    /// Allocates nothing. Finds `prev` by a binary search and a walk in one block, unless it was inserted last, and skips a block of
    /// greater items after a look at one id. Shifts the items behind the new one in its block.
    pub fn insert_after(&mut self, prev: Option<OpId>, id: OpId)
        requires prev { IsTrue (has_position prev self.old.items) }
        requires id { IsFalse (has_item id self.old.items) }
        requires room { 0 < self.old.room }
        ensures items { self.new.items ≡ insert_after prev id self.old.items }
        ensures visible { self.new.visible ≡ self.old.visible }
        ensures room { self.old.room ≤ self.new.room + 1 }
    {
        match &mut self.blocks {
            None => unreachable!(),
            Some(blocks) => blocks.insert_after(prev, id),
        }
    }

    /// Shows or hides an item; an id that isn't an item's changes nothing. A binary search and a walk in one block, unless the item was
    /// inserted last.
    pub fn set_shown(&mut self, id: &OpId, shown: bool)
        ensures items { self.new.items ≡ self.old.items }
        ensures visible { (f : TheId → Bool) → self.old.visible ≡ filter f self.old.items
            → self.new.visible ≡ filter (λ a. cond (is_same_id a id.now) shown (f a)) self.old.items }
        ensures room { self.new.room ≡ self.old.room }
    {
        match &mut self.blocks {
            None => {}
            Some(blocks) => blocks.set_shown(id, shown),
        }
    }

    /// The item with this index among those that are shown, `None` past the last. Looks at how many are shown in each block, and at
    /// the items of one.
    pub fn nth_visible(&self, index: usize) -> Option<OpId>
        ensures { result ≡ slice_get self.now.visible index }
    {
        match &self.blocks {
            None => None,
            Some(blocks) => blocks.nth_visible(index),
        }
    }

    /// Whether the id is one of the items. Binary search.
    pub fn contains(&self, id: &OpId) -> bool
        ensures { result ≡ has_item id.now self.now.items }
    {
        match &self.blocks {
            None => false,
            Some(blocks) => blocks.contains(id),
        }
    }

    /// The items that are shown, in list order. Looks at each item of the blocks in which one is shown, tombstones included.
    ///
    /// # Errors
    /// `AllocError` if allocation fails.
    pub fn visible(&self, alloc: Global) -> Result<Vec<OpId>, AllocError>
        ensures { IfOk result (λ v. v.items ≡ self.now.visible) }
    {
        match &self.blocks {
            None => Ok(Vec::new(alloc)),
            Some(blocks) => blocks.visible(alloc),
        }
    }

    /// The first of the items that are shown, at most `count`, in list order. Looks at how many are shown in each block up to the one that
    /// has the last of them, and at each item of those in which one is shown.
    ///
    /// # Errors
    /// `AllocError` if allocation fails.
    pub fn first_visible(&self, count: usize, alloc: Global) -> Result<Vec<OpId>, AllocError>
        ensures { IfOk result (λ v. v.items ≡ take count self.now.visible) }
    {
        match &self.blocks {
            None => Ok(Vec::new(alloc)),
            Some(blocks) => blocks.first_visible(count, alloc),
        }
    }
}

/// Empty blocks with room for an item.
///
/// # Errors
/// `AllocError` if allocation fails.
fn first_blocks(alloc: Global) -> Result<Box<OrderBlocks>, AllocError>
    ensures items { IfOk result (λ blocks. blocks.value.items ≡ []) }
    ensures visible { IfOk result (λ blocks. blocks.value.visible ≡ []) }
    ensures room { IfOk result (λ blocks. 0 < blocks.value.room) }
{
    let mut blocks = Box::new(alloc, OrderBlocks::new(alloc))?;
    blocks.reserve_one()?;
    Ok(blocks)
}
