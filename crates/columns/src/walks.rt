//! Walks over the blocks of a list.

ghost use Rattle.std.specs.Prelude.{◌≡◌, ◌<◌, ◌≤◌, ℕ, length, Some, true, false, slice_get, take, IfOk, MatchOption};
ghost use Rattle.semantics.specs.Context.{has_item, has_position};
ghost use Rattle.columns.specs.Blocks.{AreApart, AreIndexed, AreHomes, GoesIn, IsBehind, IsFound, ListBlock, items_at, joined};
ghost use Rattle.columns.specs.Blocks.{joined_shown};

use crate::block::Block;
use crate::block_indices::BlockIndices;
use crate::homes::Homes;
use ids::OpId;
use std::alloc::{AllocError, Global};

/// A position in a list: the index of a block, and one in it, which may be its end.
#[derive(Clone, Copy, Debug)]
pub(crate) struct Position {
    pub block: usize,
    pub index: usize,
}

/// The position of an item whose home is this block's number. Looks at the block's item at `hint` first, and then at the others.
pub(crate) fn find(
    blocks: &[Block],
    indices: &BlockIndices,
    home: usize,
    id: &OpId,
    hint: usize,
) -> Option<Position>
    requires apart { AreApart (joined blocks.now) }
    requires indexed { AreIndexed blocks.now indices.now.by_number }
    requires home { (block : ℕ) (r : ListBlock) → slice_get blocks.now block ≡ Some r → has_item id.now r.items ≡ true → r.number ≡ home }
    ensures { IsFound blocks.now id.now result }
{
    let block = indices.of(home)?;
    let index = blocks[block].position(id, hint)?;
    Some(Position { block, index })
}

/// The position after an item, or after the head, at which an insert after it begins. Looks for the item as `find` does.
pub(crate) fn behind(
    blocks: &[Block],
    indices: &BlockIndices,
    homes: &Homes,
    item: Option<OpId>,
    hint: usize,
) -> Option<Position>
    requires apart { AreApart (joined blocks.now) }
    requires homes { AreHomes blocks.now homes.now.entries }
    requires indexed { AreIndexed blocks.now indices.now.by_number }
    ensures { MatchOption result (has_position item (joined blocks.now) ≡ false) (λ at. IsBehind blocks.now item at.block at.index) }
{
    let Some(id) = item else {
        return Some(Position { block: 0, index: 0 });
    };
    let home = homes.get(&id)?;
    let at = find(blocks, indices, home, &id, hint)?;
    prove!(at.index < blocks[at.block].len());
    Some(Position {
        block: at.block,
        index: at.index + 1,
    })
}

/// The position of a new item whose insert begins at this one: past each item that isn't smaller. Looks at one id of a block whose items
/// are all greater.
pub(crate) fn goes_to(blocks: &[Block], from: Position, id: &OpId) -> Position
    requires inside { from.block < length blocks.now }
    requires within { from.index ≤ length (items_at blocks.now from.block) }
    ensures { GoesIn blocks.now id.now from.block from.index result.block result.index }
{
    let mut start = from.index;
    for block in from.block..blocks.len() {
        if let Some(index) = blocks[block].first_smaller(start, id) {
            return Position { block, index };
        }
        start = 0;
    }
    let last = blocks.len() - 1;
    Position {
        block: last,
        index: blocks[last].len(),
    }
}

/// The shown item with this index, counted from 0. Looks at how many are shown in each block up to there, and at the flags of one.
pub(crate) fn nth_shown(blocks: &[Block], index: usize) -> Option<OpId>
    ensures { result ≡ slice_get (joined_shown blocks.now) index }
{
    let mut left = index;
    for block in blocks {
        if left < block.shown() {
            return block.nth_shown(left);
        }
        left -= block.shown();
    }
    None
}

/// The shown items, in list order.
///
/// # Errors
/// `AllocError` if allocation fails.
pub(crate) fn shown_items(blocks: &[Block], alloc: Global) -> Result<Vec<OpId>, AllocError>
    ensures { IfOk result (λ v. v.items ≡ joined_shown blocks.now) }
{
    let mut items = Vec::new(alloc);
    for block in blocks {
        block.push_shown(&mut items)?;
    }
    Ok(items)
}

/// The first of the shown items, at most `count`, in list order. Looks at how many are shown in each block up to the one that
/// has the last of them, and at each item of those in which one is shown.
///
/// # Errors
/// `AllocError` if allocation fails.
pub(crate) fn first_shown(
    blocks: &[Block],
    count: usize,
    alloc: Global,
) -> Result<Vec<OpId>, AllocError>
    ensures { IfOk result (λ v. v.items ≡ take count (joined_shown blocks.now)) }
{
    let mut items = Vec::new(alloc);
    for block in blocks {
        if items.len() >= count {
            break;
        }
        block.push_shown(&mut items)?;
    }
    items.truncate(count);
    Ok(items)
}
