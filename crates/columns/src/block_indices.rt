//! Finding a block by its number.

ghost use Rattle.std.specs.Prelude.{◌≡◌, ◌<◌, [], length, slice_get, OnOk};
ghost use Rattle.std.specs.List.{All};
ghost use Rattle.columns.specs.Blocks.{AreMovedOn, IsMadeAt};

use std::alloc::{AllocError, Global};
use std::marker::Model;

/// The index of each block of a list, by the block's number, so that an item is found without looking at other blocks. Contracts see the
/// indices, and for how many more blocks there is room.
#[derive(Debug, Drop)]
pub(crate) struct BlockIndices {
    by_number: Vec<usize>,
}

impl Model for BlockIndices {
    ghost use Rattle.std.specs.Prelude.{◌-◌, vec_len, vec_capacity};
    ghost use Rattle.columns.specs.Blocks.{Indices};

    ghost Value = { Indices };

    ghost view = { λ p. record { by_number = p.by_number.items; room = vec_capacity p.by_number - vec_len p.by_number } };
}

impl BlockIndices {
    /// Returns the indices of no blocks. Allocates nothing.
    pub fn new(alloc: Global) -> BlockIndices
        ensures { result.by_number ≡ [] }
    {
        BlockIndices {
            by_number: Vec::new(alloc),
        }
    }

    /// The index of the block with this number, `None` if there is no such block.
    pub fn of(&self, number: usize) -> Option<usize>
        ensures { result ≡ slice_get self.now.by_number number }
    {
        self.by_number.get(number).copied()
    }

    /// Makes room for one more block.
    ///
    /// # Errors
    /// `AllocError` if allocation fails.
    pub fn reserve_one(&mut self) -> Result<(), AllocError>
        ensures same { self.new.by_number ≡ self.old.by_number }
        ensures room { OnOk result (0 < self.new.room) }
    {
        self.by_number.reserve_exact(1)
    }

    /// Gives the next number to a block that is inserted at an index; the indices from there on increase by one. Allocates nothing. Looks
    /// at each block.
    pub fn make(&mut self, index: usize)
        requires room { 0 < self.old.room }
        requires within { All (λ p. p < length self.old.by_number) self.old.by_number }
        ensures { IsMadeAt self.old.by_number index self.new.by_number }
    {
        move_on(&mut self.by_number, index);
        self.by_number.push_reserved(index);
    }
}

/// Adds 1 to each index from this one on.
fn move_on(indices: &mut [usize], index: usize)
    requires { All (λ p. p < length indices.old) indices.old }
    ensures { AreMovedOn indices.old index indices.new }
{
    for number in 0..indices.len() {
        if indices[number] >= index {
            indices[number] += 1;
        }
    }
}
