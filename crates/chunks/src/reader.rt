//! Reads of a list in chunks.

ghost use Rattle.std.specs.Prelude.{◌≡◌, ◌<◌, List, length, true, Some, slice_get};
ghost use Rattle.chunks.specs.Chunks.{IsIn, IsPart};

use crate::chunk::Chunk;
use crate::chunks::Chunks;
use std::marker::Model;

/// A chunk of a list, and the position of its first item.
#[derive(Clone, Copy)]
pub(crate) struct Part<'a, T> {
    pub start: usize,
    pub chunk: &'a Chunk<T>,
}

/// Reads items of a list one after another. Goes on in the chunk that was read last, where a position is in it, so that a search whose end
/// is in one chunk reads there as from a slice.
///
/// Contracts see the items of the list.
#[derive(Drop)]
pub struct Reader<'a, T> {
    place: Place<'a, T>,
}

/// Where a list is read.
#[derive(Drop)]
enum Place<'a, T> {
    /// In its only chunk.
    // A variant of its own, so that LLVM makes a loop of reads twice, and in the one for this no read asks for its chunk.
    Only(&'a [T]),
    Parts(PartReader<'a, T>),
}

/// Reads a list part by part. Contracts see the items of the list.
#[derive(Drop)]
struct PartReader<'a, T> {
    list: &'a Chunks<T>,
    /// The chunk that was read last.
    part: Part<'a, T>,
}

impl<'a, T> Model for Reader<'a, T> {
    ghost use Rattle.std.specs.Prelude.{List};
    ghost use Rattle.chunks.specs.Places.{read_list};

    ghost Value = { List T };

    ghost view = { λ r. read_list r.place };
}

impl<'a, T> Model for PartReader<'a, T> {
    ghost use Rattle.std.specs.Prelude.{List};
    ghost use Rattle.chunks.specs.Chunks.{IsPart};

    ghost Value = { List T };

    ghost view = { λ r. r.list.now.items };

    ghost invariant = { λ r. IsPart r.list.now.items r.part.start r.part.chunk.now.items };
}

impl<'a, T: Copy + Drop> Reader<'a, T> {
    /// Reads a list that has only these items, in one chunk.
    pub(crate) fn of_only(items: &'a [T]) -> Reader<'a, T>
        ensures { result ≡ items.now }
    {
        Reader {
            place: Place::Only(items),
        }
    }

    /// Reads this list, of which this is a part.
    pub(crate) fn of_parts(list: &'a Chunks<T>, part: Part<'a, T>) -> Reader<'a, T>
        requires { IsPart list.now.items part.start part.chunk.now.items }
        ensures { result ≡ list.now.items }
    {
        Reader {
            place: Place::Parts(PartReader { list, part }),
        }
    }

    /// The item at a position. Looks at a few chunks if it isn't in the one that was read last.
    #[inline(always)]
    pub fn get(&mut self, position: usize) -> &'a T
        requires { position < length self.old }
        ensures same { self.new ≡ self.old }
        ensures item { slice_get self.old position ≡ Some result.now }
    {
        match &mut self.place {
            Place::Only(items) => item(items, position),
            Place::Parts(reader) => reader.get(position),
        }
    }
}

impl<'a, T: Copy + Drop> PartReader<'a, T> {
    /// The item at a position.
    #[inline(always)]
    fn get(&mut self, position: usize) -> &'a T
        requires { position < length self.old }
        ensures same { self.new ≡ self.old }
        ensures item { slice_get self.old position ≡ Some result.now }
    {
        if !self.part.has(position) {
            self.part = part_with(self.list, position);
        }
        self.part.at(position)
    }
}

/// The chunk of a list in which a position is.
// Not inlined, so that a search has its own values in registers.
#[inline(never)]
fn part_with<T: Copy + Drop>(list: &Chunks<T>, position: usize) -> Part<'_, T>
    requires { position < length list.now.items }
    ensures here { IsIn position result.start result.chunk.now.items }
    ensures part { IsPart list.now.items result.start result.chunk.now.items }
{
    list.part(position)
}

/// The item at an index.
#[inline(always)]
fn item<'a, T>(items: &'a [T], index: usize) -> &'a T
    requires { index < length items.now }
    ensures { slice_get items.now index ≡ Some result.now }
{
    &items[index]
}

impl<'a, T: Copy + Drop> Part<'a, T> {
    /// Whether a position is in it.
    #[inline(always)]
    fn has(&self, position: usize) -> bool
        ensures yes { result ≡ true → IsIn position self.now.start self.now.chunk.now.items }
    {
        position >= self.start && position - self.start < self.chunk.len()
    }

    /// The item at a position of the list.
    #[inline(always)]
    pub fn at(&self, position: usize) -> &'a T
        requires { IsIn position self.now.start self.now.chunk.now.items }
        ensures { (list : List T) → IsPart list self.now.start self.now.chunk.now.items → slice_get list position ≡ Some result.now }
    {
        self.chunk.at(position - self.start)
    }
}
