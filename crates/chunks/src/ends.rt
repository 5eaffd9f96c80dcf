//! Where the chunks of a list end.

ghost use Rattle.std.specs.Prelude.{◌≡◌, ◌≤◌, ◌<◌, ◌++◌, suc, [], length, map, take, drop, IfSome, OnOk, slice_index_or};
ghost use Rattle.std.specs.List.{All, insert};
ghost use Rattle.chunks.specs.Chunks.{IsSpot, start_of};

use rings::insert_reserved;
use std::alloc::{AllocError, Global};
use std::marker::Model;

/// The guide has an entry for each position that is a multiple of this.
const STEP: usize = 64;

/// The index of a chunk, and one in it.
#[derive(Clone, Copy, Debug)]
pub(crate) struct Spot {
    pub chunk: usize,
    pub index: usize,
}

/// Where each chunk of a list ends: the position behind its last item.
///
/// Contracts see the ends, and for how many more there is room.
#[derive(Debug, Drop)]
pub(crate) struct Ends {
    ends: Vec<usize>,
    /// For each 64th position the chunk that it was in when this was made, which mostly is that of the positions behind it too. Where it
    /// isn't, a search goes from there step by step. Made anew when a chunk comes in, and after each 64 items that go into one, so these
    /// are few steps.
    guide: Vec<usize>,
}

impl Model for Ends {
    ghost use Rattle.std.specs.Prelude.{◌-◌, vec_len, vec_capacity};
    ghost use Rattle.chunks.specs.Chunks.{EndsOf};

    ghost Value = { EndsOf };

    ghost view = { λ e. record { ends = e.ends.items; room = vec_capacity e.ends - vec_len e.ends } };
}

impl Ends {
    /// Those of no chunks. Allocates nothing.
    pub fn new(alloc: Global) -> Ends
        ensures { result.ends ≡ [] }
    {
        Ends {
            ends: Vec::new(alloc),
            guide: Vec::new(alloc),
        }
    }

    /// The position behind the last chunk, 0 if there is none.
    pub fn last(&self) -> usize
        ensures { result ≡ start_of self.now.ends (length self.now.ends) }
    {
        start(&self.ends, self.ends.len())
    }

    /// Where a chunk begins.
    pub fn start(&self, chunk: usize) -> usize
        requires { chunk ≤ length self.now.ends }
        ensures { result ≡ start_of self.now.ends chunk }
    {
        start(&self.ends, chunk)
    }

    /// The chunk in which a position is, and the index in it, if the guide names that chunk, as it mostly does.
    #[inline(always)]
    pub fn guided(&self, position: usize) -> Option<Spot>
        ensures { IfSome result (λ spot. IsSpot self.now.ends position spot) }
    {
        let chunk = *self.guide.get(position / STEP)?;
        spot_in(&self.ends, chunk, position)
    }

    /// The chunk in which a position is, and the index in it. Looks at a few chunks.
    pub fn spot(&self, position: usize) -> Spot
        requires { position < start_of self.now.ends (length self.now.ends) }
        ensures { IsSpot self.now.ends position result }
    {
        let near = match self.guide.get(position / STEP) {
            Some(chunk) => *chunk,
            None => self.ends.len(),
        };
        find(&self.ends, near, position)
    }

    /// Makes room for one more chunk.
    ///
    /// # Errors
    /// `AllocError` if allocation fails.
    pub fn reserve_one(&mut self) -> Result<(), AllocError>
        ensures same { self.new.ends ≡ self.old.ends }
        ensures room { OnOk result (0 < self.new.room) }
    {
        self.ends.reserve(1)
    }

    /// Inserts the end of a chunk. Allocates nothing.
    pub fn insert(&mut self, chunk: usize, end: usize)
        requires within { chunk ≤ length self.old.ends }
        requires room { 0 < self.old.room }
        ensures { self.new.ends ≡ insert self.old.ends chunk end }
    {
        insert_reserved(&mut self.ends, chunk, end);
        self.guide.clear();
    }

    /// Moves the ends of a chunk and of those behind it one further.
    pub fn move_on(&mut self, chunk: usize)
        requires within { chunk ≤ length self.old.ends }
        requires few { All (λ e. e < 18_446_744_073_709_551_615) self.old.ends }
        ensures { self.new.ends ≡ take chunk self.old.ends ++ map suc (drop chunk self.old.ends) }
    {
        add_one(&mut self.ends[chunk..]);
    }

    /// Makes the guide anew where it is too short.
    ///
    /// # Errors
    /// `AllocError` if allocation fails.
    pub fn renew_guide(&mut self) -> Result<(), AllocError>
        ensures same { self.new.ends ≡ self.old.ends }
    {
        if self.guide.len() > start(&self.ends, self.ends.len()) / STEP {
            return Ok(());
        }
        make_guide(&mut self.guide, &self.ends)
    }
}

/// Where a chunk begins: where the one before it ends.
fn start(ends: &[usize], chunk: usize) -> usize
    requires { chunk ≤ length ends.now }
    ensures { result ≡ start_of ends.now chunk }
{
    if chunk == 0 { 0 } else { ends[chunk - 1] }
}

/// The index of a position in a chunk, if it is in this one.
#[inline(always)]
fn spot_in(ends: &[usize], chunk: usize, position: usize) -> Option<Spot>
    ensures { IfSome result (λ spot. IsSpot ends.now position spot) }
{
    let end = *ends.get(chunk)?;
    let start = start(ends, chunk);
    if start <= position && position < end {
        Some(Spot {
            chunk,
            index: position - start,
        })
    } else {
        None
    }
}

/// The chunk in which a position is, and the index in it. Goes from chunk to chunk, beginning near this one.
fn find(ends: &[usize], near: usize, position: usize) -> Spot
    requires { position < start_of ends.now (length ends.now) }
    ensures { IsSpot ends.now position result }
{
    let first = back_to(ends, near, position);
    let mut chunk = first;
    while ends[chunk] <= position {
        chunk += 1;
    }
    Spot {
        chunk,
        index: position - start(ends, chunk),
    }
}

/// The last chunk, from this one backwards, that begins at a position or before it.
fn back_to(ends: &[usize], near: usize, position: usize) -> usize
    requires { position < start_of ends.now (length ends.now) }
    ensures inside { result < length ends.now }
    ensures from { start_of ends.now result ≤ position }
{
    let mut chunk = near.min(ends.len() - 1);
    while start(ends, chunk) > position {
        chunk -= 1;
    }
    chunk
}

/// Adds 1 to each.
fn add_one(ends: &mut [usize])
    requires { All (λ e. e < 18_446_744_073_709_551_615) ends.old }
    ensures { ends.new ≡ map suc ends.old }
{
    for chunk in 0..ends.len() {
        ends[chunk] += 1;
    }
}

/// Makes the guide anew: for each 64th position the chunk in which it is.
///
/// # Errors
/// `AllocError` if allocation fails.
fn make_guide(guide: &mut Vec<usize>, ends: &[usize]) -> Result<(), AllocError> {
    guide.clear();
    for chunk in 0..ends.len() {
        guide.resize(ends[chunk].div_ceil(STEP), chunk)?;
    }
    Ok(())
}
