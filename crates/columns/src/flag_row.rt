//! Flags in a row, with a search for the next raised one that looks at many at a time.

ghost use Rattle.std.specs.Prelude.{◌≡◌, ◌≤◌, ◌<◌, ◌+◌, ℕ, [], length, true, false, Some, slice_get, slice_index, slice_set, OnOk};
ghost use Rattle.std.specs.List.{insert};
ghost use Rattle.memchr.specs.Find.{is_byte};

use memchr::memchr;
use rings::Rings;
use std::alloc::{AllocError, Global};
use std::marker::Model;

/// The bytes of a raised and of a lowered flag.
const RAISED: u8 = 1;

const LOWERED: u8 = 0;

/// Flags in a row, a byte for each.
///
/// Contracts see the flags, and for how many more there is room.
#[derive(Debug, Drop)]
pub struct FlagRow {
    bytes: Rings<u8>,
}

impl Model for FlagRow {
    ghost use Rattle.std.specs.Prelude.{map};
    ghost use Rattle.memchr.specs.Find.{is_byte};
    ghost use Rattle.columns.specs.Flagged.{Row};

    ghost Value = { Row };

    ghost view = { λ r. record { flags = map (is_byte 1) r.bytes.items; room = r.bytes.room } };
}

impl FlagRow {
    /// Returns an empty row. Allocates nothing.
    pub fn new(alloc: Global) -> FlagRow
        ensures { result.flags ≡ [] }
    {
        FlagRow {
            bytes: Rings::new(alloc),
        }
    }

    /// Makes room for one more flag.
    ///
    /// # Errors
    /// `AllocError` if allocation fails; the flags stay as they are.
    pub fn reserve_one(&mut self) -> Result<(), AllocError>
        ensures same { self.new.flags ≡ self.old.flags }
        ensures room { OnOk result (0 < self.new.room) }
        ensures kept { self.old.room ≤ self.new.room }
    {
        self.bytes.reserve_one()
    }

    /// Inserts a lowered flag at this position. Allocates nothing. One insert into `Rings`.
    pub fn insert_lowered(&mut self, position: usize)
        requires within { position ≤ length self.old.flags }
        requires room { 0 < self.old.room }
        ensures flags { self.new.flags ≡ insert self.old.flags position false }
        ensures room { self.old.room ≤ self.new.room + 1 }
    {
        self.bytes.insert(position, LOWERED);
    }

    /// Raises or lowers the flag at this position, in constant time.
    pub fn set(&mut self, position: usize, flag: bool)
        requires { position < length self.old.flags }
        ensures flags { self.new.flags ≡ slice_set self.old.flags position flag }
        ensures room { self.new.room ≡ self.old.room }
    {
        let _old = self.bytes.replace(position, byte_of(flag));
    }

    /// Returns the first position from this one on at which a flag is raised, or how many flags there are if none is. Looks at many
    /// flags at a time.
    pub fn next_raised(&self, from: usize) -> usize
        requires { from ≤ length self.now.flags }
        ensures from { from ≤ result }
        ensures within { result ≤ length self.now.flags }
        ensures passed { (i : ℕ) → from ≤ i → i < result → slice_get self.now.flags i ≡ Some false }
        ensures raised { result < length self.now.flags → slice_get self.now.flags result ≡ Some true }
    {
        next_in(&self.bytes, from)
    }
}

/// The byte of a flag.
fn byte_of(flag: bool) -> u8
    ensures { is_byte 1 result ≡ flag }
{
    if flag { RAISED } else { LOWERED }
}

/// Returns the first position from this one on whose byte is that of a raised flag, or how many bytes there are if none is.
fn next_in(bytes: &Rings<u8>, from: usize) -> usize
    requires { from ≤ length bytes.now.items }
    ensures from { from ≤ result }
    ensures within { result ≤ length bytes.now.items }
    ensures passed { (i : ℕ) → from ≤ i → i < result → is_byte 1 (slice_index bytes.now.items i) ≡ false }
    ensures raised { result < length bytes.now.items → is_byte 1 (slice_index bytes.now.items result) ≡ true }
{
    let mut at = from;
    while at < bytes.len() {
        let run = bytes.run(at);
        match memchr(RAISED, run) {
            Some(index) => return at + index,
            None => at += run.len(),
        }
    }
    at
}
