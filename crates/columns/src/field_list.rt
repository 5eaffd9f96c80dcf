//! Keys in byte order, each with a number.

ghost use Rattle.std.specs.Prelude.{◌≡◌, ◌≤◌, ◌<◌, ◌+◌, ℕ, [], length, true, false, Some, None, slice_get, MatchOption, IsTrue, OnOk};
ghost use Rattle.std.specs.FinMap.{find, put, is_sorted};
ghost use Rattle.semantics.specs.Elements.{Name, name_cmp};

use crate::flag_row::FlagRow;
use crate::sorted_keys::SortedKeys;
use cursor::Key;
use std::alloc::{AllocError, Global};
use std::marker::Model;

/// A finite map from keys to numbers, with a flag for each key.
///
/// Contracts see the entries and the flags, each in byte order of their keys, and for how many more keys there is room.
#[derive(Debug, Drop)]
pub struct FieldList {
    keys: SortedKeys,
    /// The number of each key, in the order in which the keys were put.
    numbers: Vec<usize>,
    /// The flag of the key at each position in byte order.
    flags: FlagRow,
    /// Where the last key was put or sought. The next one is often the same, or goes in behind it.
    hint: usize,
}

impl Model for FieldList {
    ghost use Rattle.std.specs.Prelude.{◌≡◌, ◌-◌, length, min, vec_len, vec_capacity};
    ghost use Rattle.std.specs.List.{zip};
    ghost use Rattle.semantics.specs.Elements.{Name};
    ghost use Rattle.columns.specs.Keys.{AreFields, numbered};
    ghost use Rattle.columns.specs.Flagged.{Flagged};

    ghost Value = { Flagged Name };

    ghost view = { λ f. record {
      entries = zip f.keys.keys (numbered 0 f.numbers.items f.keys.numbers);
      flags = zip f.keys.keys f.flags.flags;
      room = min f.keys.room (min (vec_capacity f.numbers - vec_len f.numbers) f.flags.room);
    } };

    ghost invariant = { λ f. AreFields f.keys f.numbers.items × (length f.flags.flags ≡ length f.keys.keys) };
}

impl FieldList {
    pub fn new(alloc: Global) -> FieldList
        ensures entries { result.entries ≡ [] }
        ensures flags { result.flags ≡ [] }
    {
        FieldList {
            keys: SortedKeys::new(alloc),
            numbers: Vec::new(alloc),
            flags: FlagRow::new(alloc),
            hint: 0,
        }
    }

    /// How many fields there are.
    pub fn len(&self) -> usize
        ensures length { result ≡ length self.now.entries }
        ensures rising { IsTrue (is_sorted name_cmp self.now.entries) }
    {
        self.keys.len()
    }

    /// The key at a position in byte order, and its number.
    pub fn at(&self, position: usize) -> (&Key, usize)
        requires { position < length self.now.entries }
        ensures { slice_get self.now.entries position ≡ Some (result.0.now, result.1) }
    {
        let (key, number) = self.keys.at(position);
        (key, self.numbers[number])
    }

    /// The number of a key. Binary search, unless it is the last one that was put or sought.
    pub fn get(&self, key: &Key) -> Option<usize>
        ensures { result ≡ find name_cmp key.now self.now.entries }
    {
        let (_, number) = self.locate(key)?;
        Some(number)
    }

    /// The position of a key in byte order, and its number. Binary search, unless it is the last one that was put or sought.
    pub fn locate(&self, key: &Key) -> Option<(usize, usize)>
        ensures { MatchOption result (find name_cmp key.now self.now.entries ≡ None)
            (λ r. (slice_get self.now.entries r.0 ≡ Some (key.now, r.1)) × (find name_cmp key.now self.now.entries ≡ Some r.1)) }
    {
        match self.keys.find(key, self.hint) {
            Ok(position) => Some((position, self.numbers[self.keys.number(position)])),
            Err(_) => None,
        }
    }

    /// The number of a key, as `get`. Until another key is put or sought, finding this one takes one comparison, and putting it a few,
    /// unless it goes in before all others.
    pub fn seek(&mut self, key: &Key) -> Option<usize>
        ensures number { result ≡ find name_cmp key.now self.old.entries }
        ensures entries { self.new.entries ≡ self.old.entries }
        ensures flags { self.new.flags ≡ self.old.flags }
        ensures room { self.new.room ≡ self.old.room }
    {
        match self.keys.find(key, self.hint) {
            Ok(position) => {
                self.hint = position;
                Some(self.numbers[self.keys.number(position)])
            }
            Err(position) => {
                self.hint = position.saturating_sub(1);
                None
            }
        }
    }

    /// Raises or lowers the flag of the key at a position in byte order, in constant time.
    pub fn set_flag(&mut self, position: usize, flag: bool)
        requires { position < length self.old.entries }
        ensures entries { self.new.entries ≡ self.old.entries }
        ensures flags { (n : Name) (i : ℕ) → slice_get self.old.entries position ≡ Some (n, i)
            → self.new.flags ≡ put name_cmp n flag self.old.flags }
        ensures room { self.new.room ≡ self.old.room }
    {
        prove!(position < self.keys.len());
        self.flags.set(position, flag);
    }

    /// The first position in byte order, from this one on, of a key whose flag is raised, or how many fields there are if none is.
    /// Looks at many flags at a time, and at no key.
    pub fn next_flagged(&self, from: usize) -> usize
        requires { from ≤ length self.now.entries }
        ensures from { from ≤ result }
        ensures within { result ≤ length self.now.entries }
        ensures passed { (i : ℕ) (n : Name) (j : ℕ) → from ≤ i → i < result → slice_get self.now.entries i ≡ Some (n, j)
            → find name_cmp n self.now.flags ≡ Some false }
        ensures flagged { (n : Name) (j : ℕ) → slice_get self.now.entries result ≡ Some (n, j)
            → find name_cmp n self.now.flags ≡ Some true }
    {
        prove!(from <= self.keys.len());
        self.flags.next_raised(from)
    }

    /// Makes room for one more field.
    ///
    /// # Errors
    /// `AllocError` if allocation fails.
    pub fn reserve_one(&mut self) -> Result<(), AllocError>
        ensures same { self.new.entries ≡ self.old.entries }
        ensures flags { self.new.flags ≡ self.old.flags }
        ensures room { OnOk result (0 < self.new.room) }
        ensures kept { self.old.room ≤ self.new.room }
    {
        self.keys.reserve_one()?;
        self.numbers.reserve(1)?;
        self.flags.reserve_one()
    }

    /// Puts a key that isn't there yet, with its number and a lowered flag. Allocates nothing. A binary search, unless it goes in behind
    /// the last one that was put or sought, an insert into `Chunks` and one into `Rings`.
    pub fn put(&mut self, key: Key, number: usize)
        requires new { find name_cmp key self.old.entries ≡ None }
        requires room { 0 < self.old.room }
        ensures entries { self.new.entries ≡ put name_cmp key number self.old.entries }
        ensures flags { self.new.flags ≡ put name_cmp key false self.old.flags }
        ensures unflagged { find name_cmp key self.old.flags ≡ None }
        ensures room { self.old.room ≤ self.new.room + 1 }
    {
        let Err(position) = self.keys.find(&key, self.hint) else {
            unreachable!()
        };
        self.keys.put(position, key);
        self.numbers.push_reserved(number);
        self.flags.insert_lowered(position);
        self.hint = position;
    }
}
