//! The keys of a map, in byte order.

ghost use Rattle.std.specs.Prelude.{◌≡◌, ◌⊎◌, ◌≤◌, ◌<◌, ◌+◌, ◌^◌, ℕ, [], Ok, length, Some, slice_get, slice_index_or};
ghost use Rattle.std.specs.Prelude.{IfErr, IfOk, IsTrue, MatchResult, OnOk};
ghost use Rattle.std.specs.declared.cmp.Ordering.TheVariants.{Less};
ghost use Rattle.std.specs.List.{insert};
ghost use Rattle.std.specs.FinMap.{put, is_sorted};
ghost use Rattle.semantics.specs.Elements.{Name, name_cmp};
ghost use Rattle.columns.specs.Keys.{AreNumbers, Finds, IsBetween};
ghost use Rattle.columns.specs.Prefix.{AreBytes, first_bytes};
ghost use Rattle.columns.specs.ShortKeys.{StandsFor};
ghost use Rattle.columns.specs.Rank.{GoesTo, as_set};

use crate::prefix::prefix_of;
use chunks::Chunks;
use cursor::Key;
use std::alloc::{AllocError, Global};
use std::cmp::Ordering;
use std::marker::Model;

/// Distinct keys in byte order. What belongs to each key is in the caller's own columns.
///
/// A key stays where it was put, and only its number and its prefix move. The prefix is its first eight bytes, kept with its number, so
/// that a search reads a key itself only if the prefixes tie (databases call them abbreviated keys). Contracts see the keys, the number of
/// each, and for how many more there is room.
#[derive(Debug, Drop)]
pub struct SortedKeys {
    /// In the order in which they were put.
    keys: Vec<Key>,
    /// For each position in byte order what stands for the key there.
    order: Chunks<ShortKey>,
}

/// What stands for a key in byte order.
#[derive(Clone, Copy, Debug, Drop)]
struct ShortKey {
    prefix: u64,
    /// How many keys were put before it.
    number: usize,
}

/// The positions from `low` on and below `high`, at which a key may stand; if it isn't there, `high` is the last one where it may belong.
#[derive(Clone, Copy)]
struct Span {
    low: usize,
    high: usize,
}

impl Model for SortedKeys {
    ghost use Rattle.std.specs.Prelude.{[], min, vec_len, vec_capacity, ◌-◌};
    ghost use Rattle.columns.specs.Keys.{AreOrdered, Keys, numbered};
    ghost use Rattle.columns.specs.Prefix.{ArePrefixes};
    ghost use Rattle.columns.specs.ShortKeys.{numbers_of, prefixes_of};

    ghost Value = { Keys };

    ghost view = { λ k. record {
      keys = numbered [] k.keys.items (numbers_of k.order.items);
      numbers = numbers_of k.order.items;
      room = min (vec_capacity k.keys - vec_len k.keys) k.order.room;
    } };

    ghost invariant = { λ k. AreOrdered k.keys.items (numbers_of k.order.items)
        × ArePrefixes (numbered [] k.keys.items (numbers_of k.order.items)) (prefixes_of k.order.items) };
}

impl SortedKeys {
    pub fn new(alloc: Global) -> SortedKeys
        ensures keys { result.keys ≡ [] }
        ensures numbers { result.numbers ≡ [] }
    {
        SortedKeys {
            keys: Vec::new(alloc),
            order: Chunks::new(alloc),
        }
    }

    /// How many keys there are.
    pub fn len(&self) -> usize
        ensures length { result ≡ length self.now.keys }
        ensures rising { IsTrue (is_sorted name_cmp (as_set self.now.keys)) }
    {
        self.keys.len()
    }

    /// The key at a position in byte order, and how many keys were put before it.
    pub fn at(&self, position: usize) -> (&Key, usize)
        requires { position < length self.now.keys }
        ensures key { slice_get self.now.keys position ≡ Some result.0.now }
        ensures number { slice_get self.now.numbers position ≡ Some result.1 }
    {
        let number = self.order.get(position).number;
        (&self.keys[number], number)
    }

    /// How many keys were put before the one at a position.
    pub fn number(&self, position: usize) -> usize
        requires { position < length self.now.keys }
        ensures number { slice_get self.now.numbers position ≡ Some result }
        ensures numbers { AreNumbers (length self.now.keys) self.now.numbers }
    {
        self.order.get(position).number
    }

    /// Makes room for one more key.
    ///
    /// # Errors
    /// `AllocError` if allocation fails.
    pub fn reserve_one(&mut self) -> Result<(), AllocError>
        ensures same { self.new.keys ≡ self.old.keys }
        ensures numbers { self.new.numbers ≡ self.old.numbers }
        ensures room { OnOk result (0 < self.new.room) }
        ensures kept { self.old.room ≤ self.new.room }
    {
        self.keys.reserve(1)?;
        self.order.reserve_one()
    }

    /// The position of a key, or `Err` with the one where it would be inserted, as `find_with_hint`.
    // Not inlined, while what it calls is: so nothing is counted, as nobody reads the count.
    #[inline(never)]
    pub fn find(&self, key: &Key, hint: usize) -> Result<usize, usize>
        ensures { Finds self.now.keys key.now result }
    {
        self.find_with_hint(key, hint, &mut 0)
    }

    /// The position of a key, or `Err` with the one where it would be inserted. Looks first at the key at `hint`, if there is one.
    ///
    /// Compares the key with at most as many others as their number has binary digits, and one more: with fewer than 2 to the k keys, at
    /// most k + 1. A key that stands at `hint` takes one comparison; one that goes in behind it mostly takes few. Each comparison adds
    /// 1 to `probes`.
    #[inline(always)]
    pub fn find_with_hint(&self, key: &Key, hint: usize, probes: &mut u64) -> Result<usize, usize>
        requires { probes.old ≤ 18446744073709551550 }
        ensures position { Finds self.now.keys key.now result }
        ensures few_probes { (k : ℕ) → length self.now.keys < 2 ^ k → probes.new ≤ probes.old + k + 1 }
        ensures hinted { slice_get self.now.keys hint ≡ Some key.now → probes.new ≡ probes.old + 1 }
        ensures any_probe { 0 < length self.now.keys → probes.old < probes.new }
        ensures counted { probes.old ≤ probes.new }
    {
        let prefix = prefix_of(key.as_str().as_bytes());
        // Kept in a register until the search ends.
        let mut count = *probes;
        let found = match self.narrow(key, prefix, hint, &mut count) {
            Ok(position) => Ok(position),
            Err(span) => self.search(key, prefix, span, &mut count),
        };
        *probes = count;
        found
    }

    /// Compares a key, of which this is the prefix, with the one at `hint`, if there is one. Returns the position of the key if it stands
    /// there, else `Err` with the positions among which it may stand or belong.
    #[inline(always)]
    fn narrow(&self, key: &Key, prefix: u64, hint: usize, probes: &mut u64) -> Result<usize, Span>
        requires prefix { prefix ≡ first_bytes 8 key.now }
        requires bytes { AreBytes key.now }
        requires few { probes.old ≤ 18446744073709551550 }
        ensures found { IfOk result (λ position. Finds self.now.keys key.now (Ok position)) }
        ensures between { IfErr result (λ span. IsBetween self.now.keys key.now span.low span.high) }
        ensures hinted { slice_get self.now.keys hint ≡ Some key.now → (result ≡ Ok hint) × (probes.new ≡ probes.old + 1) }
        ensures few_probes { probes.new ≤ probes.old + 1 }
        ensures counted { probes.old ≤ probes.new }
        ensures any_probe { MatchResult result (λ _. probes.old < probes.new)
            (λ span. 0 < length self.now.keys → (probes.old < probes.new) ⊎ (span.low < span.high)) }
    {
        let count = self.len();
        if hint >= count {
            return Err(Span {
                low: 0,
                high: count,
            });
        }
        *probes += 1;
        match self.compare(key, prefix, self.short_at(hint)) {
            Ordering::Less => Err(Span { low: 0, high: hint }),
            Ordering::Equal => Ok(hint),
            Ordering::Greater => {
                Err(Span {
                    low: hint + 1,
                    high: count,
                })
            }
        }
    }

    /// Searches a span for a key of which this is the prefix. Each comparison halves the bound on how many keys there are from `low` on,
    /// and looks as near to `low` as that allows.
    // Inlined at its only call, so that what it counts stays in a register.
    #[inline(always)]
    fn search(&self, key: &Key, prefix: u64, span: Span, probes: &mut u64) -> Result<usize, usize>
        requires prefix { prefix ≡ first_bytes 8 key.now }
        requires bytes { AreBytes key.now }
        requires between { IsBetween self.now.keys key.now span.low span.high }
        requires few { probes.old ≤ 18446744073709551551 }
        ensures position { Finds self.now.keys key.now result }
        ensures few_probes { (k : ℕ) → span.high < 2 ^ k → probes.new ≤ probes.old + k }
        ensures any_probe { span.low < span.high → probes.old < probes.new }
        ensures counted { probes.old ≤ probes.new }
    {
        let Span { low, high } = span;
        prove!(high <= self.len());
        let mut order = self.order.reader();
        let mut low = low;
        let mut high = high;
        let mut most = high;
        while low < high {
            most /= 2;
            let middle = between(low, high, most);
            *probes += 1;
            match self.compare(key, prefix, order.get(middle)) {
                Ordering::Less => high = middle,
                Ordering::Equal => return Ok(middle),
                Ordering::Greater => low = middle + 1,
            }
        }
        Err(low)
    }

    /// Puts a key that isn't there yet at the position that a search gives for it. Allocates nothing. An insert into `Chunks`.
    pub fn put(&mut self, position: usize, key: Key)
        requires position { GoesTo name_cmp key self.old.keys position }
        requires room { 0 < self.old.room }
        ensures keys { self.new.keys ≡ insert self.old.keys position key }
        ensures set { as_set self.new.keys ≡ put name_cmp key tt (as_set self.old.keys) }
        ensures numbers { self.new.numbers ≡ insert self.old.numbers position (length self.old.keys) }
        ensures room { self.old.room ≤ self.new.room + 1 }
    {
        let short = ShortKey {
            prefix: prefix_of(key.as_str().as_bytes()),
            number: self.keys.len(),
        };
        self.order.insert(position, short);
        self.keys.push_reserved(key);
    }

    /// What stands for the key at a position.
    #[inline(always)]
    fn short_at(&self, position: usize) -> &ShortKey
        requires { position < length self.now.keys }
        ensures { StandsFor self.now.keys self.now.numbers position result.now }
    {
        self.order.get(position)
    }

    /// Compares a key, of which this is the prefix, with another one of these, for which this stands.
    // Inlined, since a search does little else; the prefixes decide most comparisons.
    #[inline(always)]
    fn compare(&self, key: &Key, prefix: u64, other: &ShortKey) -> Ordering
        requires prefix { prefix ≡ first_bytes 8 key.now }
        requires bytes { AreBytes key.now }
        requires other { (position : ℕ) × StandsFor self.now.keys self.now.numbers position other.now }
        ensures { (position : ℕ) → StandsFor self.now.keys self.now.numbers position other.now
            → (d : Name) → result ≡ name_cmp key.now (slice_index_or self.now.keys position d) }
    {
        match prefix.cmp(&other.prefix) {
            Ordering::Equal => key.cmp(&self.keys[other.number]),
            apart => apart,
        }
    }
}

/// The first position, from `low` on, that has at most this many others between itself and `high`.
fn between(low: usize, high: usize, most: usize) -> usize
    requires apart { low < high }
    requires most { high ≤ low + most + most + 1 }
    ensures from { low ≤ result }
    ensures inside { result < high }
    ensures before { result ≤ low + most }
    ensures behind { high ≤ result + most + 1 }
{
    if high - low <= most {
        low
    } else {
        high - 1 - most
    }
}
