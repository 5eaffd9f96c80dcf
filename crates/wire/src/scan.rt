//! The bytes of a line, taken apart in the one form in which an operation is written, of either profile.
//!
//! These methods needn't be right, since what they find is written again and compared: commas, tags and the end of a line are barely
//! checked. Each takes a number of steps bounded by its part of the line, plus the base where a vector is relative to one, and none calls
//! itself.

ghost use Rattle.std.specs.Bool.{OnTrue};
ghost use Rattle.ids.specs.Vectors.{AreBelow, IsCanonical};

use crate::deltas::behind;
use crate::escapes::{closed_at, unescaped};
use ids::{MOST_NAMED, NamedVector, OpId, ReplicaId};
use memchr::{memchr, memmem};
use operation::{Hop, Key, MOST_KEYS, Mutation, Op, Place, Scalar, Val};
use std::alloc::Global;

/// The most digits of a 64-bit number.
const MOST_DIGITS: usize = 20;

/// The most pairs that can differ between two vectors.
const MOST_CHANGES: usize = 2 * MOST_NAMED;

/// The remaining bytes of a line. Each method takes its part off the front, or gives up.
#[derive(Drop)]
pub(crate) struct Scan<'a> {
    rest: &'a [u8],
    /// Whether a byte of the line is escaped.
    has_escapes: bool,
}

impl<'a> Scan<'a> {
    /// All bytes of a line.
    pub(crate) fn new(line: &'a [u8]) -> Scan<'a> {
        Scan {
            rest: line,
            has_escapes: memchr(b'\\', line).is_some(),
        }
    }

    /// The operation with its whole vector. `None` if the line has another form, or if allocation fails.
    pub(crate) fn op(&mut self, alloc: Global) -> Option<Op> {
        self.bytes(b"[\"op\",")?;
        let id = self.id()?;
        let deps = self.vector(alloc)?;
        self.op_with(alloc, id, deps)
    }

    /// The operation whose vector is written as what changed from a base. `None` as above.
    pub(crate) fn op_beside(&mut self, alloc: Global, base: &[OpId]) -> Option<Op>
        requires { IsCanonical base.now }
    {
        self.bytes(b"[\"op2\",")?;
        let id = self.id()?;
        let deps = self.changed_vector(alloc, base)?;
        self.op_with(alloc, id, deps)
    }

    /// The operation with this id and vector.
    fn op_with(&mut self, alloc: Global, id: OpId, deps: NamedVector) -> Option<Op> {
        let place = self.place(alloc)?;
        let mutation = self.mutation(alloc)?;
        Some(Op {
            id,
            deps,
            place,
            mutation,
        })
    }

    /// Counter and replica.
    fn id(&mut self) -> Option<OpId> {
        let (counter, replica) = self.two_numbers()?;
        id_of(counter, replica)
    }

    /// The vector, after its comma. Reserves for all its pairs at once.
    fn vector(&mut self, alloc: Global) -> Option<NamedVector> {
        self.bytes(b",[")?;
        let mut vector = NamedVector::with_capacity(alloc, self.count_pairs()?).ok()?;
        let mut last = 0;
        for _ in 0..MOST_NAMED {
            if self.peek()? == b']' {
                break;
            }
            let id = self.pair()?;
            let replica = id.replica.number();
            if replica <= last || id.counter == 0 {
                return None;
            }
            vector.push(id).ok()?;
            last = replica;
            self.takes(b',');
        }
        self.byte(b']')?;
        Some(vector)
    }

    /// The vector that the changes make of a base, after their comma: pairs whose counter may be 0. Passes both once, and reserves once.
    fn changed_vector(&mut self, alloc: Global, base: &[OpId]) -> Option<NamedVector> {
        self.bytes(b",[")?;
        let most = base.len().saturating_add(self.count_pairs()?);
        let mut vector = NamedVector::with_capacity(alloc, most.min(MOST_NAMED)).ok()?;
        let mut rest = base;
        for _ in 0..MOST_CHANGES {
            if self.peek()? == b']' {
                break;
            }
            let change = self.pair()?;
            rest = put_before(&mut vector, rest, change.replica)?;
            put(&mut vector, change)?;
            self.takes(b',');
        }
        self.byte(b']')?;
        put_all(&mut vector, rest)?;
        Some(vector)
    }

    /// How many pairs a vector has: the opening brackets before the first two closing ones in a row.
    fn count_pairs(&self) -> Option<usize> {
        if self.peek()? == b']' {
            return Some(0);
        }
        let end = memmem::find(self.rest, b"]]")?;
        let opened = self.rest[..end]
            .iter()
            .filter(|byte| **byte == b'[')
            .count();
        Some(opened.min(MOST_NAMED))
    }

    /// Replica and counter.
    fn pair(&mut self) -> Option<OpId> {
        let (replica, counter) = self.two_numbers()?;
        id_of(counter, replica)
    }

    /// The numbers of a list of two.
    fn two_numbers(&mut self) -> Option<(u64, u64)> {
        self.byte(b'[')?;
        let first = self.number()?;
        self.byte(b',')?;
        let second = self.number()?;
        self.byte(b']')?;
        Some((first, second))
    }

    /// The place of a path and its last key, after their comma.
    fn place(&mut self, alloc: Global) -> Option<Place> {
        let mut hops = Vec::new(alloc);
        let is_head = self.hops(alloc, &mut hops)?;
        Place::new(hops, is_head).ok()
    }

    /// Appends the hops of a path and of its last key. Returns whether that key is a head's.
    fn hops(&mut self, alloc: Global, hops: &mut Vec<Hop>) -> Option<bool> {
        self.bytes(b",[")?;
        for _ in 0..MOST_KEYS {
            if self.peek()? == b']' {
                break;
            }
            self.part(alloc, hops)?;
            self.takes(b',');
        }
        self.bytes(b"],")?;
        self.key(alloc, hops)
    }

    /// Appends the hop of a part of a path. The tag is skipped: the next key implies it.
    fn part(&mut self, alloc: Global, hops: &mut Vec<Hop>) -> Option<()> {
        self.bytes(b"[\"")?;
        if !self.takes(b'm') {
            self.byte(b'l')?;
        }
        self.bytes(b"\",")?;
        self.key(alloc, hops)?;
        self.byte(b']')
    }

    /// Appends the hop of a key; the root and a head have none. Returns whether the key is a head's.
    fn key(&mut self, alloc: Global, hops: &mut Vec<Hop>) -> Option<bool> {
        if self.takes(b'0') {
            return Some(false);
        }
        if self.takes(b'1') {
            return Some(true);
        }
        let hop = self.hop(alloc)?;
        if hops.push(hop).is_err() {
            return None;
        }
        Some(false)
    }

    /// The hop to an item or a field.
    fn hop(&mut self, alloc: Global) -> Option<Hop> {
        if self.peek()? == b'[' {
            return Some(Hop::Item(self.id()?));
        }
        Some(Hop::Field(self.name(alloc)?))
    }

    /// The mutation, after its comma, up to the end of its value. What ends the line is left.
    fn mutation(&mut self, alloc: Global) -> Option<Mutation> {
        self.bytes(b",[\"")?;
        if self.takes(b'd') {
            return Some(Mutation::Delete);
        }
        if self.takes(b'i') {
            return Some(Mutation::Insert(self.value(alloc)?));
        }
        self.byte(b'a')?;
        Some(Mutation::Assign(self.value(alloc)?))
    }

    /// The value, after the end of its word.
    fn value(&mut self, alloc: Global) -> Option<Val> {
        self.bytes(b"\",")?;
        match self.peek()? {
            b'"' => self.string(alloc),
            b'{' => Some(Val::EmptyMap),
            b'[' => Some(Val::EmptyList),
            b'n' => Some(Val::Scalar(Scalar::Null)),
            b't' => Some(Val::Scalar(Scalar::Bool(true))),
            b'f' => Some(Val::Scalar(Scalar::Bool(false))),
            _ => Some(Val::Scalar(Scalar::Whole(self.whole()?))),
        }
    }

    /// A whole number, unless it is the least.
    fn whole(&mut self) -> Option<i64> {
        let is_negative = self.takes(b'-');
        let number = i64::try_from(self.number()?).ok()?;
        if is_negative {
            return number.checked_neg();
        }
        Some(number)
    }

    /// A field's name.
    fn name(&mut self, alloc: Global) -> Option<Key> {
        let text = self.text()?;
        if !self.is_escaped(text) {
            return Key::new(alloc, str::from_utf8(text).ok()?).ok();
        }
        let text = unescaped(alloc, text)?;
        Key::new(alloc, str::from_utf8(&text).ok()?).ok()
    }

    /// A text as a value.
    fn string(&mut self, alloc: Global) -> Option<Val> {
        let text = self.text()?;
        if !self.is_escaped(text) {
            return Val::text(alloc, str::from_utf8(text).ok()?).ok();
        }
        let text = unescaped(alloc, text)?;
        Val::text(alloc, str::from_utf8(&text).ok()?).ok()
    }

    /// The bytes of a text as written between its quotes.
    fn text(&mut self) -> Option<&'a [u8]> {
        self.byte(b'"')?;
        let rest = self.rest;
        let end = if self.has_escapes {
            closed_at(rest)?
        } else {
            memchr(b'"', rest)?
        };
        self.rest = &rest[end + 1..];
        Some(&rest[..end])
    }

    /// Whether a byte of this text is escaped.
    fn is_escaped(&self, text: &[u8]) -> bool {
        self.has_escapes && memchr(b'\\', text).is_some()
    }

    /// A number, up to the first byte that isn't a digit.
    fn number(&mut self) -> Option<u64> {
        let mut rest = self.rest;
        let mut number = 0_u64;
        for _ in 0..=MOST_DIGITS {
            let (first, others) = rest.split_first()?;
            let digit = first.wrapping_sub(b'0');
            if digit > 9 {
                self.rest = rest;
                return Some(number);
            }
            number = number.checked_mul(10)?.checked_add(u64::from(digit))?;
            rest = others;
        }
        None
    }

    /// Takes these bytes.
    fn bytes(&mut self, bytes: &[u8]) -> Option<()> {
        self.rest = self.rest.strip_prefix(bytes)?;
        Some(())
    }

    /// Takes this byte.
    fn byte(&mut self, byte: u8) -> Option<()> {
        self.takes(byte).then_some(())
    }

    /// Whether this byte came next; takes it then.
    fn takes(&mut self, byte: u8) -> bool {
        match self.rest.split_first() {
            Some((first, others)) if *first == byte => {
                self.rest = others;
                true
            }
            _ => false,
        }
    }

    /// The next byte, without taking it.
    fn peek(&self) -> Option<u8> {
        self.rest.first().copied()
    }
}

fn id_of(counter: u64, replica: u64) -> Option<OpId> {
    let replica = ReplicaId::new(u32::try_from(replica).ok()?)?;
    Some(OpId { counter, replica })
}

/// Appends the pairs of the replicas below this one to the vector. Returns those of the replicas above it.
fn put_before<'a>(
    vector: &mut NamedVector,
    pairs: &'a [OpId],
    replica: ReplicaId,
) -> Option<&'a [OpId]> {
    let mut rest = pairs;
    while let Some((first, others)) = rest.split_first() {
        if first.replica >= replica {
            break;
        }
        put(vector, *first)?;
        rest = others;
    }
    Some(behind(rest, replica))
}

/// Appends pairs to the vector.
fn put_all(vector: &mut NamedVector, pairs: &[OpId]) -> Option<()> {
    for pair in pairs {
        put(vector, *pair)?;
    }
    Some(())
}

/// Appends a pair to the vector, unless its counter is 0. `None` if the vector has no room, or if its replica isn't above theirs.
fn put(vector: &mut NamedVector, pair: OpId) -> Option<()> {
    if pair.counter == 0 {
        return Some(());
    }
    let ids = vector.ids();
    if ids.len() >= MOST_NAMED || !is_above(ids, pair.replica) {
        return None;
    }
    vector.push(pair).ok()
}

/// Whether the replica is above all that these pairs name.
fn is_above(pairs: &[OpId], replica: ReplicaId) -> bool
    requires { IsCanonical pairs.now }
    ensures { OnTrue result (AreBelow replica pairs.now) }
{
    match pairs.split_last() {
        None => true,
        Some((last, _)) => last.replica < replica,
    }
}
