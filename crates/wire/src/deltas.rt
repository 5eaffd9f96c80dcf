//! What changed from one vector, the base, to another: a pair for each replica whose counter differs, with the counter 0 if it isn't named
//! any more. Both vectors are passed once, side by side.

ghost use Rattle.std.specs.Prelude.{◌≡◌, ◌==◌, ◌<◌, ◌∷◌, ℕ, if◌then◌else◌, MatchOption};
ghost use Rattle.ids.specs.Vectors.{IsCanonical, at};
ghost use Rattle.semantics.specs.Ids.{OpId, id_at};
ghost use Rattle.semantics.specs.Vectors.{Vector};
ghost use Rattle.wire.specs.Deltas.{BeginsFrom, IsRising, behind, changed, delta, few_of, with_counter};
ghost use Rattle.wire.specs.Forms.{IsRead};

use ids::{MOST_NAMED, NamedVector, OpId, Refusal, ReplicaId};
use std::alloc::Global;
use std::marker::Model;

/// The remaining differences of a vector from a base, the lowest replica first.
#[derive(Drop)]
pub(crate) struct Differences<'a> {
    base: &'a [OpId],
    ids: &'a [OpId],
}

impl<'a> Model for Differences<'a> {
    ghost use Rattle.ids.specs.Vectors.{IsCanonical};
    ghost use Rattle.semantics.specs.Vectors.{Vector};
    ghost use Rattle.wire.specs.Deltas.{delta};

    ghost Value = { Vector };

    ghost view = { λ d. delta d.base.now d.ids.now };

    ghost invariant = { λ d. IsCanonical d.base.now × IsCanonical d.ids.now };
}

impl<'a> Differences<'a> {
    /// All differences of these ids from a base.
    pub(crate) fn new(base: &'a [OpId], ids: &'a [OpId]) -> Differences<'a>
        requires base { IsCanonical base.now }
        requires ids { IsCanonical ids.now }
        ensures { result ≡ delta base.now ids.now }
    {
        Differences { base, ids }
    }
}

impl<'a> Iterator for Differences<'a> {
    ghost use Rattle.std.specs.Iterator.{YieldsFirst, item_count};

    type Item = OpId;

    ghost next_gives = { YieldsFirst (λ left. left) };

    ghost remaining = { item_count (λ left. left) };

    fn next(&mut self) -> Option<OpId> {
        while let Some((id, others)) = self.ids.split_first() {
            let Some((before, rest)) = self.base.split_first() else {
                self.ids = others;
                return Some(*id);
            };
            if before.replica < id.replica {
                self.base = rest;
                return Some(not_named(before));
            }
            self.ids = others;
            if id.replica < before.replica {
                return Some(*id);
            }
            self.base = rest;
            if id.counter != before.counter {
                return Some(*id);
            }
        }
        let (before, rest) = self.base.split_first()?;
        self.base = rest;
        Some(not_named(before))
    }
}

/// The pair of a replica that isn't named any more.
fn not_named(id: &OpId) -> OpId
    ensures { result ≡ id_at 0 id.now.replica }
{
    OpId {
        counter: 0,
        replica: id.replica,
    }
}

/// The remaining pairs of a base with its changes, the lowest replica first.
#[derive(Drop)]
struct ChangedPairs<'a> {
    base: &'a [OpId],
    changes: &'a [OpId],
}

impl<'a> Model for ChangedPairs<'a> {
    ghost use Rattle.ids.specs.Vectors.{IsCanonical};
    ghost use Rattle.semantics.specs.Vectors.{Vector};
    ghost use Rattle.wire.specs.Deltas.{IsRising, changed};

    ghost Value = { Vector };

    ghost view = { λ c. changed c.base.now c.changes.now };

    ghost invariant = { λ c. IsCanonical c.base.now × IsRising c.changes.now };
}

impl<'a> ChangedPairs<'a> {
    /// All pairs of a base with these changes.
    fn new(base: &'a [OpId], changes: &'a [OpId]) -> ChangedPairs<'a>
        requires base { IsCanonical base.now }
        requires changes { IsRising changes.now }
        ensures { result ≡ changed base.now changes.now }
    {
        ChangedPairs { base, changes }
    }
}

impl<'a> Iterator for ChangedPairs<'a> {
    ghost use Rattle.std.specs.Iterator.{YieldsFirst, item_count};

    type Item = OpId;

    ghost next_gives = { YieldsFirst (λ left. left) };

    ghost remaining = { item_count (λ left. left) };

    fn next(&mut self) -> Option<OpId> {
        while let Some((change, others)) = self.changes.split_first() {
            if let Some((before, rest)) = split_below(self.base, change.replica) {
                self.base = rest;
                return Some(*before);
            }
            self.base = behind(self.base, change.replica);
            self.changes = others;
            if change.counter > 0 {
                return Some(*change);
            }
        }
        let (before, rest) = self.base.split_first()?;
        self.base = rest;
        Some(*before)
    }
}

/// The first pair and the others, if the first one's replica is below this one.
fn split_below(ids: &[OpId], replica: ReplicaId) -> Option<(&OpId, &[OpId])>
    ensures { MatchOption result (BeginsFrom replica ids.entry.now)
        (λ p. (ids.entry.now ≡ p.0.now ∷ p.1.now) × (p.0.now.replica < replica)) }
{
    let (first, others) = ids.split_first()?;
    if first.replica < replica {
        return Some((first, others));
    }
    None
}

/// The pairs after the first one, if that is of this replica; else all.
pub(crate) fn behind(ids: &[OpId], replica: ReplicaId) -> &[OpId]
    ensures { result.now ≡ behind replica ids.entry.now }
{
    match ids.split_first() {
        Some((first, others)) if first.replica == replica => others,
        _ => ids,
    }
}

/// The vector that these changes make of a base. Passes both once, and reserves once.
///
/// # Errors
/// `BadLine` if it has more than 256 pairs, or `NoMemory` if allocation fails.
pub(crate) fn changed(
    alloc: Global,
    base: &[OpId],
    changes: &[OpId],
) -> Result<NamedVector, Refusal>
    requires base { IsCanonical base.now }
    requires changes { IsRising changes.now }
    ensures { IsRead (λ v. v) result (few_of (changed base.now changes.now)) }
{
    let most = base.len().saturating_add(changes.len());
    let mut vector = NamedVector::with_capacity(alloc, most.min(MOST_NAMED))?;
    for id in ChangedPairs::new(base, changes) {
        if vector.ids().len() >= MOST_NAMED {
            return Err(Refusal::BadLine);
        }
        vector.push(id)?;
    }
    Ok(vector)
}

/// A canonical vector is its base with its differences; a change sets its replica's counter, and leaves the others.
pub fn vectors_are_their_differences()
    ensures counters { (a : OpId) (v : Vector) (p : ℕ) → IsCanonical v
        → at (with_counter a v) p ≡ (if a.replica == p then a.counter else at v p) }
    ensures vectors { (base v : Vector) → IsCanonical base → IsCanonical v → changed base (delta base v) ≡ v }
{}
