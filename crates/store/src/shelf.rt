//! A store, and how much is known of what it has.

ghost use Rattle.std.specs.Prelude.{◌≡◌, ◌≢◌, ◌≤◌, ◌⊎◌, false, true, length, Err, IfErr, IfOk, IfSome, OnOk, MatchResult};
ghost use Rattle.std.specs.Io.KnownBytes.{append_known};
ghost use Rattle.store.specs.declared.fault.Fault.TheVariants.{MustStartAgain};
ghost use Rattle.store.specs.Shelves.{IsInSight, first_known};
ghost use Rattle.store.specs.declared.shelf.Put.TheVariants.{Done, Undone};
ghost use Rattle.store.specs.declared.store.StoreFailed.{StoreFailed};

use crate::fault::{Fault, Unopened};
use crate::store::{Store, StoreFailed};
use std::io::ErrorKind;
use std::marker::Model;

/// A store to which lines are appended. Contracts see the bytes that it has and those that survive a loss of power, if the store says so,
/// and whether they are lost from sight: a sync or a cut failed, so it isn't known what would survive. Otherwise all that it has survives.
#[derive(Drop)]
pub struct Shelf<S: Store> {
    store: S,
    /// How many bytes it has, unless they are lost from sight.
    length: u64,
    is_lost: bool,
}

impl<S: Store> Model for Shelf<S> {
    ghost use Rattle.store.specs.Shelves.{IsShelf, Shelf};

    ghost Value = { Shelf };

    ghost view = { λ s. record { held = S.contents s.store; synced = S.synced s.store; is_lost = s.is_lost } };

    ghost invariant = { λ s. IsShelf s.length
        (record { held = S.contents s.store; synced = S.synced s.store; is_lost = s.is_lost }) };
}

impl<S: Store> Shelf<S> {
    /// Cuts a store that has `count` bytes to its first `whole` bytes, and makes sure that those survive a loss of power.
    ///
    /// # Errors
    /// `Store` if the store fails, with the store.
    pub fn of(store: S, whole: usize, count: usize) -> Result<Shelf<S>, Unopened<S>>
        requires whole { whole ≤ count }
        requires known { IfSome (S.contents store) (λ xs. length xs ≡ count) }
        ensures { IfOk result
            (λ s. (s.is_lost ≡ false) × (s.held ≡ first_known whole (S.contents store)) × (s.synced ≡ s.held)) }
    {
        let mut store = store;
        match keep_first(&mut store, whole, count) {
            Ok(()) => Ok(Shelf {
                store,
                length: whole as u64,
                is_lost: false,
            }),
            Err(failed) => Err(Unopened {
                store,
                why: Fault::Store(failed),
            }),
        }
    }

    /// Tests that it is known what the store has.
    ///
    /// # Errors
    /// `MustStartAgain` if it isn't.
    pub fn check(&self) -> Result<(), Fault>
        ensures { MatchResult result (λ _. self.now.is_lost ≡ false) (λ why. (why ≡ MustStartAgain) × (self.now.is_lost ≡ true)) }
    {
        if self.is_lost {
            return Err(Fault::MustStartAgain);
        }
        Ok(())
    }

    /// Appends lines to what the store has, and makes sure that all of it survives a loss of power. Appends and syncs nothing if there are
    /// no lines.
    ///
    /// # Errors
    /// `MustStartAgain` if what the store has is lost from sight, by this call or before. Else `Store` if it failed, or if it would have
    /// 2^64 bytes or more: it has what it had.
    pub fn put(&mut self, lines: &[u8]) -> Result<(), Fault>
        ensures ok { OnOk result
            ((self.new.held ≡ append_known self.old.held lines.now) × (self.new.synced ≡ self.new.held) × (self.new.is_lost ≡ false)) }
        ensures err { IfErr result
            (λ why. ((why ≡ MustStartAgain) × (self.new.is_lost ≡ true))
            ⊎ ((why ≢ MustStartAgain) × (self.new.is_lost ≡ false) × (self.new ≡ self.old))) }
        ensures lost { self.old.is_lost ≡ true → (result ≡ Err MustStartAgain) × (self.new ≡ self.old) }
    {
        self.check()?;
        if lines.is_empty() {
            return Ok(());
        }
        let Some(length) = self.length.checked_add(lines.len() as u64) else {
            return Err(Fault::Store(StoreFailed {
                kind: ErrorKind::FileTooLarge,
            }));
        };
        match put_into(&mut self.store, self.length, lines) {
            Put::Done => {
                self.length = length;
                Ok(())
            }
            Put::Undone(failed) => Err(Fault::Store(failed)),
            Put::Lost => {
                self.is_lost = true;
                Err(Fault::MustStartAgain)
            }
        }
    }

    /// The store, as it is.
    pub fn into_store(self) -> S
        ensures { (S.contents result ≡ self.held) × (S.synced result ≡ self.synced) }
    {
        let Shelf {
            store,
            length: _,
            is_lost: _,
        } = self;
        store
    }
}

/// The outcome of appending lines to a store.
#[derive(Clone, Copy)]
enum Put {
    /// They are there, and survive.
    Done,
    /// The store has what it had.
    Undone(StoreFailed),
    /// It isn't known what the store has.
    Lost,
}

/// Appends lines to the `count` bytes that a store has, all of which survive, and syncs it.
fn put_into<S: Store>(store: &mut S, count: u64, lines: &[u8]) -> Put
    requires { IsInSight count (S.contents store.old) (S.synced store.old) }
    ensures done { result ≡ Done
        → (S.contents store.new ≡ append_known (S.contents store.old) lines.now) × (S.synced store.new ≡ S.contents store.new) }
    ensures undone { (why : StoreFailed) → result ≡ Undone why
        → (S.contents store.new ≡ S.contents store.old) × (S.synced store.new ≡ S.synced store.old) }
{
    if let Err(failed) = store.append(lines) {
        return match store.cut(count) {
            Ok(()) => Put::Undone(failed),
            Err(_) => Put::Lost,
        };
    }
    if store.sync().is_err() {
        return Put::Lost;
    }
    Put::Done
}

/// Cuts a store to its first bytes, and makes sure that they survive.
fn keep_first<S: Store>(store: &mut S, whole: usize, count: usize) -> Result<(), StoreFailed>
    requires whole { whole ≤ count }
    requires known { IfSome (S.contents store.old) (λ xs. length xs ≡ count) }
    ensures { OnOk result
        ((S.contents store.new ≡ first_known whole (S.contents store.old)) × (S.synced store.new ≡ S.contents store.new)) }
{
    if whole < count {
        store.cut(whole as u64)?;
    }
    store.sync()
}
