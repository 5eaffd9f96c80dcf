//! A desk on a store that is read first.

use crate::desk::Desk;
use ids::{Refusal, ReplicaId};
use session::Unfit;
use std::alloc::Global;
use std::random::RandomSource;
use store::{Fault, Journal, Store, draw_number};

/// Why a document can't be served.
#[derive(Clone, Copy, Debug, PartialEq, Eq)]
pub enum NotServed {
    NoMemory,
    /// The store can't be read, cut or synced, or no random number can be drawn.
    CannotOpen,
    /// Its own commands are of another number: this one.
    OtherNumber(ReplicaId),
    /// A line, counted from 1, doesn't fit, and why: the store was changed, or doesn't hold a journal.
    Damaged(u64, Unfit),
}

/// A desk on a store, as the replica of this number if one is given, else of the number of the store's own commands, else of a random one.
///
/// # Errors
/// As `NotServed` says. The store is dropped.
pub fn start<R: RandomSource, S: Store + Drop>(
    rt: &R,
    alloc: Global,
    store: S,
    number: Option<ReplicaId>,
) -> Result<Desk<S>, NotServed> {
    let journal = match Journal::read(alloc, store) {
        Ok(journal) => journal,
        Err(unopened) => return Err(reason(&unopened.why)),
    };
    let own = own_number(rt, alloc, &journal, number)?;
    match Desk::open(alloc, own, journal) {
        Ok(desk) => Ok(desk),
        Err(unopened) => Err(reason(&unopened.why)),
    }
}

/// The number of the replica that resumes from a journal.
fn own_number<R: RandomSource, S: Store>(
    rt: &R,
    alloc: Global,
    journal: &Journal<S>,
    number: Option<ReplicaId>,
) -> Result<ReplicaId, NotServed> {
    let own = match journal.own(alloc) {
        Ok(own) => own,
        Err(why) => return Err(reason(&why)),
    };
    let Some(own) = own else {
        return match number {
            Some(number) => Ok(number),
            None => drawn(rt),
        };
    };
    if let Some(number) = number {
        if number != own {
            return Err(NotServed::OtherNumber(own));
        }
    }
    Ok(own)
}

/// A random number.
fn drawn<R: RandomSource>(rt: &R) -> Result<ReplicaId, NotServed> {
    match draw_number(rt) {
        Ok(own) => Ok(own),
        Err(why) => Err(reason(&why)),
    }
}

/// Why a document can't be served, given a fault of its store.
fn reason(fault: &Fault) -> NotServed {
    match fault {
        Fault::Refused(Refusal::NoMemory) | Fault::Held => NotServed::NoMemory,
        Fault::Damaged { line, why } => NotServed::Damaged(*line, *why),
        Fault::Refused(_) | Fault::Store(_) | Fault::MustStartAgain => NotServed::CannotOpen,
    }
}
