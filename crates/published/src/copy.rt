//! What each of the two copies holds, and how an entry gets there.

ghost use Rattle.std.specs.Prelude.{◌≡◌, ◌∷◌, IsTrue, IsFalse, MatchResult, is_none};
ghost use Rattle.ids.specs.Tables.{lacks_room};
ghost use Rattle.semantics.specs.Joining.{table_after};
ghost use Rattle.semantics.specs.Faults.{StandsAlone};
ghost use Rattle.semantics.specs.Stamped.{MayFollow};
ghost use Rattle.semantics.specs.Entries.{applied};
ghost use Rattle.document.specs.operation.Alone.{alone_fault_of_op};
ghost use Rattle.document.specs.operation.Ops.{entry_of, op_in, stamped_of};
ghost use Rattle.document.specs.Lawful.{is_lawful};

use crate::book::Point;
use document::{Document, Entry, Op, check_alone};
use left_right::Absorb;
use std::alloc::{AllocError, Global};
use std::marker::Model;

/// A document, and the point of the history that it represents. That the two agree is the rule of the copies.
#[derive(Drop)]
pub struct Copy {
    pub alloc: Global,
    pub document: Document,
    pub point: Point,
}

impl Model for Copy {
    ghost use Rattle.std.specs.Coded.{codes};
    ghost use Rattle.semantics.specs.Codes.{coded_element};
    ghost use Rattle.published.specs.Copies.{Snapshot};

    ghost Value = { Snapshot };

    ghost coded = { Prim.hlevel (codes, coded_element) };

    ghost view = { λ c. record { table = c.document.members; entries = c.document.entries; log = c.point.log; book = c.point.book } };
}

/// An entry that is appended and not yet published, and the point after it.
#[derive(Drop)]
pub struct Pending {
    pub entry: Entry,
    pub after: Point,
}

impl Model for Pending {
    ghost use Rattle.std.specs.Coded.{codes};
    ghost use Rattle.semantics.specs.Codes.{coded_element};
    ghost use Rattle.published.specs.Copies.{Pending};

    ghost Value = { Pending };

    ghost coded = { Prim.hlevel (codes, coded_element) };

    ghost view = { λ w. record { entry = w.entry; log = w.after.log; book = w.after.book } };
}

impl Absorb<Pending> for Copy {
    type State = Copy;

    ghost use Rattle.published.specs.Copies.{applied_to};

    ghost state = { λ c. c };

    ghost applied = { applied_to };

    /// Absorbs a clone of the entry, if it is lawful. This is for the first of the two copies; the entry itself goes to the second.
    fn absorb_first(&mut self, operation: &Pending, _other: &Copy) -> Result<(), AllocError> {
        if !is_lawful(&self.document, operation.entry.op()) {
            return Ok(());
        }
        let entry = operation.entry.clone()?;
        if append(self.alloc, &mut self.document, entry).is_err() {
            return Err(AllocError);
        }
        self.point = operation.after.again();
        Ok(())
    }

    /// Absorbs the entry itself, if it is lawful.
    fn absorb_second(&mut self, operation: Pending, _other: &Copy) -> Result<(), Pending> {
        let Pending { entry, after } = operation;
        if !is_lawful(&self.document, entry.op()) {
            return Ok(());
        }
        match append(self.alloc, &mut self.document, entry) {
            Ok(()) => {
                self.point = after;
                Ok(())
            }
            Err(entry) => Err(Pending { entry, after }),
        }
    }
}

/// Whether the operation passes every test of a received one. Absorbing can't rely on a promise of its caller: the crate of the copies
/// calls it with whatever was appended. The publisher's invariant shows that each entry passes.
fn is_lawful(document: &Document, op: &Op) -> bool
    ensures tests { result ≡ is_lawful document.now.members document.now.entries op.now }
    ensures lawful { IsTrue result → MayFollow (applied document.now.entries) (stamped_of op.now) }
    ensures fits { IsTrue result → IsFalse (lacks_room (table_after document.now.members document.now.entries) op.now.id.replica) }
{
    stands_alone(op) && document.ready(op) && document.check(op).is_ok()
}

/// Whether the operation passes the tests that need no history.
fn stands_alone(op: &Op) -> bool
    ensures tests { result ≡ is_none (alone_fault_of_op op.now) }
    ensures alone { IsTrue result → StandsAlone (stamped_of op.now) }
{
    check_alone(op).is_ok()
}

/// Appends an entry whose operation may follow.
///
/// # Errors
/// The entry, if allocation fails; the document is then unchanged.
fn append(alloc: Global, document: &mut Document, entry: Entry) -> Result<(), Entry>
    requires lawful { MayFollow (applied document.old.entries) (stamped_of (op_in entry)) }
    requires fits { IsFalse (lacks_room (table_after document.old.members document.old.entries) (op_in entry).id.replica) }
    ensures members { document.new.members ≡ document.old.members }
    ensures entries { MatchResult result (λ _. document.new.entries ≡ entry_of entry ∷ document.old.entries)
        (λ e. (e ≡ entry) × (document.new.entries ≡ document.old.entries)) }
{
    if document.reserve(alloc, entry.op()).is_err() {
        return Err(entry);
    }
    document.commit(entry);
    Ok(())
}
