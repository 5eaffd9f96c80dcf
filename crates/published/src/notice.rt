//! The names of engines, and notices of what was published.

ghost use Rattle.std.specs.Prelude.{◌≡◌, length};
ghost use Rattle.semantics.specs.Entries.{IsEntryHistory};
ghost use Rattle.document.specs.oplog.Logs.{history};
ghost use Rattle.published.specs.Beginnings.{IsHistoryOfEngine};

use crate::book::Point;
use std::marker::{Brand, Model, PhantomData};

/// The name of an engine, in proofs alone: the logbook of its history, its own replica number, and its members in ascending order. The
/// caller that opens an engine picks a type for it; whatever carries the same name is of the same engine.
pub trait EngineName {
    ghost use Rattle.std.specs.Prelude.{ℕ, List};
    ghost use Rattle.logbook.specs.Pages.{Book};

    ghost book: { Book };

    ghost own: { ℕ };

    ghost table: { List ℕ };
}

/// These values hold only if no caller picks others: the caller of `open` picks them so that its `requires` hold.
impl EngineName for Brand {
    ghost use Rattle.std.specs.Prelude.{[]};

    ghost book = { record { number = 0; log_name = 0; cells_name = 0 } };

    ghost own = { 0 };

    ghost table = { [] };
}

/// Proof that a beginning of engine N's history was published. It is a counter; any token of the engine may learn it.
/// Contracts see the entries, the newest first, which are an entry history.
#[derive(Drop)]
pub struct Notice<N: EngineName> {
    point: Point,
    of: PhantomData<N>,
}

impl<N: EngineName> Model for Notice<N> {
    ghost use Rattle.std.specs.Prelude.{◌≡◌, List};
    ghost use Rattle.std.specs.Coded.{codes};
    ghost use Rattle.semantics.specs.Codes.{coded_element};
    ghost use Rattle.semantics.specs.Entries.{Entry as TheEntry};
    ghost use Rattle.document.specs.oplog.Logs.{history};
    ghost use Rattle.published.specs.Beginnings.{IsHistoryOfEngine};

    ghost Value = { List TheEntry };

    ghost coded = { Prim.hlevel (codes, coded_element) };

    ghost view = { λ n. history n.point.log };

    ghost invariant = { λ n. (n.point.book ≡ N.book) × IsHistoryOfEngine N.own N.table (history n.point.log) };
}

impl<N: EngineName> Notice<N> {
    pub(crate) fn of(point: Point) -> Notice<N>
        requires book { point.book ≡ N.book }
        requires legal { IsHistoryOfEngine N.own N.table (history point.log) }
        ensures { result ≡ history point.log }
    {
        Notice {
            point,
            of: PhantomData,
        }
    }

    pub(crate) fn point(&self) -> &Point
        ensures book { result.now.book ≡ N.book }
        ensures log { history result.now.log ≡ self.now }
        ensures legal { IsHistoryOfEngine N.own N.table (history result.now.log) }
    {
        &self.point
    }

    /// How many entries the published history has.
    pub fn len(&self) -> usize
        ensures length { result ≡ length self.now }
        ensures legal { IsEntryHistory N.own self.now }
    {
        self.point.len() as usize
    }

    /// The same notice again.
    pub fn again(&self) -> Notice<N>
        ensures { result ≡ self.now }
    {
        Notice {
            point: self.point.again(),
            of: PhantomData,
        }
    }
}
