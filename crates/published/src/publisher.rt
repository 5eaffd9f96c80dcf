//! The one writer of a history.

ghost use Rattle.std.specs.Prelude.{◌≡◌, ◌^◌, ◌<◌, ◌⊎◌, ◌++◌, ◌∷◌, [], List, length, drop, fold, MatchResult, IfOk, IfErr, IsTrue, IsFalse};
ghost use Rattle.std.specs.Prelude.{Some, None, option_to_list};
ghost use Rattle.std.specs.List.{All};
ghost use Rattle.ids.specs.declared.refusal.Refusal.TheVariants.{NoMemory, NoReaderPlace};
ghost use Rattle.ids.specs.Tables.{lacks_room};
ghost use Rattle.semantics.specs.Joining.{table_after};
ghost use Rattle.semantics.specs.Making.{is_full};
ghost use Rattle.semantics.specs.Entries.{IsEntryHistory, stamped_in};
ghost use Rattle.semantics.specs.WorldHistory.{BeginsWith};
ghost use Rattle.document.specs.operation.declared.command.Entry.{Entry as AnEntry};
ghost use Rattle.document.specs.operation.Ops.{entry_of};
ghost use Rattle.document.specs.oplog.Logs.{history};
ghost use Rattle.published.specs.Beginnings.{IsHistoryOfEngine};
ghost use Rattle.published.specs.Copies.{applied_to, snapshot};

use crate::book::{Law, Opened, Point};
use crate::copy::{Copy, Pending};
use crate::end::End;
use crate::notice::{EngineName, Notice};
use crate::queue_name::Unnamed;
use crate::seen::View;
use crate::token::{ReaderToken, Sees, Shown};
use crate::written::Written;
use core::mem::replace_with;
use document::{Document, Entry};
use ids::Refusal;
use left_right::writer::Writer;
use logbook::Word;
use std::alloc::{AllocError, Global};
use std::marker::Model;
use std::sync::Wait;

/// The writer's end of the copies, with space for one entry that their log had no room for. It isn't `Drop`: call `end`. Contracts see what
/// is published and all that was appended, the newest first.
pub struct Publisher<N: EngineName> {
    writer: Writer<Copy, Pending, View, Shown<N>>,
    next: Option<Pending>,
    head: Word<Written, u64, Law>,
    all: Point,
    end: End,
}

impl<N: EngineName> Model for Publisher<N> {
    ghost use Rattle.std.specs.Prelude.{◌++◌, drop, option_to_list};
    ghost use Rattle.std.specs.Coded.{codes};
    ghost use Rattle.semantics.specs.Codes.{coded_element};
    ghost use Rattle.document.specs.oplog.Logs.{history};
    ghost use Rattle.published.specs.Publishers.{IsPublisher};
    ghost use Rattle.semantics.specs.Publication.{Publication};

    ghost Value = { Publication };

    ghost coded = { Prim.hlevel (codes, coded_element) };

    ghost view = { λ p. record {
      own = N.own;
      members = N.table;
      published = p.writer.desk.shown.value.entries;
      appended = history p.all.log;
    } };

    ghost invariant = { λ p. IsPublisher N.book N.own N.table p.writer.desk.shown.value (drop p.writer.behind p.writer.log.items
        ++ option_to_list p.next) p.head p.all };
}

/// Opens the two copies over two new documents of one table, with a token for each reader. The third result names the engine's queue.
///
/// # Errors
/// `NoReaderPlace` if the copies have no token for one of the readers, `NoMemory` if allocation fails. Nothing is opened then.
pub fn open<N: EngineName>(
    rt: &impl Wait,
    alloc: Global,
    opened: Opened,
    first: Document,
    second: Document,
    readers: usize,
) -> Result<(Publisher<N>, Vec<ReaderToken<N>>, Unnamed<N>), Refusal>
    requires name { opened.seen.book ≡ N.book }
    requires tables { (first.members ≡ N.table) × (second.members ≡ N.table) }
    requires new { (first.entries ≡ []) × (second.entries ≡ []) }
    requires readers { (0 < readers) × (readers < 2 ^ 32) }
    ensures publisher { IfOk result (λ r. (r.0.published ≡ []) × (r.0.appended ≡ [])) }
    ensures tokens { IfOk result (λ r. (length r.1.items ≡ readers) × All (λ s. s.seen ≡ []) r.1.items) }
    ensures err { IfErr result (λ why. (why ≡ NoMemory) ⊎ (why ≡ NoReaderPlace)) }
{
    let end = End::new(alloc)?;
    let (head, all, unnamed) = opened.start::<N>();
    let first = Copy {
        alloc,
        document: first,
        point: all.again(),
    };
    let second = Copy {
        alloc,
        document: second,
        point: all.again(),
    };
    let Ok(writer) = Writer::new(alloc, first, second, readers) else {
        return Err(Refusal::NoMemory);
    };
    match tokens::<N>(alloc, &writer, &all, &end, readers) {
        Ok(tokens) => Ok((
            Publisher {
                writer,
                next: None,
                head,
                all,
                end,
            },
            tokens,
            unnamed,
        )),
        Err(refusal) => {
            drop(writer.take(rt));
            Err(refusal)
        }
    }
}

/// A new token for each reader.
fn tokens<N: EngineName>(
    alloc: Global,
    writer: &Writer<Copy, Pending, View, Shown<N>>,
    all: &Point,
    end: &End,
    readers: usize,
) -> Result<Vec<ReaderToken<N>>, Refusal>
    requires { (all.now.log ≡ []) × (all.now.book ≡ N.book) }
    ensures tokens { IfOk result (λ v. (length v.items ≡ readers) × All (λ s. s.seen ≡ []) v.items) }
    ensures err { IfErr result (λ why. (why ≡ NoMemory) ⊎ (why ≡ NoReaderPlace)) }
{
    let mut tokens = Vec::new(alloc);
    for _ in 0..readers {
        let Ok(reader) = writer.factory().reader() else {
            return Err(Refusal::NoReaderPlace);
        };
        let token = ReaderToken::new(reader, all.again(), end.again()?);
        tokens.push(token)?;
    }
    Ok(tokens)
}

/// Moves the entry that was set aside, if any, to the log of the copies. Returns whether none is left aside.
fn flush<N: EngineName>(
    writer: &mut Writer<Copy, Pending, View, Shown<N>>,
    next: &mut Option<Pending>,
) -> bool
    ensures shown { writer.new.desk.shown ≡ writer.old.desk.shown }
    ensures pending { drop writer.new.behind writer.new.log.items ++ option_to_list next.new
        ≡ drop writer.old.behind writer.old.log.items ++ option_to_list next.old }
    ensures flushed { IsTrue result → next.new ≡ None }
{
    match next.take() {
        None => true,
        Some(pending) => match writer.append(pending) {
            Ok(()) => true,
            Err(back) => {
                put(next, back);
                false
            }
        },
    }
}

/// Sets an entry aside. It is a function so that dropping the old value stays out of its callers' proofs.
fn put(next: &mut Option<Pending>, pending: Pending)
    ensures { next.new ≡ Some pending }
{
    *next = Some(pending);
}

/// Shows readers all that is pending.
fn show_all<N: EngineName>(
    rt: &impl Wait,
    writer: &mut Writer<Copy, Pending, View, Shown<N>>,
) -> Result<(), AllocError>
    requires { (log : List AnEntry)
        × (fold applied_to writer.old.desk.shown.value (drop writer.old.behind writer.old.log.items) ≡ snapshot N.book N.table log)
        × IsHistoryOfEngine N.own N.table (history log) }
    ensures { MatchResult result
        (λ _. (writer.new.desk.shown.value ≡ fold applied_to writer.old.desk.shown.value (drop writer.old.behind writer.old.log.items))
        × (drop writer.new.behind writer.new.log.items ≡ []))
        (λ _. (writer.new.desk.shown.value ≡ writer.old.desk.shown.value)
        × (drop writer.new.behind writer.new.log.items ≡ drop writer.old.behind writer.old.log.items)) }
{
    replace_with(writer, rt, |writer, rt| show::<N, _>(rt, writer))
}

/// The same for a writer by value, as the crate of the copies requires.
fn show<N: EngineName, R: Wait>(
    rt: &R,
    writer: Writer<Copy, Pending, View, Shown<N>>,
) -> (
    Writer<Copy, Pending, View, Shown<N>>,
    Result<(), AllocError>,
)
    requires { (log : List AnEntry)
        × (fold applied_to writer.desk.shown.value (drop writer.behind writer.log.items) ≡ snapshot N.book N.table log)
        × IsHistoryOfEngine N.own N.table (history log) }
    ensures { MatchResult result.1
        (λ _. (result.0.desk.shown.value ≡ fold applied_to writer.desk.shown.value (drop writer.behind writer.log.items))
        × (drop result.0.behind result.0.log.items ≡ []))
        (λ _. (result.0.desk.shown.value ≡ writer.desk.shown.value)
        × (drop result.0.behind result.0.log.items ≡ drop writer.behind writer.log.items)) }
{
    let (writer, shown) = writer.publish_as::<Sees<N>, R>(rt);
    match shown {
        Ok(()) => (writer, Ok(())),
        Err(_) => (writer, Err(AllocError)),
    }
}

impl<N: EngineName> Publisher<N> {
    /// A notice of what is published. Allocates nothing and doesn't wait.
    pub fn notice(&self) -> Notice<N>
        ensures published { result ≡ self.now.published }
        ensures appended { BeginsWith self.now.appended self.now.published }
    {
        let copy = self.writer.published();
        Notice::of(copy.point.again())
    }

    /// Appends the entry, which readers see from the next `publish` on. Amortized O(1); what was appended is never lost.
    ///
    /// # Errors
    /// `AllocError` if allocation fails, or if the history is longer than the publisher knows: only its own appends extend it, so that
    /// never happens, but no contract says so. Nothing was appended then, and the entry is dropped.
    pub fn append(&mut self, entry: Entry) -> Result<(), AllocError>
        requires follows { IsEntryHistory N.own (entry_of entry ∷ self.old.appended) }
        requires room { IsFalse (is_full self.old.appended) }
        requires fits { IsFalse (lacks_room (table_after N.table self.old.appended) (stamped_in (entry_of entry)).id.replica) }
        ensures published { self.new.published ≡ self.old.published }
        ensures appended { MatchResult result (λ _. self.new.appended ≡ entry_of entry ∷ self.old.appended)
            (λ _. self.new.appended ≡ self.old.appended) }
    {
        if !flush::<N>(&mut self.writer, &mut self.next) {
            return Err(AllocError);
        }
        let mut after = self.all.again();
        // Unreachable: only this publisher extends the history, but no contract of the logbook says so.
        if !after.extend(&self.head, &entry) {
            return Err(AllocError);
        }
        let pending = Pending {
            entry,
            after: after.again(),
        };
        put(&mut self.next, pending);
        self.all = after;
        Ok(())
    }

    /// Shows readers all that was appended. Waits for readers that still read the copy that is brought up to date. Clones each pending
    /// entry once.
    ///
    /// # Errors
    /// `AllocError` if allocation fails. All that is pending then stays pending, and the next `publish` goes on with it.
    pub fn publish(&mut self, rt: &impl Wait) -> Result<(), AllocError>
        ensures { MatchResult result (λ _. (self.new.published ≡ self.old.appended) × (self.new.appended ≡ self.old.appended))
            (λ _. self.new ≡ self.old) }
    {
        if !flush::<N>(&mut self.writer, &mut self.next) {
            return Err(AllocError);
        }
        show_all::<N>(rt, &mut self.writer)
    }

    /// Tells all tokens that the engine is closed. What is published stays readable until `end`.
    pub fn close(&self) {
        self.end.close();
    }

    /// Ends the copies and returns the published document, with a notice of it; tokens are told that the engine is closed. Waits for
    /// readers that are still reading. What is pending is dropped.
    pub fn end(self, rt: &impl Wait) -> (Document, Notice<N>)
        ensures document { (result.0.members ≡ N.table) × (result.0.entries ≡ self.published) }
        ensures notice { result.1 ≡ self.published }
    {
        self.close();
        let Publisher {
            writer,
            next: _next,
            head: _head,
            all: _all,
            end: _end,
        } = self;
        let Copy {
            alloc: _,
            document,
            point,
        } = Box::into_inner(writer.take(rt));
        (document, Notice::of(point))
    }
}
