//! Tokens: readers of the published history, which take no lock and never wait.

ghost use Rattle.std.specs.Prelude.{◌≡◌, ◌+◌, ◌≤◌, ◌⊎◌, ◌↔◌, length, map, IsTrue, MatchResult, IfOk, IfErr, Ok};
ghost use Rattle.std.specs.List.{All};
ghost use Rattle.left_right.specs.Sides.{view as view_at};
ghost use Rattle.ids.specs.declared.refusal.Refusal.TheVariants.{Closed, NoReading};
ghost use Rattle.ids.specs.Vectors.{IsNamed};
ghost use Rattle.semantics.specs.Entries.{IsEntryHistory, applied, first_entries, lacked_of};
ghost use Rattle.semantics.specs.Journals.{entries_from};
ghost use Rattle.semantics.specs.NamedIds.{vector_of};
ghost use Rattle.semantics.specs.WorldHistory.{BeginsWith};
ghost use Rattle.semantics.specs.Context.{doc};
ghost use Rattle.semantics.specs.DocumentAnswer.{lists_of};
ghost use Rattle.semantics.specs.Elements.{At, Element};
ghost use Rattle.semantics.specs.Glances.{glance_of, shown_by};
ghost use Rattle.semantics.specs.Questions.{answer_at, resolve, Answer as TheAnswer, Question as TheQuestion, Refused};
ghost use Rattle.semantics.specs.LegalAnswer.{Answered, OfDocument, reading_of};
ghost use Rattle.semantics.specs.View.{view};
ghost use Rattle.document.specs.operation.Ops.{entry_of, stamped_of};
ghost use Rattle.document.specs.oplog.Logs.{history};
ghost use Rattle.document.specs.Documents.{asked_of, said_by};
ghost use Rattle.document.specs.tree.Glances.{glance_in};
ghost use Rattle.published.specs.Beginnings.{IsHistoryOfEngine};
ghost use Rattle.published.specs.Tokens.{GivesNoReading};

use crate::book::Point;
use crate::copy::Copy;
use crate::end::End;
use crate::notice::{EngineName, Notice};
use crate::seen::View;
use crossbeam_utils::rule::{Outcome, Protocol};
use document::{Entry, Expr, Glance, NamedVector, Op, Question, Reading as Answer, Shared};
use ids::Refusal;
use left_right::reader::{Reader, Reading};
use std::alloc::Global;
use std::marker::{Model, PhantomData};

/// The rule of the copies.
pub struct Shown<N: EngineName> {
    of: PhantomData<N>,
}

impl<N: EngineName> Protocol<Copy, View> for Shown<N> {
    ghost use Rattle.std.specs.Prelude.{[]};
    ghost use Rattle.published.specs.Copies.{HoldsOfCopies, reader_of};

    ghost holds = { HoldsOfCopies N.book N.own N.table };

    ghost first = { reader_of [] 0 };
}

/// What the step of a read or of a publish proves.
pub struct Sees<N: EngineName> {
    of: PhantomData<N>,
}

impl<N: EngineName> Outcome<Copy, View> for Sees<N> {
    ghost use Rattle.published.specs.Copies.{Sees};

    ghost then = { Sees N.book N.own N.table };
}

/// A reader of an engine, for one thread at a time. It takes no lock, never waits, and never sees less than before. Contracts see two
/// histories, the longest that it has read or learnt of and the one that was published at the step of its last read; and how many such
/// steps it has made.
#[derive(Drop)]
pub struct ReaderToken<N: EngineName> {
    reader: Option<Reader<Copy, View, Shown<N>>>,
    seen: Point,
    end: End,
}

impl<N: EngineName> Model for ReaderToken<N> {
    ghost use Rattle.std.specs.Prelude.{◌≡◌};
    ghost use Rattle.std.specs.Coded.{codes};
    ghost use Rattle.semantics.specs.Codes.{coded_element};
    ghost use Rattle.document.specs.oplog.Logs.{history};
    ghost use Rattle.published.specs.Beginnings.{IsHistoryOfEngine};
    ghost use Rattle.published.specs.Tokens.{TokenState, read_of, reads_of};

    ghost Value = { TokenState };

    ghost coded = { Prim.hlevel (codes, coded_element) };

    ghost view = { λ s. record {
      seen = history s.seen.log;
      read = history (read_of s.reader);
      reads = reads_of s.reader;
    } };

    ghost invariant = { λ s. (s.seen.book ≡ N.book) × IsHistoryOfEngine N.own N.table (history s.seen.log) };
}

impl<N: EngineName> ReaderToken<N> {
    pub(crate) fn new(reader: Reader<Copy, View, Shown<N>>, seen: Point, end: End) -> ReaderToken<N>
        requires book { seen.book ≡ N.book }
        requires legal { IsHistoryOfEngine N.own N.table (history seen.log) }
        ensures { result.seen ≡ history seen.log }
    {
        ReaderToken {
            reader: Some(reader),
            seen,
            end,
        }
    }

    /// Whether the engine is closed: no more readings or answers come. Never waits.
    pub fn is_closed(&self) -> bool {
        self.end.is_closed()
    }

    /// How many entries it has seen.
    pub fn seen_len(&self) -> usize
        ensures length { result ≡ length self.now.seen }
        ensures legal { IsEntryHistory N.own self.now.seen }
        ensures engine { IsHistoryOfEngine N.own N.table self.now.seen }
    {
        self.seen.len() as usize
    }

    /// Whether the notice is of at least as much as the token has seen. Both are beginnings of one history.
    pub fn begins(&self, notice: &Notice<N>) -> bool
        ensures begins { IsTrue result → BeginsWith notice.now self.now.seen }
        ensures length { IsTrue result ↔ (length self.now.seen ≤ length notice.now) }
    {
        let point = notice.point();
        self.seen.compare(point);
        self.seen.len() <= point.len()
    }

    /// Learns of a notice: the token has then seen the longer of the two histories. Both are beginnings of one history. Never waits.
    pub fn learn(&mut self, notice: &Notice<N>)
        ensures grows { BeginsWith self.new.seen self.old.seen }
        ensures learns { BeginsWith self.new.seen notice.now }
        ensures one { (self.new.seen ≡ self.old.seen) ⊎ (self.new.seen ≡ notice.now) }
        ensures read { (self.new.read ≡ self.old.read) × (self.new.reads ≡ self.old.reads) }
    {
        let point = notice.point();
        self.seen.compare(point);
        if self.seen.len() < point.len() {
            self.seen = point.again();
        }
    }

    /// Enters the copy that is published at this step, which the token has then seen, and leaves it again.
    ///
    /// # Errors
    /// If the copies gave no reading that begins with all that the token has seen: `Closed` if the engine is closed, else `NoReading`. The
    /// token may then have seen more, never less.
    // Inlined, since a reading is large and would go through memory.
    #[inline(always)]
    fn enter(&mut self) -> Result<Reading<Copy, View, Shown<N>>, Refusal>
        ensures grows { BeginsWith self.new.seen self.old.seen }
        ensures legal { IsHistoryOfEngine N.own N.table self.new.seen }
        ensures entries { IfOk result (λ r. r.part.value.entries ≡ self.new.seen) }
        ensures table { IfOk result (λ r. r.part.value.table ≡ N.table) }
        ensures read { IfOk result (λ r. history (view_at r.place).read ≡ self.new.seen) }
        ensures step { IfOk result (λ r. (view_at r.place).reads ≡ self.old.reads + 1) }
        ensures err { IfErr result (λ why. (why ≡ NoReading) ⊎ (why ≡ Closed)) }
    {
        let before = self.seen.len();
        let Some(reader) = self.reader.take() else {
            return Err(self.end.no_reading());
        };
        let reading = match reader.enter_as::<Sees<N>>() {
            Ok(reading) => reading,
            Err(reader) => {
                self.reader = Some(reader);
                return Err(self.end.no_reading());
            }
        };
        let copy = reading.get();
        self.seen.compare(&copy.point);
        if copy.point.len() < before {
            self.reader = Some(reading.leave());
            return Err(self.end.no_reading());
        }
        self.seen = copy.point.again();
        Ok(reading)
    }

    /// The vector of all that is published at the one step of this read, which the token has then seen. Never waits. Copies a pair for each
    /// replica that has an applied operation.
    ///
    /// # Errors
    /// `NoReading` and `Closed` as in `ask`, `NoMemory` if allocation fails. The token may then have seen more, never less.
    pub fn vector(&mut self, alloc: Global) -> Result<NamedVector, Refusal>
        ensures grows { BeginsWith self.new.seen self.old.seen }
        ensures legal { IsEntryHistory N.own self.new.seen }
        ensures vector { IfOk result (λ v. v ≡ vector_of (applied self.new.seen)) }
        ensures published { IfOk result (λ _. self.new.read ≡ self.new.seen) }
        ensures err { IfErr result (λ why. GivesNoReading why) }
    {
        let reading = self.enter()?;
        let vector = NamedVector::of(alloc, reading.get().document.applied().ids());
        self.reader = Some(reading.leave());
        Ok(vector?)
    }

    /// The operations that the vector doesn't cover, the oldest first, of all that is published at the one step of this read, which the
    /// token has then seen. Never waits. Takes time and memory in proportion to what is missing.
    ///
    /// # Errors
    /// As `vector`.
    pub fn missing(
        &mut self,
        alloc: Global,
        vector: &NamedVector,
    ) -> Result<Vec<Shared<Op>>, Refusal>
        ensures grows { BeginsWith self.new.seen self.old.seen }
        ensures legal { IsEntryHistory N.own self.new.seen }
        ensures ops { IfOk result (λ ops. map stamped_of ops.items ≡ lacked_of self.new.seen vector.now) }
        ensures named { IfOk result (λ ops. All (λ o. IsNamed o.deps) ops.items) }
        ensures published { IfOk result (λ _. self.new.read ≡ self.new.seen) }
        ensures err { IfErr result (λ why. GivesNoReading why) }
    {
        let reading = self.enter()?;
        let ops = reading.get().document.missing(alloc, vector);
        self.reader = Some(reading.leave());
        Ok(ops?)
    }

    /// The operations of the entries before a position that the vector doesn't cover, the oldest first, of all that is published at the one
    /// step of this read, which the token has then seen. Never waits. Costs what `missing` costs.
    ///
    /// # Errors
    /// As `vector`.
    pub fn missing_before(
        &mut self,
        alloc: Global,
        position: usize,
        vector: &NamedVector,
    ) -> Result<Vec<Shared<Op>>, Refusal>
        ensures grows { BeginsWith self.new.seen self.old.seen }
        ensures legal { IsEntryHistory N.own self.new.seen }
        ensures ops { IfOk result (λ ops. map stamped_of ops.items ≡ lacked_of (first_entries position self.new.seen) vector.now) }
        ensures named { IfOk result (λ ops. All (λ o. IsNamed o.deps) ops.items) }
        ensures published { IfOk result (λ _. self.new.read ≡ self.new.seen) }
        ensures err { IfErr result (λ why. GivesNoReading why) }
    {
        let reading = self.enter()?;
        let ops = reading
            .get()
            .document
            .missing_before(alloc, position, vector);
        self.reader = Some(reading.leave());
        Ok(ops?)
    }

    /// The entries from a position on, the oldest first, of all that is published at the one step of this read, which the token has then
    /// seen: none if that has no more entries. Never waits. Takes time and memory in proportion to their number, and shares operations and
    /// commands.
    ///
    /// # Errors
    /// As `vector`.
    pub fn entries_from(&mut self, alloc: Global, position: usize) -> Result<Vec<Entry>, Refusal>
        ensures grows { BeginsWith self.new.seen self.old.seen }
        ensures legal { IsEntryHistory N.own self.new.seen }
        ensures entries { IfOk result (λ entries. map entry_of entries.items ≡ entries_from position self.new.seen) }
        ensures published { IfOk result (λ _. self.new.read ≡ self.new.seen) }
        ensures err { IfErr result (λ why. GivesNoReading why) }
    {
        let reading = self.enter()?;
        let entries = reading.get().document.entries_from(alloc, position);
        self.reader = Some(reading.leave());
        Ok(entries?)
    }

    /// An element at a glance, of all that is published at the one step of this read, which the token has then seen: its content and what
    /// is beneath it, to a depth of `depth` below it and at most `elements` elements in all. Where something is left out, that is marked.
    /// Never waits. Costs a walk along the expression, plus what is shown, of which the values and the keys are copied.
    ///
    /// # Errors
    /// As `ask`.
    pub fn glance(
        &mut self,
        alloc: Global,
        expression: &Expr,
        depth: usize,
        elements: usize,
    ) -> Result<Glance, Refusal>
        ensures grows { BeginsWith self.new.seen self.old.seen }
        ensures legal { IsEntryHistory N.own self.new.seen }
        ensures answer { IfOk result
            (λ g. (e : Element) × (resolve (lists_of (doc (applied self.new.seen))) expression.now ≡ Ok (At e))
            × (glance_in g ≡ glance_of (shown_by (doc (applied self.new.seen))) depth elements e)) }
        ensures err { IfErr result
            (λ why. GivesNoReading why
            ⊎ ((f : Element → TheAnswer)
            → answer_at f (resolve (lists_of (doc (applied self.new.seen))) expression.now) ≡ Refused why)) }
        ensures published { MatchResult result (λ _. self.new.read ≡ self.new.seen)
            (λ why. GivesNoReading why ⊎ (self.new.read ≡ self.new.seen)) }
        ensures step { MatchResult result (λ _. self.new.reads ≡ self.old.reads + 1)
            (λ why. GivesNoReading why ⊎ (self.new.reads ≡ self.old.reads + 1)) }
    {
        let reading = self.enter()?;
        let glance = reading
            .get()
            .document
            .glance(alloc, expression, depth, elements);
        self.reader = Some(reading.leave());
        glance
    }

    /// Answers a question from the history that is published at the one step of this read, which the token has then seen: each call makes a
    /// step of its own. Never waits. Costs a walk along the expression, plus a copy of the answer; for items a look at every item,
    /// tombstones included, in the blocks that have a visible one. The answer is also that of the operations as a set (`view`).
    ///
    /// # Errors
    /// `AtHead` for a step from a head, or if the expression ends at one; `PastEnd`; `TooDeep`: these are answers at that step too.
    /// `NoMemory` if allocation fails. If the copies gave no reading that begins with all that the token has seen: `Closed` if the engine
    /// is closed, else `NoReading`. After any of the last three the token may have seen more, never less.
    pub fn ask(&mut self, alloc: Global, question: &Question) -> Result<Answer, Refusal>
        ensures grows { BeginsWith self.new.seen self.old.seen }
        ensures legal { IsEntryHistory N.own self.new.seen }
        ensures answer { IfOk result (λ r. said_by r ≡ reading_of self.new.seen (asked_of question.now)) }
        ensures view { IfOk result
            (λ r. (q : TheQuestion) → asked_of question.now ≡ OfDocument q
            → said_by r ≡ Answered (view (applied self.new.seen) q)) }
        ensures err { IfErr result
            (λ why. GivesNoReading why
            ⊎ (reading_of self.new.seen (asked_of question.now) ≡ Answered (Refused why))) }
        ensures view_refuses { IfErr result
            (λ why. GivesNoReading why
            ⊎ ((q : TheQuestion) → asked_of question.now ≡ OfDocument q → view (applied self.new.seen) q ≡ Refused why)) }
        ensures published { MatchResult result (λ _. self.new.read ≡ self.new.seen)
            (λ why. GivesNoReading why ⊎ (self.new.read ≡ self.new.seen)) }
        ensures step { MatchResult result (λ _. self.new.reads ≡ self.old.reads + 1)
            (λ why. GivesNoReading why ⊎ (self.new.reads ≡ self.old.reads + 1)) }
    {
        let reading = self.enter()?;
        let answer = reading.get().document.ask(alloc, question);
        self.reader = Some(reading.leave());
        answer
    }
}
