//! What a notebook shows.

ghost use Rattle.std.specs.Prelude.{◌≡◌, ◌⊎◌, Ok, IfErr, IfOk};
ghost use Rattle.semantics.specs.Context.{doc};
ghost use Rattle.semantics.specs.DocumentAnswer.{lists_of};
ghost use Rattle.semantics.specs.Elements.{At, Element};
ghost use Rattle.semantics.specs.Entries.{IsEntryHistory, applied};
ghost use Rattle.semantics.specs.Glances.{glance_of, shown_by};
ghost use Rattle.semantics.specs.LegalAnswer.{Answered, reading_of};
ghost use Rattle.semantics.specs.Questions.{Answer as TheAnswer, Refused, answer_at, resolve};
ghost use Rattle.semantics.specs.WorldHistory.{BeginsWith};
ghost use Rattle.engine.specs.document.Documents.{asked_of, said_by};
ghost use Rattle.engine.specs.document.tree.Glances.{glance_in};
ghost use Rattle.engine.specs.published.Tokens.{GivesNoReading};

use crate::writing::Notebook;
use engine::{EngineName, Expr, Glance, Question, Reading, Refusal};
use std::alloc::Global;
use store::Store;

impl<N: EngineName, S: Store> Notebook<N, S> {
    /// Answers a question from all that is in the document, saved or not.
    ///
    /// # Errors
    /// As `ask` of a `ReaderToken`.
    pub fn ask(&mut self, alloc: Global, question: &Question) -> Result<Reading, Refusal>
        ensures answer { IfOk result (λ r. said_by r ≡ reading_of self.new.shown (asked_of question.now)) }
        ensures err { IfErr result
            (λ why. GivesNoReading why ⊎ (reading_of self.new.shown (asked_of question.now) ≡ Answered (Refused why))) }
        ensures shows { BeginsWith self.new.shown self.old.published × IsEntryHistory N.own self.new.shown }
        ensures same { self.new ≡ record self.old { shown = self.new.shown } }
    {
        self.reader.learn(&self.writer.notice());
        self.reader.ask(alloc, question)
    }

    /// An element and what is beneath it, to a depth and up to a number of elements.
    ///
    /// # Errors
    /// As `glance` of a `ReaderToken`.
    pub fn glance(
        &mut self,
        alloc: Global,
        expression: &Expr,
        depth: usize,
        elements: usize,
    ) -> Result<Glance, Refusal>
        ensures answer { IfOk result
            (λ g. (e : Element) × (resolve (lists_of (doc (applied self.new.shown))) expression.now ≡ Ok (At e))
            × (glance_in g ≡ glance_of (shown_by (doc (applied self.new.shown))) depth elements e)) }
        ensures err { IfErr result
            (λ why. GivesNoReading why
            ⊎ ((f : Element → TheAnswer)
            → answer_at f (resolve (lists_of (doc (applied self.new.shown))) expression.now) ≡ Refused why)) }
        ensures shows { BeginsWith self.new.shown self.old.published × IsEntryHistory N.own self.new.shown }
        ensures same { self.new ≡ record self.old { shown = self.new.shown } }
    {
        self.reader.learn(&self.writer.notice());
        self.reader.glance(alloc, expression, depth, elements)
    }
}
