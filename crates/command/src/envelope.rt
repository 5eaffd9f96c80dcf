//! Submissions on their way to the writer, and back with their replies.

ghost use Rattle.std.specs.Prelude.{◌≡◌, Some, IfOk, MatchResult};
ghost use Rattle.semantics.specs.PeerAnswers.{IsAnswerWith};
ghost use Rattle.published.specs.operation.Submissions.{reply_of, submitted_of};
ghost use Rattle.command.specs.Answers.{AnswerCell, Tells};

use crate::answer::Answer;
use once_cell::race::{Note, OnceBox};
use published::{EngineName, Notice, Reply, Shared, Submission};
use std::alloc::{AllocError, Global};
use std::marker::Model;
use std::sync::Arc;

/// A submission on its way to the writer: its blank answer, which holds the submission, and the cell where the answer goes.
#[derive(Drop)]
pub struct Envelope<N: EngineName> {
    answer: Box<Answer<N>>,
    cell: Arc<OnceBox<Answer<N>>>,
}

impl<N: EngineName> Envelope<N> {
    /// The envelope of a submission, and the cell for its answer. Two allocations.
    ///
    /// # Errors
    /// `AllocError` if allocation fails.
    pub fn new(
        alloc: Global,
        submission: Shared<Submission>,
    ) -> Result<(Envelope<N>, Arc<OnceBox<Answer<N>>>), AllocError>
        ensures { IfOk result (λ r. r.0.answer.value.submission ≡ submission) }
    {
        let answer = Box::new(alloc, Answer::blank(submission))?;
        let cell = Arc::new(alloc, OnceBox::new(alloc))?;
        let again = Arc::try_clone(&cell)?;
        Ok((
            Envelope {
                answer,
                cell: again,
            },
            cell,
        ))
    }

    /// The submission.
    pub fn submission(&self) -> &Submission
        ensures { result.now ≡ self.now.answer.value.submission }
    {
        self.answer.submission()
    }

    /// The submission with its reply, once it is handled.
    pub fn replied(self, reply: Reply) -> Handled<N>
        ensures { (result.submitted ≡ submitted_of self.answer.value.submission) × (result.reply ≡ reply_of reply) }
    {
        Handled {
            envelope: self,
            reply,
        }
    }
}

/// A submission that was handled and waits for the publish. Its reply is the one from its handling: nothing changes it. Contracts see the
/// submission and the reply.
#[derive(Drop)]
pub struct Handled<N: EngineName> {
    envelope: Envelope<N>,
    reply: Reply,
}

impl<N: EngineName> Model for Handled<N> {
    ghost use Rattle.std.specs.Coded.{codes};
    ghost use Rattle.semantics.specs.Codes.{coded_element};
    ghost use Rattle.semantics.specs.Engine.{Handled};
    ghost use Rattle.published.specs.operation.Submissions.{reply_of, submitted_of};

    ghost Value = { Handled };

    ghost coded = { Prim.hlevel (codes, coded_element) };

    ghost view = { λ h. record { submitted = submitted_of h.envelope.answer.value.submission; reply = reply_of h.reply } };
}

impl<N: EngineName> Handled<N> {
    /// Answers: sets the cell to the reply, with a notice of the history that was published with it. Returns a note of the cell, which
    /// knows that the cell holds this answer for good. Allocates nothing.
    ///
    /// # Errors
    /// The answer, if the cell already held one. Only this call sets it, so that never happens, but no contract says so.
    pub fn tell(self, notice: Notice<N>) -> Result<Note<Answer<N>>, Box<Answer<N>>>
        requires { IsAnswerWith N.own N.table notice self.submitted self.reply }
        ensures { MatchResult result (λ note. (a : AnswerCell) × (note.known ≡ Some a) × Tells N.table self notice a)
            (λ answer. Tells N.table self notice answer.value) }
    {
        let Handled { envelope, reply } = self;
        let Envelope { mut answer, cell } = envelope;
        answer.fill(reply, notice);
        let mut note = cell.note();
        match cell.set_as(answer, &mut note) {
            Ok(()) => Ok(note),
            Err(answer) => Err(answer),
        }
    }
}
