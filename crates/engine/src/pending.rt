//! What a client keeps for a serial.

ghost use Rattle.std.specs.Prelude.{◌≡◌, Some, None, MatchOption, IfSome};
ghost use Rattle.replica.specs.operation.Submissions.{reply_of, submitted_of};
ghost use Rattle.semantics.specs.PeerAnswers.{IsAnswerWith};
ghost use Rattle.command.specs.Answers.{Given as TheGiven};
ghost use Rattle.engine.specs.Clients.{answer_in, answer_of};

use command::{Answer, EngineName, Given, Notice};
use once_cell::race::{Note, OnceBox};
use replica::{Reply, Shared, Submission};
use std::marker::Model;
use std::sync::Arc;

/// What was submitted under a serial, and the cell of its answer. Contracts see the submission, and what the cell is known to hold.
#[derive(Drop)]
pub struct Pending<N: EngineName> {
    submission: Shared<Submission>,
    cell: Arc<OnceBox<Answer<N>>>,
    note: Note<Answer<N>>,
    /// The notice of the answer, once a look found it.
    notice: Option<Notice<N>>,
}

impl<N: EngineName> Model for Pending<N> {
    ghost use Rattle.std.specs.Prelude.{◌≡◌};
    ghost use Rattle.std.specs.Arc.{arc_value};
    ghost use Rattle.std.specs.Coded.{codes};
    ghost use Rattle.semantics.specs.Codes.{coded_element};
    ghost use Rattle.once_cell.specs.Once.{cell_name};
    ghost use Rattle.engine.specs.Clients.{AwaitedAnswer, IsNoticeOf};

    ghost Value = { AwaitedAnswer };

    ghost coded = { Prim.hlevel (codes, coded_element) };

    ghost view = { λ k. record { submission = k.submission; known = k.note.known } };

    ghost invariant = { λ k. (k.note.cell ≡ cell_name (arc_value k.cell))
        × IsNoticeOf N.own N.table (record { submission = k.submission; known = k.note.known }) k.notice };
}

impl<N: EngineName> Pending<N> {
    /// Keeps a submission whose answer the cell will hold.
    pub fn new(submission: Shared<Submission>, cell: Arc<OnceBox<Answer<N>>>) -> Pending<N>
        ensures { (result.submission ≡ submission) × (result.known ≡ None) }
    {
        let note = cell.note();
        Pending {
            submission,
            cell,
            note,
            notice: None,
        }
    }

    /// The reply and its notice, once they are there; from then on always the same. Never waits.
    pub fn look(&mut self) -> Option<(Reply, Notice<N>)>
        ensures submission { self.new.submission ≡ self.old.submission }
        ensures known { IfSome self.old.known (λ a. self.new.known ≡ Some a) }
        ensures answer { MatchOption result (answer_of self.new ≡ None)
            (λ r. (answer_of self.new ≡ Some (record { reply = r.0; history = r.1 }))
            × IsAnswerWith N.own N.table r.1 (submitted_of self.old.submission) (reply_of r.0)) }
    {
        let answer = self.cell.get_as(&mut self.note)?;
        let given = given_to(answer, &self.submission)?;
        self.notice = Some(given.notice.again());
        Some((given.reply, given.notice.again()))
    }

    /// The notice of the answer, once it is there: the one that a look found, if one has. Never waits.
    pub fn notice(&self) -> Option<&Notice<N>>
        ensures { MatchOption result (answer_of self.now ≡ None)
            (λ n. (g : TheGiven) × (n.now ≡ g.history)
            × IsAnswerWith N.own N.table g.history (submitted_of self.now.submission) (reply_of g.reply)
            × IfSome (answer_of self.now) (λ known. known ≡ g)) }
    {
        if let Some(notice) = &self.notice {
            return Some(notice);
        }
        let given = given_to(self.cell.get()?, &self.submission)?;
        Some(&given.notice)
    }
}

/// What an answer gives to the submission: `None` if it is the answer to another submission.
fn given_to<'a, N: EngineName>(
    answer: &'a Answer<N>,
    submission: &Submission,
) -> Option<&'a Given<N>>
    ensures { MatchOption result (answer_in submission.now (Some answer.now) ≡ None)
        (λ g. (answer_in submission.now (Some answer.now) ≡ Some (record { reply = g.now.reply; history = g.now.notice }))
        × IsAnswerWith N.own N.table g.now.notice (submitted_of submission.now) (reply_of g.now.reply)) }
{
    if !answer.submission().is_same(submission) {
        return None;
    }
    answer.given()
}
