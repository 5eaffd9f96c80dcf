//! Answers: by its type, each is legal for the submission that it names, in the history of its notice.

ghost use Rattle.std.specs.Prelude.{◌≡◌, Some, None, MatchOption};
ghost use Rattle.semantics.specs.PeerAnswers.{IsAnswerWith};
ghost use Rattle.published.specs.operation.Submissions.{reply_of, submitted_of};

use published::{EngineName, Notice, Reply, Shared, Submission};
use std::marker::Model;

/// A reply, with a notice of the history in which it is legal.
#[derive(Drop)]
pub struct Given<N: EngineName> {
    pub reply: Reply,
    pub notice: Notice<N>,
}

/// What a client submitted and, once it is filled in, the reply to it. Contracts see the submission, the reply and the history. It is
/// impossible to make an answer that isn't legal for its submission, or a refusal of a submission that is in that history. The submission
/// is shared with the client that waits for the answer.
#[derive(Drop)]
pub struct Answer<N: EngineName> {
    submission: Shared<Submission>,
    given: Option<Given<N>>,
}

impl<N: EngineName> Model for Answer<N> {
    ghost use Rattle.std.specs.Prelude.{IfSome, option_map};
    ghost use Rattle.std.specs.Coded.{codes};
    ghost use Rattle.semantics.specs.Codes.{coded_element};
    ghost use Rattle.semantics.specs.PeerAnswers.{IsAnswerWith};
    ghost use Rattle.published.specs.operation.Submissions.{reply_of, submitted_of};
    ghost use Rattle.command.specs.Answers.{AnswerCell};

    ghost Value = { AnswerCell };

    ghost coded = { Prim.hlevel (codes, coded_element) };

    ghost view = { λ a. record {
      submission = a.submission;
      given = option_map
          (λ g. record { reply = g.reply; history = g.notice }) a.given;
    } };

    ghost invariant = { λ a. IfSome a.given
        (λ g. IsAnswerWith N.own N.table g.notice (submitted_of a.submission) (reply_of g.reply)) };
}

impl<N: EngineName> Answer<N> {
    /// The answer to a submission, not filled in yet.
    pub(crate) fn blank(submission: Shared<Submission>) -> Answer<N>
        ensures { (result.submission ≡ submission) × (result.given ≡ None) }
    {
        Answer {
            submission,
            given: None,
        }
    }

    /// The submission to which this is the answer.
    pub fn submission(&self) -> &Submission
        ensures { result.now ≡ self.now.submission }
    {
        &self.submission
    }

    /// Fills in a reply that is legal in the notice's history.
    pub(crate) fn fill(&mut self, reply: Reply, notice: Notice<N>)
        requires { IsAnswerWith N.own N.table notice (submitted_of self.old.submission) (reply_of reply) }
        ensures { (self.new.submission ≡ self.old.submission) × (self.new.given ≡ Some (record { reply = reply; history = notice })) }
    {
        self.given = Some(Given { reply, notice });
    }

    /// The reply and its notice, once they are filled in.
    pub fn given(&self) -> Option<&Given<N>>
        ensures { MatchOption result (self.now.given ≡ None)
            (λ g. (self.now.given ≡ Some (record { reply = g.now.reply; history = g.now.notice }))
            × IsAnswerWith N.own N.table g.now.notice (submitted_of self.now.submission) (reply_of g.now.reply)) }
    {
        self.given.as_ref()
    }
}
