//! A document that follows another one.

ghost use Rattle.std.specs.Prelude.{◌≡◌, ◌⊎◌, length, IfErr, IfOk};
ghost use Rattle.std.specs.Coded.{codes};
ghost use Rattle.semantics.specs.Codes.{coded_element};
ghost use Rattle.semantics.specs.WorldHistory.{BeginsWith};
ghost use Rattle.followers.specs.Feeds.{ShowsWhatCame};
ghost use Rattle.jdoc_c.specs.declared.status.Status.TheVariants.{NoMemory, Unfit};
ghost use Rattle.jdoc_c.specs.Replies.{ReadReply, ReadsLine};

use crate::status::Status;
use calls::{Call, Response, read_call, write_response};
use followers::Follower;
use ids::Refusal;
use serving::{MOST_LINE, ask, glance};
use std::alloc::{AllocError, Global};

/// A reader of a document, which answers from what it has taken in.
#[derive(Drop)]
pub struct Reader {
    pub(crate) follower: Follower,
    /// How many entries the ring has room for.
    room: usize,
    ghost follows: { ShowsWhatCame follower } by { Prim.hlevel (codes, coded_element) },
}

impl Reader {
    /// A reader with this end of a ring.
    pub fn new(follower: Follower, room: usize) -> Reader
        requires { ShowsWhatCame follower }
        ensures { result.follower ≡ follower }
    {
        Reader { follower, room }
    }

    /// Takes in what has come, at most as many entries as the ring has room for. Returns how many it has taken in since it was opened.
    ///
    /// # Errors
    /// `NoMemory` or `Unfit`: the entries before the failing one were taken in, and the next call tries that one again.
    pub fn follow(&mut self, alloc: Global) -> Result<usize, Status>
        ensures count { IfOk result (λ count. count ≡ length self.new.follower.document.entries) }
        ensures err { IfErr result (λ why. (why ≡ NoMemory) ⊎ (why ≡ Unfit)) }
        ensures grows { BeginsWith self.new.follower.document.entries self.old.follower.document.entries }
    {
        take_all(alloc, &mut self.follower, self.room)?;
        Ok(self.follower.len())
    }

    /// The line that answers a question or a glance, with its line feed; any other request is refused.
    ///
    /// # Errors
    /// `NoMemory`.
    pub fn answer(&self, alloc: Global, line: &[u8]) -> Result<Vec<u8>, Status>
        ensures replied { IfOk result (λ reply. ReadReply self.now.follower.document.entries line.now reply.items) }
        ensures err { IfErr result (λ why. why ≡ NoMemory) }
    {
        let response = self.respond(alloc, line)?;
        Ok(write_response(alloc, &response)?)
    }

    fn respond(&self, alloc: Global, line: &[u8]) -> Result<Response, AllocError>
        ensures { IfOk result (ReadsLine self.now.follower.document.entries line.now) }
    {
        if line.len() > MOST_LINE {
            return Ok(Response::Denied(Refusal::BadLine));
        }
        let document = self.follower.document();
        match read_call(alloc, line) {
            Ok(Call::Ask(question)) => ask(alloc, document, &question),
            Ok(
                Call::Glance {
                    expression,
                    depth,
                    elements,
                },
            ) => glance(
                alloc,
                document,
                &expression,
                depth as usize,
                elements as usize,
            ),
            Ok(_) => Ok(Response::Denied(Refusal::BadLine)),
            Err(Refusal::NoMemory) => Err(AllocError),
            Err(why) => Ok(Response::Denied(why)),
        }
    }
}

/// Takes in what has come, at most `room` entries.
///
/// # Errors
/// As `Reader::follow`.
fn take_all(alloc: Global, follower: &mut Follower, room: usize) -> Result<(), Status>
    ensures follows { ShowsWhatCame follower.old → ShowsWhatCame follower.new }
    ensures err { IfErr result (λ why. (why ≡ NoMemory) ⊎ (why ≡ Unfit)) }
    ensures grows { BeginsWith follower.new.document.entries follower.old.document.entries }
{
    for _ in 0..room {
        match follower.take_in(alloc) {
            Ok(true) => {}
            Ok(false) => break,
            Err(Refusal::NoMemory) => return Err(Status::NoMemory),
            Err(_) => return Err(Status::Unfit),
        }
    }
    Ok(())
}
