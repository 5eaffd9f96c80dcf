//! What tokens of an engine read: answers to submissions and to questions. A token has seen what it reads.

ghost use Rattle.std.specs.Prelude.{◌≡◌, OnErr, OnOk, IfOk, map, length, option_map, option_and_then};
ghost use Rattle.semantics.specs.Engine.{Engine as TheEngine, Read, published_entries};
ghost use Rattle.semantics.specs.LegalAnswer.{reading_of};
ghost use Rattle.semantics.specs.ReadSteps.{ask, cell_under, learn, poll, see, seen_by};
ghost use Rattle.replica.specs.document.Documents.{asked_of};
ghost use Rattle.world.specs.Engines.{client_of, given_of};
ghost use Rattle.world.specs.Acts.{step_reply_of};

use crate::client::{Client, Given};
use crate::engine::Engine;
use crate::step::WorldReply;
use ids::Refusal;
use replica::{Document, Question};
use std::alloc::{AllocError, Global};

impl Engine {
    /// A client polls one of its serials. It has then seen all that was published with the answer.
    pub fn poll(&mut self, client: usize, serial: u64) -> WorldReply
        ensures engine { self.new ≡ (poll self.old client serial).engine }
        ensures reply { step_reply_of result ≡ (poll self.old client serial).reply }
    {
        if client >= self.clients.len() {
            return WorldReply::Idle;
        }
        let Some(cell) = self.clients[client].cell(serial) else {
            return WorldReply::Denied(Refusal::Foreign);
        };
        let Some(given) = cell.answer else {
            return WorldReply::Unanswered;
        };
        let k = &mut self.clients[client];
        k.seen = k.seen.max(given.published);
        WorldReply::Replied(given.reply)
    }

    /// A token learns of the answer to a client's serial. It has then seen at least what was published with that answer.
    pub fn learn(&mut self, token: usize, client: usize, serial: u64) -> WorldReply
        ensures engine { self.new ≡ (learn self.old token client serial).engine }
        ensures reply { step_reply_of result ≡ (learn self.old token client serial).reply }
    {
        let Some(given) = answer_under(&self.clients, client, serial) else {
            return WorldReply::Unanswered;
        };
        let seen = seen_by(&self.clients, &self.readers, token).max(given.published);
        see(&mut self.clients, &mut self.readers, token, seen);
        WorldReply::Seen(seen as u64)
    }

    /// A token asks, and sees all that is published. Copies the answer.
    ///
    /// # Errors
    /// `AllocError` if allocation fails.
    pub fn ask(
        &mut self,
        alloc: Global,
        token: usize,
        question: &Question,
    ) -> Result<WorldReply, AllocError>
        ensures engine { OnOk result (self.new ≡ (ask self.old token (asked_of question.now)).engine) }
        ensures reply { IfOk result (λ r. step_reply_of r ≡ (ask self.old token (asked_of question.now)).reply) }
        ensures unchanged { OnErr result (self.new ≡ self.old) }
    {
        let reply = self.read(alloc, question)?;
        self.see_published(token);
        Ok(reply)
    }

    /// What the published history answers.
    ///
    /// # Errors
    /// `AllocError` if allocation fails.
    fn read(&self, alloc: Global, question: &Question) -> Result<WorldReply, AllocError>
        ensures reply { IfOk result
            (λ r. step_reply_of r
            ≡ Read self.now.published (reading_of (published_entries self.now) (asked_of question.now))) }
    {
        let seen = self.shown().len() as u64;
        match self.shown().ask(alloc, question) {
            Ok(reading) => Ok(WorldReply::Read { seen, reading }),
            Err(Refusal::NoMemory) => Err(AllocError),
            Err(why) => Ok(WorldReply::NotRead { seen, why }),
        }
    }

    /// The document of what is published.
    pub(super) fn shown(&self) -> &Document
        ensures members { result.now.members ≡ self.now.replica.members }
        ensures entries { result.now.entries ≡ published_entries self.now }
        ensures length { length result.now.entries ≡ self.now.published }
    {
        self.publisher.published()
    }

    /// A token sees all that is published.
    pub(super) fn see_published(&mut self, token: usize)
        ensures { self.new ≡ see self.old token self.old.published }
    {
        let published = self.shown().len();
        see(&mut self.clients, &mut self.readers, token, published);
    }
}

/// The answer to a client's serial, once it is set.
fn answer_under(clients: &[Client], client: usize, serial: u64) -> Option<Given>
    ensures { (E : TheEngine) → E.clients ≡ map client_of clients.now →
        option_map given_of result ≡ option_and_then (λ cell. cell.answer) (cell_under E client serial) }
{
    clients.get(client)?.cell(serial)?.answer
}

/// How many entries a token has seen; the tokens are first the clients', then the readers'.
fn seen_by(clients: &[Client], readers: &[usize], token: usize) -> usize
    ensures { (E : TheEngine) → E.clients ≡ map client_of clients.now → E.readers ≡ readers.now
        → result ≡ seen_by E token }
{
    if token < clients.len() {
        return clients[token].seen;
    }
    match readers.get(token - clients.len()) {
        Some(seen) => *seen,
        None => 0,
    }
}

/// Notes that a token has seen this many entries.
fn see(clients: &mut Vec<Client>, readers: &mut Vec<usize>, token: usize, seen: usize)
    ensures { (E : TheEngine) → E.clients ≡ map client_of clients.old.items → E.readers ≡ readers.old.items →
        see E token seen ≡ record E { clients = map client_of clients.new.items; readers = readers.new.items } }
{
    if token < clients.len() {
        let k = &mut clients[token];
        k.seen = seen;
        return;
    }
    let reader = token - clients.len();
    if reader < readers.len() {
        readers[reader] = seen;
    }
}
