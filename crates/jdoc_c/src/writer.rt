//! A document that is written.

ghost use Rattle.std.specs.Prelude.{◌≡◌, ◌⊎◌, [], length, IfErr, IfOk, OnErr};
ghost use Rattle.std.specs.Coded.{codes};
ghost use Rattle.semantics.specs.Codes.{coded_element};
ghost use Rattle.semantics.specs.WorldHistory.{BeginsWith};
ghost use Rattle.store.specs.WholeLines.{AreWhole, first_own};
ghost use Rattle.wire.specs.Lines.{cut};
ghost use Rattle.followers.specs.Feeds.{AreFed};
ghost use Rattle.jdoc_c.specs.declared.status.Status.TheVariants.{NoMemory, Unfit};
ghost use Rattle.jdoc_c.specs.Openings.{IsOwn, IsWhyNot};
ghost use Rattle.jdoc_c.specs.Replies.{Responds};

use crate::status::Status;
use calls::{Response, write_response};
use followers::{Feeds, Follower};
use ids::{Refusal, ReplicaId};
use serving::{Desk, MOST_LINE, Memory};
use std::alloc::{AllocError, Global};
use store::{Fault, Journal, whole_len};

/// A document whose journal is kept by the host, which asks for the lines of everything since it last stored.
#[derive(Drop)]
pub struct Writer {
    desk: Desk<Memory>,
    /// How many entries the host has called stored.
    stored: usize,
    /// How many entries the history had when the host was last given lines.
    handed: usize,
    pub(crate) feeds: Feeds,
    ghost fed: { AreFed desk.replica.entries feeds.feeds.items } by { Prim.hlevel (codes, coded_element) },
}

impl Writer {
    ghost use Rattle.std.specs.Prelude.{◌≡◌, [], length, IfErr, IfOk};
    ghost use Rattle.semantics.specs.Journals.{entries_from};
    ghost use Rattle.records.specs.Lines.{journal_text};
    ghost use Rattle.store.specs.WholeLines.{first_own};
    ghost use Rattle.wire.specs.Lines.{cut};
    ghost use Rattle.followers.specs.Feeds.{HasCome, ShowsWhatCame};
    ghost use Rattle.jdoc_c.specs.declared.status.Status.TheVariants.{NoMemory};
    ghost use Rattle.jdoc_c.specs.Handles.{GoesOn, KeepsCounts};
    ghost use Rattle.jdoc_c.specs.Openings.{IsWhyNot};
    ghost use Rattle.jdoc_c.specs.Replies.{MayRespond, Replies};

    /// A document that resumes from these lines of a journal, as the replica of this number, or of the journal's for 0. Bytes after the
    /// last whole line are skipped.
    ///
    /// `BadNumber`, `Unfit` for the first line that doesn't fit, `NoMemory`.
    pub fn open(alloc: Global, number: u32, lines: &[u8]) -> Result<Writer, Status>
        ensures opened { IfOk result (GoesOn number lines.now) }
        ensures err { IfErr result (IsWhyNot number (first_own (cut lines.now).lines)) }
    {
        let journal = journal_of(alloc, lines)?;
        let own = own_number(alloc, number, &journal)?;
        match Desk::open(alloc, own, journal) {
            Ok(desk) => Ok(of_desk(alloc, desk)),
            Err(unopened) => Err(status_of(&unopened.why)),
        }
    }

    /// The line that answers a request, with its line feed.
    ///
    /// # Errors
    /// `NoMemory`. What the request writes or receives may be in the document all the same; it is then among the next lines.
    pub fn answer(&mut self, alloc: Global, line: &[u8]) -> Result<Vec<u8>, Status>
        ensures replied { IfOk result (λ reply. Replies self.old.desk line.now reply.items self.new.desk) }
        ensures short { IfErr result (λ why. (why ≡ NoMemory) × MayRespond self.old.desk line.now self.new.desk) }
        ensures counts { KeepsCounts self.old self.new }
    {
        let response = respond(alloc, &mut self.desk, line)?;
        Ok(write_response(alloc, &response)?)
    }

    /// The journal lines of everything that came since the host last stored.
    ///
    /// # Errors
    /// `NoMemory`.
    pub fn lines(&self, alloc: Global) -> Result<Vec<u8>, Status>
        ensures lines { IfOk result (λ lines. lines.items ≡ journal_text (entries_from self.now.stored self.now.desk.replica.entries)) }
        ensures err { IfErr result (λ why. why ≡ NoMemory) }
    {
        Ok(self.desk.session().lines_from(alloc, self.stored)?)
    }

    /// Notes that the host was given the lines of all that is here.
    pub fn hand_over(&mut self)
        ensures { self.new ≡ record self.old { handed = length self.old.desk.replica.entries } }
    {
        self.handed = self.desk.session().len();
    }

    /// Counts the lines that the host was given last as stored.
    pub fn settle(&mut self)
        ensures { self.new ≡ record self.old { stored = self.old.handed } }
    {
        self.stored = self.handed;
    }

    /// A new reader of this document, through a ring with room for `room` entries.
    ///
    /// # Errors
    /// `NoMemory`.
    pub fn follower(&mut self, alloc: Global, room: usize) -> Result<Follower, Status>
        ensures pair { IfOk result (HasCome self.old.feeds.feeds.items self.new.feeds.feeds.items) }
        ensures empty { IfOk result (λ f. f.document.entries ≡ []) }
        ensures follows { IfOk result ShowsWhatCame }
        ensures err { IfErr result (λ why. why ≡ NoMemory) }
        ensures same { (self.new.desk ≡ self.old.desk) × KeepsCounts self.old self.new }
    {
        let own = self.desk.session().own().number();
        match self.feeds.follower(alloc, room, own) {
            Ok(follower) => Ok(follower),
            Err(_) => Err(Status::NoMemory),
        }
    }

    /// Sends each reader what its ring has room for, and drops the feeds of those that were closed.
    ///
    /// # Errors
    /// `NoMemory`: what isn't sent is sent by the next call.
    pub fn feed(&mut self, alloc: Global) -> Result<(), Status>
        ensures err { IfErr result (λ why. why ≡ NoMemory) }
        ensures same { (self.new.desk ≡ self.old.desk) × KeepsCounts self.old self.new }
    {
        send(alloc, &mut self.feeds, &self.desk)
    }
}

/// Sends the followers of a document what their rings have room for.
///
/// # Errors
/// `NoMemory`: what isn't sent is sent by the next call.
fn send(alloc: Global, feeds: &mut Feeds, desk: &Desk<Memory>) -> Result<(), Status>
    ensures fed { AreFed desk.now.replica.entries feeds.old.feeds.items → AreFed desk.now.replica.entries feeds.new.feeds.items }
    ensures err { IfErr result (λ why. why ≡ NoMemory) }
{
    Ok(feeds.send(alloc, desk.session().document())?)
}

/// The response to a line.
fn respond(alloc: Global, desk: &mut Desk<Memory>, line: &[u8]) -> Result<Response, AllocError>
    ensures responds { IfOk result (λ r. Responds desk.old line.now r desk.new) }
    ensures same { OnErr result (desk.new ≡ desk.old) }
    ensures grows { BeginsWith desk.new.replica.entries desk.old.replica.entries }
{
    if line.len() > MOST_LINE {
        return Ok(Response::Denied(Refusal::BadLine));
    }
    desk.answer(alloc, line)
}

/// A document without readers, whose host has all of it.
fn of_desk(alloc: Global, desk: Desk<Memory>) -> Writer
    ensures { (result.desk ≡ desk) × (result.stored ≡ length desk.replica.entries) × (result.handed ≡ result.stored) }
{
    let stored = desk.session().len();
    Writer {
        desk,
        stored,
        handed: stored,
        feeds: Feeds::new(alloc),
    }
}

/// A journal of these lines.
fn journal_of(alloc: Global, lines: &[u8]) -> Result<Journal<Memory>, Status>
    ensures same { IfOk result (λ journal. journal.bytes.items ≡ lines.now) }
    ensures err { IfErr result (λ why. why ≡ NoMemory) }
{
    let mut bytes = Vec::new(alloc);
    bytes.extend_from_slice(lines)?;
    Ok(Journal {
        store: Memory,
        bytes,
    })
}

/// The number of the replica that resumes from a journal.
///
/// # Errors
/// `BadNumber` if it is 0 and the journal has none, or if it differs from the journal's. Else as `Journal::own`.
fn own_number(alloc: Global, number: u32, journal: &Journal<Memory>) -> Result<ReplicaId, Status>
    ensures own { IfOk result (IsOwn number (first_own (cut journal.now.bytes.items).lines)) }
    ensures err { IfErr result (IsWhyNot number (first_own (cut journal.now.bytes.items).lines)) }
{
    match journal.own(alloc) {
        Ok(None) => ReplicaId::new(number).ok_or(Status::BadNumber),
        Ok(Some(own)) if number == 0 || number == own.number() => Ok(own),
        Ok(Some(_)) => Err(Status::BadNumber),
        Err(why) => Err(status_of(&why)),
    }
}

/// Why a journal can't be resumed.
fn status_of(why: &Fault) -> Status
    ensures { (result ≡ NoMemory) ⊎ (result ≡ Unfit) }
{
    match why {
        Fault::Refused(Refusal::NoMemory) | Fault::Held => Status::NoMemory,
        Fault::Refused(_) | Fault::Damaged { .. } | Fault::Store(_) | Fault::MustStartAgain => {
            Status::Unfit
        }
    }
}

/// How many bytes of a journal were taken.
pub fn taken_of(lines: &[u8]) -> usize
    ensures { AreWhole result lines.now }
{
    whole_len(lines)
}
