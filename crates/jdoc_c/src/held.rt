//! What a C handle holds.

ghost use Rattle.std.specs.Prelude.{◌≡◌, ◌⊎◌, IfErr, IfOk, []};
ghost use Rattle.wire.specs.Lines.{cut};
ghost use Rattle.store.specs.WholeLines.{first_own};
ghost use Rattle.jdoc_c.specs.Handles.{Asks, Calls, Copies, Feeds, Follows, GivesLines, Opens, OpensReader, Settles};
ghost use Rattle.jdoc_c.specs.Openings.{IsWhyNot};
ghost use Rattle.jdoc_c.specs.Statuses.{code_of};

use crate::reader::Reader;
use crate::status::Status;
use crate::writer::Writer;
use std::alloc::Global;
use std::marker::Send;

/// A document that is written, or one that follows it.
#[derive(Drop)]
pub enum Role {
    Writes(Writer),
    Reads(Reader),
}

/// What an open handle holds.
#[derive(Drop)]
pub struct Held {
    role: Role,
    /// The reply to the last request, with its line feed.
    reply: Vec<u8>,
}

impl Held {
    /// A document that resumes from the lines of a journal, as `Writer::open`.
    ///
    /// # Errors
    /// As `Writer::open`.
    pub fn open(alloc: Global, number: u32, lines: &[u8]) -> Result<Held, Status>
        ensures opened { IfOk result (Opens number lines.now) }
        ensures err { IfErr result (IsWhyNot number (first_own (cut lines.now).lines)) }
    {
        match Writer::open(alloc, number, lines) {
            Ok(writer) => Ok(of_role(alloc, Role::Writes(writer))),
            Err(why) => Err(why),
        }
    }

    /// The reply to the last request, with its line feed; empty before the first one.
    pub fn reply(&self) -> &[u8]
        ensures { result.now ≡ self.now.reply.items }
    {
        &self.reply
    }

    /// Answers a request, and feeds the readers, as far as memory allows.
    ///
    /// # Errors
    /// `WrongKind` for a reader, and as `Writer::answer`. There is no reply then.
    pub fn call(&mut self, alloc: Global, line: &[u8]) -> Result<(), Status>
        ensures { Calls line.now (code_of result) self.old self.new }
    {
        self.reply.clear();
        match &mut self.role {
            Role::Writes(writer) => {
                let answered = writer.answer(alloc, line);
                let _fed = writer.feed(alloc);
                self.reply = answered?;
                Ok(())
            }
            Role::Reads(_) => Err(Status::WrongKind),
        }
    }

    /// Answers a question or a glance of a reader.
    ///
    /// # Errors
    /// `WrongKind` for a document, and as `Reader::answer`. There is no reply then.
    pub fn ask(&mut self, alloc: Global, line: &[u8]) -> Result<(), Status>
        ensures { Asks line.now (code_of result) self.old self.new }
    {
        self.reply.clear();
        match &self.role {
            Role::Writes(_) => Err(Status::WrongKind),
            Role::Reads(reader) => {
                self.reply = reader.answer(alloc, line)?;
                Ok(())
            }
        }
    }

    /// Takes in what has come to a reader, as `Reader::follow`, and sets `count` to the number of entries that it has taken in since it was
    /// opened.
    ///
    /// # Errors
    /// `WrongKind` for a document, and as `Reader::follow`.
    pub fn follow(&mut self, alloc: Global, count: &mut usize) -> Result<(), Status>
        ensures { Follows (code_of result) count.old count.new self.old self.new }
    {
        match &mut self.role {
            Role::Writes(_) => Err(Status::WrongKind),
            Role::Reads(reader) => {
                *count = reader.follow(alloc)?;
                Ok(())
            }
        }
    }

    /// Feeds the readers, as `Writer::feed`.
    ///
    /// # Errors
    /// `WrongKind` for a reader, and as `Writer::feed`.
    pub fn feed(&mut self, alloc: Global) -> Result<(), Status>
        ensures { Feeds (code_of result) self.old self.new }
    {
        match &mut self.role {
            Role::Writes(writer) => writer.feed(alloc),
            Role::Reads(_) => Err(Status::WrongKind),
        }
    }

    /// A reader of this document, with room for `room` entries, at least one, which was fed what it has room for.
    ///
    /// # Errors
    /// `WrongKind` for a reader, else `NoMemory`.
    pub fn reader(&mut self, alloc: Global, room: usize) -> Result<Held, Status>
        ensures reader { IfOk result OpensReader }
        ensures same { Feeds (code_of result) self.old self.new }
    {
        let room = room.max(1);
        match &mut self.role {
            Role::Writes(writer) => {
                let follower = writer.follower(alloc, room)?;
                let _fed = writer.feed(alloc);
                Ok(of_role(alloc, Role::Reads(Reader::new(follower, room))))
            }
            Role::Reads(_) => Err(Status::WrongKind),
        }
    }

    /// Writes the lines that the host has to store into the buffer for them, as `hand_out`, and notes that the host was given them.
    ///
    /// # Errors
    /// `WrongKind` for a reader, `NoMemory`, `TooShort`.
    pub fn lines(&mut self, alloc: Global, out: &mut [u8], needed: &mut usize) -> Result<(), Status>
        ensures { GivesLines (code_of result) needed.old needed.new out.old out.new self.old self.new }
    {
        match &mut self.role {
            Role::Writes(writer) => {
                let lines = writer.lines(alloc)?;
                match hand_out(&lines, out, needed) {
                    Ok(()) => {
                        writer.hand_over();
                        Ok(())
                    }
                    Err(why) => Err(why),
                }
            }
            Role::Reads(_) => Err(Status::WrongKind),
        }
    }

    /// Counts the lines that the host was given last as stored.
    ///
    /// # Errors
    /// `WrongKind` for a reader.
    pub fn settle(&mut self) -> Result<(), Status>
        ensures { Settles (code_of result) self.old self.new }
    {
        match &mut self.role {
            Role::Writes(writer) => {
                writer.settle();
                Ok(())
            }
            Role::Reads(_) => Err(Status::WrongKind),
        }
    }
}

fn of_role(alloc: Global, role: Role) -> Held
    ensures { (result.role ≡ role) × (result.reply.items ≡ []) }
{
    Held {
        role,
        reply: Vec::new(alloc),
    }
}

/// Writes bytes into the buffer for them, and sets `needed` to their length. Writes none if they don't fit.
///
/// # Errors
/// `TooShort` if they don't fit.
pub fn hand_out(bytes: &[u8], out: &mut [u8], needed: &mut usize) -> Result<(), Status>
    ensures { Copies bytes.now (code_of result) needed.new out.old out.new }
{
    *needed = bytes.len();
    if out.len() < bytes.len() {
        return Err(Status::TooShort);
    }
    out[..bytes.len()].copy_from_slice(bytes);
    Ok(())
}

fn goes_to_a_thread<T: Send>(value: T) -> T
    ensures { result ≡ value }
{
    value
}

/// Proves that what a handle holds may go to another thread.
pub fn sent(held: Box<Held>) -> Box<Held>
    ensures { result ≡ held }
{
    goes_to_a_thread(held)
}
