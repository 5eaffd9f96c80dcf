//! Why a run ends without its replies, and the statuses with which a run ends.

ghost use Rattle.std.specs.Prelude.{◌≡◌, ◌≢◌, ◌⊎◌};
ghost use Rattle.std.specs.Io.KnownBytes.{Appends};
ghost use Rattle.std.specs.IoError.{error_kind};
ghost use Rattle.cli.specs.Faults.{line_of, status_of};
ghost use Rattle.cli.specs.declared.fault.Status.TheVariants.{NotWritten};

use scripts::ScriptError;
use serving::Unfit;
use std::io::{ErrorKind, Write};
use std::{fmt, io};
use thiserror::Error;

/// How a run ended, as the status with which the process exits.
#[derive(Clone, Copy, Debug, PartialEq, Eq)]
pub enum Status {
    Done = 0,
    /// A value of a bench wasn't read back, or its engines show different things.
    Differ = 1,
    /// Bad words, a script that is bad or can't be read, or a file that can't be served.
    BadInput = 2,
    /// A thread of a bench waited for too long.
    TurnLimit = 3,
    NoMemory = 4,
    /// A write failed; no reply is written after that.
    NotWritten = 5,
}

/// Why a run has no replies, as reported on standard error.
#[derive(Debug, Drop, Error)]
pub enum Fault<'a> {
    /// A line of the script is bad, or an allocation for it failed.
    Script(ScriptError),
    /// The file or stream of this name can't be read.
    CannotRead(&'a str),
    /// One of the program's words isn't UTF-8.
    BadWord,
    /// A number is outside its limits.
    OutOfRange,
    /// The file of this name can't be opened, or can't be made durable.
    CannotOpen(&'a str),
    /// Another program has the file of this name.
    InUse(&'a str),
    /// The file of this name is of another number: this one.
    OtherNumber(&'a str, u32),
    /// A line of the file of this name, counted from 1, doesn't fit, and why: the file was changed, or isn't a journal.
    Damaged(&'a str, u64, Unfit),
    /// A sync of the file of this name failed, so it isn't known what it has.
    Lost(&'a str),
    /// The input ended, and the file of this name lacks this many entries, which can't be saved.
    Unsaved(&'a str, u64),
    /// A reply can't be written.
    NotWritten,
    NoMemory,
}

// Written by hand, since no contract says what a derived one prints.
impl fmt::Display for Fault<'_> {
    ghost use Rattle.std.specs.Prelude.{Some};
    ghost use Rattle.cli.specs.Faults.{fault_text};

    ghost output = { λ fault. Some (fault_text fault) };

    fn fmt<W: fmt::Write>(&self, f: &mut fmt::Formatter<W>) -> fmt::Result {
        match self {
            Fault::Script(error) => write!(f, "jdoc: {error}"),
            Fault::CannotRead(name) => write!(f, "jdoc: cannot read {name}"),
            Fault::BadWord => f.write_str("jdoc: a word is no text"),
            Fault::OutOfRange => f.write_str("jdoc: a number is out of range"),
            Fault::CannotOpen(name) => write!(f, "jdoc: cannot open {name}"),
            Fault::InUse(name) => write!(f, "jdoc: another program has {name}"),
            Fault::OtherNumber(name, number) => write!(f, "jdoc: number {number} has {name}"),
            Fault::Damaged(name, line, Unfit::Refused(why)) => {
                let number = why.number();
                write!(f, "jdoc: line {line} of {name} doesn't fit: E{number}")
            }
            Fault::Damaged(name, line, Unfit::OtherId(id)) => {
                let (counter, replica) = (id.counter, id.replica.number());
                write!(
                    f,
                    "jdoc: line {line} of {name} doesn't fit: its command makes {counter}@{replica}"
                )
            }
            Fault::Damaged(name, line, Unfit::NotApplied) => {
                write!(
                    f,
                    "jdoc: line {line} of {name} doesn't fit: it is known, or others are missing"
                )
            }
            Fault::Damaged(name, line, Unfit::NotAlone) => {
                write!(
                    f,
                    "jdoc: line {line} of {name} doesn't fit: another program writes"
                )
            }
            Fault::Lost(name) => write!(f, "jdoc: nobody knows what {name} has: start again"),
            Fault::Unsaved(name, count) => write!(
                f,
                "jdoc: cannot write {name}: operations lost: {count}"
            ),
            Fault::NotWritten => f.write_str("jdoc: cannot write"),
            Fault::NoMemory => f.write_str("jdoc: no memory"),
        }
    }
}

impl<'a> Fault<'a> {
    ghost use Rattle.cli.specs.declared.fault.Fault.TheVariants.{NoMemory, CannotRead, BadWord};

    /// The fault of a file or stream of this name that can't be read.
    pub fn of_read(name: &'a str, error: &io::Error) -> Fault<'a>
        ensures memory { error_kind error.now ≡ ErrorKind.OutOfMemory → result ≡ NoMemory }
        ensures other { error_kind error.now ≢ ErrorKind.OutOfMemory → result ≡ CannotRead name.entry }
    {
        match error.kind() {
            ErrorKind::OutOfMemory => Fault::NoMemory,
            _ => Fault::CannotRead(name),
        }
    }

    /// The fault of words that can't be read.
    pub fn of_words(error: &io::Error) -> Fault<'a>
        ensures memory { error_kind error.now ≡ ErrorKind.OutOfMemory → result ≡ NoMemory }
        ensures other { error_kind error.now ≢ ErrorKind.OutOfMemory → result ≡ BadWord }
    {
        match error.kind() {
            ErrorKind::OutOfMemory => Fault::NoMemory,
            _ => Fault::BadWord,
        }
    }

    /// The status of a run that ends with this fault.
    pub fn status(&self) -> Status
        ensures { result ≡ status_of self.now }
    {
        match self {
            Fault::NoMemory => Status::NoMemory,
            Fault::Script(ScriptError::NoMemory) => Status::NoMemory,
            Fault::Lost(_) | Fault::Unsaved(_, _) | Fault::NotWritten => Status::NotWritten,
            _ => Status::BadInput,
        }
    }

    /// Reports the fault on standard error, as a line, and returns the status of the run.
    pub fn report<W: Write>(&self, faults: &mut W) -> Status
        ensures status { (result ≡ status_of self.now) ⊎ (result ≡ NotWritten) }

        // This says something only if the bytes are known.
        ensures told { result ≢ NotWritten → Appends (W.contents faults.old) (W.contents faults.new) (line_of self.now) }
    {
        match writeln!(faults, "{self}") {
            Ok(()) => self.status(),
            Err(_) => Status::NotWritten,
        }
    }
}
