//! How far a journal was replayed, and whether an entry is the one that its line records.

ghost use Rattle.std.specs.Prelude.{◌≡◌, ◌⊎◌, ◌+◌, ◌<◌, ◌^◌, [], ◌∷◌, IfErr, OnOk, map, IsTrue};
ghost use Rattle.semantics.specs.Journals.{recorded};
ghost use Rattle.requests.specs.operation.Ops.{command_of, entry_of, stamped_of};
ghost use Rattle.requests.specs.operation.SameOps.{is_same_command, is_same_operation};
ghost use Rattle.records.specs.declared.replaying.Unfit.TheVariants.{NotAlone, NotApplied};
ghost use Rattle.records.specs.Replays.{record_meant};

use crate::record::Recorded;
use ids::{OpId, Refusal};
use requests::{Command, Entry, Op, Shared};
use std::alloc::AllocError;

/// Why a line of a journal wasn't taken.
#[derive(Clone, Copy, Debug, PartialEq, Eq)]
pub enum Unfit {
    /// The line is bad, or the engine refuses what it records.
    Refused(Refusal),
    /// Its command would make this id, which isn't the one that the line says.
    OtherId(OpId),
    /// The operation of a peer wasn't applied at once: it is known, or it depends on something that no earlier line has.
    NotApplied,
    /// More was published than this line: someone else writes to the engine.
    NotAlone,
}

impl From<Refusal> for Unfit {
    ghost use Rattle.records.specs.declared.replaying.Unfit.TheVariants.{Refused};
    ghost use Rattle.std.specs.Prelude.{◌≡◌};

    ghost from_gives = { λ why unfit. unfit ≡ Refused why };

    fn from(refusal: Refusal) -> Unfit {
        Unfit::Refused(refusal)
    }
}

impl From<AllocError> for Unfit {
    ghost use Rattle.ids.specs.declared.refusal.Refusal.TheVariants.{NoMemory};
    ghost use Rattle.records.specs.declared.replaying.Unfit.TheVariants.{Refused};
    ghost use Rattle.std.specs.Prelude.{◌≡◌};

    ghost from_gives = { λ _ unfit. unfit ≡ Refused NoMemory };

    fn from(_error: AllocError) -> Unfit {
        Unfit::Refused(Refusal::NoMemory)
    }
}

/// How far a journal was replayed.
#[derive(Clone, Copy, Debug, PartialEq, Eq)]
pub struct Replayed {
    /// How many lines were taken: each is an entry of the history now.
    pub entries: u64,
    /// How many bytes those lines have, each with its line feed.
    pub bytes: usize,
    /// The line, counted from 1, at which the replay stopped, and why; `None` if all lines were taken.
    pub stopped: Option<(u64, Unfit)>,
}

impl Replayed {
    /// Counts a line that was taken, of this many bytes.
    pub fn count(&mut self, bytes: usize)
        requires entries { self.old.entries + 1 < 2 ^ 64 }
        requires bytes { self.old.bytes + bytes < 2 ^ 64 }
        ensures { self.new ≡ record self.old { entries = self.old.entries + 1; bytes = self.old.bytes + bytes } }
    {
        self.entries += 1;
        self.bytes += bytes;
    }
}

/// Tests that there is one entry and that it is what a line records, and returns the counter of its operation.
///
/// # Errors
/// `NotApplied` if there is no entry, `NotAlone` if there are entries other than the recorded one.
pub fn check_recorded(entries: &[Entry], said: &Recorded) -> Result<u64, Unfit>
    ensures ok { OnOk result (map recorded (map entry_of entries.now) ≡ record_meant said.now ∷ []) }
    ensures err { IfErr result (λ why. ((why ≡ NotApplied) × (entries.now ≡ [])) ⊎ (why ≡ NotAlone)) }
{
    match entries {
        [] => Err(Unfit::NotApplied),
        [entry] if is_recorded(entry, said) => Ok(entry.op().id.counter),
        _ => Err(Unfit::NotAlone),
    }
}

/// Whether a line records this entry.
fn is_recorded(entry: &Entry, said: &Recorded) -> bool
    ensures { IsTrue result → recorded (entry_of entry.now) ≡ record_meant said.now }
{
    match (entry, said) {
        (Entry::Own { command, op, .. }, Recorded::Commanded(id, other)) => {
            op.id == *id && is_same_command(command, other)
        }
        (Entry::Peer(op), Recorded::Received(other)) => is_same_op(op, other),
        _ => false,
    }
}

fn is_same_command(command: &Shared<Command>, other: &Shared<Command>) -> bool
    ensures { result ≡ is_same_command (command_of command.now) (command_of other.now) }
{
    command == other
}

fn is_same_op(op: &Shared<Op>, other: &Shared<Op>) -> bool
    ensures { result ≡ is_same_operation (stamped_of op.now) (stamped_of other.now) }
{
    op == other
}
