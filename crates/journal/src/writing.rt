//! The history as lines.

ghost use Rattle.std.specs.Prelude.{◌≡◌, IfErr, IfOk, length};
ghost use Rattle.semantics.specs.Entries.{IsEntryHistory};
ghost use Rattle.semantics.specs.Journals.{entries_from};
ghost use Rattle.semantics.specs.WorldHistory.{BeginsWith};
ghost use Rattle.peer_sync.specs.engine.published.Tokens.{GivesNoReading};
ghost use Rattle.records.specs.Lines.{journal_text};

use ids::Refusal;
use peer_sync::{EngineName, ReaderToken};
use records::lines_of;
use std::alloc::Global;

/// Lines of a journal.
#[derive(Debug, Drop)]
pub struct Written {
    /// A line of each entry, with its line feed.
    pub lines: Vec<u8>,
    /// How many entries the history has with these: where the next lines begin.
    pub upto: usize,
}

/// The lines of the entries from a position on, of all that the token sees in this one read, which it has then seen: an own entry as
/// `["own",ID,COMMAND]`, one that a peer sent as its line in the first profile. A `Replay` reads each by itself. Takes time and memory in
/// proportion to their number. A later call with the same position returns the same lines, and perhaps more.
///
/// # Errors
/// `NoReading` if the copies gave no reading, `Closed` if the engine is closed, `NoMemory` if allocation fails. The token may then have
/// seen more than before, never less.
pub fn write_from<N: EngineName>(
    alloc: Global,
    token: &mut ReaderToken<N>,
    position: usize,
) -> Result<Written, Refusal>
    ensures grows { BeginsWith token.new.seen token.old.seen }
    ensures legal { IsEntryHistory N.own token.new.seen }
    ensures lines { IfOk result (λ w. w.lines.items ≡ journal_text (entries_from position token.new.seen)) }
    ensures upto { IfOk result (λ w. w.upto ≡ length token.new.seen) }
    ensures published { IfOk result (λ _. token.new.read ≡ token.new.seen) }
    ensures err { IfErr result GivesNoReading }
{
    let entries = token.entries_from(alloc, position)?;
    let upto = token.seen_len();
    let lines = lines_of(alloc, entries.as_slice())?;
    Ok(Written { lines, upto })
}
