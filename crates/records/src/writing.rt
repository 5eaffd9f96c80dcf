//! Entries as lines.

ghost use Rattle.std.specs.Prelude.{◌≡◌, ◌++◌, IfOk, OnOk, map};
ghost use Rattle.semantics.specs.Journals.{Commanded, recorded};
ghost use Rattle.requests.specs.operation.Ops.{command_of, entry_of};
ghost use Rattle.requests.specs.wire.Writing.{IsWritten, tokens_of};
ghost use Rattle.records.specs.Lines.{journal_text, record_json, record_line};

use ids::OpId;
use json::Writer;
use requests::{Command, Entry, LINE_END, put_command, put_id, put_op};
use std::alloc::{AllocError, Global};

/// A line of each entry, with its line feed: an own one as `["own",ID,COMMAND]`, one that a peer sent as its line in the first profile.
/// Takes time and memory in proportion to their number.
///
/// # Errors
/// `AllocError` if allocation fails.
pub fn lines_of(alloc: Global, entries: &[Entry]) -> Result<Vec<u8>, AllocError>
    ensures { IfOk result (λ text. text.items ≡ journal_text (map entry_of entries.now)) }
{
    let mut text = Vec::new(alloc);
    // Each line is written to a buffer of its own and copied: the writer clears its buffer's spare capacity, which is large for a long
    // text.
    let mut line = Vec::new(alloc);
    for entry in entries {
        line.clear();
        line = with_record(line, entry)?;
        text.extend_from_slice(line.as_slice())?;
        text.push(LINE_END)?;
    }
    Ok(text)
}

/// The text followed by the line of an entry.
fn with_record(text: Vec<u8>, entry: &Entry) -> Result<Vec<u8>, AllocError>
    ensures { IfOk result (λ t. t.items ≡ text.items ++ record_line (recorded (entry_of entry.now))) }
{
    let mut out = Writer::new(text);
    put_record(&mut out, entry)?;
    Ok(out.into_inner())
}

/// Writes what is recorded of an entry.
fn put_record(out: &mut Writer, entry: &Entry) -> Result<(), AllocError>
    ensures { OnOk result (IsWritten (tokens_of (record_json (recorded (entry_of entry.now)))) out.old out.new) }
{
    match entry {
        Entry::Own { command, op, .. } => put_own(out, op.id, command),
        Entry::Peer(op) => put_op(out, op),
    }
}

/// Writes an own command after the id of what was made of it.
fn put_own(out: &mut Writer, id: OpId, command: &Command) -> Result<(), AllocError>
    ensures { OnOk result (IsWritten (tokens_of (record_json (Commanded id (command_of command.now)))) out.old out.new) }
{
    out.begin_array()?;
    out.string("own")?;
    put_id(out, id)?;
    put_command(out, command)?;
    out.end_array()
}
