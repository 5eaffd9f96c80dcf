//! The outcome of a command, written as JSON: what was made of it, or the code of why nothing was.

ghost use Rattle.std.specs.Prelude.{OnOk};
ghost use Rattle.semantics.specs.LegalAnswer.{Made, RefusedAt};
ghost use Rattle.serde_json.specs.Data.{string};
ghost use Rattle.wire.specs.Writing.{IsWritten, tokens_of};
ghost use Rattle.requests.specs.Readings.{refusal_name, reply_json};

use ids::{OpId, Refusal};
use json::Writer;
use std::alloc::{AllocError, Global};
use wire::put_id;

/// Writes an operation's id and its position in the history.
///
/// # Errors
/// `AllocError` if allocation fails.
pub fn put_made(out: &mut Writer, id: OpId, position: u64) -> Result<(), AllocError>
    ensures { OnOk result (IsWritten (tokens_of (reply_json (Made id position))) out.old out.new) }
{
    out.begin_array()?;
    out.string("made")?;
    put_id(out, id)?;
    out.u64(position)?;
    out.end_array()
}

/// Writes why nothing was made or read, and the length of the history that refused it.
///
/// # Errors
/// `AllocError` if allocation fails.
pub fn put_refused(
    alloc: Global,
    out: &mut Writer,
    why: Refusal,
    length: u64,
) -> Result<(), AllocError>
    ensures { OnOk result (IsWritten (tokens_of (reply_json (RefusedAt why length))) out.old out.new) }
{
    out.begin_array()?;
    out.string("refused")?;
    put_refusal(alloc, out, why)?;
    out.u64(length)?;
    out.end_array()
}

/// Writes a refusal as its code, such as `E22`.
///
/// # Errors
/// `AllocError` if allocation fails.
pub fn put_refusal(alloc: Global, out: &mut Writer, why: Refusal) -> Result<(), AllocError>
    ensures { OnOk result (IsWritten (tokens_of (string (refusal_name why))) out.old out.new) }
{
    let number = why.number();
    let name = format!(in alloc; "E{number}")?;
    out.string(name.as_str())
}
