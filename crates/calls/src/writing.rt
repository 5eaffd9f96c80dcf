//! Writing responses.

ghost use Rattle.std.specs.Prelude.{◌≡◌, ◌∷◌, [], IfOk, IsUtf8, OnOk, codes};
ghost use Rattle.serde_json.specs.Data.{Data, boolean, string};
ghost use Rattle.serde_json.specs.Written.{compact_text};
ghost use Rattle.requests.specs.wire.Lines.{IsFirstLine};
ghost use Rattle.requests.specs.wire.Messages.{hello_json};
ghost use Rattle.requests.specs.wire.Operations.{phrase};
ghost use Rattle.requests.specs.wire.Vectors.{count};
ghost use Rattle.requests.specs.wire.Writing.{IsWritten, tokens_of};
ghost use Rattle.requests.specs.Readings.{refusal_name};
ghost use Rattle.calls.specs.Responses.{IsNoGlance, refused_json, response_json, stopped_json};

use crate::response::{RefusedLines, Response, StoppedLine};
use ids::{NamedVector, Refusal};
use json::Writer;
use requests::{
    Glance, LINE_END, glance_json, put_made, put_one, put_reading, put_refusal, put_refused,
    put_two, put_vector, put_word,
};
use serde_json::json;
use std::alloc::{AllocError, Global};

/// The line of a response, with its line feed: JSON without spaces or any other line feed. Takes time and memory in proportion to it.
///
/// # Errors
/// `AllocError` if allocation fails.
pub fn write_response(alloc: Global, response: &Response) -> Result<Vec<u8>, AllocError>
    ensures line { IfOk result
        (λ line. (shown : Data) × IsFirstLine line.items (compact_text (response_json shown response.now)) []) }
    ensures utf8 { IfOk result (λ line. IsUtf8 line.items) }
{
    let mut line = response_text(alloc, response)?;
    line.push(LINE_END)?;
    Ok(line)
}

/// The text of a response.
fn response_text(alloc: Global, response: &Response) -> Result<Vec<u8>, AllocError>
    ensures text { IfOk result (λ text. (shown : Data) × (text.items ≡ compact_text (response_json shown response.now))) }
    ensures utf8 { IfOk result (λ text. IsUtf8 text.items) }
{
    match response {
        Response::Glance(length, glance) => glance_text(alloc, *length, glance),
        _ => token_text(alloc, response),
    }
}

/// The text of a glance.
fn glance_text(alloc: Global, length: u64, glance: &Glance) -> Result<Vec<u8>, AllocError>
    ensures text { IfOk result
        (λ text. (shown : Data) × (text.items ≡ compact_text (phrase (codes "glance") (count length ∷ shown ∷ [])))) }
    ensures utf8 { IfOk result (λ text. IsUtf8 text.items) }
{
    let shown = glance_json(alloc, glance)?;
    json!(in alloc; ["glance", length, shown])?.to_vec(alloc)
}

/// The text of any other response, written token by token.
fn token_text(alloc: Global, response: &Response) -> Result<Vec<u8>, AllocError>
    requires { IsNoGlance response.now }
    ensures text { IfOk result (λ text. (shown : Data) → text.items ≡ compact_text (response_json shown response.now)) }
    ensures utf8 { IfOk result (λ text. IsUtf8 text.items) }
{
    let mut out = Writer::new(Vec::new(alloc));
    put_response(alloc, &mut out, response)?;
    Ok(out.into_inner())
}

/// Writes a response that is no glance.
fn put_response(alloc: Global, out: &mut Writer, response: &Response) -> Result<(), AllocError>
    requires { IsNoGlance response.now }
    ensures { OnOk result
        ((shown : Data) → IsWritten (tokens_of (response_json shown response.now)) out.old out.new) }
{
    match response {
        Response::Made(id, position) => put_made(out, *id, *position),
        Response::Refused(why, length) => put_refused(alloc, out, *why, *length),
        Response::Denied(why) => put_denied(alloc, out, *why),
        Response::Read(length, reading) => put_reading(out, *length, reading),
        Response::Glance(..) => unreachable!(),
        Response::Hello(vector) => put_hello(out, vector),
        Response::Bundle {
            lines,
            has_more,
            is_beyond,
        } => put_bundle(out, lines.as_str(), *has_more, *is_beyond),
        Response::Received {
            taken,
            refused,
            stopped,
        } => put_received(alloc, out, *taken, *refused, *stopped),
        Response::Saved(length) => put_one(out, "saved", *length),
        Response::Status {
            number,
            length,
            saved,
        } => put_status(out, *number, *length, *saved),
        Response::Ready { number, length } => put_two(out, "ready", u64::from(*number), *length),
        Response::Unsaved { length, saved } => put_two(out, "unsaved", *length, *saved),
        Response::Lost => put_word(out, "lost"),
    }
}

/// Writes why a line is no call.
fn put_denied(alloc: Global, out: &mut Writer, why: Refusal) -> Result<(), AllocError>
    ensures { OnOk result (IsWritten (tokens_of (phrase (codes "refused") (string (refusal_name why) ∷ []))) out.old out.new) }
{
    out.begin_array()?;
    out.string("refused")?;
    put_refusal(alloc, out, why)?;
    out.end_array()
}

/// Writes a vector as a hello for a peer.
fn put_hello(out: &mut Writer, vector: &NamedVector) -> Result<(), AllocError>
    ensures { OnOk result (IsWritten (tokens_of (hello_json vector.now)) out.old out.new) }
{
    out.begin_array()?;
    out.string("hello")?;
    put_vector(out, vector.ids())?;
    out.end_array()
}

/// Writes lines for a peer, as one text, and two flags.
fn put_bundle(
    out: &mut Writer,
    lines: &str,
    has_more: bool,
    is_beyond: bool,
) -> Result<(), AllocError>
    ensures { OnOk result (IsWritten
        (tokens_of (phrase (codes "bundle") (string lines.now ∷ boolean has_more ∷ boolean is_beyond ∷ []))) out.old out.new) }
{
    out.begin_array()?;
    out.string("bundle")?;
    out.string(lines)?;
    out.boolean(has_more)?;
    out.boolean(is_beyond)?;
    out.end_array()
}

/// Writes the outcome of a bundle's lines.
fn put_received(
    alloc: Global,
    out: &mut Writer,
    taken: u64,
    refused: Option<RefusedLines>,
    stopped: Option<StoppedLine>,
) -> Result<(), AllocError>
    ensures { OnOk result (IsWritten
        (tokens_of (phrase (codes "received") (count taken ∷ refused_json refused ∷ stopped_json stopped ∷ []))) out.old out.new) }
{
    out.begin_array()?;
    out.string("received")?;
    out.u64(taken)?;
    put_refused_lines(alloc, out, refused)?;
    put_stopped_line(alloc, out, stopped)?;
    out.end_array()
}

/// Writes how many lines were refused, the first one and its code, or null.
fn put_refused_lines(
    alloc: Global,
    out: &mut Writer,
    refused: Option<RefusedLines>,
) -> Result<(), AllocError>
    ensures { OnOk result (IsWritten (tokens_of (refused_json refused)) out.old out.new) }
{
    let Some(refused) = refused else {
        return out.null();
    };
    out.begin_array()?;
    out.u64(refused.count)?;
    out.u64(refused.line)?;
    put_refusal(alloc, out, refused.why)?;
    out.end_array()
}

/// Writes a line and its code, or null.
fn put_stopped_line(
    alloc: Global,
    out: &mut Writer,
    stopped: Option<StoppedLine>,
) -> Result<(), AllocError>
    ensures { OnOk result (IsWritten (tokens_of (stopped_json stopped)) out.old out.new) }
{
    let Some(stopped) = stopped else {
        return out.null();
    };
    out.begin_array()?;
    out.u64(stopped.line)?;
    put_refusal(alloc, out, stopped.why)?;
    out.end_array()
}

/// Writes a device's number, the length and how much of it is saved.
fn put_status(out: &mut Writer, number: u32, length: u64, saved: u64) -> Result<(), AllocError>
    ensures { OnOk result (IsWritten
        (tokens_of (phrase (codes "status") (count number ∷ count length ∷ count saved ∷ []))) out.old out.new) }
{
    out.begin_array()?;
    out.string("status")?;
    out.u64(u64::from(number))?;
    out.u64(length)?;
    out.u64(saved)?;
    out.end_array()
}
