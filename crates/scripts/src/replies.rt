//! The replies to steps, as lines of JSON.

ghost use Rattle.std.specs.Prelude.{◌≡◌, ◌∷◌, ◌++◌, [], Some, map, IfOk, OnOk, IsUtf8, string_bytes};
ghost use Rattle.semantics.specs.Engine.{SentHello, Denied};
ghost use Rattle.serde_json.specs.Written.{compact_text};
ghost use Rattle.world.specs.operation.Submissions.{reply_of};
ghost use Rattle.world.specs.Acts.{step_reply_of};
ghost use Rattle.world.specs.wire.Operations.{phrase};
ghost use Rattle.world.specs.wire.Vectors.{count};
ghost use Rattle.world.specs.wire.Writing.{IsWritten, tokens_of};
ghost use Rattle.requests.specs.Readings.{reply_json};
ghost use Rattle.scripts.specs.Replies.{received_json, reply_text, step_reply_json};

use ids::Refusal;
use json::Writer;
use requests::{put_made, put_one, put_reading, put_refusal, put_refused, put_two, put_word};
use std::alloc::{AllocError, Global};
use world::{LINE_END, NamedVector, Reply, WorldReply, put_vector};

/// The replies, one per line.
pub fn reply_lines(alloc: Global, replies: &[WorldReply]) -> Result<String, AllocError>
    ensures { IfOk result (λ s. string_bytes s ≡ reply_text (map step_reply_of replies.now)) }
{
    let mut lines = Vec::new(alloc);
    // Each line is written to a buffer of its own and copied: the writer clears its buffer's spare capacity, which is large for a long
    // text.
    let mut line = Vec::new(alloc);
    for reply in replies {
        line.clear();
        line = with_reply(alloc, line, reply)?;
        lines.extend_from_slice(line.as_slice())?;
        lines.push(LINE_END)?;
    }
    let Ok(lines) = String::from_utf8(lines) else {
        unreachable!()
    };
    Ok(lines)
}

/// The text followed by the reply.
fn with_reply(alloc: Global, text: Vec<u8>, reply: &WorldReply) -> Result<Vec<u8>, AllocError>
    ensures line { IfOk result (λ t. t.items ≡ text.items ++ compact_text (step_reply_json (step_reply_of reply.now))) }
    ensures utf8 { OnOk result (IsUtf8 (compact_text (step_reply_json (step_reply_of reply.now)))) }
{
    let mut out = Writer::new(text);
    put_reply(alloc, &mut out, reply)?;
    Ok(out.into_inner())
}

fn put_reply(alloc: Global, out: &mut Writer, reply: &WorldReply) -> Result<(), AllocError>
    ensures { OnOk result (IsWritten (tokens_of (step_reply_json (step_reply_of reply.now))) out.old out.new) }
{
    match reply {
        WorldReply::Ticket(serial) => put_one(out, "ticket", *serial),
        WorldReply::Denied(why) => put_denied(alloc, out, *why),
        WorldReply::Took => put_word(out, "took"),
        WorldReply::Published(count) => put_one(out, "published", *count),
        WorldReply::Gave { client, serial } => put_two(out, "gave", *client as u64, *serial),
        WorldReply::Idle => put_word(out, "idle"),
        WorldReply::Unanswered => put_word(out, "none"),
        WorldReply::Replied(reply) => put_request_reply(alloc, out, *reply),
        WorldReply::Read { seen, reading } => put_reading(out, *seen, reading),
        WorldReply::NotRead { seen, why } => put_refused(alloc, out, *why, *seen),
        WorldReply::Seen(entries) => put_one(out, "seen", *entries),
        WorldReply::Hello { message, vector } => put_hello(out, *message, vector),
        WorldReply::Bundle {
            message,
            operations,
        } => put_two(out, "message", *message, *operations),
        WorldReply::NoMessage => put_word(out, "none"),
        WorldReply::Received {
            first,
            submitted,
            stopped,
        } => put_received(alloc, out, *first, *submitted, *stopped),
        WorldReply::Dropped(operations) => put_one(out, "dropped", *operations),
    }
}

/// Writes the answer to a submission.
fn put_request_reply(alloc: Global, out: &mut Writer, reply: Reply) -> Result<(), AllocError>
    ensures { OnOk result (IsWritten (tokens_of (reply_json (reply_of reply))) out.old out.new) }
{
    match reply {
        Reply::Made(id, position) => put_made(out, id, position),
        Reply::Kept(length) => put_one(out, "kept", length),
        Reply::Known(length) => put_one(out, "known", length),
        Reply::Refused(why, length) => put_refused(alloc, out, why, length),
    }
}

/// Writes why nothing was submitted.
fn put_denied(alloc: Global, out: &mut Writer, why: Refusal) -> Result<(), AllocError>
    ensures { OnOk result (IsWritten (tokens_of (step_reply_json (Denied why))) out.old out.new) }
{
    out.begin_array()?;
    out.string("refused")?;
    put_refusal(alloc, out, why)?;
    out.end_array()
}

/// Writes the number of the message by which a vector is sent, and the vector.
fn put_hello(out: &mut Writer, message: u64, vector: &NamedVector) -> Result<(), AllocError>
    ensures { OnOk result (IsWritten (tokens_of (step_reply_json (SentHello message vector.now))) out.old out.new) }
{
    out.begin_array()?;
    out.string("message")?;
    out.u64(message)?;
    put_vector(out, vector.ids())?;
    out.end_array()
}

/// Writes the first serial and how many operations were submitted.
fn put_received(
    alloc: Global,
    out: &mut Writer,
    first: u64,
    submitted: u64,
    stopped: Option<(u64, Refusal)>,
) -> Result<(), AllocError>
    ensures { OnOk result (IsWritten (tokens_of (received_json first submitted stopped)) out.old out.new) }
{
    match stopped {
        Some((line, why)) => put_received_until(alloc, out, first, submitted, line, why),
        None => put_two(out, "received", first, submitted),
    }
}

/// Writes the first serial and how many operations were submitted, and the line where that stopped and why.
fn put_received_until(
    alloc: Global,
    out: &mut Writer,
    first: u64,
    submitted: u64,
    line: u64,
    why: Refusal,
) -> Result<(), AllocError>
    ensures { OnOk result (IsWritten (tokens_of (received_json first submitted (Some (line, why)))) out.old out.new) }
{
    out.begin_array()?;
    out.string("received")?;
    out.u64(first)?;
    out.u64(submitted)?;
    out.u64(line)?;
    put_refusal(alloc, out, why)?;
    out.end_array()
}
