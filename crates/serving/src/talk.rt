//! The loop that serves a document.

use crate::desk::Desk;
use crate::lines::{Found, MOST_LINE, next_line};
use calls::{Response, write_response};
use ids::Refusal;
use std::alloc::{AllocError, Global};
use std::io::{BufRead, ErrorKind, Write};
use std::sync::Wait;
use store::Store;

/// Why serving a document stopped before its input ended.
#[derive(Clone, Copy, Debug, PartialEq, Eq)]
pub enum Stop {
    NoMemory,
    /// It isn't known what the store has, and the response said so.
    Lost,
    /// The input can't be read.
    NotRead,
    /// A response can't be written.
    NotWritten,
    /// The input ended, and this many entries still can't be saved.
    Unsaved(usize),
}

impl From<AllocError> for Stop {
    fn from(_error: AllocError) -> Stop {
        Stop::NoMemory
    }
}

/// Says that the document is ready, and then responds to each line of the input until it ends. A line is read only once the response to the
/// one before was written. Waits for input. At its end it tries once more to save what isn't saved.
///
/// # Errors
/// As `Stop` says. What earlier responses said still holds.
pub fn serve<S: Store, B: BufRead, W: Write>(
    rt: &impl Wait,
    alloc: Global,
    desk: &mut Desk<S>,
    input: &mut B,
    out: &mut W,
) -> Result<(), Stop> {
    say(alloc, out, &desk.ready())?;
    let mut line = Vec::new(alloc);
    for _ in rt.forever() {
        let Some(response) = respond(alloc, desk, input, &mut line)? else {
            return finish(alloc, desk);
        };
        say(alloc, out, &response)?;
        if let Response::Lost = response {
            return Err(Stop::Lost);
        }
    }
    unreachable!()
}

/// Saves what isn't saved when the input ends.
fn finish<S: Store>(alloc: Global, desk: &mut Desk<S>) -> Result<(), Stop> {
    if desk.unsaved() == 0 {
        return Ok(());
    }
    match desk.save_all(alloc) {
        Response::Saved(_) => Ok(()),
        Response::Lost => Err(Stop::Lost),
        _ => Err(Stop::Unsaved(desk.unsaved())),
    }
}

/// The response to the next line of the input, or `None` at its end. A line that is too long or cut off isn't a call.
fn respond<S: Store, B: BufRead>(
    alloc: Global,
    desk: &mut Desk<S>,
    input: &mut B,
    line: &mut Vec<u8>,
) -> Result<Option<Response>, Stop> {
    match next_line(input, MOST_LINE, line) {
        Ok(Found::Line) => Ok(Some(desk.answer(alloc, line)?)),
        Ok(Found::TooLong | Found::Cut) => Ok(Some(Response::Denied(Refusal::BadLine))),
        Ok(Found::End) => Ok(None),
        Err(error) if error.kind() == ErrorKind::OutOfMemory => Err(Stop::NoMemory),
        Err(_) => Err(Stop::NotRead),
    }
}

/// Writes a response with its line feed, and flushes it.
fn say<W: Write>(alloc: Global, out: &mut W, response: &Response) -> Result<(), Stop> {
    let line = write_response(alloc, response)?;
    if out.write_all(&line).is_err() || out.flush().is_err() {
        return Err(Stop::NotWritten);
    }
    Ok(())
}
