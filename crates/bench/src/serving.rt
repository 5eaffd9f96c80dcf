//! An engine that serves requests.

use crate::gate::values_at;
use crate::links::{Desk, Request};
use crate::plan::{MOST_TURNS, Stop};
use crate::showing::Shown;
use ids::{OpId, Refusal};
use peer_sync::{
    Client, EngineName, Expr, Key, Question, ReaderToken, Reading, Scalar, Step, Writer, answer,
    hello, receive,
};
use std::alloc::Global;
use std::sync::Wait;
use std::thread::yield_now;

/// What a thread needs of its engine to serve requests.
#[derive(Drop)]
pub struct Served<'a, N: EngineName> {
    pub writer: &'a mut Writer<N>,
    pub client: &'a mut Client<N>,
    pub reader: &'a mut ReaderToken<N>,
}

impl<N: EngineName> Served<'_, N> {
    /// Serves requests, one after another, until the requesting end is gone.
    ///
    /// # Errors
    /// `TurnLimit` if a publish was held for too long; `Refused` if a call was refused.
    pub fn serve<R: Wait>(&mut self, rt: &R, alloc: Global, desk: &Desk) -> Result<(), Stop> {
        for _ in rt.forever() {
            let Ok(request) = desk.requests.recv(rt) else {
                return Ok(());
            };
            self.reply(rt, alloc, desk, &request)?;
        }
        unreachable!()
    }

    /// Replies to a request. A send that fails is ignored: the next receive finds that the requesting end is gone.
    fn reply<R: Wait>(
        &mut self,
        rt: &R,
        alloc: Global,
        desk: &Desk,
        request: &Request,
    ) -> Result<(), Stop> {
        match request {
            Request::Hello => {
                let _ = desk.lines.send(rt, hello(alloc, self.reader)?);
            }
            Request::Answer(line) => {
                let _ = desk
                    .lines
                    .send(rt, answer(alloc, self.reader, line.as_slice())?);
            }
            Request::Receive(bundle) => {
                let _ = desk.told.send(rt, self.take(rt, alloc, bundle.as_slice())?);
            }
            Request::Look => {
                let _ = desk.shown.send(rt, look(alloc, self.reader)?);
            }
        }
        Ok(())
    }

    /// Receives a bundle as far as the queue has room, and handles what was received. Returns whether the reader sees more than before.
    fn take<R: Wait>(&mut self, rt: &R, alloc: Global, bundle: &[u8]) -> Result<bool, Stop> {
        let before = self.reader.seen_len();
        let received = receive(rt, alloc, self.client, bundle);
        settle(rt, alloc, self.writer)?;
        match received.stopped {
            None | Some((_, Refusal::QueueFull)) => {}
            Some((_, refusal)) => return Err(Stop::Refused(refusal)),
        }
        Ok(length(alloc, self.reader)? > before)
    }
}

/// Steps until nothing is left to handle.
fn settle<N: EngineName, R: Wait>(
    rt: &R,
    alloc: Global,
    writer: &mut Writer<N>,
) -> Result<(), Stop> {
    let mut held = 0u32;
    for _ in rt.forever() {
        if held >= MOST_TURNS {
            return Err(Stop::TurnLimit);
        }
        match writer.step(rt, alloc) {
            Step::Idle => return Ok(()),
            Step::Published(_) => held = 0,
            Step::Held => {
                held += 1;
                yield_now();
            }
        }
    }
    unreachable!()
}

/// How many operations the reader sees.
pub fn length<N: EngineName>(alloc: Global, reader: &mut ReaderToken<N>) -> Result<usize, Refusal> {
    let _vector = reader.ask(alloc, &Question::Vector)?;
    Ok(reader.seen_len())
}

/// What the reader sees.
fn look<N: EngineName>(alloc: Global, reader: &mut ReaderToken<N>) -> Result<Shown, Refusal> {
    let keys = keys(alloc, reader)?;
    let values = all_values(alloc, reader, keys.as_slice())?;
    Ok(Shown {
        length: reader.seen_len(),
        keys,
        values,
    })
}

/// The keys of the document.
fn keys<N: EngineName>(alloc: Global, reader: &mut ReaderToken<N>) -> Result<Vec<Key>, Refusal> {
    match reader.ask(alloc, &Question::Keys(Expr::root(alloc)))? {
        Reading::Keys(keys) => Ok(keys),
        _ => Err(Refusal::NoReading),
    }
}

/// The values at each of the keys.
fn all_values<N: EngineName>(
    alloc: Global,
    reader: &mut ReaderToken<N>,
    keys: &[Key],
) -> Result<Vec<Vec<(OpId, Scalar)>>, Refusal> {
    let mut all = Vec::new(alloc);
    for key in keys {
        all.push(values(alloc, reader, key)?)?;
    }
    Ok(all)
}

/// The values at a key.
fn values<N: EngineName>(
    alloc: Global,
    reader: &mut ReaderToken<N>,
    key: &Key,
) -> Result<Vec<(OpId, Scalar)>, Refusal> {
    match reader.ask(alloc, &values_at(alloc, key)?)? {
        Reading::Values(values) => Ok(values),
        _ => Err(Refusal::NoReading),
    }
}
