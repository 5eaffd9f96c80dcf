//! The channels between an engine's thread and the thread that sends it requests.

use crate::plan::Stop;
use crate::showing::Shown;
use crossbeam_channel::{Receiver, Sender, TryRecvError, bounded};
use ids::Refusal;
use std::alloc::{AllocError, Global};
use std::sync::Wait;

/// A request to an engine.
#[derive(Drop)]
pub enum Request {
    /// The line of its hello.
    Hello,
    /// The bundle that answers this hello.
    Answer(Vec<u8>),
    /// To receive this bundle: the reply is whether the engine shows more than before.
    Receive(Vec<u8>),
    /// What its reader is shown.
    Look,
}

/// The requesting end.
#[derive(Drop)]
pub struct Link {
    requests: Sender<Request>,
    told: Receiver<bool>,
    lines: Receiver<Vec<u8>>,
    shown: Receiver<Shown>,
}

/// The engine's end.
#[derive(Drop)]
pub struct Desk {
    pub requests: Receiver<Request>,
    /// That the thread runs; whether everything was read back; whether what was received brought anything.
    pub told: Sender<bool>,
    pub lines: Sender<Vec<u8>>,
    pub shown: Sender<Shown>,
}

/// The two ends of one link.
///
/// # Errors
/// `AllocError` if allocation fails.
pub fn open_link(alloc: Global) -> Result<(Link, Desk), AllocError> {
    let (requests, asked) = bounded(alloc, 1)?;
    let (tells, told) = bounded(alloc, 2)?;
    let (writes, lines) = bounded(alloc, 1)?;
    let (shows, shown) = bounded(alloc, 1)?;
    let link = Link {
        requests,
        told,
        lines,
        shown,
    };
    let desk = Desk {
        requests: asked,
        told: tells,
        lines: writes,
        shown: shows,
    };
    Ok((link, desk))
}

/// An engine's thread has ended; it reports the reason itself.
const GONE: Stop = Stop::Refused(Refusal::NoReading);

/// # Errors
/// Each call returns `NoReading` if the engine's thread has ended.
impl Link {
    /// What the engine has already told, if anything.
    pub fn told_yet(&self, rt: &impl Wait) -> Result<Option<bool>, Stop> {
        match self.told.try_recv(rt) {
            Ok(told) => Ok(Some(told)),
            Err(TryRecvError::Empty) => Ok(None),
            Err(TryRecvError::Disconnected) => Err(GONE),
        }
    }

    /// Waits until the engine tells something.
    pub fn told(&self, rt: &impl Wait) -> Result<bool, Stop> {
        self.told.recv(rt).map_err(|_| GONE)
    }

    /// The engine's hello.
    pub fn hello(&self, rt: &impl Wait) -> Result<Vec<u8>, Stop> {
        self.request(rt, Request::Hello)?;
        self.lines.recv(rt).map_err(|_| GONE)
    }

    /// The engine's answer to the hello.
    pub fn answer(&self, rt: &impl Wait, hello: Vec<u8>) -> Result<Vec<u8>, Stop> {
        self.request(rt, Request::Answer(hello))?;
        self.lines.recv(rt).map_err(|_| GONE)
    }

    /// Whether the engine shows more than before, once it has received the bundle and handled what there was room for.
    pub fn receive(&self, rt: &impl Wait, bundle: Vec<u8>) -> Result<bool, Stop> {
        self.request(rt, Request::Receive(bundle))?;
        self.told(rt)
    }

    /// What the engine shows.
    pub fn look(&self, rt: &impl Wait) -> Result<Shown, Stop> {
        self.request(rt, Request::Look)?;
        self.shown.recv(rt).map_err(|_| GONE)
    }

    fn request(&self, rt: &impl Wait, request: Request) -> Result<(), Stop> {
        match self.requests.send(rt, request) {
            Ok(()) => Ok(()),
            Err(_) => Err(GONE),
        }
    }
}
