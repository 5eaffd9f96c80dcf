//! Days of engines: an engine opens, receives, writes, receives, shows, answers a hello, and closes.

ghost use Rattle.std.specs.Prelude.{◌≡◌};
ghost use Rattle.ids.specs.Members.{in_order};

use crate::draws::Hands;
use crate::showing::show_all;
use crate::stage::Stage;
use crate::writing::{Work, write};
use engine::{
    Client, Config, EngineName, Parts, ReaderToken, Refusal, Writer, close, open, prepare,
};
use peer_sync::{answer, hello};
use std::alloc::Global;
use std::marker::Brand;
use std::sync::Wait;

/// The lines of the longest bundle: a receipt ends when the queue is full.
const MOST_LINES: u32 = 65_536;

/// What an engine does in a day.
#[derive(Clone, Copy)]
pub struct Day<'a> {
    /// Its number, and the first and the last of its members' numbers.
    pub own: u32,
    pub members: (u32, u32),
    /// The bundles that it receives before it writes.
    pub before: &'a [&'a [u8]],
    /// What it writes: how many commands at a time, and how many in all.
    pub work: Work,
    pub batch: u32,
    pub count: u32,
    /// The bundle that it receives after that, which may be empty.
    pub after: &'a [u8],
    /// Whether it shows the whole document at the end.
    pub shows: bool,
    /// Whether its answer is the whole history; else it is what came after the first receipts.
    pub answers_all: bool,
}

/// Plays a day. Returns the lines of the engine's answer.
pub fn play_day<R: Wait>(
    rt: &R,
    alloc: Global,
    hands: &mut Hands,
    day: &Day,
) -> Result<Vec<u8>, Refusal> {
    let parts = prepare(alloc, configuration(alloc, day)?)?;
    open_and_play::<Brand, R>(rt, alloc, hands, day, parts)
}

fn configuration(alloc: Global, day: &Day) -> Result<Config, Refusal> {
    let (first, last) = day.members;
    let mut members = Vec::new(alloc);
    for member in first..=last {
        members.push(member)?;
    }
    Ok(Config {
        own: day.own,
        members,
        clients: 1,
        readers: 1,
        queue: MOST_LINES,
        batch: day.batch,
        serials: u32::MAX,
    })
}

fn open_and_play<N: EngineName, R: Wait>(
    rt: &R,
    alloc: Global,
    hands: &mut Hands,
    day: &Day,
    parts: Parts,
) -> Result<Vec<u8>, Refusal>
    requires book { parts.opened.seen.book ≡ N.book }
    requires own { parts.config.own ≡ N.own }
    requires table { in_order parts.config.members ≡ N.table }
{
    let (mut writer, mut clients, mut readers) = open::<N>(rt, alloc, parts)?;
    let lines = match (clients.first_mut(), readers.first_mut()) {
        (Some(client), Some(reader)) => {
            play_with(rt, alloc, hands, day, &mut writer, client, reader)
        }
        _ => Err(Refusal::NoReaderPlace),
    };
    let closed = close(rt, writer, clients);
    hands.digest.number(closed.history.len() as u64);
    hands.digest.number(closed.left);
    lines
}

fn play_with<N: EngineName, R: Wait>(
    rt: &R,
    alloc: Global,
    hands: &mut Hands,
    day: &Day,
    writer: &mut Writer<N>,
    client: &mut Client<N>,
    reader: &mut ReaderToken<N>,
) -> Result<Vec<u8>, Refusal> {
    let mut stage = Stage {
        writer,
        client,
        reader,
        batch: day.batch as usize,
    };
    play_on(rt, alloc, &mut stage, hands, day)
}

fn play_on<N: EngineName, R: Wait>(
    rt: &R,
    alloc: Global,
    stage: &mut Stage<N>,
    hands: &mut Hands,
    day: &Day,
) -> Result<Vec<u8>, Refusal> {
    let empty = say_hello(alloc, stage, hands)?;
    for bundle in day.before {
        stage.take(rt, alloc, hands, bundle)?;
    }
    let first = say_hello(alloc, stage, hands)?;
    write(rt, alloc, stage, hands, day.work, day.count)?;
    stage.take(rt, alloc, hands, day.after)?;
    if day.shows {
        show_all(rt, alloc, stage, hands)?;
    }
    let asked = if day.answers_all { &empty } else { &first };
    let lines = answer(alloc, stage.reader, asked.as_slice())?;
    // Engines may write the same operations in different bytes: what a line says is shown by the engine that receives it.
    hands.digest.number(count_lines(&lines));
    Ok(lines)
}

fn count_lines(text: &[u8]) -> u64 {
    text.iter().filter(|byte| **byte == b'\n').count() as u64
}

fn say_hello<N: EngineName>(
    alloc: Global,
    stage: &mut Stage<N>,
    hands: &mut Hands,
) -> Result<Vec<u8>, Refusal> {
    let line = hello(alloc, stage.reader)?;
    hands.digest.bytes(line.as_slice());
    Ok(line)
}
