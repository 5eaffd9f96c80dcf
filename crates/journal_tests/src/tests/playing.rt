//! What a test does with an engine in a life, as a table of turns, and what plays them.

use super::*;
use engine::{Client, EngineName, ReaderToken, Reply, Step, Writer};
use fixtures::{Pair, pair_of};
use ids::Refusal;
use journal::{Outgoing, Replay, Replayed, Unfit, Written, write_from};
use peer_sync::{answer, receive};
use requests::{Edition, command_in};
use std::alloc::Global;
use std::process::Abort;
use std::sync::Wait;
use wire::json_of;

/// Why a line of a journal wasn't taken.
#[derive(Clone, Copy, Debug, PartialEq, Eq)]
pub enum Why {
    Refused(Refusal),
    OtherId(Pair),
    NotApplied,
    NotAlone,
}

/// How far a journal was replayed: how many lines and bytes, and the stop.
pub type Taken = (u64, usize, Option<(u64, Why)>);

/// One turn: something that is done with the engine, and its answer.
#[derive(Clone, Copy)]
pub enum Row {
    /// This journal is replayed, in pieces one after the other.
    Replay(&'static [(&'static str, Taken)]),
    /// This journal, whose first line has 33 bytes, stops at its second line.
    Stops(&'static str, Why),
    /// Its client writes this command, and its writer steps: this id was made.
    Write(&'static str, Pair),
    /// Its client receives this many operations of these lines, and its writer steps.
    Receive(&'static str, u64),
    /// Its reader writes the lines of the entries from this position on, and says how many entries there are with them.
    Journal(usize, &'static str, usize),
    /// Its reader answers this hello.
    Answer(&'static str, &'static str),
    /// The lines that aren't called stored, and how many entries there are with them.
    Unstored(&'static str, usize),
    /// The entries before this position are called stored.
    Stored(usize),
    /// The hello of the `Outgoing`.
    Hello(&'static str),
    /// The answer to this hello from what is stored, and whether the hello names more of the own number than is known.
    Send(&'static str, &'static str, bool),
}

/// An engine and its ends.
#[derive(Drop)]
pub struct Stage<'a, N: EngineName> {
    pub writer: &'a mut Writer<N>,
    pub client: &'a mut Client<N>,
    pub outgoing: &'a mut Outgoing<N>,
    pub reader: &'a mut ReaderToken<N>,
}

/// Plays these rows in order.
pub fn play<N: EngineName, R: Wait + Abort>(
    rt: &R,
    alloc: Global,
    stage: &mut Stage<N>,
    rows: &[Row],
) -> Result<(), Fail> {
    for row in rows {
        play_row(rt, alloc, stage, *row)?;
    }
    Ok(())
}

fn play_row<N: EngineName, R: Wait + Abort>(
    rt: &R,
    alloc: Global,
    stage: &mut Stage<N>,
    row: Row,
) -> Result<(), Fail> {
    match row {
        Row::Replay(pieces) => replay(rt, alloc, stage, pieces),
        Row::Stops(journal, why) => {
            replay(rt, alloc, stage, &[(journal, (1, 33, Some((2, why))))]);
        }
        Row::Write(command, id) => write(rt, alloc, stage, command, id)?,
        Row::Receive(lines, count) => take(rt, alloc, stage, lines, count),
        Row::Journal(from, lines, upto) => {
            let written = write_from(alloc, stage.reader, from)?;
            assert_written(rt, &written, lines, upto);
        }
        Row::Answer(hello, lines) => {
            let text = answer(alloc, stage.reader, hello.as_bytes())?;
            assert_eq!(rt; text.as_slice(), lines.as_bytes());
        }
        _ => send(rt, alloc, stage.outgoing, row)?,
    }
    Ok(())
}

/// Plays a row of the `Outgoing`.
fn send<N: EngineName, R: Abort>(
    rt: &R,
    alloc: Global,
    outgoing: &mut Outgoing<N>,
    row: Row,
) -> Result<(), Fail> {
    match row {
        Row::Unstored(lines, upto) => {
            let written = outgoing.unstored(alloc)?;
            assert_written(rt, &written, lines, upto);
        }
        Row::Stored(upto) => outgoing.call_stored(upto),
        Row::Hello(line) => {
            let text = outgoing.hello(alloc)?;
            assert_eq!(rt; text.as_slice(), line.as_bytes());
        }
        Row::Send(hello, lines, is_beyond) => {
            let answered = outgoing.answer(alloc, hello.as_bytes())?;
            assert_eq!(rt; answered.lines.as_slice(), lines.as_bytes());
            assert_eq!(rt; answered.is_beyond, is_beyond);
        }
        _ => return Err("another row".into()),
    }
    Ok(())
}

/// Compares lines of a journal, and how many entries there are with them.
fn assert_written(rt: &impl Abort, written: &Written, lines: &str, upto: usize) {
    assert_eq!(rt; written.lines.as_slice(), lines.as_bytes());
    assert_eq!(rt; written.upto, upto);
}

/// Replays these pieces, one after the other.
fn replay<N: EngineName, R: Wait + Abort>(
    rt: &R,
    alloc: Global,
    stage: &mut Stage<N>,
    pieces: &[(&str, Taken)],
) {
    let mut replay = Replay::new();
    for (journal, want) in pieces {
        let replayed = replay.take(rt, alloc, stage.writer, stage.client, journal.as_bytes());
        assert_eq!(rt; taken(&replayed), *want);
    }
}

/// What a replay says.
fn taken(replayed: &Replayed) -> Taken {
    let stopped = match replayed.stopped {
        None => None,
        Some((line, unfit)) => Some((line, why_of(unfit))),
    };
    (replayed.entries, replayed.bytes, stopped)
}

/// Why a line wasn't taken.
fn why_of(unfit: Unfit) -> Why {
    match unfit {
        Unfit::Refused(why) => Why::Refused(why),
        Unfit::OtherId(id) => Why::OtherId(pair_of(id)),
        Unfit::NotApplied => Why::NotApplied,
        Unfit::NotAlone => Why::NotAlone,
    }
}

/// Submits the command of this JSON, and asserts which id is made of it.
fn write<N: EngineName, R: Wait + Abort>(
    rt: &R,
    alloc: Global,
    stage: &mut Stage<N>,
    command: &str,
    want: Pair,
) -> Result<(), Fail> {
    let command = command_in(alloc, Edition::Second, &json_of(alloc, command.as_bytes())?)?;
    let ticket = stage.client.submit(rt, alloc, command)?;
    assert_eq!(rt; stage.writer.step(rt, alloc), Step::Published(1));
    match stage.client.poll(&ticket)? {
        Some(Reply::Made(id, _)) => assert_eq!(rt; pair_of(id), want),
        _ => return Err("another answer".into()),
    }
    Ok(())
}

/// Receives these lines, and handles that many.
fn take<N: EngineName, R: Wait + Abort>(
    rt: &R,
    alloc: Global,
    stage: &mut Stage<N>,
    lines: &str,
    want: u64,
) {
    let received = receive(rt, alloc, stage.client, lines.as_bytes());
    assert_eq!(rt; received.stopped, None);
    assert_eq!(rt; received.submitted, want);
    assert_eq!(rt;
        stage.writer.step(rt, alloc),
        Step::Published(want as usize)
    );
}
