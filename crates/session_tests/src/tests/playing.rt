//! What a test does with two sessions, as a table of turns, and what plays them.

use super::*;
use fixtures::{Pair, pair_of};
use replica::Expr;
use requests::{Edition, command_in, glance_json};
use session::{Received, Refused, Replayed, Session, Unfit};
use std::alloc::Global;
use std::process::Abort;
use wire::{json_of, write_vector};

/// Why a line of a journal wasn't taken.
#[derive(Clone, Copy, Debug, PartialEq, Eq)]
pub enum Why {
    Refused(Refusal),
    OtherId(Pair),
    NotApplied,
    NotAlone,
}

/// How far a journal was replayed: how many lines and bytes, and the stop.
pub type Taken = (u64, usize, Option<(u64, Why)>);

/// How many lines were received; how many were refused, the line of the first and why; and the stop.
pub type Got = (u64, Option<(u64, u64, Refusal)>, Option<(u64, Refusal)>);

/// One turn of a session, and its answer.
#[derive(Clone, Copy)]
pub enum Row {
    /// It writes this command: this id was made.
    Write(&'static str, Pair),
    /// It is refused this command.
    Denied(&'static str, Refusal),
    /// It receives this text.
    Receive(&'static str, Got),
    /// It answers this hello, from the first entries, within this many bytes: the lines, whether there are more, and whether the hello
    /// names more of the own number.
    Answer(&'static str, usize, usize, &'static str, bool, bool),
    /// Its hello.
    Hello(&'static str),
    /// A glance at its document, at most five deep.
    Shows(&'static str),
    /// The lines of the entries from this position on.
    Journal(usize, &'static str),
    /// It replays this journal.
    Replay(&'static str, Taken),
    /// How many entries it has.
    Length(usize),
}

/// Opens a session with this number, and plays these rows in order.
pub fn on_new(rt: &impl Abort, alloc: Global, own: u32, rows: &[Row]) -> Result<(), Fail> {
    let mut session = Session::open(alloc, own)?;
    play(rt, alloc, &mut session, rows)
}

/// Plays these rows in order.
pub fn play(
    rt: &impl Abort,
    alloc: Global,
    session: &mut Session,
    rows: &[Row],
) -> Result<(), Fail> {
    for row in rows {
        play_row(rt, alloc, session, *row)?;
    }
    Ok(())
}

fn play_row(rt: &impl Abort, alloc: Global, session: &mut Session, row: Row) -> Result<(), Fail> {
    match row {
        Row::Write(command, id) => write(rt, alloc, session, command, id),
        Row::Denied(command, why) => deny(rt, alloc, session, command, why),
        Row::Receive(text, want) => {
            let received = session.receive(alloc, text.as_bytes());
            assert_eq!(rt; got(&received), want);
            Ok(())
        }
        Row::Replay(journal, want) => {
            let replayed = session.replay(alloc, journal.as_bytes());
            assert_eq!(rt; taken(&replayed), want);
            Ok(())
        }
        Row::Length(count) => {
            assert_eq!(rt; session.len(), count);
            Ok(())
        }
        _ => say(rt, alloc, session, row),
    }
}

/// Plays a row of what a session says.
fn say(rt: &impl Abort, alloc: Global, session: &Session, row: Row) -> Result<(), Fail> {
    match row {
        Row::Answer(hello, stored, most, lines, has_more, is_beyond) => {
            let answered = session.answer_within(alloc, hello.as_bytes(), stored, most)?;
            assert_eq!(rt; answered.lines.as_slice(), lines.as_bytes());
            assert_eq!(rt; answered.has_more, has_more);
            assert_eq!(rt; answered.is_beyond, is_beyond);
            Ok(())
        }
        Row::Hello(line) => {
            let text = write_vector(alloc, &session.hello(alloc)?)?;
            assert_eq!(rt; text.as_slice(), line.as_bytes());
            Ok(())
        }
        Row::Shows(json) => show(rt, alloc, session, json),
        Row::Journal(position, lines) => {
            let text = session.lines_from(alloc, position)?;
            assert_eq!(rt; text.as_slice(), lines.as_bytes());
            Ok(())
        }
        _ => Err("another row".into()),
    }
}

/// Writes the command of this JSON, and asserts which id is made of it.
fn write(
    rt: &impl Abort,
    alloc: Global,
    session: &mut Session,
    command: &str,
    want: Pair,
) -> Result<(), Fail> {
    let command = command_in(alloc, Edition::Second, &json_of(alloc, command.as_bytes())?)?;
    let id = session.write(alloc, command)?;
    assert_eq!(rt; pair_of(id), want);
    Ok(())
}

/// Asserts that the command of this JSON is refused for this reason.
fn deny(
    rt: &impl Abort,
    alloc: Global,
    session: &mut Session,
    command: &str,
    want: Refusal,
) -> Result<(), Fail> {
    let command = command_in(alloc, Edition::Second, &json_of(alloc, command.as_bytes())?)?;
    match session.write(alloc, command) {
        Err(why) => assert_eq!(rt; why, want),
        Ok(_) => return Err("it is made".into()),
    }
    Ok(())
}

/// Compares a glance at the whole document with this JSON.
fn show(rt: &impl Abort, alloc: Global, session: &Session, json: &str) -> Result<(), Fail> {
    let glance = session
        .document()
        .glance(alloc, &Expr::root(alloc), 5, 100)?;
    let value = glance_json(alloc, &glance)?;
    let want = json_of(alloc, json.as_bytes())?;
    assert!(rt; value == want);
    Ok(())
}

/// What a receipt says.
pub fn got(received: &Received) -> Got {
    let refused = match received.refused {
        None => None,
        Some(
            Refused {
                count,
                first_line,
                why,
            },
        ) => Some((count, first_line, why)),
    };
    (received.taken, refused, received.stopped)
}

/// What a replay says.
fn taken(replayed: &Replayed) -> Taken {
    let stopped = match replayed.stopped {
        None => None,
        Some((line, unfit)) => Some((line, why_of(unfit))),
    };
    (replayed.entries, replayed.bytes, stopped)
}

/// Why a line wasn't taken.
fn why_of(unfit: Unfit) -> Why {
    match unfit {
        Unfit::Refused(why) => Why::Refused(why),
        Unfit::OtherId(id) => Why::OtherId(pair_of(id)),
        Unfit::NotApplied => Why::NotApplied,
        Unfit::NotAlone => Why::NotAlone,
    }
}
