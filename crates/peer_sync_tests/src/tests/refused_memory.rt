//! An exchange in which an allocation fails goes on, and ends as it otherwise would have. Engine 2 knows only itself.
//!
//! Run with each allocation refused in turn (`tests/refused_memory.sh`): a refused call is made once more and counted, so each run passes,
//! and each answer that isn't refused is that of a run in which no allocation fails.

ghost use Rattle.std.specs.Prelude.{◌≡◌};
ghost use Rattle.ids.specs.Members.{in_order};

use super::opening::prepare_engine;
use super::playing::Writing::{Assign, Delete, Insert};
use super::playing::Wrote::{List, Map, Words};
use super::playing::{Stage, Writing, command, poll};
use super::showing::Shown::{Items, Values};
use super::showing::To::{Index, Key};
use super::showing::{Shown, To, expr, is_wanted, question};
use super::*;
use engine::{Client, EngineName, Final, Parts, ReaderToken, Step, Writer, close, open};
use fixtures::{Pair, pair_of};
use operation::Reply;
use std::alloc::Global;
use std::marker::Brand;
use std::process::Abort;
use std::sync::Wait;

const LIST_AT: &[To] = &[Key("shopping")];

const HEAD: &[To] = &[Key("shopping"), Index(0)];

const ITEM: &[To] = &[Key("shopping"), Index(2)];

/// What engine 1 writes, whose lines are `FIVE`, with the ids that it makes.
const WRITTEN: &[(Writing, Pair)] = &[
    (Assign(&[], Map), (1, 1)),
    (Assign(LIST_AT, List), (2, 1)),
    (Insert(HEAD, Words("eggs")), (3, 1)),
    (Insert(HEAD, Words("cheese")), (4, 1)),
    (Insert(ITEM, Words("milk")), (5, 1)),
];

/// What both engines show at the end.
const SHOWN: &[(&[To], Shown)] = &[
    (LIST_AT, Items(&[(4, 1), (3, 1), (5, 1)])),
    (ITEM, Values(&[((6, 2), "ham")])),
];

/// The hello of both at the end.
const ALL: &str = r#"["hello",[[1,6],[2,6]]]
"#;

/// What one wrote while the other deleted, and that delete: both have the same vector.
const HAM_NEXT: &str = r#"["op2",[6,2],[],[["m",0],["l","shopping"]],[3,1],["a","ham"]]
"#;

const DELETED_NEXT: &str = r#"["op2",[6,1],[],[["m",0],["l","shopping"]],[3,1],["d"]]
"#;

/// How many allocations were refused, in answers of engines and where a test makes its own values.
#[derive(Drop)]
struct Refused {
    times: u32,
}

impl Refused {
    /// Counts a refusal, if allocation failed.
    ///
    /// # Errors
    /// Any other refusal.
    fn count(&mut self, why: Refusal) -> Result<(), Refusal> {
        if why != Refusal::NoMemory {
            return Err(why);
        }
        self.note();
        Ok(())
    }

    fn note(&mut self) {
        self.times = self.times.saturating_add(1);
    }
}

/// What is made, at the second attempt if an allocation of the first fails.
fn again<T: Drop, F: Fn() -> Result<T, Refusal>>(
    refused: &mut Refused,
    make: F,
) -> Result<T, Refusal>
    requires { F.IsAlwaysCallable make }
{
    match make() {
        Err(Refusal::NoMemory) => {
            refused.note();
            make()
        }
        made => made,
    }
}

#[test]
fn an_exchange_goes_on(rt: HostRuntime) -> Result<(), Fail> {
    let alloc = rt.alloc();
    let mut refused = Refused { times: 0 };
    for _ in 0..2 {
        let parts = again(&mut refused, || prepare_engine(alloc, 1, &[1, 2, 3], 16))?;
        if with_one::<Brand, _>(&rt, alloc, &mut refused, parts)? {
            assert!(rt; refused.times < 2);
            return Ok(());
        }
    }
    Err("engine 1 isn't opened at the second attempt".into())
}

/// Whether engine 1 was opened. If so, all was played.
fn with_one<N: EngineName, R: Wait + Abort>(
    rt: &R,
    alloc: Global,
    refused: &mut Refused,
    parts: Parts,
) -> Result<bool, Fail>
    requires book { parts.opened.seen.book ≡ N.book }
    requires own { parts.config.own ≡ N.own }
    requires table { in_order parts.config.members ≡ N.table }
{
    // `open` is refused because an allocation failed, or because the copies have no token for a reader.
    let Ok((mut writer, mut clients, mut readers)) = open::<N>(rt, alloc, parts) else {
        refused.note();
        return Ok(false);
    };
    let played = match (clients.first_mut(), readers.first_mut()) {
        (Some(client), Some(reader)) => on_one(rt, alloc, refused, &mut writer, client, reader),
        _ => Err("no client".into()),
    };
    let last = close(rt, writer, clients);
    has_seven(rt, played, &last)
}

fn on_one<N: EngineName, R: Wait + Abort>(
    rt: &R,
    alloc: Global,
    refused: &mut Refused,
    writer: &mut Writer<N>,
    client: &mut Client<N>,
    reader: &mut ReaderToken<N>,
) -> Result<(), Fail> {
    let mut stage = Stage {
        own: 1,
        writer,
        client,
        reader,
    };
    open_two(rt, alloc, refused, &mut stage)
}

/// Whether all was played; all seven operations are then published, and nothing is left.
fn has_seven<R: Abort>(rt: &R, played: Result<(), Fail>, last: &Final) -> Result<bool, Fail> {
    played?;
    assert_eq!(rt; last.history.len(), 7);
    assert_eq!(rt; last.left, 0);
    Ok(true)
}

fn open_two<N: EngineName, R: Wait + Abort>(
    rt: &R,
    alloc: Global,
    refused: &mut Refused,
    one: &mut Stage<N>,
) -> Result<(), Fail> {
    for _ in 0..2 {
        let parts = again(refused, || prepare_engine(alloc, 2, &[2], 16))?;
        if with_two::<N, Brand, R>(rt, alloc, refused, one, parts)? {
            return Ok(());
        }
    }
    Err("engine 2 isn't opened at the second attempt".into())
}

/// Whether engine 2 was opened. If so, all was played.
fn with_two<N: EngineName, M: EngineName, R: Wait + Abort>(
    rt: &R,
    alloc: Global,
    refused: &mut Refused,
    one: &mut Stage<N>,
    parts: Parts,
) -> Result<bool, Fail>
    requires book { parts.opened.seen.book ≡ M.book }
    requires own { parts.config.own ≡ M.own }
    requires table { in_order parts.config.members ≡ M.table }
{
    let Ok((mut writer, mut clients, mut readers)) = open::<M>(rt, alloc, parts) else {
        refused.note();
        return Ok(false);
    };
    let played = match (clients.first_mut(), readers.first_mut()) {
        (Some(client), Some(reader)) => on_both(
            rt,
            alloc,
            refused,
            one,
            &mut writer,
            client,
            reader,
        ),
        _ => Err("no client".into()),
    };
    let last = close(rt, writer, clients);
    has_seven(rt, played, &last)
}

fn on_both<N: EngineName, M: EngineName, R: Wait + Abort>(
    rt: &R,
    alloc: Global,
    refused: &mut Refused,
    one: &mut Stage<N>,
    writer: &mut Writer<M>,
    client: &mut Client<M>,
    reader: &mut ReaderToken<M>,
) -> Result<(), Fail> {
    let mut stage = Stage {
        own: 2,
        writer,
        client,
        reader,
    };
    play(rt, alloc, refused, one, &mut stage)
}

/// Engine 1 writes, and engine 2 takes that; then each writes by itself, and they exchange it.
fn play<N: EngineName, M: EngineName, R: Wait + Abort>(
    rt: &R,
    alloc: Global,
    refused: &mut Refused,
    one: &mut Stage<N>,
    two: &mut Stage<M>,
) -> Result<(), Fail> {
    for (writing, id) in WRITTEN {
        write(rt, alloc, refused, one, *writing, *id)?;
    }
    pull(rt, alloc, refused, two, one, FIVE)?;
    write(rt, alloc, refused, one, Delete(ITEM), (6, 1))?;
    write(rt, alloc, refused, two, Assign(ITEM, Words("ham")), (6, 2))?;
    pull(rt, alloc, refused, one, two, HAM)?;
    pull(rt, alloc, refused, two, one, DELETED)?;
    end(rt, alloc, refused, one, &[FIVE, DELETED, HAM_NEXT])?;
    end(rt, alloc, refused, two, &[FIVE, HAM, DELETED_NEXT])
}

/// Writes, once more if allocation fails, and asserts the id.
fn write<N: EngineName, R: Wait + Abort>(
    rt: &R,
    alloc: Global,
    refused: &mut Refused,
    stage: &mut Stage<N>,
    writing: Writing,
    want: Pair,
) -> Result<(), Fail> {
    for _ in 0..2 {
        let serial = submit(rt, alloc, refused, stage, writing)?;
        step_all(rt, alloc, refused, stage)?;
        match poll(stage, serial)? {
            Some(Reply::Made(id, _)) if pair_of(id) == want => return Ok(()),
            Some(Reply::Refused(why, _)) => refused.count(why)?,
            _ => return Err("another answer".into()),
        }
    }
    Err("no memory for a second command".into())
}

/// Submits what is to be written, and returns its serial. A refused call takes none.
fn submit<N: EngineName, R: Wait>(
    rt: &R,
    alloc: Global,
    refused: &mut Refused,
    stage: &mut Stage<N>,
    writing: Writing,
) -> Result<u64, Refusal> {
    match try_submit(rt, alloc, stage, writing) {
        Err(why) => {
            refused.count(why)?;
            try_submit(rt, alloc, stage, writing)
        }
        serial => serial,
    }
}

fn try_submit<N: EngineName, R: Wait>(
    rt: &R,
    alloc: Global,
    stage: &mut Stage<N>,
    writing: Writing,
) -> Result<u64, Refusal> {
    let command = command(alloc, writing)?;
    let ticket = stage.client.submit(rt, alloc, command)?;
    Ok(ticket.serial)
}

/// Steps until there is nothing to do. A step that ends in `Held` is followed by another one.
fn step_all<N: EngineName, R: Wait>(
    rt: &R,
    alloc: Global,
    refused: &mut Refused,
    stage: &mut Stage<N>,
) -> Result<(), Fail> {
    for _ in 0..6 {
        match stage.writer.step(rt, alloc) {
            Step::Idle => return Ok(()),
            Step::Held => refused.note(),
            Step::Published(_) => {}
        }
    }
    Err("there is still something to do".into())
}

/// One engine takes what the other has, until it lacks nothing. The first bundle is this one, and each later one is a suffix of it: if a
/// vector names one replica, what changed since the line before is the whole vector.
fn pull<N: EngineName, M: EngineName, R: Wait + Abort>(
    rt: &R,
    alloc: Global,
    refused: &mut Refused,
    to: &mut Stage<N>,
    from: &mut Stage<M>,
    want: &str,
) -> Result<(), Fail> {
    assert!(rt; get(rt, alloc, refused, to, from, want)? == want.len());
    for _ in 0..2 {
        if get(rt, alloc, refused, to, from, want)? == 0 {
            return Ok(());
        }
    }
    Err("something is still lacking".into())
}

/// One engine takes what it lacks, a suffix of this bundle. Returns how many bytes that is.
fn get<N: EngineName, M: EngineName, R: Wait + Abort>(
    rt: &R,
    alloc: Global,
    refused: &mut Refused,
    to: &mut Stage<N>,
    from: &mut Stage<M>,
    whole: &str,
) -> Result<usize, Fail> {
    let said = said(alloc, refused, to.reader)?;
    let bundle = answered(alloc, refused, from.reader, said.as_slice())?;
    assert!(rt; whole.as_bytes().ends_with(bundle.as_slice()));
    take(rt, alloc, refused, to, bundle.as_slice())
}

/// The hello of a reader, at the second attempt if an allocation of the first fails.
fn said<N: EngineName>(
    alloc: Global,
    refused: &mut Refused,
    reader: &mut ReaderToken<N>,
) -> Result<Vec<u8>, Refusal> {
    match hello(alloc, reader) {
        Err(Refusal::NoMemory) => {
            refused.note();
            hello(alloc, reader)
        }
        said => said,
    }
}

/// A reader's answer to a hello, likewise.
fn answered<N: EngineName>(
    alloc: Global,
    refused: &mut Refused,
    reader: &mut ReaderToken<N>,
    said: &[u8],
) -> Result<Vec<u8>, Refusal> {
    match answer(alloc, reader, said) {
        Err(Refusal::NoMemory) => {
            refused.note();
            answer(alloc, reader, said)
        }
        lines => lines,
    }
}

/// Receives a bundle and handles it. Returns how many bytes it has. If an allocation fails, some of it isn't kept.
fn take<N: EngineName, R: Wait>(
    rt: &R,
    alloc: Global,
    refused: &mut Refused,
    stage: &mut Stage<N>,
    bundle: &[u8],
) -> Result<usize, Fail> {
    let received = receive(rt, alloc, stage.client, bundle);
    if let Some((_line, why)) = received.stopped {
        refused.count(why)?;
    }
    step_all(rt, alloc, refused, stage)?;
    for number in 0..received.submitted {
        let serial = received.first_serial.saturating_add(number);
        let reply = poll(stage, serial)?;
        note_reply(refused, reply)?;
    }
    Ok(bundle.len())
}

/// Counts a refusal of a peer's operation, if an allocation failed. The operation is known if it came again, because another one of the
/// same bundle was refused.
fn note_reply(refused: &mut Refused, reply: Option<Reply>) -> Result<(), Fail> {
    match reply {
        Some(Reply::Kept(_)) => {}
        Some(Reply::Known(_)) if refused.times > 0 => {}
        Some(Reply::Refused(why, _)) => refused.count(why)?,
        _ => return Err("another answer".into()),
    }
    Ok(())
}

/// Asserts that the reader learns of all that is published, is shown it, and would send it in this order.
fn end<N: EngineName, R: Wait + Abort>(
    rt: &R,
    alloc: Global,
    refused: &mut Refused,
    stage: &mut Stage<N>,
    lines: &[&str],
) -> Result<(), Fail> {
    stage.reader.learn(&stage.writer.notice());
    assert_eq!(rt; stage.reader.seen_len(), 7);
    for (path, want) in SHOWN {
        assert_shown(rt, alloc, refused, stage.reader, path, *want)?;
    }
    assert_said(rt, alloc, refused, stage.reader)?;
    assert_history(rt, alloc, refused, stage.reader, lines)?;
    Ok(())
}

/// Compares what a reader says that has seen everything.
fn assert_said<N: EngineName>(
    rt: &impl Abort,
    alloc: Global,
    refused: &mut Refused,
    reader: &mut ReaderToken<N>,
) -> Result<(), Refusal> {
    let hello = said(alloc, refused, reader)?;
    assert_eq!(rt; hello.as_slice(), ALL.as_bytes());
    Ok(())
}

/// Asserts what a reader is shown.
fn assert_shown<N: EngineName>(
    rt: &impl Abort,
    alloc: Global,
    refused: &mut Refused,
    reader: &mut ReaderToken<N>,
    path: &[To],
    want: Shown,
) -> Result<(), Refusal> {
    let place = again(refused, || expr(alloc, path))?;
    let question = question(place, want);
    let reading = match reader.ask(alloc, &question) {
        Err(Refusal::NoMemory) => {
            refused.note();
            reader.ask(alloc, &question)
        }
        reading => reading,
    };
    assert!(rt; is_wanted(&reading, want), "{reading:?}");
    Ok(())
}

/// Asserts the whole history, as a new peer gets it.
fn assert_history<N: EngineName>(
    rt: &impl Abort,
    alloc: Global,
    refused: &mut Refused,
    reader: &mut ReaderToken<N>,
    parts: &[&str],
) -> Result<(), Refusal> {
    let history = answered(alloc, refused, reader, NEW.as_bytes())?;
    assert!(rt; is_made_of(history.as_slice(), parts));
    Ok(())
}

/// Whether the bytes are those of these parts, one after another.
fn is_made_of(bytes: &[u8], parts: &[&str]) -> bool {
    let mut rest = bytes;
    for part in parts {
        match rest.strip_prefix(part.as_bytes()) {
            Some(left) => rest = left,
            None => return false,
        }
    }
    rest.is_empty()
}
