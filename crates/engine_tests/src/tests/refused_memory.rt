//! A call whose allocation is refused changes nothing, and answers as usual when it is called again.
//!
//! Run with each allocation refused in turn (`tests/refused_memory.sh`): a refused call is made once more, so each run passes.

ghost use Rattle.std.specs.Prelude.{◌≡◌};
ghost use Rattle.ids.specs.Members.{in_order};

use super::*;
use cursor::{Expr, Place};
use document::{Question, Reading};
use fixtures::op;
use operation::{Command, Mutation, Op, Reply, Shared};
use std::marker::Brand;
use std::process::Abort;
use std::sync::Wait;
use value::{Scalar, Val};

/// What is made, at the second attempt if the first is refused.
fn again<T: Drop, F: Fn() -> Result<T, Refusal>>(make: F) -> Result<T, Refusal>
    requires { F.IsAlwaysCallable make }
{
    match make() {
        Err(Refusal::NoMemory) => make(),
        made => made,
    }
}

/// An engine that knows only itself.
fn small(alloc: Global) -> Result<Config, Refusal> {
    let mut members = Vec::new(alloc);
    members.push(1)?;
    Ok(Config {
        own: 1,
        members,
        clients: 1,
        readers: 1,
        queue: 8,
        batch: 4,
        serials: 100,
    })
}

fn assign(alloc: Global, number: i64) -> Result<Command, Refusal> {
    Ok(Command::Assign(at(alloc, "a")?, Val::Scalar(Scalar::Whole(number))))
}

#[test]
fn an_engine_goes_on(rt: HostRuntime) -> Result<(), Fail> {
    let alloc = rt.alloc();
    for _ in 0..2 {
        let parts = again(|| prepare(alloc, small(alloc)?))?;
        if opened::<Brand, _>(&rt, alloc, parts)? {
            return Ok(());
        }
    }
    Err("not opened at the second attempt".into())
}

/// Whether the engine was opened. If so, both plays were played.
fn opened<N: EngineName, R: Wait + Abort>(rt: &R, alloc: Global, parts: Parts) -> Result<bool, Fail>
    requires book { parts.opened.seen.book ≡ N.book }
    requires own { parts.config.own ≡ N.own }
    requires table { in_order parts.config.members ≡ N.table }
{
    let Ok((mut writer, mut clients, mut readers)) = open::<N>(rt, alloc, parts) else {
        return Ok(false);
    };
    let played = with_ends(rt, alloc, &mut writer, &mut clients, &mut readers);
    let Final { history, left } = close(rt, writer, clients);
    played?;
    assert_eq!(rt; history.len(), 6);
    assert_eq!(rt; left, 0);
    Ok(true)
}

fn with_ends<N: EngineName, R: Wait + Abort>(
    rt: &R,
    alloc: Global,
    writer: &mut Writer<N>,
    clients: &mut Vec<Client<N>>,
    readers: &mut Vec<ReaderToken<N>>,
) -> Result<(), Fail> {
    let client = clients.first_mut().ok_or("a client")?;
    let reader = readers.first_mut().ok_or("a reader")?;
    write_four(rt, alloc, writer, client)?;
    reader.learn(&writer.notice());
    assert_eq!(rt; reader.seen_len(), 4);
    assert!(rt; has_four(alloc, reader)?);
    deliver_two(rt, alloc, writer, client)?;
    reader.learn(&writer.notice());
    assert_eq!(rt; reader.seen_len(), 6);
    Ok(())
}

/// Submits three numbers, then a fourth.
fn write_four<N: EngineName, R: Wait + Abort>(
    rt: &R,
    alloc: Global,
    writer: &mut Writer<N>,
    client: &mut Client<N>,
) -> Result<(), Fail> {
    for (number, serial) in [(1, 1), (2, 2), (3, 3)] {
        assert_eq!(rt; submit(rt, alloc, client, number)?, serial);
    }
    let first = writer.step(rt, alloc);
    if first == Step::Held {
        // What is held isn't answered.
        for serial in 1..4 {
            assert!(rt; answer(client, serial)?.is_none());
        }
    }
    assert_eq!(rt; submit(rt, alloc, client, 4)?, 4);
    if first == Step::Held {
        assert_eq!(rt; writer.step(rt, alloc), Step::Published(3));
    } else {
        assert_eq!(rt; first, Step::Published(3));
    }
    publish(rt, alloc, writer, 1);
    write_again_what_was_refused(rt, alloc, writer, client)
}

/// Steps, once more if the first step ends in `Held`, and asserts how many are answered.
fn publish<N: EngineName, R: Wait + Abort>(
    rt: &R,
    alloc: Global,
    writer: &mut Writer<N>,
    count: usize,
) {
    let step = match writer.step(rt, alloc) {
        Step::Held => writer.step(rt, alloc),
        step => step,
    };
    assert_eq!(rt; step, Step::Published(count));
}

/// The serial under which a number is submitted. A refused call takes none.
fn submit<N: EngineName, R: Wait>(
    rt: &R,
    alloc: Global,
    client: &mut Client<N>,
    number: i64,
) -> Result<u64, Refusal> {
    let command = again(|| assign(alloc, number))?;
    let ticket = match client.submit(rt, alloc, command) {
        Err(Refusal::NoMemory) => client.submit(rt, alloc, assign(alloc, number)?),
        ticket => ticket,
    };
    Ok(ticket?.serial)
}

/// The answer to a serial of the one client.
fn answer<N: EngineName>(client: &mut Client<N>, serial: u64) -> Result<Option<Reply>, Fail> {
    let ticket = client.ticket_of(serial)?;
    Ok(client.poll(&ticket)?)
}

/// Asserts that at most one of four commands was answered with `NoMemory`, and submits that one again. The number 4 is written last in any
/// case.
fn write_again_what_was_refused<N: EngineName, R: Wait + Abort>(
    rt: &R,
    alloc: Global,
    writer: &mut Writer<N>,
    client: &mut Client<N>,
) -> Result<(), Fail> {
    let mut is_refused = false;
    for serial in 1..5 {
        match answer(client, serial)? {
            Some(Reply::Made(..)) => {}
            Some(Reply::Refused(Refusal::NoMemory, _)) if !is_refused => is_refused = true,
            _ => return Err("another answer".into()),
        }
    }
    if is_refused {
        let serial = submit(rt, alloc, client, 4)?;
        publish(rt, alloc, writer, 1);
        assert!(rt; matches!(answer(client, serial)?, Some(Reply::Made(_, 3))));
    }
    Ok(())
}

/// Delivers two operations of replica 2, the later one first, so that the drain after the second appends both. If that drain ends early,
/// the next step goes on with it.
fn deliver_two<N: EngineName, R: Wait + Abort>(
    rt: &R,
    alloc: Global,
    writer: &mut Writer<N>,
    client: &mut Client<N>,
) -> Result<(), Fail> {
    for counter in [2, 1] {
        deliver_until_taken(rt, alloc, writer, client, counter)?;
    }
    let (step, length) = (writer.step(rt, alloc), writer.notice().len());
    let next = writer.step(rt, alloc);
    assert!(rt;
        matches!(step, Step::Idle | Step::Published(0) | Step::Held),
        "{step:?} at {length}"
    );
    assert!(rt;
        matches!(next, Step::Idle | Step::Published(0)),
        "{next:?} after {step:?}"
    );
    assert_eq!(rt; writer.notice().len(), 6);
    Ok(())
}

/// Delivers an operation, again if an allocation failed.
fn deliver_until_taken<N: EngineName, R: Wait + Abort>(
    rt: &R,
    alloc: Global,
    writer: &mut Writer<N>,
    client: &mut Client<N>,
    counter: u64,
) -> Result<(), Fail> {
    for _ in 0..2 {
        let serial = deliver(rt, alloc, client, counter)?;
        publish(rt, alloc, writer, 1);
        match answer(client, serial)? {
            Some(Reply::Kept(_)) => return Ok(()),
            Some(Reply::Refused(Refusal::NoMemory, _)) => {}
            _ => return Err("another answer".into()),
        }
    }
    Err("no memory for a second delivery".into())
}

/// The serial under which replica 2's operation of this counter is delivered. A refused call takes none.
fn deliver<N: EngineName, R: Wait>(
    rt: &R,
    alloc: Global,
    client: &mut Client<N>,
    counter: u64,
) -> Result<u64, Refusal> {
    let op = again(|| op_of_two(alloc, counter))?;
    let ticket = match client.deliver(rt, alloc, op) {
        Err(Refusal::NoMemory) => client.deliver(rt, alloc, op_of_two(alloc, counter)?),
        ticket => ticket,
    };
    Ok(ticket?.serial)
}

/// The operation of replica 2 with this counter, which assigns an empty map at the root and depends on its earlier ones.
fn op_of_two(alloc: Global, counter: u64) -> Result<Shared<Op>, Refusal> {
    let mutation = Mutation::Assign(Val::EmptyMap);
    op(
        alloc,
        (counter, 2),
        &[0, counter.saturating_sub(1)],
        Place::doc(alloc),
        mutation,
    )
}

/// Whether the key `a` has the number 4.
fn has_four<N: EngineName>(alloc: Global, reader: &mut ReaderToken<N>) -> Result<bool, Refusal> {
    let question = Question::Values(again(|| at(alloc, "a"))?);
    let reading = match reader.ask(alloc, &question) {
        Err(Refusal::NoMemory) => reader.ask(alloc, &question),
        reading => reading,
    };
    match reading? {
        Reading::Values(values) => Ok(matches!(values.first(), Some((_, Scalar::Whole(4))))),
        _ => Ok(false),
    }
}
