//! Two engines that edit offline, conflict, and meet: each sends the other what it lacks, and both show the same.
#![tactic(auto)]

ghost use Rattle.std.specs.Prelude.{◌≡◌};
ghost use Rattle.ids.specs.Members.{in_order};

use engine::{
    Client, Command, Config, EngineName, Expr, Parts, Question, ReaderToken, Reading, Refusal,
    Reply, Scalar, Step, Ticket, Val, Writer, close, open, prepare,
};
use peer_sync::{Received, answer, hello, receive};
use std::alloc::Global;
use std::io;
use std::marker::Brand;
use std::sync::Wait;

fn main(rt: HostRuntime) -> io::Result<()> {
    match meet(&rt, rt.alloc()) {
        Ok((alice, bob)) => {
            println!(rt; "Alice reads {alice}")?;
            println!(rt; "Bob reads {bob}")
        }
        Err(refusal) => println!(rt; "no meeting: {refusal:?}"),
    }
}

/// What each of the two reads at the key `title` after they met.
fn meet<R: Wait>(rt: &R, alloc: Global) -> Result<(String, String), Refusal> {
    let alice = prepare(alloc, configuration(alloc, 1)?)?;
    open_alice::<Brand, R>(rt, alloc, alice)
}

/// An engine of this number, among the two.
fn configuration(alloc: Global, own: u32) -> Result<Config, Refusal> {
    Ok(Config {
        own,
        members: vec![in alloc; 1, 2]?,
        clients: 1,
        readers: 1,
        queue: 16,
        batch: 8,
        serials: u32::MAX,
    })
}

fn open_alice<A: EngineName, R: Wait>(
    rt: &R,
    alloc: Global,
    alice: Parts,
) -> Result<(String, String), Refusal>
    requires book { alice.opened.seen.book ≡ A.book }
    requires own { alice.config.own ≡ A.own }
    requires table { in_order alice.config.members ≡ A.table }
{
    let (mut writer, mut clients, mut readers) = open::<A>(rt, alloc, alice)?;
    let read = match engine_of(&mut writer, &mut clients, &mut readers) {
        Ok(mut alice) => with_alice(rt, alloc, &mut alice),
        Err(refusal) => Err(refusal),
    };
    let _history = close(rt, writer, clients).history;
    read
}

/// What both read, given the ends of Alice's engine.
fn with_alice<A: EngineName, R: Wait>(
    rt: &R,
    alloc: Global,
    alice: &mut Engine<A>,
) -> Result<(String, String), Refusal> {
    let bob = prepare(alloc, configuration(alloc, 2)?)?;
    open_bob::<Brand, A, R>(rt, alloc, alice, bob)
}

fn open_bob<B: EngineName, A: EngineName, R: Wait>(
    rt: &R,
    alloc: Global,
    alice: &mut Engine<A>,
    bob: Parts,
) -> Result<(String, String), Refusal>
    requires book { bob.opened.seen.book ≡ B.book }
    requires own { bob.config.own ≡ B.own }
    requires table { in_order bob.config.members ≡ B.table }
{
    let (mut writer, mut clients, mut readers) = open::<B>(rt, alloc, bob)?;
    let read = with_bob(rt, alloc, alice, &mut writer, &mut clients, &mut readers);
    let _history = close(rt, writer, clients).history;
    read
}

/// What both read, given the ends of Bob's engine.
fn with_bob<B: EngineName, A: EngineName, R: Wait>(
    rt: &R,
    alloc: Global,
    alice: &mut Engine<A>,
    writer: &mut Writer<B>,
    clients: &mut Vec<Client<B>>,
    readers: &mut Vec<ReaderToken<B>>,
) -> Result<(String, String), Refusal> {
    let mut bob = engine_of(writer, clients, readers)?;
    edit_and_meet(rt, alloc, alice, &mut bob)
}

/// An engine with one client and one reader, on one thread.
#[derive(Drop)]
struct Engine<'a, N: EngineName> {
    writer: &'a mut Writer<N>,
    client: &'a mut Client<N>,
    reader: &'a mut ReaderToken<N>,
}

fn engine_of<'a, N: EngineName>(
    writer: &'a mut Writer<N>,
    clients: &'a mut Vec<Client<N>>,
    readers: &'a mut Vec<ReaderToken<N>>,
) -> Result<Engine<'a, N>, Refusal> {
    match (clients.first_mut(), readers.first_mut()) {
        (Some(client), Some(reader)) => Ok(Engine {
            writer,
            client,
            reader,
        }),
        _ => Err(Refusal::NoReaderPlace),
    }
}

/// Both write at one key before they have seen the other's value. Then each takes what it lacks from the other.
fn edit_and_meet<A: EngineName, B: EngineName, R: Wait>(
    rt: &R,
    alloc: Global,
    alice: &mut Engine<A>,
    bob: &mut Engine<B>,
) -> Result<(String, String), Refusal> {
    write(rt, alloc, alice, "groceries")?;
    write(rt, alloc, bob, "food")?;
    pull(rt, alloc, alice, bob)?;
    pull(rt, alloc, bob, alice)?;
    Ok((read(alloc, alice)?, read(alloc, bob)?))
}

fn title(alloc: Global) -> Result<Expr, Refusal> {
    Expr::root(alloc).get(alloc, "title")
}

/// Writes a title.
fn write<N: EngineName, R: Wait>(
    rt: &R,
    alloc: Global,
    engine: &mut Engine<N>,
    text: &str,
) -> Result<(), Refusal> {
    let command = Command::Assign(title(alloc)?, Val::text(alloc, text)?);
    let ticket = engine.client.submit(rt, alloc, command)?;
    step_all(rt, alloc, engine)?;
    taken(engine, &ticket)
}

/// Makes the writer handle all that was submitted, one batch per step.
fn step_all<N: EngineName, R: Wait>(
    rt: &R,
    alloc: Global,
    engine: &mut Engine<N>,
) -> Result<(), Refusal> {
    for _ in rt.forever() {
        match engine.writer.step(rt, alloc) {
            Step::Published(_) => {}
            Step::Idle => break,
            Step::Held => return Err(Refusal::NoMemory),
        }
    }
    Ok(())
}

/// The first engine takes what it lacks of the second one's operations. Only bytes pass between them.
fn pull<A: EngineName, B: EngineName, R: Wait>(
    rt: &R,
    alloc: Global,
    to: &mut Engine<A>,
    from: &mut Engine<B>,
) -> Result<(), Refusal> {
    let line = hello(alloc, to.reader)?;
    let bundle = answer(alloc, from.reader, line.as_slice())?;
    take(rt, alloc, to, bundle.as_slice())
}

/// Receives a bundle, and handles all of it.
fn take<N: EngineName, R: Wait>(
    rt: &R,
    alloc: Global,
    engine: &mut Engine<N>,
    bundle: &[u8],
) -> Result<(), Refusal> {
    let received = receive(rt, alloc, engine.client, bundle);
    if let Some((_, refusal)) = received.stopped {
        return Err(refusal);
    }
    step_all(rt, alloc, engine)?;
    all_taken(engine, &received)
}

/// Tests that none of the received operations was refused.
fn all_taken<N: EngineName>(engine: &mut Engine<N>, received: &Received) -> Result<(), Refusal> {
    for number in 0..received.submitted {
        let serial = received.first_serial.saturating_add(number);
        let ticket = engine.client.ticket_of(serial)?;
        taken(engine, &ticket)?;
    }
    Ok(())
}

/// Tests that what was submitted under the ticket wasn't refused. The writer has stepped until `Idle` before, so it is answered.
fn taken<N: EngineName>(engine: &mut Engine<N>, ticket: &Ticket) -> Result<(), Refusal> {
    match engine.client.poll(ticket)? {
        Some(Reply::Refused(refusal, _)) => Err(refusal),
        _ => Ok(()),
    }
}

/// The titles, one after another: more than one if writers conflicted.
fn read<N: EngineName>(alloc: Global, engine: &mut Engine<N>) -> Result<String, Refusal> {
    let mut titles = String::new(alloc);
    if let Reading::Values(values) = engine.reader.ask(alloc, &Question::Values(title(alloc)?))? {
        for (id, value) in &values {
            if let Scalar::Text(text) = value {
                let text = text.as_str();
                titles.push_str(format!(in alloc; "{text} ({id}) ")?.as_str())?;
            }
        }
    }
    Ok(titles)
}
