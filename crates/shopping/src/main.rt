//! An application with an engine inside: two threads write down what to buy, and a third reads the list as it grows.
//! The writer's thread sleeps while there is nothing to do.
#![tactic(auto)]

ghost use Rattle.std.specs.Prelude.{◌≡◌};
ghost use Rattle.ids.specs.Members.{in_order};

use engine::{
    Client, Command, Config, EngineName, Expr, Parts, Question, ReaderToken, Reading, Refusal,
    Reply, Shared, Step, Ticket, Val, Writer, close, open, prepare,
};
use std::alloc::Global;
use std::io;
use std::marker::Brand;
use std::sync::Wait;
use std::sync::atomic::{AtomicBool, Ordering};
use std::thread::{Parker, Threads, join, yield_now};
use std::time::Duration;

/// How long the writer sleeps at most if nobody wakes it, in milliseconds. After a failed allocation, only a step goes on with what waits.
const NAP: u64 = 50;

/// What the threads share besides the engine.
#[derive(Drop)]
struct Signals {
    /// The writer sleeps on it, and clients wake it.
    work: Parker,
    /// Whether the clients have ended.
    ended: AtomicBool,
}

fn main(rt: HostRuntime) -> io::Result<()> {
    match shop(&rt, rt.alloc()) {
        Ok((read, kept)) => println!(rt; "the reader saw {read} of {kept} entries"),
        Err(refusal) => println!(rt; "no shopping: {refusal:?}"),
    }
}

/// Opens an engine for two clients and a reader. Returns how many entries the reader saw, and how many there are.
fn shop<R: Threads + Wait + Sync>(rt: &R, alloc: Global) -> Result<(usize, usize), Refusal> {
    let parts = prepare(
        alloc,
        Config {
            own: 1,
            members: vec![in alloc; 1]?,
            clients: 2,
            readers: 1,
            queue: 16,
            batch: 8,
            serials: u32::MAX,
        },
    )?;
    shop_in::<Brand, R>(rt, alloc, parts)
}

fn shop_in<N: EngineName + Send + Sync, R: Threads + Wait + Sync>(
    rt: &R,
    alloc: Global,
    parts: Parts,
) -> Result<(usize, usize), Refusal>
    requires book { parts.opened.seen.book ≡ N.book }
    requires own { parts.config.own ≡ N.own }
    requires table { in_order parts.config.members ≡ N.table }
{
    let (mut writer, mut clients, mut readers) = open::<N>(rt, alloc, parts)?;
    let read = match readers.pop() {
        Some(reader) => shop_with(rt, alloc, &mut writer, clients.as_mut_slice(), reader),
        None => Err(Refusal::NoReaderPlace),
    };
    let history = close(rt, writer, clients).history;
    Ok((read?, history.len()))
}

/// Hands Alice and Bob a client each.
fn shop_with<N: EngineName + Send + Sync, R: Threads + Wait + Sync>(
    rt: &R,
    alloc: Global,
    writer: &mut Writer<N>,
    clients: &mut [Client<N>],
    reader: ReaderToken<N>,
) -> Result<usize, Refusal> {
    if clients.len() < 2 {
        return Err(Refusal::BadConfig);
    }
    let (alice, bob) = clients.split_at_mut(1);
    together(rt, alloc, writer, &mut alice[0], &mut bob[0], reader)
}

/// Alice and Bob write, the writer steps, and the reader reads, each in a thread. The last two end after the first two, which also end if
/// they are refused.
fn together<N: EngineName + Send + Sync, R: Threads + Wait + Sync>(
    rt: &R,
    alloc: Global,
    writer: &mut Writer<N>,
    alice: &mut Client<N>,
    bob: &mut Client<N>,
    reader: ReaderToken<N>,
) -> Result<usize, Refusal> {
    let signals = Signals {
        work: Parker::new(),
        ended: AtomicBool::new(false),
    };
    let signals = &signals;
    let (_, (read, (first, second))) = join(
        rt,
        move || step_until(rt, alloc, writer, signals),
        move || {
            join(
                rt,
                move || read_until(rt, alloc, reader, &signals.ended),
                move || {
                    let written = join(
                        rt,
                        move || write(
                            rt,
                            alloc,
                            alice,
                            signals,
                            &[("milk", "2 l"), ("eggs", "six")],
                        ),
                        move || write(
                            rt,
                            alloc,
                            bob,
                            signals,
                            &[("cheese", "any"), ("milk", "1 l")],
                        ),
                    );
                    signals.ended.store(true, Ordering::Release);
                    signals.work.unpark();
                    written
                },
            )
        },
    );
    first?;
    second?;
    read
}

/// Steps until the clients have ended and everything that they submitted is handled, and sleeps while there is nothing to do.
fn step_until<N: EngineName, R: Wait>(
    rt: &R,
    alloc: Global,
    writer: &mut Writer<N>,
    signals: &Signals,
) {
    for _ in rt.forever() {
        let is_last = signals.ended.load(Ordering::Acquire);
        match writer.step(rt, alloc) {
            Step::Idle if is_last => break,
            Step::Idle => signals.work.park_timeout(rt, Duration::from_millis(NAP)),
            Step::Published(_) | Step::Held => yield_now(),
        }
    }
}

/// Writes down what to buy, one thing after another, each once the one before is answered.
fn write<N: EngineName, R: Wait>(
    rt: &R,
    alloc: Global,
    client: &mut Client<N>,
    signals: &Signals,
    wishes: &[(&str, &str)],
) -> Result<(), Refusal> {
    for (what, how_much) in wishes {
        let command = Shared::new(alloc, wish(alloc, what, how_much)?)?;
        write_one(rt, alloc, client, signals, &command)?;
    }
    Ok(())
}

/// The command that writes how much of it to buy.
fn wish(alloc: Global, what: &str, how_much: &str) -> Result<Command, Refusal> {
    let place = Expr::root(alloc).get(alloc, what)?;
    Ok(Command::Assign(place, Val::text(alloc, how_much)?))
}

/// Submits the command until it is answered: it tries again if the queue is full, or if the reply is `NoMemory`. `NoMemory` of the call
/// itself is returned.
fn write_one<N: EngineName, R: Wait>(
    rt: &R,
    alloc: Global,
    client: &mut Client<N>,
    signals: &Signals,
    command: &Shared<Command>,
) -> Result<(), Refusal> {
    for _ in rt.forever() {
        match client.submit_shared(rt, alloc, command) {
            Ok(ticket) => {
                signals.work.unpark();
                match reply_to(rt, client, &ticket)? {
                    Reply::Refused(Refusal::NoMemory, _) => yield_now(),
                    Reply::Refused(refusal, _) => return Err(refusal),
                    _ => break,
                }
            }
            Err(Refusal::QueueFull) => yield_now(),
            Err(refusal) => return Err(refusal),
        }
    }
    Ok(())
}

/// Polls until the writer has answered.
fn reply_to<N: EngineName, R: Wait>(
    rt: &R,
    client: &mut Client<N>,
    ticket: &Ticket,
) -> Result<Reply, Refusal> {
    for _ in rt.forever() {
        match client.poll(ticket)? {
            Some(reply) => return Ok(reply),
            None => yield_now(),
        }
    }
    unreachable!()
}

/// Reads the keys of the document repeatedly, the last time once the clients have ended. Returns how many entries were then seen. No
/// reading waits for the writer or for a client.
fn read_until<N: EngineName, R: Wait>(
    rt: &R,
    alloc: Global,
    reader: ReaderToken<N>,
    ended: &AtomicBool,
) -> Result<usize, Refusal> {
    let mut reader = reader;
    for _ in rt.forever() {
        let is_last = ended.load(Ordering::Acquire);
        let question = Question::Keys(Expr::root(alloc));
        if let Reading::Keys(_keys) = reader.ask(alloc, &question)? {
            if is_last {
                break;
            }
        }
        yield_now();
    }
    Ok(reader.seen_len())
}
