//! Engines in threads of their own, which play at the same time and then meet.

ghost use Rattle.std.specs.Prelude.{◌≡◌, ◌⊎◌, ◌*◌, IfOk};
ghost use Rattle.ids.specs.Members.{in_order};
ghost use Rattle.bench.specs.declared.plan.Verdict.TheVariants.{Agree, Differ};

use crate::exchange::meet;
use crate::links::{Desk, Link, open_link};
use crate::plan::{Plan, Stop, Verdict};
use crate::playing::{Task, clients_of, tasks, write_all};
use crate::serving::Served;
use crate::showing::{Shown, judge};
use ids::{Config, Refusal};
use peer_sync::{Client, EngineName, Parts, ReaderToken, Writer, close, open, prepare};
use std::alloc::{AllocError, Global};
use std::marker::Brand;
use std::sync::Wait;
use std::thread::{Threads, join, map_vec};

/// Opens the engines, each in a thread of its own. In each of them each client writes, polls and reads back in its own thread, while the
/// writer steps in another; then each engine takes what it lacks from every other one, and what they all show is compared. With two or more
/// writers and operations, the first two writers of an engine write their second number only once they see each other's first, so they only
/// finish if both run at the same time.
///
/// # Errors
/// `TurnLimit` if one waited for too long; `Refused` if a call or a command was refused: `NoMemory`, `NoReaderPlace`, `NoReading`. The
/// error of an engine with a lower number comes first, and within an engine that of a client with a lower number.
pub fn play<R: Threads + Wait + Sync>(rt: &R, alloc: Global, plan: Plan) -> Result<Verdict, Stop>
    ensures { IfOk result (λ v. (v ≡ Differ) ⊎ (v ≡ Agree (plan.replicas * (plan.writers * plan.ops)))) }
{
    let (links, seats) = links_and_seats(alloc, plan)?;
    let (met, ended) = join(
        rt,
        move || meet(rt, alloc, links),
        move || map_vec(rt, seats, &|seat: Seat| run_engine(rt, alloc, plan, &seat)),
    );
    all_ended(ended?)?;
    match met? {
        Some(shown) => Ok(judge(shown.as_slice(), plan.operations())),
        None => Ok(Verdict::Differ),
    }
}

/// An engine's number, and its end of the channels.
#[derive(Drop)]
struct Seat {
    own: u32,
    desk: Desk,
}

/// A link to each engine, and what each engine's thread gets.
fn links_and_seats(alloc: Global, plan: Plan) -> Result<(Vec<Link>, Vec<Seat>), AllocError> {
    let mut links = Vec::new(alloc);
    let mut seats = Vec::new(alloc);
    for own in 1..=plan.replicas() {
        let (link, desk) = open_link(alloc)?;
        links.push(link)?;
        seats.push(Seat { own, desk })?;
    }
    Ok((links, seats))
}

/// The first error of an engine, if there is one.
fn all_ended(ended: Vec<Result<(), Stop>>) -> Result<(), Stop> {
    for end in &ended {
        (*end)?;
    }
    Ok(())
}

/// Opens an engine, plays, and serves the others until everything is compared.
fn run_engine<R: Threads + Wait + Sync>(
    rt: &R,
    alloc: Global,
    plan: Plan,
    seat: &Seat,
) -> Result<(), Stop> {
    let _ = seat.desk.told.send(rt, true);
    let parts = prepare(alloc, configuration(alloc, seat.own, plan)?)?;
    run_in::<Brand, R>(rt, alloc, plan, &seat.desk, parts)
}

/// The configuration of an engine with this number, with a client for each writer.
fn configuration(alloc: Global, own: u32, plan: Plan) -> Result<Config, AllocError> {
    Ok(Config {
        own,
        members: members(alloc, plan)?,
        clients: plan.writers(),
        readers: 1,
        queue: plan.queue(),
        batch: 64,
        serials: u32::MAX,
    })
}

fn members(alloc: Global, plan: Plan) -> Result<Vec<u32>, AllocError> {
    let mut members = Vec::new(alloc);
    for member in 1..=plan.replicas() {
        members.push(member)?;
    }
    Ok(members)
}

fn run_in<N: EngineName + Send + Sync, R: Threads + Wait + Sync>(
    rt: &R,
    alloc: Global,
    plan: Plan,
    desk: &Desk,
    parts: Parts,
) -> Result<(), Stop>
    requires book { parts.opened.seen.book ≡ N.book }
    requires own { parts.config.own ≡ N.own }
    requires table { in_order parts.config.members ≡ N.table }
{
    let (mut writer, clients, mut readers) = open::<N>(rt, alloc, parts)?;
    let (ended, clients) = match readers.first_mut() {
        Some(reader) => play_and_serve(rt, alloc, plan, desk, &mut writer, clients, reader),
        None => (Err(Stop::Refused(Refusal::NoReaderPlace)), clients),
    };
    let _left = close(rt, writer, clients);
    ended
}

/// Makes the clients of an engine write, tells whether they read everything back, and serves others. Returns the clients.
fn play_and_serve<N: EngineName + Send + Sync, R: Threads + Wait + Sync>(
    rt: &R,
    alloc: Global,
    plan: Plan,
    desk: &Desk,
    writer: &mut Writer<N>,
    clients: Vec<Client<N>>,
    reader: &mut ReaderToken<N>,
) -> (Result<(), Stop>, Vec<Client<N>>) {
    match tasks(alloc, clients, plan) {
        Ok(mut tasks) => {
            let ended = play_tasks(rt, alloc, plan, desk, writer, tasks.as_mut_slice(), reader);
            (ended, clients_of(alloc, tasks))
        }
        // The clients were dropped with their tasks.
        Err(stop) => (Err(stop), Vec::new(alloc)),
    }
}

/// Makes clients write, tells whether they read everything back, and serves others.
fn play_tasks<N: EngineName + Send + Sync, R: Threads + Wait + Sync>(
    rt: &R,
    alloc: Global,
    plan: Plan,
    desk: &Desk,
    writer: &mut Writer<N>,
    tasks: &mut [Task<N>],
    reader: &mut ReaderToken<N>,
) -> Result<(), Stop> {
    let all_read = write_all(rt, alloc, writer, tasks, plan)?;
    let _ = desk.told.send(rt, all_read);
    match tasks.first_mut() {
        Some(first) => {
            let mut served = Served {
                writer,
                client: &mut first.client,
                reader,
            };
            served.serve(rt, alloc, desk)
        }
        None => Err(Stop::Refused(Refusal::NoReading)),
    }
}
