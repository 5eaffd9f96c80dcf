//! The clients of one engine, which write at the same time, each in a thread of its own.

ghost use Rattle.std.specs.Prelude.{◌<◌};

use crate::gate::Meeting;
use crate::plan::{MOST_TURNS, Plan, Stop};
use crate::working::worker;
use ids::Refusal;
use peer_sync::{Client, EngineName, Key, Step, Writer};
use std::alloc::{AllocError, Global};
use std::sync::Wait;
use std::thread::{Threads, for_each_mut, join, yield_now};

/// The work of a client, and how it ended.
#[derive(Drop)]
pub struct Task<N: EngineName> {
    pub client: Client<N>,
    gate: Meeting,
    key: Key,
    read: Result<bool, Stop>,
}

impl<N: EngineName> Task<N> {
    /// Writes this many numbers and reads each back.
    fn work<R: Wait>(&mut self, rt: &R, alloc: Global, ops: u32) {
        self.read = worker(rt, alloc, &mut self.gate, &mut self.client, &self.key, ops);
    }
}

/// A task for each client: client w writes at the key `w` followed by its number.
///
/// # Errors
/// `NoMemory` if allocation fails.
pub fn tasks<N: EngineName>(
    alloc: Global,
    clients: Vec<Client<N>>,
    plan: Plan,
) -> Result<Vec<Task<N>>, Stop> {
    let mut tasks = Vec::new(alloc);
    let mut number = 0u32;
    for client in clients {
        let task = Task {
            client,
            gate: gate_of(alloc, number, plan)?,
            key: key_of(alloc, number)?,
            read: Ok(false),
        };
        if let Err(refused) = tasks.push(task) {
            return Err(AllocError::from(refused).into());
        }
        number = number.saturating_add(1);
    }
    Ok(tasks)
}

/// The clients of tasks that have ended. If an allocation for one fails, that one is dropped.
pub fn clients_of<N: EngineName>(alloc: Global, tasks: Vec<Task<N>>) -> Vec<Client<N>> {
    let mut clients = Vec::new(alloc);
    for task in tasks {
        let _ = clients.push(task.client);
    }
    clients
}

/// The gate of a client: the first two wait for each other, if there are two and each writes twice.
fn gate_of(alloc: Global, number: u32, plan: Plan) -> Result<Meeting, Refusal> {
    let key = if number < 2 && plan.writers() > 1 {
        Some(key_of(alloc, 1 - number)?)
    } else {
        None
    };
    Ok(Meeting { key })
}

/// The keys of the clients: a plan has no more clients than these.
const KEYS: [&str; 16] = [
    "w0", "w1", "w2", "w3", "w4", "w5", "w6", "w7", "w8", "w9", "w10", "w11", "w12", "w13", "w14",
    "w15",
];

/// The key at which a client writes.
fn key_of(alloc: Global, number: u32) -> Result<Key, Refusal> {
    Key::new(alloc, KEYS[number as usize % KEYS.len()])
}

/// Makes the clients write while the writer steps. Returns whether each of them read back what it wrote.
///
/// # Errors
/// `TurnLimit` if one waited for too long, `Refused` if a call or a command was refused. The error of a client with a lower number
/// comes first.
pub fn write_all<N: EngineName + Send + Sync, R: Threads + Wait + Sync>(
    rt: &R,
    alloc: Global,
    writer: &mut Writer<N>,
    tasks: &mut [Task<N>],
    plan: Plan,
) -> Result<bool, Stop> {
    let answered = step_and_write(rt, alloc, writer, tasks, plan);
    let all_read = all_read(tasks)?;
    if all_read {
        answered?;
    }
    Ok(all_read)
}

/// Steps in one thread, and makes each client write in another one.
fn step_and_write<N: EngineName + Send + Sync, R: Threads + Wait + Sync>(
    rt: &R,
    alloc: Global,
    writer: &mut Writer<N>,
    tasks: &mut [Task<N>],
    plan: Plan,
) -> Result<(), Stop> {
    let ops = plan.ops();
    let wanted = u64::from(plan.operations_each());
    let (answered, ()) = join(
        rt,
        move || answer_until(rt, alloc, writer, wanted),
        move || {
            for_each_mut(
                rt,
                tasks,
                plan.writers() as usize,
                &|_, task: &mut Task<N>| task.work(rt, alloc, ops),
            )
        },
    );
    answered
}

/// Whether each client read back what it wrote.
fn all_read<N: EngineName>(tasks: &[Task<N>]) -> Result<bool, Stop> {
    for task in tasks {
        if !task.read? {
            return Ok(false);
        }
    }
    Ok(true)
}

/// Steps until this many submissions are answered.
fn answer_until<N: EngineName, R: Wait>(
    rt: &R,
    alloc: Global,
    writer: &mut Writer<N>,
    wanted: u64,
) -> Result<(), Stop> {
    let mut answered = 0u64;
    let mut idle = 0u32;
    for _ in rt.forever() {
        if answered >= wanted {
            return Ok(());
        }
        if idle >= MOST_TURNS {
            return Err(Stop::TurnLimit);
        }
        match writer.step(rt, alloc) {
            Step::Published(count) if count > 0 => {
                answered = answered.saturating_add(count as u64);
                idle = 0;
            }
            _ => {
                idle += 1;
                yield_now();
            }
        }
    }
    unreachable!()
}
