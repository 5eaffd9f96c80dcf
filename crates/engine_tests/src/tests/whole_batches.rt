//! What one publication shows: whole batches.

ghost use Rattle.std.specs.Prelude.{◌≡◌};
ghost use Rattle.ids.specs.Members.{in_order};

use super::*;
use document::Question;
use operation::Command;
use std::marker::Brand;
use std::process::Abort;
use std::sync::Wait;
use std::thread::{Threads, join};
use value::{Scalar, Val};

/// How many turns a thread may take before it gives up.
const MOST_TURNS: u32 = 10_000_000;

/// How many commands are submitted before the first step, and how many of them a step takes.
const SUBMITTED: u32 = 4_000;

const BATCH: u32 = 4;

/// How many steps it takes for all of them.
const STEPS: u32 = 1_000;

/// What a reader saw.
#[derive(Clone, Copy, Debug, PartialEq, Eq)]
enum Saw {
    WholeBatches,
    HalfABatch(usize),
    TooManyTurns,
}

#[test]
fn batches_appear_whole(rt: HostRuntime) {
    let alloc = rt.alloc();
    let config = Config {
        serials: SUBMITTED,
        ..config(&rt, alloc, SUBMITTED, BATCH)
    };
    let parts = prepare(alloc, config).expect(&rt, "an engine");
    in_batches::<Brand, _>(&rt, alloc, parts)
}

fn in_batches<N: EngineName + Send + Sync, R: Threads + Wait + Abort + Sync>(
    rt: &R,
    alloc: Global,
    parts: Parts,
)
    requires book { parts.opened.seen.book ≡ N.book }
    requires own { parts.config.own ≡ N.own }
    requires table { in_order parts.config.members ≡ N.table }
{
    let (mut writer, mut clients, mut readers) = open::<N>(rt, alloc, parts).expect(
        rt,
        "an engine",
    );
    match (clients.first_mut(), readers.first_mut()) {
        (Some(client), Some(reader)) => step_while_read(rt, alloc, &mut writer, client, reader),
        _ => panic!(rt; "no client"),
    };
    let _final = close(rt, writer, clients);
}

/// Submits all commands; then one thread steps, while another one reads.
fn step_while_read<N: EngineName + Send + Sync, R: Threads + Wait + Abort + Sync>(
    rt: &R,
    alloc: Global,
    writer: &mut Writer<N>,
    client: &mut Client<N>,
    reader: &mut ReaderToken<N>,
) {
    for number in 0..SUBMITTED {
        submit(rt, alloc, client, number);
    }
    let (steps, saw) = join(
        rt,
        move || step_all(rt, alloc, writer),
        move || read_all(alloc, reader),
    );
    assert_eq!(rt; steps, STEPS);
    assert_eq!(rt; saw.expect(rt, "not refused"), Saw::WholeBatches);
}

fn submit<N: EngineName, R: Wait + Abort>(
    rt: &R,
    alloc: Global,
    client: &mut Client<N>,
    number: u32,
) {
    let value = Val::Scalar(Scalar::Whole(i64::from(number)));
    let command = Command::Assign(at(alloc, "a").expect(rt, "an expression"), value);
    let _ticket = client.submit(rt, alloc, command).expect(rt, "a ticket");
}

/// Steps until nothing is left. Returns how many steps answered a whole batch, 0 if one did anything else.
fn step_all<N: EngineName, R: Wait>(rt: &R, alloc: Global, writer: &mut Writer<N>) -> u32 {
    for count in 0..MOST_TURNS {
        match writer.step(rt, alloc) {
            Step::Published(answered) if answered == BATCH as usize => {}
            Step::Idle => return count,
            _ => return 0,
        }
    }
    0
}

/// Reads without a pause until all is published.
fn read_all<N: EngineName>(alloc: Global, reader: &mut ReaderToken<N>) -> Result<Saw, Refusal> {
    for _ in 0..MOST_TURNS {
        let _values = reader.ask(alloc, &Question::Values(at(alloc, "a")?))?;
        let seen = reader.seen_len();
        if seen % BATCH as usize != 0 {
            return Ok(Saw::HalfABatch(seen));
        }
        if seen == SUBMITTED as usize {
            return Ok(Saw::WholeBatches);
        }
    }
    Ok(Saw::TooManyTurns)
}
