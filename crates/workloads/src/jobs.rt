//! The jobs: what users wait for.

ghost use Rattle.std.specs.Prelude.{◌≤◌, length};

use crate::days::{Day, play_day};
use crate::draws::Hands;
use crate::writing::Work;
use engine::Refusal;
use std::alloc::Global;
use std::sync::Wait;

/// How many engines catch up with one another.
const PEERS: u32 = 4;

/// How many devices write into one document, if nothing else is said.
pub const DEVICES: u32 = 32;

/// How many operations wait for the one that was lost.
const WAITING: u32 = 4_000;

/// About how many operations of another engine come in meanwhile.
const OTHERS: u32 = 10_000;

/// Plays the job of this name, with so many devices where there are many; an unknown job is nothing to do.
pub fn play<R: Wait>(
    rt: &R,
    alloc: Global,
    hands: &mut Hands,
    job: &str,
    count: u32,
    number: u32,
) -> Result<(), Refusal> {
    match job {
        "history" => history(rt, alloc, hands, count),
        "apart" => apart(rt, alloc, hands, count),
        "heads" => meet(rt, alloc, hands, Work::Heads, count),
        "ends" => meet(rt, alloc, hands, Work::Ends, count),
        "depths" => meet(rt, alloc, hands, Work::Depths, count),
        "typing" => alone(rt, alloc, hands, Work::Typing, 1, count),
        "saves" => alone(rt, alloc, hands, Work::Saves, 256, count),
        "lost" => lose(rt, alloc, hands, count),
        "devices" => devices(rt, alloc, hands, count, number, true),
        "newcomers" => devices(rt, alloc, hands, count, number, false),
        _ => Ok(()),
    }
}

/// A day on which an engine of two writes and shows all.
fn day_of<'a>(work: Work, batch: u32, count: u32) -> Day<'a> {
    Day {
        own: 1,
        members: (1, 2),
        before: &[],
        work,
        batch,
        count,
        after: &[],
        shows: true,
        answers_all: true,
    }
}

/// An engine writes, and shows all.
fn alone<R: Wait>(
    rt: &R,
    alloc: Global,
    hands: &mut Hands,
    work: Work,
    batch: u32,
    count: u32,
) -> Result<(), Refusal> {
    let _lines = play_day(rt, alloc, hands, &day_of(work, batch, count))?;
    Ok(())
}

/// An engine writes a history in bulk; another one takes it, and shows all.
fn history<R: Wait>(rt: &R, alloc: Global, hands: &mut Hands, count: u32) -> Result<(), Refusal> {
    let written = Day {
        shows: false,
        ..day_of(Work::Mixed, 256, count)
    };
    let lines = play_day(rt, alloc, hands, &written)?;
    let taken = Day {
        own: 2,
        before: &[lines.as_slice()],
        answers_all: false,
        ..day_of(Work::Mixed, 256, 0)
    };
    let _none = play_day(rt, alloc, hands, &taken)?;
    Ok(())
}

/// Engines that share a beginning write apart, and each takes what those before it wrote behind what it wrote itself.
fn apart<R: Wait>(rt: &R, alloc: Global, hands: &mut Hands, count: u32) -> Result<(), Refusal> {
    let first = Day {
        members: (1, PEERS),
        shows: false,
        ..day_of(Work::Mixed, 256, count)
    };
    let shared = play_day(rt, alloc, hands, &first)?;
    let mut others = Vec::new(alloc);
    for own in 2..=PEERS {
        let day = Day {
            own,
            members: (1, PEERS),
            before: &[shared.as_slice()],
            after: others.as_slice(),
            shows: own == PEERS,
            answers_all: false,
            ..day_of(Work::Mixed, 64, count / 2)
        };
        others = play_day(rt, alloc, hands, &day)?;
    }
    Ok(())
}

/// Two engines write into a list or a map apart, and one takes what the other wrote.
fn meet<R: Wait>(
    rt: &R,
    alloc: Global,
    hands: &mut Hands,
    work: Work,
    count: u32,
) -> Result<(), Refusal> {
    let first = Day {
        shows: false,
        answers_all: false,
        ..day_of(work, 256, count)
    };
    let lines = play_day(rt, alloc, hands, &first)?;
    let second = Day {
        own: 2,
        after: lines.as_slice(),
        shows: false,
        answers_all: false,
        ..day_of(work, 256, count)
    };
    let _all = play_day(rt, alloc, hands, &second)?;
    Ok(())
}

/// Loses a line this many times, each time among new engines.
fn lose<R: Wait>(rt: &R, alloc: Global, hands: &mut Hands, count: u32) -> Result<(), Refusal> {
    for _ in 0..count {
        lose_a_line(rt, alloc, hands)?;
    }
    Ok(())
}

/// The first line of one engine is lost: its later ones wait, while another's operations come in. Then it comes.
fn lose_a_line<R: Wait>(rt: &R, alloc: Global, hands: &mut Hands) -> Result<(), Refusal> {
    let waiting = Day {
        own: 2,
        members: (1, 3),
        shows: false,
        ..day_of(Work::Fields, 64, WAITING)
    };
    let held = play_day(rt, alloc, hands, &waiting)?;
    let going = Day {
        own: 3,
        members: (1, 3),
        shows: false,
        ..day_of(Work::Mixed, 64, OTHERS)
    };
    let others = play_day(rt, alloc, hands, &going)?;
    let (line, rest) = held.as_slice().split_at(end_of_line(&held));
    let taken = Day {
        members: (1, 3),
        before: &[rest, others.as_slice()],
        after: line,
        answers_all: false,
        ..day_of(Work::Mixed, 64, 0)
    };
    let _all = play_day(rt, alloc, hands, &taken)?;
    Ok(())
}

/// Many devices, one after another: each takes all that was written before, and writes. Each knows all of them from the start, or
/// itself alone.
fn devices<R: Wait>(
    rt: &R,
    alloc: Global,
    hands: &mut Hands,
    count: u32,
    number: u32,
    know_all: bool,
) -> Result<(), Refusal> {
    let mut all = Vec::new(alloc);
    for own in 1..=number {
        let members = if know_all { (1, number) } else { (own, own) };
        let day = Day {
            own,
            members,
            before: &[all.as_slice()],
            shows: own == number,
            ..day_of(Work::Mixed, 64, count)
        };
        all = play_day(rt, alloc, hands, &day)?;
    }
    Ok(())
}

/// Where the first line of the text ends, or the text. What stands behind the first line of a history is a bundle too: nothing is before
/// the first operation, so the second line stands beside as little as the first one.
fn end_of_line(text: &[u8]) -> usize
    ensures { result ≤ length text.now }
{
    match text.iter().position(|byte| *byte == b'\n') {
        Some(position) => position + 1,
        None => text.len(),
    }
}
