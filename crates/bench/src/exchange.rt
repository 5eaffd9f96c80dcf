//! What the engines are asked: whether all have played, what each lacks from the others, and what they show.

use crate::links::Link;
use crate::plan::{MOST_TURNS, Stop};
use crate::showing::Shown;
use std::alloc::{AllocError, Global};
use std::sync::Wait;
use std::thread::yield_now;

/// Waits until all engines have played, makes each take what the others wrote, and looks at all of them. `None` if a value wasn't read
/// back. The links are dropped at the end, which ends the engines' threads.
///
/// # Errors
/// `TurnLimit` if a thread didn't start, or an exchange brought nothing, for `MOST_TURNS` turns; `NoReading` if an engine's thread ended
/// before; `NoMemory` if allocation fails.
pub fn meet<R: Wait>(rt: &R, alloc: Global, links: Vec<Link>) -> Result<Option<Vec<Shown>>, Stop> {
    let links = links.as_slice();
    if !all_played(rt, links)? {
        return Ok(None);
    }
    exchange(rt, links)?;
    let shown = look_at_all(rt, alloc, links)?;
    Ok(Some(shown))
}

/// Whether each engine's clients read back what they wrote.
fn all_played<R: Wait>(rt: &R, links: &[Link]) -> Result<bool, Stop> {
    await_starts(rt, links)?;
    let mut all_read = true;
    for link in links {
        all_read &= link.told(rt)?;
    }
    Ok(all_read)
}

/// Waits until all threads run. From then on each of them replies or ends, so waiting for a reply always ends.
fn await_starts<R: Wait>(rt: &R, links: &[Link]) -> Result<(), Stop> {
    for link in links {
        await_start(rt, link)?;
    }
    Ok(())
}

/// Waits until the engine's thread runs. If no thread can be started, an engine may have to wait until another has ended.
fn await_start<R: Wait>(rt: &R, link: &Link) -> Result<(), Stop> {
    for _ in 0..MOST_TURNS {
        if link.told_yet(rt)?.is_some() {
            return Ok(());
        }
        yield_now();
    }
    Err(Stop::TurnLimit)
}

/// Each engine in turn takes what it lacks from each of the others, in turn.
fn exchange<R: Wait>(rt: &R, links: &[Link]) -> Result<(), Stop> {
    for (number, link) in links.iter().enumerate() {
        pull_from_others(rt, links, number, link)?;
    }
    Ok(())
}

/// The engine with this number takes what it lacks from each of the others.
fn pull_from_others<R: Wait>(rt: &R, links: &[Link], number: usize, to: &Link) -> Result<(), Stop> {
    for (other, from) in links.iter().enumerate() {
        if other != number {
            pull(rt, to, from)?;
        }
    }
    Ok(())
}

/// The first engine takes what it lacks of the second one's operations, in as many turns as its queue needs.
fn pull<R: Wait>(rt: &R, to: &Link, from: &Link) -> Result<(), Stop> {
    let mut idle = 0u32;
    for _ in rt.forever() {
        if idle >= MOST_TURNS {
            return Err(Stop::TurnLimit);
        }
        match take_turn(rt, to, from)? {
            Turn::Complete => return Ok(()),
            Turn::Grew => idle = 0,
            Turn::Idle => idle += 1,
        }
    }
    unreachable!()
}

/// The result of a hello, its answer and a receipt.
#[derive(Clone, Copy)]
enum Turn {
    /// Nothing was lacking.
    Complete,
    /// The first engine shows more than before.
    Grew,
    /// The first engine shows no more than before.
    Idle,
}

/// The first engine says hello, the second answers, and the first receives the answer.
fn take_turn<R: Wait>(rt: &R, to: &Link, from: &Link) -> Result<Turn, Stop> {
    let bundle = from.answer(rt, to.hello(rt)?)?;
    if bundle.is_empty() {
        return Ok(Turn::Complete);
    }
    if to.receive(rt, bundle)? {
        Ok(Turn::Grew)
    } else {
        Ok(Turn::Idle)
    }
}

/// What each engine shows.
fn look_at_all<R: Wait>(rt: &R, alloc: Global, links: &[Link]) -> Result<Vec<Shown>, Stop> {
    let mut all = Vec::new(alloc);
    for link in links {
        if let Err(refused) = all.push(link.look(rt)?) {
            return Err(AllocError::from(refused).into());
        }
    }
    Ok(all)
}
