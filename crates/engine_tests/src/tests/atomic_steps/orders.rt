//! All schedules of a few actors, one after another: each choice of the next actor is tried.

use super::{Atomic, Turns};
use ids::Refusal;
use std::alloc::Global;

/// The most steps of a schedule.
const MOST_STEPS: usize = 12;

/// Which of the actors with steps left goes next, counted from 0, and how many such actors there are.
#[derive(Clone, Copy)]
pub struct Choice {
    taken: usize,
    of: usize,
}

/// The steps of all actors by these choices. When the choices run out, the first actor with steps left goes next, and that choice is
/// appended.
pub fn schedule(
    alloc: Global,
    turns: &Turns,
    choices: &mut Vec<Choice>,
) -> Result<Vec<Atomic>, Refusal> {
    let mut steps = Vec::new(alloc);
    let mut done = [0usize; 4];
    for turn in 0..MOST_STEPS {
        let left = actors_left(alloc, turns, &done)?;
        if left.is_empty() {
            break;
        }
        let taken = choose(choices, turn, left.len())?;
        let Some((actor, step)) = left.get(taken) else {
            break;
        };
        steps.push(*step)?;
        if let Some(count) = done.get_mut(*actor) {
            *count = count.saturating_add(1);
        }
    }
    Ok(steps)
}

/// The actors with steps left, and the next step of each.
fn actors_left(
    alloc: Global,
    turns: &Turns,
    done: &[usize; 4],
) -> Result<Vec<(usize, Atomic)>, Refusal> {
    let mut left = Vec::new(alloc);
    for (actor, (steps, count)) in turns.iter().zip(done).enumerate() {
        if let Some(step) = steps.get(*count) {
            left.push((actor, *step))?;
        }
    }
    Ok(left)
}

/// The choice at this turn, the first one if none was made yet.
fn choose(choices: &mut Vec<Choice>, turn: usize, of: usize) -> Result<usize, Refusal> {
    if let Some(choice) = choices.get(turn) {
        return Ok(choice.taken);
    }
    choices.push(Choice { taken: 0, of })?;
    Ok(0)
}

/// Moves on to the next schedule: the last choice that has an alternative left takes it, and those after it are dropped. False if no
/// choice has one.
pub fn go_on(choices: &mut Vec<Choice>) -> bool {
    for _ in 0..MOST_STEPS {
        let Some(Choice { taken, of }) = choices.pop() else {
            return false;
        };
        let taken = taken.saturating_add(1);
        if taken < of {
            choices.push_reserved(Choice { taken, of });
            return true;
        }
    }
    false
}
