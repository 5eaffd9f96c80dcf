//! What a reader is shown in a test: questions as rows, and their answers.

use cursor::{Expr, Step, Tag};
use document::{Question, Reading};
use engine::{EngineName, ReaderToken};
use fixtures::{Pair, pair_of};
use ids::{OpId, Refusal};
use std::alloc::Global;
use std::process::Abort;
use value::{Key, Scalar};

/// One step of an expression.
#[derive(Clone, Copy)]
pub enum To {
    /// To the field with this key.
    Key(&'static str),
    /// To the visible item with this index, from 1 on, or to the head, 0.
    Index(u64),
}

/// What is expected where an expression leads.
#[derive(Clone, Copy)]
pub enum Shown {
    /// These texts, with the ids of the operations that wrote them.
    Values(&'static [(Pair, &'static str)]),
    /// These keys of the map there.
    Keys(&'static [&'static str]),
    /// These items of the list there.
    Items(&'static [Pair]),
    /// These ids, each with its tag.
    Conflicts(&'static [(Pair, Tag)]),
    /// No values, for this reason.
    NoValues(Refusal),
}

/// The expression of these steps.
pub fn expr(alloc: Global, path: &[To]) -> Result<Expr, Refusal> {
    let mut steps = Vec::new(alloc);
    for to in path {
        add_step(alloc, &mut steps, *to)?;
    }
    Ok(Expr::new(steps))
}

fn add_step(alloc: Global, steps: &mut Vec<Step>, to: To) -> Result<(), Refusal> {
    let step = step(alloc, to)?;
    Ok(steps.push(step)?)
}

fn step(alloc: Global, to: To) -> Result<Step, Refusal> {
    Ok(match to {
        To::Key(key) => Step::Get(Key::new(alloc, key)?),
        To::Index(index) => Step::Idx(index),
    })
}

/// The question for what is to be shown.
pub fn question(expr: Expr, want: Shown) -> Question {
    match want {
        Shown::Values(_) => Question::Values(expr),
        Shown::NoValues(_) => Question::Values(expr),
        Shown::Keys(_) => Question::Keys(expr),
        Shown::Items(_) => Question::Items(expr),
        Shown::Conflicts(_) => Question::Conflicts(expr),
    }
}

/// Whether the values are these texts, with these ids.
fn are_values(values: &[(OpId, Scalar)], want: &[(Pair, &str)]) -> bool {
    for ((id, scalar), (pair, words)) in values.iter().zip(want) {
        if pair_of(*id) != *pair || !is_text(scalar, words) {
            return false;
        }
    }
    values.len() == want.len()
}

/// Whether the scalar is this text.
fn is_text(scalar: &Scalar, want: &str) -> bool {
    match scalar {
        Scalar::Text(text) => text.as_str() == want,
        _ => false,
    }
}

/// Whether the keys are these.
fn are_keys(keys: &[Key], want: &[&str]) -> bool {
    for (key, want) in keys.iter().zip(want) {
        if key.as_str() != *want {
            return false;
        }
    }
    keys.len() == want.len()
}

/// Whether the ids are these.
fn are_ids(ids: &[OpId], want: &[Pair]) -> bool {
    for (id, pair) in ids.iter().zip(want) {
        if pair_of(*id) != *pair {
            return false;
        }
    }
    ids.len() == want.len()
}

/// Whether the ids are these, with these tags.
fn are_conflicts(conflicts: &[(OpId, Tag)], want: &[(Pair, Tag)]) -> bool {
    for ((id, tag), (pair, want)) in conflicts.iter().zip(want) {
        if pair_of(*id) != *pair || *tag != *want {
            return false;
        }
    }
    conflicts.len() == want.len()
}

/// Whether the answer is the wanted one.
pub fn is_wanted(answer: &Result<Reading, Refusal>, want: Shown) -> bool {
    match (answer, want) {
        (Ok(Reading::Values(values)), Shown::Values(want)) => are_values(values, want),
        (Ok(Reading::Keys(keys)), Shown::Keys(want)) => are_keys(keys, want),
        (Ok(Reading::Items(items)), Shown::Items(want)) => are_ids(items, want),
        (Ok(Reading::Conflicts(pairs)), Shown::Conflicts(want)) => are_conflicts(pairs, want),
        (Err(why), Shown::NoValues(want)) => *why == want,
        _ => false,
    }
}

/// Asserts what a reader is shown.
pub fn assert_shown<N: EngineName>(
    rt: &impl Abort,
    alloc: Global,
    reader: &mut ReaderToken<N>,
    path: &[To],
    want: Shown,
) {
    let question = question(expr(alloc, path).expect(rt, "not refused"), want);
    let answer = reader.ask(alloc, &question);
    assert!(rt; is_wanted(&answer, want), "{answer:?}");
}
