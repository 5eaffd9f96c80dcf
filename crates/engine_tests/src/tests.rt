//! Engines on one thread, as tables of turns, and in threads.

mod atomic_steps;
mod batches;
mod closing;
mod playing;
mod polls;
mod refused_memory;
mod schedules;
mod threads;
mod whole_batches;

use cursor::Expr;
use engine::*;
use ids::{Config, Refusal};
use std::alloc::Global;
use std::process::Abort;
use std::test::Fail;

/// An engine of replica 1 among 1, 2 and 3, with two clients and one reader.
fn config(rt: &impl Abort, alloc: Global, queue: u32, batch: u32) -> Config {
    Config {
        own: 1,
        members: vec![in alloc; 1, 2, 3].expect(rt, "memory"),
        clients: 2,
        readers: 1,
        queue,
        batch,
        serials: 400,
    }
}

/// The expression for a key of the document.
fn at(alloc: Global, key: &str) -> Result<Expr, Refusal> {
    Expr::root(alloc).get(alloc, key)
}
