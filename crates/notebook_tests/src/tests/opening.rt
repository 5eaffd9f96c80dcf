//! How the notebook of a life is opened.

ghost use Rattle.std.specs.Prelude.{◌≡◌};
ghost use Rattle.ids.specs.Members.{in_order};

use super::playing::{Row, Told, play};
use super::*;
use disks::Disk;
use ids::{Refusal, ReplicaId};
use notebook::{EngineName, Fault, Journal, Notebook, Parts, Unopened, config_of, prepare};
use std::alloc::Global;
use std::marker::Brand;
use std::process::Abort;
use std::sync::Wait;

/// Opens a notebook of this number on the disk, plays these rows, and ends it. Returns the disk, and what the rows were told, or why it
/// didn't open.
pub fn live<R: Wait + Abort>(
    rt: &R,
    alloc: Global,
    own: u32,
    disk: Disk,
    rows: &[Row],
) -> Result<(Disk, Result<Told, Fault>), Fail> {
    let parts = parts_of(alloc, own)?;
    match Journal::read(alloc, disk) {
        Ok(journal) => open_notebook::<Brand, R>(rt, alloc, parts, journal, rows),
        Err(Unopened { store, why }) => Ok((store, Err(why))),
    }
}

/// The parts of the engine of this number.
fn parts_of(alloc: Global, own: u32) -> Result<Parts, Refusal> {
    let own = ReplicaId::new(own).ok_or(Refusal::UnknownReplica)?;
    prepare(alloc, config_of(alloc, own)?)
}

fn open_notebook<N: EngineName, R: Wait + Abort>(
    rt: &R,
    alloc: Global,
    parts: Parts,
    journal: Journal<Disk>,
    rows: &[Row],
) -> Result<(Disk, Result<Told, Fault>), Fail>
    requires book { parts.opened.seen.book ≡ N.book }
    requires own { parts.config.own ≡ N.own }
    requires table { in_order parts.config.members ≡ N.table }
{
    match Notebook::<N, Disk>::open(rt, alloc, parts, journal) {
        Ok(notebook) => {
            let mut notebook = notebook;
            let told = play(rt, alloc, &mut notebook, rows);
            let disk = notebook.end(rt);
            Ok((disk, Ok(told?)))
        }
        Err(Unopened { store, why }) => Ok((store, Err(why))),
    }
}
