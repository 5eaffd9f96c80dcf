//! Documents that are served from a disk of bytes, as tables that small functions play.

mod failing;
mod lines;

use disks::{Breaks, Disk};
use ids::{Refusal, ReplicaId};
use serving::{Desk, Stop, serve};
use std::alloc::Global;
use std::sync::Wait;
use std::test::Fail;
use store::Journal;

/// The number that is served.
const OWN: u32 = 7;

/// Serves the document that the disk has to this input. Returns the replies and how it ended, or `None` if it didn't open, and the disk.
fn served<R: Wait>(
    rt: &R,
    alloc: Global,
    disk: Disk,
    input: &[u8],
) -> Result<(Disk, Option<(Vec<u8>, Result<(), Stop>)>), Fail> {
    let own = ReplicaId::new(OWN).ok_or(Refusal::BadConfig)?;
    let journal = match Journal::read(alloc, disk) {
        Ok(journal) => journal,
        Err(unopened) => return Ok((unopened.store, None)),
    };
    let mut desk = match Desk::open(alloc, own, journal) {
        Ok(desk) => desk,
        Err(unopened) => return Ok((unopened.store, None)),
    };
    let mut replies = Vec::new(alloc);
    let mut input = input;
    let ended = serve(rt, alloc, &mut desk, &mut input, &mut replies);
    Ok((desk.into_store(), Some((replies, ended))))
}
