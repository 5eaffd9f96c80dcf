//! Disks that fail, and lose power.

use super::going_on::goes_on;
use super::opening::live;
use super::playing::Act::{Receive, Save, Write};
use super::playing::Row::Tries;
use super::playing::{Row, Told};
use super::*;
use disks::{Breaks, Disk};
use std::alloc::Global;
use std::process::Abort;
use std::sync::Wait;

/// The life that writes the journal of four entries.
const LIFE: &[Row] = &[
    Tries(Write(r#"["assign",["l"],[]]"#)),
    Tries(Write(r#"["insert",["l",0],"x"]"#)),
    Tries(Receive(
        r#"["op2",[3,2],[[1,2]],[["m",0],["l","l"]],[2,1],["i","y"]]
"#,
    )),
    Tries(Write(r#"["delete",["l",2]]"#)),
    Tries(Save),
    Tries(Save),
];

/// What is on the disk when the life begins: a line that was being written.
const TORN: &str = r#"["own",[1,1],["assi"#;

/// More calls than the life makes of its disk.
const CALLS: u64 = 18;

/// Each call of the disk fails in turn, alone or with all after it. Then the power goes: of what wasn't synced, nothing is left, or
/// everything, or the first bytes. Whatever was called saved is there all the same, and nothing that wasn't accepted, and the next life
/// resumes from it.
#[test]
fn what_is_saved_survives(rt: HostRuntime) -> Result<(), Fail> {
    for call in 1..=CALLS {
        survives(&rt, rt.alloc(), Breaks::At(call))?;
        survives(&rt, rt.alloc(), Breaks::From(call))?;
    }
    survives(&rt, rt.alloc(), Breaks::Never)
}

fn survives<R: Wait + Abort>(rt: &R, alloc: Global, breaks: Breaks) -> Result<(), Fail> {
    let disk = Disk::of(alloc, TORN.as_bytes(), breaks)?;
    let (disk, told) = live(rt, alloc, 1, disk, LIFE)?;
    let told = told.unwrap_or(Told {
        accepted: 0,
        saved: 0,
        is_lost: true,
    });
    for loose in 0..=disk.loose() {
        let left = disk.left(alloc, loose)?;
        goes_on(rt, alloc, left, told.saved, told.accepted)?;
    }
    Ok(())
}
