//! Disks that fail, and lose power.

use super::*;
use std::process::Abort;

/// Four requests that are saved, and one more that saves.
const REQUESTS: &str = r#"["assign",["a"],1]
["assign",["b"],2]
["receive","[\"op\",[1,9],[],[[\"m\",0]],\"c\",[\"a\",3]]\n"]
["delete",["a"]]
["save"]
"#;

const TWO_WRITES: &str = r#"["assign",["a"],1]
["assign",["b"],2]
"#;

/// What is on the disk when the program starts: a line that was being written.
const TORN: &str = r#"["own",[1,7],["assi"#;

/// More calls than the program makes of its disk.
const CALLS: u64 = 14;

/// Each call of the disk fails in turn, alone or with all after it. Then the power goes: of what wasn't synced, nothing is left, or
/// everything, or the first bytes. Whatever a reply called saved is there at the next start all the same.
#[test]
fn what_is_called_saved_survives(rt: HostRuntime) -> Result<(), Fail> {
    for call in 1..=CALLS {
        survives(&rt, rt.alloc(), Breaks::At(call))?;
        survives(&rt, rt.alloc(), Breaks::From(call))?;
    }
    survives(&rt, rt.alloc(), Breaks::Never)
}

fn survives<R: Wait + Abort>(rt: &R, alloc: Global, breaks: Breaks) -> Result<(), Fail> {
    let disk = Disk::of(alloc, TORN.as_bytes(), breaks)?;
    let (disk, told) = served(rt, alloc, disk, REQUESTS.as_bytes())?;
    let saved = match &told {
        Some((replies, ended)) => saved_by(rt, str::from_utf8(replies)?, *ended),
        None => 0,
    };
    for loose in 0..=disk.loose() {
        let left = disk.left(alloc, loose)?;
        let (_disk, told) = served(rt, alloc, left, b"")?;
        let (replies, _ended) = told.ok_or(Refusal::BadConfig)?;
        assert!(rt;
            length_in(str::from_utf8(&replies)?) >= saved,
            "{breaks:?}, {loose}"
        );
    }
    Ok(())
}

/// What couldn't be saved when it was written is saved at the end of the input.
#[test]
fn the_end_of_the_input_saves(rt: HostRuntime) -> Result<(), Fail> {
    let alloc = rt.alloc();
    // A start reads and syncs, and a write appends and syncs: this is the append of the second write.
    let disk = Disk::of(alloc, b"", Breaks::At(5))?;
    let (disk, told) = served(&rt, alloc, disk, TWO_WRITES.as_bytes())?;
    let (replies, ended) = told.ok_or(Refusal::BadConfig)?;
    assert!(rt; str::from_utf8(&replies)?.ends_with("\n[\"unsaved\",2,1]\n"));
    assert_eq!(rt; ended, Ok(()));
    let (_disk, told) = served(&rt, alloc, disk, b"")?;
    let (replies, _ended) = told.ok_or(Refusal::BadConfig)?;
    assert_eq!(rt; length_in(str::from_utf8(&replies)?), 2);
    Ok(())
}

/// How many operations the replies call saved: each reply that calls something made or received calls everything before it saved.
fn saved_by<R: Abort>(rt: &R, replies: &str, ended: Result<(), Stop>) -> usize {
    let mut saved = 0;
    let mut there: usize = 0;
    for reply in replies.lines().skip(1) {
        let is_lost = reply.starts_with("[\"lost\"");
        let is_unsaved = reply.starts_with("[\"unsaved\"");
        assert_eq!(rt; ended == Err(Stop::Lost), replies.contains("[\"lost\""));
        if !reply.starts_with("[\"saved\"") {
            there = there.saturating_add(1);
        }
        if !is_lost && !is_unsaved {
            saved = there;
        }
    }
    saved
}

/// How many operations there are, according to the first line.
fn length_in(replies: &str) -> usize {
    let Some(line) = replies.lines().next() else {
        return 0;
    };
    let digits = line
        .trim_start_matches("[\"ready\",7,")
        .trim_end_matches(']');
    digits.parse().unwrap_or(0)
}
