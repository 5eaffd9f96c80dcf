//! Notebooks that resume from what a disk has.

use super::opening::live;
use super::playing::Act::Write;
use super::playing::Came::Saved;
use super::playing::Row;
use super::playing::Row::Does;
use super::*;
use disks::{Breaks, Disk};
use std::alloc::Global;
use std::process::Abort;
use std::sync::Wait;

/// How many bytes the first lines of `FOUR` have.
const ENDS: [usize; 5] = [0, 34, 71, 128, 161];

/// What the next life writes after each of them.
const NEXT: [&str; 5] = [
    r#"["own",[1,1],["assign",["k"],"on"]]
"#,
    r#"["own",[2,1],["assign",["k"],"on"]]
"#,
    r#"["own",[3,1],["assign",["k"],"on"]]
"#,
    r#"["own",[4,1],["assign",["k"],"on"]]
"#,
    r#"["own",[5,1],["assign",["k"],"on"]]
"#,
];

/// Makes the next life of notebook 1 write, on a disk that has some of the first lines of `FOUR`: at least and at most this many. All of
/// these are there, and nothing else, and the command comes after them.
pub fn goes_on<R: Wait + Abort>(
    rt: &R,
    alloc: Global,
    disk: Disk,
    least: usize,
    most: usize,
) -> Result<(), Fail> {
    const ROWS: &[Row] = &[Does(Write(r#"["assign",["k"],"on"]"#), Saved)];
    let (disk, told) = live(rt, alloc, 1, disk, ROWS)?;
    assert!(rt; told.is_ok());
    assert!(rt; disk.is_synced());
    let count = count_lines(disk.bytes()).saturating_sub(1);
    assert!(rt; least <= count && count <= most, "{count} lines");
    assert!(rt; count < ENDS.len());
    let mut want = Vec::from_slice(alloc, &FOUR.as_bytes()[..ENDS[count]])?;
    want.extend_from_slice(NEXT[count].as_bytes())?;
    assert_eq!(rt; disk.bytes(), want.as_slice());
    Ok(())
}

fn count_lines(bytes: &[u8]) -> usize {
    bytes.iter().filter(|byte| **byte == b'\n').count()
}

/// The file is cut at each byte: the whole lines are there.
#[test]
fn a_cut_file_goes_on(rt: HostRuntime) -> Result<(), Fail> {
    let alloc = rt.alloc();
    for length in 0..=FOUR.len() {
        let bytes = &FOUR.as_bytes()[..length];
        let disk = Disk::of(alloc, bytes, Breaks::Never)?;
        let whole = count_lines(bytes);
        goes_on(&rt, alloc, disk, whole, whole)?;
    }
    Ok(())
}

/// More lives than there are numbers in a table: a start doesn't use up a number.
#[test]
fn a_number_lives_more_often_than_there_are_numbers(rt: HostRuntime) -> Result<(), Fail> {
    const ROWS: &[Row] = &[Does(Write(r#"["insert",["l",0],"x"]"#), Saved)];
    let alloc = rt.alloc();
    let mut disk = Disk::of(alloc, b"", Breaks::Never)?;
    for _ in 0..300 {
        let (next, told) = live(&rt, alloc, 1, disk, ROWS)?;
        assert!(rt; told.is_ok());
        disk = next;
    }
    assert_eq!(rt; count_lines(disk.bytes()), 300);
    assert!(rt;
        disk.bytes()
            .ends_with(b"[\"own\",[300,1],[\"insert\",[\"l\",0],\"x\"]]\n")
    );
    Ok(())
}
