//! Notebooks that exchange what they store.

use super::opening::live;
use super::playing::Act::{Receive, Save, Write};
use super::playing::Came::{MustStartAgain, Refused, Saved, Store};
use super::playing::Row;
use super::playing::Row::{Answer, Does, Hello, Receives, Shows};
use super::*;
use disks::{Breaks, Disk};
use ids::Refusal;
use notebook::Receipt;
use std::alloc::Global;
use std::process::Abort;
use std::sync::Wait;

/// What notebook 1 writes at the key `k`, and what notebook 2 writes there concurrently.
const TEA: Row = Does(Write(r#"["assign",["k"],"tea"]"#), Saved);

const MILK: Row = Does(Write(r#"["assign",["k"],"milk"]"#), Saved);

/// The bundles of these.
const TEA_SENT: &str = r#"["op2",[1,1],[],[["m",0]],"k",["a","tea"]]
"#;

const MILK_SENT: &str = r#"["op2",[1,2],[],[["m",0]],"k",["a","milk"]]
"#;

/// A life of a notebook: its number, and what is done until it ends.
type Life = (u32, &'static [Row]);

/// Two notebooks write concurrently, are ended and opened, and exchange what they wrote; they are ended and opened again, and show the
/// same.
#[test]
fn notebooks_agree(rt: HostRuntime) -> Result<(), Fail> {
    const ONE: Receipt = Receipt {
        taken: 1,
        refused: 0,
        first_refused: None,
        stopped: None,
    };
    const LIVES: &[Life] = &[
        (1, &[TEA]),
        (2, &[MILK]),
        (1, &[Hello("[\"hello\",[[1,1]]]\n")]),
        (2, &[Answer("[\"hello\",[[1,1]]]\n", MILK_SENT, false)]),
        (1, &[Receives(MILK_SENT, ONE), Receives(MILK_SENT, ONE)]),
        (2, &[Hello("[\"hello\",[[2,1]]]\n")]),
        (1, &[Answer("[\"hello\",[[2,1]]]\n", TEA_SENT, false)]),
        (2, &[Receives(TEA_SENT, ONE)]),
        (1, &[Shows(&["tea", "milk"])]),
        (2, &[Shows(&["tea", "milk"])]),
    ];
    live_in_turn(&rt, rt.alloc(), LIVES)
}

/// An append fails: what it should have stored is shown, but isn't sent before it is stored. The calls of the disk are a read and a sync
/// when it is opened, and then an append and a sync for each write.
#[test]
fn what_isnt_stored_isnt_sent(rt: HostRuntime) -> Result<(), Fail> {
    const ROWS: &[Row] = &[
        TEA,
        Does(Write(r#"["assign",["k"],"milk"]"#), Store),
        Shows(&["milk"]),
        Answer(NEW, TEA_SENT, false),
        Does(Save, Saved),
        Answer(NEW, BOTH_SENT, false),
        Answer("[\"hello\",[[1,3]]]\n", "", true),
    ];
    const BOTH_SENT: &str = r#"["op2",[1,1],[],[["m",0]],"k",["a","tea"]]
["op2",[2,1],[[1,1]],[["m",0]],"k",["a","milk"]]
"#;
    const BOTH: &str = r#"["own",[1,1],["assign",["k"],"tea"]]
["own",[2,1],["assign",["k"],"milk"]]
"#;
    plays(&rt, rt.alloc(), Breaks::At(5), ROWS, BOTH)
}

/// A sync fails: nothing more is stored or sent, whatever the disk returns after it.
#[test]
fn after_a_failed_sync_nothing_is_stored(rt: HostRuntime) -> Result<(), Fail> {
    const ROWS: &[Row] = &[
        TEA,
        Does(Write(r#"["assign",["k"],"milk"]"#), MustStartAgain),
        Does(Write(r#"["assign",["k"],"eggs"]"#), MustStartAgain),
        Does(Receive(MILK_SENT), MustStartAgain),
        Does(Save, MustStartAgain),
        Shows(&["milk"]),
        Answer(NEW, TEA_SENT, false),
    ];
    const BOTH: &str = r#"["own",[1,1],["assign",["k"],"tea"]]
["own",[2,1],["assign",["k"],"milk"]]
"#;
    plays(&rt, rt.alloc(), Breaks::At(6), ROWS, BOTH)
}

/// What is refused isn't stored: a command, an operation after a missing counter, and a line that is cut off.
#[test]
fn what_is_refused_isnt_stored(rt: HostRuntime) -> Result<(), Fail> {
    const SKIPS: &str = r#"["op2",[1,2],[],[["m",0]],"k",["a","milk"]]
["op2",[3,2],[[2,1]],[["m",0]],"k",["a","eggs"]]
["op2",[2,2],"#;
    const RECEIPT: Receipt = Receipt {
        taken: 2,
        refused: 1,
        first_refused: Some((2, Refusal::BadCounter)),
        stopped: Some((3, Refusal::BadLine)),
    };
    const ROWS: &[Row] = &[
        Does(Write(r#"["delete",["l",1]]"#), Refused(Refusal::PastEnd)),
        Receives(SKIPS, RECEIPT),
        Shows(&["milk"]),
    ];
    const MILK_ALONE: &str = r#"["op",[1,2],[],[["m",0]],"k",["a","milk"]]
"#;
    plays(&rt, rt.alloc(), Breaks::Never, ROWS, MILK_ALONE)
}

/// Plays these rows with notebook 1 on an empty disk that fails like this, and has these bytes at the end.
fn plays<R: Wait + Abort>(
    rt: &R,
    alloc: Global,
    breaks: Breaks,
    rows: &[Row],
    bytes: &str,
) -> Result<(), Fail> {
    let disk = Disk::of(alloc, b"", breaks)?;
    let (disk, told) = live(rt, alloc, 1, disk, rows)?;
    assert!(rt; told.is_ok());
    assert_eq!(rt; disk.bytes(), bytes.as_bytes());
    Ok(())
}

/// Each notebook has a disk that works.
fn live_in_turn<R: Wait + Abort>(rt: &R, alloc: Global, lives: &[Life]) -> Result<(), Fail> {
    let mut first = Disk::of(alloc, b"", Breaks::Never)?;
    let mut second = Disk::of(alloc, b"", Breaks::Never)?;
    for (own, rows) in lives {
        let disk = if *own == 1 { &mut first } else { &mut second };
        live_once(rt, alloc, *own, disk, rows)?;
    }
    Ok(())
}

/// Lives on this disk.
fn live_once<R: Wait + Abort>(
    rt: &R,
    alloc: Global,
    own: u32,
    disk: &mut Disk,
    rows: &[Row],
) -> Result<(), Fail> {
    let before = disk.left(alloc, 0)?;
    let (after, told) = live(rt, alloc, own, before, rows)?;
    assert!(rt; told.is_ok());
    *disk = after;
    Ok(())
}
