//! Bundles. They are written in profile 2, and read in either profile.

use super::beside_lines::{self, ONE_KEY, VECTORS};
use super::{BESIDE, LINES, is_op, joined, list_of_five};
use ids::Refusal;
use operation::{Op, Shared};
use std::alloc::Global;
use std::process::Abort;
use wire::{read_bundle, read_lines, write_bundle};

/// The lines, each with its line feed.
fn text_of(rt: &impl Abort, alloc: Global, lines: &[&str]) -> String {
    let mut text = String::new(alloc);
    for line in lines {
        text.push_str(line).expect(rt, "memory");
        text.push('\n').expect(rt, "memory");
    }
    text
}

/// Asserts that the operations are written as this text.
fn are_written(
    rt: &impl Abort,
    alloc: Global,
    ops: &[Shared<Op>],
    want: &str,
) -> Result<(), Refusal> {
    let text = write_bundle(alloc, ops)?;
    assert_eq!(rt; text.as_slice(), want.as_bytes());
    Ok(())
}

/// The operations of a bundle, or why it isn't one.
fn read(rt: &impl Abort, alloc: Global, text: &str) -> Vec<Shared<Op>> {
    read_bundle(alloc, text.as_bytes())
        .map_err(|stopped| stopped.1)
        .expect(rt, "not refused")
}

/// The five operations are written in profile 2.
#[test]
fn bundles_are_written(rt: HostRuntime) {
    let text = text_of(&rt, rt.alloc(), &BESIDE);
    assert_eq!(rt; text.len(), 281);
    let ops = list_of_five(&rt, rt.alloc());
    are_written(&rt, rt.alloc(), ops.as_slice(), text.as_str()).expect(&rt, "not refused");
}

/// What is written is read as five operations, which are written as the same text.
#[test]
fn bundles_are_read_as_they_are_written(rt: HostRuntime) {
    let text = text_of(&rt, rt.alloc(), &BESIDE);
    let ops = read(&rt, rt.alloc(), text.as_str());
    assert_eq!(rt; ops.len(), 5);
    are_written(&rt, rt.alloc(), ops.as_slice(), text.as_str()).expect(&rt, "not refused");
}

/// Asserts that the bundle is of the five operations, whose lines of profile 1 these are, and that they are written as the other text.
fn are_five(rt: &impl Abort, alloc: Global, text: &str, written: &str) -> Result<(), Refusal> {
    let ops = read(rt, alloc, text);
    assert_eq!(rt; ops.len(), 5);
    for (op, whole) in ops.iter().zip(LINES.iter()) {
        is_op(rt, alloc, op, whole)?;
    }
    are_written(rt, alloc, ops.as_slice(), written)
}

/// A bundle in profile 1 is read, and written again in profile 2.
#[test]
fn bundles_with_whole_vectors_are_read(rt: HostRuntime) {
    let text = text_of(&rt, rt.alloc(), &LINES);
    assert_eq!(rt; text.len(), 276);
    let written = text_of(&rt, rt.alloc(), &BESIDE);
    are_five(&rt, rt.alloc(), text.as_str(), written.as_str()).expect(&rt, "not refused");
}

/// The lines of these rows, in profile 1 if the row's bit is set; the first row has the lowest bit.
fn mixture(
    rt: &impl Abort,
    alloc: Global,
    rows: &[beside_lines::Row],
    in_profile_1: u32,
) -> String {
    let mut text = String::new(alloc);
    let mut bits = in_profile_1;
    for (line, whole) in rows {
        let is_whole = bits % 2 == 1;
        text.push_str(if is_whole {
            whole.unwrap_or(line)
        } else {
            line
        })
        .expect(rt, "memory");
        text.push('\n').expect(rt, "memory");
        bits /= 2;
    }
    text
}

/// Asserts that these are the operations of the rows.
fn are_of(
    rt: &impl Abort,
    alloc: Global,
    ops: &[Shared<Op>],
    rows: &[beside_lines::Row],
) -> Result<(), Refusal> {
    assert_eq!(rt; ops.len(), rows.len());
    for (op, (_, whole)) in ops.iter().zip(rows.iter()) {
        is_op(rt, alloc, op, (*whole)?)?;
    }
    Ok(())
}

/// Asserts that the rows' operations are read from this mixture of their lines.
fn is_mixture(rt: &impl Abort, alloc: Global, rows: &[beside_lines::Row], in_profile_1: u32) {
    let text = mixture(rt, alloc, rows, in_profile_1);
    let ops = read(rt, alloc, text.as_str());
    are_of(rt, alloc, ops.as_slice(), rows).expect(rt, "not refused");
    let written = mixture(rt, alloc, rows, 0);
    are_written(rt, alloc, ops.as_slice(), written.as_str()).expect(rt, "not refused")
}

/// Seven lines whose vectors grow, shrink and stay are read as the same operations, whichever of them are in profile 1.
#[test]
fn bundles_of_both_profiles_are_read(rt: HostRuntime) {
    assert_eq!(rt; VECTORS.len(), 7);
    for in_profile_1 in 0..128 {
        is_mixture(&rt, rt.alloc(), VECTORS, in_profile_1);
    }
}

#[test]
fn no_operation_is_no_byte(rt: HostRuntime) {
    are_written(&rt, rt.alloc(), &[], "").expect(&rt, "not refused");
    is_read(&rt, rt.alloc(), b"", 0, None);
}

/// Asserts how many operations are read from the text as lines, and what stops it.
fn lines_are_read(
    rt: &impl Abort,
    alloc: Global,
    text: &[u8],
    count: u32,
    stopped: Option<Refusal>,
) {
    let read = read_lines(alloc, text);
    assert_eq!(rt; read.ops.len(), count as usize, "{} bytes", text.len());
    assert_eq!(rt; read.stopped, stopped, "{} bytes", text.len());
}

/// How many operations are read from the text as a bundle, or the line that stops it and why.
fn bundle_len(alloc: Global, text: &[u8]) -> Result<usize, (u64, Refusal)> {
    read_bundle(alloc, text).map(|ops| ops.len())
}

/// Asserts how many operations are read from the text, as lines and as a bundle, and what stops it.
fn is_read(rt: &impl Abort, alloc: Global, text: &[u8], count: u32, stopped: Option<Refusal>) {
    lines_are_read(rt, alloc, text, count, stopped);
    let want = match stopped {
        None => Ok(count as usize),
        Some(why) => Err((u64::from(count) + 1, why)),
    };
    let bundle = bundle_len(alloc, text);
    assert_eq!(rt; bundle, want, "{} bytes", text.len());
}

/// The ends of the lines of profile 1 in their text.
const ENDS: [usize; 5] = [30, 81, 144, 209, 276];

/// Asserts that the text is whole after each of these ends, and at no other byte.
fn is_cut(rt: &impl Abort, alloc: Global, bytes: &[u8], ends: &[usize]) {
    let mut whole = 0_u32;
    for end in 0..=bytes.len() {
        if ends.contains(&end) {
            whole = whole.saturating_add(1);
        }
        let is_cut = end > 0 && !ends.contains(&end);
        let stopped = is_cut.then_some(Refusal::BadLine);
        is_read(rt, alloc, &bytes[..end], whole, stopped);
    }
}

/// A bundle is whole after each line feed, and at no other byte.
#[test]
fn bundles_are_cut(rt: HostRuntime) {
    let text = text_of(&rt, rt.alloc(), &BESIDE);
    is_cut(
        &rt,
        rt.alloc(),
        text.as_str().as_bytes(),
        &beside_lines::ENDS,
    );
}

/// So is one in profile 1.
#[test]
fn bundles_with_whole_vectors_are_cut(rt: HostRuntime) {
    let text = text_of(&rt, rt.alloc(), &LINES);
    is_cut(&rt, rt.alloc(), text.as_str().as_bytes(), &ENDS);
}

/// The parts of a text, how many operations are read from it, and why no more are.
type Row<'a> = (&'a [&'a str], u32, Refusal);

const GOOD: &str = r#"["op",[1,1],[],[],0,["a",{}]]"#;

const OTHER: &str = r#"["op",[1,3],[],[],0,["d"]]"#;

const FLOAT: &str = r#"["op",[1,1],[],[],0,["a",1.5]]"#;

/// It names one more replica.
const NAMES: &str = r#"["op2",[2,1],[[1,1]],[],0,["d"]]"#;

const STOPPED: &[Row] = &[
    (&["\n"], 0, Refusal::BadLine),
    (&[GOOD], 0, Refusal::BadLine),
    (&[GOOD, "\n\n"], 1, Refusal::BadLine),
    (&[GOOD, "\n", GOOD], 1, Refusal::BadLine),
    (&[GOOD, "\n "], 1, Refusal::BadLine),
    (&[GOOD, "\r\n\r"], 1, Refusal::BadLine),
    (&[OTHER, "\n", GOOD, "\n{"], 2, Refusal::BadLine),
    (
        &[GOOD, "\n", GOOD, "\n", FLOAT, "\n\n", OTHER],
        2,
        Refusal::NotWhole,
    ),
    (&[NAMES], 0, Refusal::BadLine),
    (&[NAMES, "\n", NAMES, "\n"], 1, Refusal::BadLine),
    (
        &[NAMES, "\n", GOOD, "\n", NAMES, "\n", NAMES, "\n", GOOD],
        3,
        Refusal::BadLine,
    ),
    (
        &[NAMES, "\n", FLOAT, "\n", NAMES, "\n"],
        1,
        Refusal::NotWhole,
    ),
];

/// Asserts how far the text of a row is read.
fn is_stopped(rt: &impl Abort, alloc: Global, row: &Row) {
    let (parts, count, why) = *row;
    let text = joined(rt, alloc, parts);
    is_read(rt, alloc, text.as_str().as_bytes(), count, Some(why))
}

#[test]
fn the_first_bad_line_decides(rt: HostRuntime) {
    for row in STOPPED {
        is_stopped(&rt, rt.alloc(), row);
    }
}

/// A line, and what is read from it, as a line of profile 1: after others whose last vector is `[[1,1]]`, and in a text of its own.
type Next<'a> = (&'a str, Result<&'a str, Refusal>, Result<&'a str, Refusal>);

const NEXT: &[Next] = &[
    (
        r#"["op2",[1,3],[[1,0]],[["m",0]],"z",["d"]]"#,
        Ok(r#"["op",[1,3],[],[["m",0]],"z",["d"]]"#),
        Err(Refusal::BadLine),
    ),
    (
        r#"["op2",[2,3],[],[["m",0]],"z",["d"]]"#,
        Ok(r#"["op",[2,3],[[1,1]],[["m",0]],"z",["d"]]"#),
        Ok(r#"["op",[2,3],[],[["m",0]],"z",["d"]]"#),
    ),
    (
        r#"["op2",[2,3],[[1,1]],[["m",0]],"z",["d"]]"#,
        Err(Refusal::BadLine),
        Ok(r#"["op",[2,3],[[1,1]],[["m",0]],"z",["d"]]"#),
    ),
    (
        r#"["op2",[3,3],[[2,2]],[["m",0]],"z",["d"]]"#,
        Ok(r#"["op",[3,3],[[1,1],[2,2]],[["m",0]],"z",["d"]]"#),
        Ok(r#"["op",[3,3],[[2,2]],[["m",0]],"z",["d"]]"#),
    ),
    (
        r#"["op",[3,3],[[2,2]],[["m",0]],"z",["d"]]"#,
        Ok(r#"["op",[3,3],[[2,2]],[["m",0]],"z",["d"]]"#),
        Ok(r#"["op",[3,3],[[2,2]],[["m",0]],"z",["d"]]"#),
    ),
];

/// Asserts that the last of these operations has this line of profile 1.
fn ends_with(
    rt: &impl Abort,
    alloc: Global,
    ops: &[Shared<Op>],
    whole: &str,
) -> Result<(), Refusal> {
    match ops.last() {
        Some(op) => is_op(rt, alloc, op, whole),
        None => panic!(rt; "{whole}"),
    }
}

/// Asserts how the last line of a text is read after this many others, as lines and as a bundle.
fn is_last(rt: &impl Abort, alloc: Global, text: &str, before: u32, want: Result<&str, Refusal>) {
    let whole = match want {
        Ok(whole) => whole,
        Err(why) => return is_read(rt, alloc, text.as_bytes(), before, Some(why)),
    };
    is_read(rt, alloc, text.as_bytes(), before.saturating_add(1), None);
    let lines = read_lines(alloc, text.as_bytes());
    ends_with(rt, alloc, lines.ops.as_slice(), whole).expect(rt, "not refused");
    let ops = read(rt, alloc, text);
    ends_with(rt, alloc, ops.as_slice(), whole).expect(rt, "not refused")
}

/// Asserts that the line is read relative to the last of the others if it comes after them, and relative to the empty vector in a text of
/// its own that is read after them.
fn begins_anew(rt: &impl Abort, alloc: Global, others: &str, row: &Next) {
    let (line, behind, alone) = *row;
    is_read(rt, alloc, others.as_bytes(), 3, None);
    let text = joined(rt, alloc, &[line, "\n"]);
    is_last(rt, alloc, text.as_str(), 0, alone);
    let text = joined(rt, alloc, &[others, line, "\n"]);
    is_last(rt, alloc, text.as_str(), 3, behind)
}

/// Each call begins with the empty base, whatever was read before.
#[test]
fn each_text_begins_anew(rt: HostRuntime) {
    let others = mixture(&rt, rt.alloc(), ONE_KEY, 0);
    for row in NEXT {
        begins_anew(&rt, rt.alloc(), others.as_str(), row);
    }
}
