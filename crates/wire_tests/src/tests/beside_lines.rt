//! Lines of profile 2, each relative to the vector of the operation before, and of both profiles mixed.

use super::canonical_lines::{BYTES, changed, spaced};
use super::{Around, LINES, is_op, list_of_five, with_part};
use ids::Refusal;
use std::alloc::Global;
use std::process::Abort;
use std::test::Fail;
use wire::{BundleReader, BundleWriter, read_op};

/// A line, and the operation that is read from it, as its line of profile 1.
pub(super) type Row<'a> = (&'a str, Result<&'a str, Refusal>);

/// Asserts what the reader reads from the line.
pub(super) fn reads(
    rt: &impl Abort,
    alloc: Global,
    reader: &mut BundleReader,
    row: &Row,
) -> Result<(), Refusal> {
    let (line, want) = *row;
    match (reader.read(alloc, line.as_bytes()), want) {
        (Ok(op), Ok(whole)) => is_op(rt, alloc, &op, whole)?,
        (Err(why), Err(other)) => assert_eq!(rt; why, other, "{line}"),
        _ => panic!(rt; "{line}"),
    }
    Ok(())
}

/// Asserts what one reader reads from these lines.
fn are_read(rt: &impl Abort, alloc: Global, rows: &[Row]) {
    let mut reader = BundleReader::new();
    for row in rows {
        reads(rt, alloc, &mut reader, row).expect(rt, "not refused");
    }
}

/// Asserts that the operation of the line of profile 1 is written as this line next.
fn writes(rt: &impl Abort, alloc: Global, writer: &mut BundleWriter, whole: &str, want: &str) {
    let op = read_op(alloc, whole.as_bytes()).expect(rt, "an operation");
    let line = writer.write(alloc, &op).expect(rt, "memory");
    assert_eq!(rt; line.as_slice(), want.as_bytes());
}

/// Asserts that one writer writes the operations of these rows as their lines.
fn are_written(rt: &impl Abort, alloc: Global, rows: &[Row]) {
    let mut writer = BundleWriter::new(alloc);
    for (line, whole) in rows {
        if let Ok(whole) = whole {
            writes(rt, alloc, &mut writer, whole, line);
        }
    }
}

/// Two replicas that write at one key.
pub(super) const ONE_KEY: &[Row] = &[
    (
        r#"["op2",[1,1],[],[["m",0]],"key",["a","A"]]"#,
        Ok(r#"["op",[1,1],[],[["m",0]],"key",["a","A"]]"#),
    ),
    (
        r#"["op2",[2,1],[[1,1]],[["m",0]],"key",["a","B"]]"#,
        Ok(r#"["op",[2,1],[[1,1]],[["m",0]],"key",["a","B"]]"#),
    ),
    (
        r#"["op2",[2,2],[],[["m",0]],"key",["a","C"]]"#,
        Ok(r#"["op",[2,2],[[1,1]],[["m",0]],"key",["a","C"]]"#),
    ),
];

/// A replica that is no longer named.
const LOST: &[Row] = &[
    (
        r#"["op2",[2,1],[[1,1]],[["m",0]],"key",["a","B"]]"#,
        Ok(r#"["op",[2,1],[[1,1]],[["m",0]],"key",["a","B"]]"#),
    ),
    (
        r#"["op2",[1,3],[[1,0]],[["m",0]],"z",["d"]]"#,
        Ok(r#"["op",[1,3],[],[["m",0]],"z",["d"]]"#),
    ),
];

/// Vectors that grow, shrink and stay, at both ends and between.
pub(super) const VECTORS: &[Row] = &[
    (
        r#"["op2",[6,2],[[1,1],[3,5]],[],0,["d"]]"#,
        Ok(r#"["op",[6,2],[[1,1],[3,5]],[],0,["d"]]"#),
    ),
    (
        r#"["op2",[8,2],[[2,7]],[],0,["d"]]"#,
        Ok(r#"["op",[8,2],[[1,1],[2,7],[3,5]],[],0,["d"]]"#),
    ),
    (
        r#"["op2",[9,4],[[1,2],[2,0],[4294967295,4611686018427387904]],[["l",0]],[3,1],["i",-1]]"#,
        Ok(
            r#"["op",[9,4],[[1,2],[3,5],[4294967295,4611686018427387904]],[["l",0]],[3,1],["i",-1]]"#,
        ),
    ),
    (
        r#"["op2",[9,4],[],[["l",0]],1,["i",null]]"#,
        Ok(r#"["op",[9,4],[[1,2],[3,5],[4294967295,4611686018427387904]],[["l",0]],1,["i",null]]"#),
    ),
    (
        r#"["op2",[1,1],[[1,0],[3,0],[4294967295,0]],[],0,["a",[]]]"#,
        Ok(r#"["op",[1,1],[],[],0,["a",[]]]"#),
    ),
    (
        r#"["op2",[7,9],[[2,6]],[],0,["a",{}]]"#,
        Ok(r#"["op",[7,9],[[2,6]],[],0,["a",{}]]"#),
    ),
    (
        r#"["op2",[9,9],[[1,8],[2,4],[3,3]],[],0,["a",{}]]"#,
        Ok(r#"["op",[9,9],[[1,8],[2,4],[3,3]],[],0,["a",{}]]"#),
    ),
];

/// Lines of both profiles, and some that are refused and leave the base unchanged.
const MIXED: &[Row] = &[
    (
        r#"["op",[2,1],[[1,1]],[],0,["d"]]"#,
        Ok(r#"["op",[2,1],[[1,1]],[],0,["d"]]"#),
    ),
    (
        r#"["op2",[3,1],[[2,2]],[],0,["d"]]"#,
        Ok(r#"["op",[3,1],[[1,1],[2,2]],[],0,["d"]]"#),
    ),
    (
        r#"["op",[4,1],[[1,3],[1,3]],[],0,["d"]]"#,
        Err(Refusal::BadLine),
    ),
    (
        r#"["op2",[4,1],[[1,3]],[["m",0]],"a",["a",1.5]]"#,
        Err(Refusal::NotWhole),
    ),
    (
        r#"["op2",[3,3],[],[],0,["d"]]"#,
        Ok(r#"["op",[3,3],[[1,1],[2,2]],[],0,["d"]]"#),
    ),
    (
        r#"["op",[1,3],[],[["m",0]],"z",["d"]]"#,
        Ok(r#"["op",[1,3],[],[["m",0]],"z",["d"]]"#),
    ),
    (r#"["op2",[2,3],[[1,0]],[],0,["d"]]"#, Err(Refusal::BadLine)),
    (
        r#" ["op2" ,[2,3],[ [1,1] ],[],0,["d"]]"#,
        Ok(r#"["op",[2,3],[[1,1]],[],0,["d"]]"#),
    ),
    (r#"["op3",[2,3],[],[],0,["d"]]"#, Err(Refusal::BadLine)),
    (r#"["hello",[[1,1]]]"#, Err(Refusal::BadLine)),
    (r#"["op2",[2,3],[],[],0,["d"],0]"#, Err(Refusal::BadLine)),
    (r#"["op2",[2,3],[],[],0]"#, Err(Refusal::BadLine)),
    (
        r#"["op2",[3,3],[],[],0,["d"]]"#,
        Ok(r#"["op",[3,3],[[1,1]],[],0,["d"]]"#),
    ),
];

#[test]
fn lines_are_read_beside_the_one_before(rt: HostRuntime) {
    for rows in [ONE_KEY, LOST, VECTORS, MIXED] {
        are_read(&rt, rt.alloc(), rows);
    }
}

#[test]
fn lines_are_written_beside_the_one_before(rt: HostRuntime) {
    for rows in [ONE_KEY, LOST, VECTORS] {
        are_written(&rt, rt.alloc(), rows);
    }
}

/// The ends of the five lines in their bundle of profile 2.
pub(super) const ENDS: [usize; 5] = [31, 83, 147, 213, 281];

#[test]
fn the_five_lines_in_profile_2(rt: HostRuntime) -> Result<(), Fail> {
    let ops = list_of_five(&rt, rt.alloc());
    let mut writer = BundleWriter::new(rt.alloc());
    let mut reader = BundleReader::new();
    let mut end = 0_usize;
    for ((op, whole), want) in ops.iter().zip(LINES.iter()).zip(ENDS.iter()) {
        let line = writer.write(rt.alloc(), op)?;
        end = end.saturating_add(line.len()).saturating_add(1);
        assert_eq!(rt; end, *want);
        let again = reader.read(rt.alloc(), line.as_slice())?;
        is_op(&rt, rt.alloc(), &again, whole)?;
    }
    Ok(())
}

/// The line after which all deltas of the next test come.
const BASE: &str = r#"["op2",[6,2],[[1,1],[3,5]],[],0,["d"]]"#;

/// What surrounds a delta.
pub(super) const DELTA: Around = (r#"["op2",[9,2],"#, r#",[],0,["d"]]"#);

/// Deltas that are refused after that line: of another form, out of ascending order, or equal to the base, also with 0 for what it lacks.
const DELTAS: &[&str] = &[
    "{}",
    "1",
    "[1]",
    "[[1]]",
    "[[1,2,3]]",
    "[[0,1]]",
    "[[4294967296,1]]",
    "[[1,-1]]",
    "[[1,-0]]",
    "[[1,2.0]]",
    "[[1,4611686018427387905]]",
    r#"[["1",2]]"#,
    "[[1,null]]",
    "[[1,2],[3]]",
    "[[3,6],[1,2]]",
    "[[1,2],[1,3]]",
    "[[1,0],[1,0]]",
    "[[1,1]]",
    "[[3,5]]",
    "[[2,0]]",
    "[[4,0]]",
    "[[1,2],[3,5]]",
    "[[1,0],[2,0]]",
];

/// A reader that has read that line.
fn reader_behind(rt: &impl Abort, alloc: Global) -> BundleReader {
    let mut reader = BundleReader::new();
    reader
        .read(alloc, BASE.as_bytes())
        .expect(rt, "not refused");
    reader
}

/// Lines that are read directly after that line, and as any JSON if preceded by a space.
const ALIKE: &[&str] = &[
    r#"["op2",[8,2],[[2,7]],[],0,["d"]]"#,
    r#"["op2",[9,4],[[1,0],[3,6],[9,1]],[["l",0]],[3,1],["i","\né"]]"#,
    r#"["op2",[2,2],[],[["m",0]],"a\"b",["a",-12]]"#,
    r#"["op",[2,2],[[3,5]],[["m",0]],"a",["a",true]]"#,
];

/// Asserts that the line is read there as it is when preceded by a space.
fn is_read_alike(rt: &impl Abort, alloc: Global, line: &[u8]) {
    let spaced = spaced(alloc, line).expect(rt, "not refused");
    let mut reader = reader_behind(rt, alloc);
    let mut other = reader_behind(rt, alloc);
    match (
        reader.read(alloc, line),
        other.read(alloc, spaced.as_slice()),
    ) {
        (Ok(op), Ok(same)) => assert!(rt; op == same),
        (Err(why), Err(same)) => assert_eq!(rt; why, same),
        _ => panic!(rt; "a space in front changes what is read"),
    }
}

/// Asserts this of the line, of each prefix of it, and of the line with one byte changed.
fn are_read_alike(rt: &impl Abort, alloc: Global, line: &[u8]) {
    for index in 0..line.len() {
        is_read_alike(rt, alloc, &line[..index]);
        for byte in BYTES {
            let other = changed(rt, alloc, line, index, byte);
            is_read_alike(rt, alloc, other.as_slice());
        }
    }
    is_read_alike(rt, alloc, line)
}

#[test]
fn a_space_in_front_changes_nothing(rt: HostRuntime) {
    for line in ALIKE {
        are_read_alike(&rt, rt.alloc(), line.as_bytes());
    }
}

/// Asserts that the line is refused after that line, also as any JSON, and that the reader is left as it was.
fn is_refused_beside(
    rt: &impl Abort,
    alloc: Global,
    line: &str,
    why: Refusal,
) -> Result<(), Refusal> {
    let mut reader = reader_behind(rt, alloc);
    reads(rt, alloc, &mut reader, &(line, Err(why)))?;
    let spaced = with_part(rt, alloc, (" ", ""), line);
    reads(rt, alloc, &mut reader, &(spaced.as_str(), Err(why)))?;
    let next = reader.read(alloc, br#"["op2",[9,2],[],[],0,["d"]]"#)?;
    is_op(rt, alloc, &next, r#"["op",[9,2],[[1,1],[3,5]],[],0,["d"]]"#)
}

#[test]
fn deltas_that_are_refused(rt: HostRuntime) {
    for delta in DELTAS {
        let line = with_part(&rt, rt.alloc(), DELTA, delta);
        is_refused_beside(&rt, rt.alloc(), line.as_str(), Refusal::BadLine).expect(
            &rt,
            "not refused",
        );
    }
}

/// Lines with two faults, the first of which decides: the text, the word, the id, the delta, the path, its keys, the place, the mutation.
const TWO_FAULTS: &[(&str, Refusal)] = &[
    (
        r#"["op2",[9,2],[[2,7]],[["m",1]],"a",["a",1.5]"#,
        Refusal::BadLine,
    ),
    (
        r#"["op3",[9,2],[[2,7]],[["m",0]],"a",["a",1.5]]"#,
        Refusal::BadLine,
    ),
    (
        r#"["op2",[0,2],[[2,7]],[["m",0]],"a",["a",1.5]]"#,
        Refusal::BadLine,
    ),
    (
        r#"["op2",[9,2],[[1,1]],[["m",0]],"a",["a",1.5]]"#,
        Refusal::BadLine,
    ),
    (
        r#"["op2",[9,2],[[2,0]],[["m",0]],"a",["a",1.5]]"#,
        Refusal::BadLine,
    ),
    (
        r#"["op2",[9,2],[[2,7]],[["m",1]],"a",["a",1.5]]"#,
        Refusal::BadLine,
    ),
    (
        r#"["op2",[9,2],[[2,7]],[["m",0]],"a",["a",1.5]]"#,
        Refusal::NotWhole,
    ),
];

#[test]
fn the_first_fault_decides(rt: HostRuntime) {
    for (line, why) in TWO_FAULTS {
        is_refused_beside(&rt, rt.alloc(), line, *why).expect(&rt, "not refused");
    }
}

/// What surrounds a part, the part, how many times it is repeated, and why the line is refused.
type Long<'a> = (Around<'a>, &'a str, usize, Refusal);

/// Lines that are too long, the delta's fault before them.
const LONG: &[Long] = &[
    (
        (r#"["op2",[9,2],[[2,7]],[["m",0]"#, r#"],"a",["a",1.5]]"#),
        r#",["m","k"]"#,
        32,
        Refusal::TooDeep,
    ),
    (
        (r#"["op2",[9,2],[[1,1]],[["m",0]"#, r#"],"a",["a",1.5]]"#),
        r#",["m","k"]"#,
        32,
        Refusal::BadLine,
    ),
    (
        (r#"["op2",[9,2],[[2,7]],[["m",0]],""#, r#"",["a",1.5]]"#),
        "k",
        257,
        Refusal::KeyTooLong,
    ),
    (
        (r#"["op2",[9,2],[[2,7]],[],0,["a",""#, r#""]]"#),
        "t",
        4097,
        Refusal::TextTooLong,
    ),
];

/// Asserts why the line of a row is refused.
fn is_too_long(rt: &impl Abort, alloc: Global, row: &Long) {
    let (around, part, times, why) = *row;
    let parts = part.repeat(alloc, times).expect(rt, "memory");
    let line = with_part(rt, alloc, around, parts.as_str());
    is_refused_beside(rt, alloc, line.as_str(), why).expect(rt, "not refused")
}

#[test]
fn lines_that_are_too_long(rt: HostRuntime) {
    for row in LONG {
        is_too_long(&rt, rt.alloc(), row);
    }
}

/// A line of profile 2 isn't one for `read_op`.
#[test]
fn a_line_alone_has_its_whole_vector(rt: HostRuntime) {
    for (line, _) in VECTORS {
        match read_op(rt.alloc(), line.as_bytes()) {
            Ok(_) => panic!(rt; "{line}"),
            Err(why) => assert_eq!(rt; why, Refusal::BadLine, "{line}"),
        }
    }
}
