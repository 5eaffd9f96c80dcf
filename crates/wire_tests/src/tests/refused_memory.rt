//! A bundle of both profiles is written and read, even if an allocation fails: a line that is refused is written or read once more,
//! relative to the same vector.
//!
//! Run with each allocation refused in turn (`tests/refused_memory.sh`): a refused call is made once more and counted, so each run passes,
//! and each answer that isn't refused is that of a run in which no allocation fails.

use super::canonical_lines::spaced;
use ids::Refusal;
use operation::{Op, Shared};
use std::alloc::Global;
use std::process::Abort;
use std::test::Fail;
use wire::{BundleReader, BundleWriter, LINE_END, Lines, read_lines, read_op, write_op};

/// An operation's line in profile 2, and in profile 1, and whether it is sent in profile 1.
type Row<'a> = (&'a str, &'a str, bool);

/// Vectors that grow, stay, lose a replica and name others, and a line that is longer than others.
const FIVE: &[Row] = &[
    (
        r#"["op2",[2,1],[[1,1]],[["m",0]],"key",["a","B"]]"#,
        r#"["op",[2,1],[[1,1]],[["m",0]],"key",["a","B"]]"#,
        false,
    ),
    (
        r#"["op2",[4,2],[[1,2],[3,3]],[["m",0]],"key",["a","C"]]"#,
        r#"["op",[4,2],[[1,2],[3,3]],[["m",0]],"key",["a","C"]]"#,
        true,
    ),
    (
        r#"["op2",[5,2],[],[["m",0],["l","key"]],[3,1],["i","\n"]]"#,
        r#"["op",[5,2],[[1,2],[3,3]],[["m",0],["l","key"]],[3,1],["i","\n"]]"#,
        false,
    ),
    (
        r#"["op2",[6,4],[[1,0],[4,5],[7,1]],[["m",0]],"key",["a","A text that is longer than the room which a line has at first, so that the writer asks for more."]]"#,
        r#"["op",[6,4],[[3,3],[4,5],[7,1]],[["m",0]],"key",["a","A text that is longer than the room which a line has at first, so that the writer asks for more."]]"#,
        true,
    ),
    (
        r#"["op2",[9,3],[[2,8],[4,0],[7,2]],[["m",0]],"z",["a",{}]]"#,
        r#"["op",[9,3],[[2,8],[3,3],[7,2]],[["m",0]],"z",["a",{}]]"#,
        false,
    ),
];

/// Room for their lines.
const BYTES: usize = 512;

/// How many allocations were refused.
#[derive(Drop)]
struct Refused {
    times: u32,
}

impl Refused {
    /// Counts a refusal, if allocation failed.
    ///
    /// # Errors
    /// Any other refusal.
    fn count(&mut self, why: Refusal) -> Result<(), Refusal> {
        if why != Refusal::NoMemory {
            return Err(why);
        }
        self.note();
        Ok(())
    }

    fn note(&mut self) {
        self.times = self.times.saturating_add(1);
    }
}

/// What is made, at the second attempt if an allocation of the first fails.
fn again<T: Drop, F: Fn() -> Result<T, Refusal>>(
    refused: &mut Refused,
    make: F,
) -> Result<T, Refusal>
    requires { F.IsAlwaysCallable make }
{
    match make() {
        Err(Refusal::NoMemory) => {
            refused.note();
            make()
        }
        made => made,
    }
}

/// The writer's next line, at the second attempt if an allocation of the first fails.
fn written(
    alloc: Global,
    refused: &mut Refused,
    writer: &mut BundleWriter,
    op: &Op,
) -> Result<Vec<u8>, Refusal> {
    match writer.write(alloc, op) {
        Ok(line) => Ok(line),
        Err(_) => {
            refused.note();
            Ok(writer.write(alloc, op)?)
        }
    }
}

/// The operation on the reader's next line, likewise.
fn read(
    alloc: Global,
    refused: &mut Refused,
    reader: &mut BundleReader,
    line: &[u8],
) -> Result<Shared<Op>, Refusal> {
    match reader.read(alloc, line) {
        Err(Refusal::NoMemory) => {
            refused.note();
            reader.read(alloc, line)
        }
        read => read,
    }
}

/// Asserts that the line of profile 1 is the operation's.
fn is_op(
    rt: &impl Abort,
    alloc: Global,
    refused: &mut Refused,
    op: &Op,
    want: &str,
) -> Result<(), Refusal> {
    let whole = again(refused, || Ok(write_op(alloc, op)?))?;
    assert_eq!(rt; whole.as_slice(), want.as_bytes());
    Ok(())
}

/// Writes a row's operation in both profiles, and appends the line that is sent.
fn write(
    rt: &impl Abort,
    alloc: Global,
    refused: &mut Refused,
    writer: &mut BundleWriter,
    text: &mut Vec<u8>,
    row: &Row,
) -> Result<(), Refusal> {
    let (beside, whole, is_whole) = *row;
    let op = again(refused, || read_op(alloc, whole.as_bytes()))?;
    let line = written(alloc, refused, writer, &op)?;
    assert_eq!(rt; line.as_slice(), beside.as_bytes());
    is_op(rt, alloc, refused, &op, whole)?;
    let sent = if is_whole { whole } else { beside };
    text.extend_from_slice(sent.as_bytes())?;
    text.push(LINE_END)?;
    Ok(())
}

/// Writes all.
fn write_all(
    rt: &impl Abort,
    alloc: Global,
    refused: &mut Refused,
    text: &mut Vec<u8>,
) -> Result<(), Refusal> {
    let mut writer = BundleWriter::new(alloc);
    for row in FIVE {
        write(rt, alloc, refused, &mut writer, text, row)?;
    }
    Ok(())
}

/// Asserts what the reader reads from its next line.
fn reads(
    rt: &impl Abort,
    alloc: Global,
    refused: &mut Refused,
    reader: &mut BundleReader,
    line: &[u8],
    want: &str,
) -> Result<(), Refusal> {
    let op = read(alloc, refused, reader, line)?;
    is_op(rt, alloc, refused, &op, want)
}

/// Asserts that one reader reads all from their lines.
fn read_all(
    rt: &impl Abort,
    alloc: Global,
    refused: &mut Refused,
    text: &[u8],
) -> Result<(), Refusal> {
    let mut lines = Lines::new(text);
    let mut reader = BundleReader::new();
    for (_, whole, _) in FIVE {
        let line = lines.take_line().ok_or(Refusal::BadLine)?;
        reads(rt, alloc, refused, &mut reader, line.text, whole)?;
    }
    Ok(())
}

/// Asserts this of the lines preceded by a space, which are read as any JSON.
fn read_spaced(
    rt: &impl Abort,
    alloc: Global,
    refused: &mut Refused,
    text: &[u8],
) -> Result<(), Refusal> {
    let mut lines = Lines::new(text);
    let mut reader = BundleReader::new();
    for (_, whole, _) in FIVE {
        let line = lines.take_line().ok_or(Refusal::BadLine)?;
        let line = again(refused, || Ok(spaced(alloc, line.text)?))?;
        reads(rt, alloc, refused, &mut reader, line.as_slice(), whole)?;
    }
    Ok(())
}

/// Asserts that the lines are read up to one that is refused: how many those are.
fn read_some(
    rt: &impl Abort,
    alloc: Global,
    refused: &mut Refused,
    text: &[u8],
) -> Result<usize, Refusal> {
    let read = read_lines(alloc, text);
    for (op, (_, whole, _)) in read.ops.iter().zip(FIVE.iter()) {
        is_op(rt, alloc, refused, op, whole)?;
    }
    if let Some(why) = read.stopped {
        refused.count(why)?;
    }
    Ok(read.ops.len())
}

/// Asserts that the text is read whole, at the second attempt if an allocation of the first fails.
fn read_whole(
    rt: &impl Abort,
    alloc: Global,
    refused: &mut Refused,
    text: &[u8],
) -> Result<(), Refusal> {
    let before = refused.times;
    let count = read_some(rt, alloc, refused, text)?;
    if count < 5 {
        assert!(rt; refused.times > before);
        let count = read_some(rt, alloc, refused, text)?;
        assert_eq!(rt; count, 5);
    }
    Ok(())
}

/// Each line is written and read as in a run without a refusal, by a writer and a reader that go on from where they were, and so is the
/// whole text.
#[test]
fn a_bundle_goes_on(rt: HostRuntime) -> Result<(), Fail> {
    let mut refused = Refused { times: 0 };
    let mut text = again(&mut refused, || Ok(Vec::with_capacity(rt.alloc(), BYTES)?))?;
    write_all(&rt, rt.alloc(), &mut refused, &mut text)?;
    read_all(&rt, rt.alloc(), &mut refused, text.as_slice())?;
    read_spaced(&rt, rt.alloc(), &mut refused, text.as_slice())?;
    read_whole(&rt, rt.alloc(), &mut refused, text.as_slice())?;
    assert!(rt; refused.times < 2);
    Ok(())
}
