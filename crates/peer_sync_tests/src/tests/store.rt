//! A file of answers, each after its length: one way for an application to keep a document.

use super::opening::{on_others, on_two};
use super::playing::Row;
use super::playing::Side::{One, Two};
use super::playing::Turn::{Answer, Hello, Keep, Pull, ReadBack, Receive, Seen, Show, Step, Write};
use super::playing::Writing::Assign;
use super::playing::Wrote::Words;
use super::showing::Shown::{Keys, Values};
use super::showing::To;
use super::showing::To::Key;
use super::*;
use engine::{Client, EngineName, ReaderToken, Writer};
use std::alloc::Global;
use std::process::Abort;
use std::sync::Wait;

/// What engine 1 answers to the empty hello, and twice later to the hello that it said before, each after its length.
const FILE: &str = r#"91
["op2",[1,1],[],[["m",0]],"key",["a","A"]]
["op2",[2,1],[[1,1]],[["m",0]],"key",["a","B"]]
102
["op2",[2,2],[[1,1]],[["m",0]],"key",["a","C"]]
["op2",[3,1],[[1,2],[2,2]],[["m",0]],"key",["a","D"]]
100
["op2",[4,2],[[1,3],[2,2]],[["m",0]],"z",["a","E"]]
["op2",[5,1],[[2,4]],[["m",0]],"key",["a","F"]]
"#;

/// The lines of its operations: the number of each in its answer, and where in the file it begins and ends.
const LINES: [(u64, usize, usize); 6] = [
    (1, 3, 46),
    (2, 46, 94),
    (1, 98, 146),
    (2, 146, 200),
    (1, 204, 256),
    (2, 256, 304),
];

/// The hello of an engine that has none of its operations, the first, the first two, and so on.
const HELLOS: [&str; 7] = [
    NEW,
    "[\"hello\",[[1,1]]]\n",
    "[\"hello\",[[1,2]]]\n",
    "[\"hello\",[[1,2],[2,2]]]\n",
    "[\"hello\",[[1,3],[2,2]]]\n",
    "[\"hello\",[[1,3],[2,4]]]\n",
    "[\"hello\",[[1,5],[2,4]]]\n",
];

const KEY: &[To] = &[Key("key")];

const Z: &[To] = &[Key("z")];

const A: &str = r#"["op2",[1,1],[],[["m",0]],"key",["a","A"]]
"#;

const C: &str = r#"["op2",[2,2],[[1,1]],[["m",0]],"key",["a","C"]]
"#;

const B_D: &str = r#"["op2",[2,1],[[1,1]],[["m",0]],"key",["a","B"]]
["op2",[3,1],[[1,2],[2,2]],[["m",0]],"key",["a","D"]]
"#;

const E: &str = r#"["op2",[4,2],[[1,3],[2,2]],[["m",0]],"z",["a","E"]]
"#;

/// Engine 1 writes and exchanges with engine 2, and keeps an answer three times.
const KEPT: &[Row] = &[
    (One, Write(Assign(KEY, Words("A")))),
    (Two, Pull(NEW, A)),
    (Two, Write(Assign(KEY, Words("C")))),
    (One, Write(Assign(KEY, Words("B")))),
    (One, Keep(NEW, 0, 94)),
    (One, Hello("[\"hello\",[[1,2]]]\n")),
    (One, Pull("[\"hello\",[[1,2]]]\n", C)),
    (One, Write(Assign(KEY, Words("D")))),
    (One, Keep("[\"hello\",[[1,2]]]\n", 94, 200)),
    (One, Hello("[\"hello\",[[1,3],[2,2]]]\n")),
    (Two, Pull("[\"hello\",[[1,1],[2,2]]]\n", B_D)),
    (Two, Write(Assign(Z, Words("E")))),
    (One, Pull("[\"hello\",[[1,3],[2,2]]]\n", E)),
    (One, Write(Assign(KEY, Words("F")))),
    (One, Keep("[\"hello\",[[1,3],[2,2]]]\n", 200, 304)),
];

/// What the engine that gave the answers says and shows at the end, and so does each one that has them.
const END: &[Row] = &[
    (One, Hello("[\"hello\",[[1,5],[2,4]]]\n")),
    (One, Seen(6)),
    (One, Show(&[], Keys(&["key", "z"]))),
    (One, Show(KEY, Values(&[((5, 1), "F")]))),
    (One, Show(Z, Values(&[((4, 2), "E")]))),
    (One, Answer(NEW, Ok(WHOLE))),
];

/// All of it in one answer.
const WHOLE: &str = r#"["op2",[1,1],[],[["m",0]],"key",["a","A"]]
["op2",[2,1],[[1,1]],[["m",0]],"key",["a","B"]]
["op2",[2,2],[],[["m",0]],"key",["a","C"]]
["op2",[3,1],[[1,2],[2,2]],[["m",0]],"key",["a","D"]]
["op2",[4,2],[[1,3]],[["m",0]],"z",["a","E"]]
["op2",[5,1],[[2,4]],[["m",0]],"key",["a","F"]]
"#;

/// Each answer is given to the hello that was said before it, and kept after its length.
#[test]
fn answers_are_kept_with_their_lengths(rt: HostRuntime) {
    const ACTS: &[&[Row]] = &[KEPT, END];
    on_two(&rt, rt.alloc(), 16, ACTS)
}

/// An engine of another number that reads them back shows the same and says the same hello as the one that gave them.
#[test]
fn a_file_of_answers_is_read_back(rt: HostRuntime) {
    const ACTS: &[&[Row]] = &[&[(One, ReadBack(FILE, 6, None))], END];
    on_others(&rt, rt.alloc(), 16, ACTS)
}

/// From a file that is cut anywhere, each whole line is read, including those of the answer that is cut, and nothing else.
#[test]
fn a_cut_file_keeps_its_whole_lines(rt: HostRuntime) {
    assert_eq!(rt; FILE.len(), 304);
    for length in 0..=304 {
        read_cut(&rt, rt.alloc(), length);
    }
}

/// Asserts what a new engine reads back of the first `length` bytes of the file.
fn read_cut<R: Wait + Abort>(rt: &R, alloc: Global, length: usize) {
    let cut = FILE.get(..length).expect(rt, "no such cut");
    let (whole, stopped) = whole_lines(length);
    let said = HELLOS.get(whole).expect(rt, "no such hello");
    on_others(
        rt,
        alloc,
        16,
        &[&[
            (One, ReadBack(cut, whole as u64, stopped)),
            (One, Hello(said)),
            (One, Seen(whole)),
        ]],
    )
}

/// How many lines of operations are whole in this many bytes, and the one that isn't, by its number in its answer.
fn whole_lines(length: usize) -> (usize, Option<(u64, Refusal)>) {
    let mut whole: usize = 0;
    let mut stopped = None;
    for (number, begin, end) in LINES {
        if end <= length {
            whole = whole.saturating_add(1);
        } else if begin < length {
            stopped = Some((number, Refusal::BadLine));
        }
    }
    (whole, stopped)
}

/// Answers are bundles of their own: as one text, the second one would be read relative to the last line of the first, which has the vector
/// that it says.
#[test]
fn answers_in_a_row_are_no_bundle(rt: HostRuntime) {
    const IN_A_ROW: &str = r#"["op2",[1,1],[],[["m",0]],"key",["a","A"]]
["op2",[2,1],[[1,1]],[["m",0]],"key",["a","B"]]
["op2",[2,2],[[1,1]],[["m",0]],"key",["a","C"]]
["op2",[3,1],[[1,2],[2,2]],[["m",0]],"key",["a","D"]]
"#;
    const ACTS: &[&[Row]] = &[&[
        (
            One,
            Receive(IN_A_ROW, 1, 2, 91, Some((3, Refusal::BadLine))),
        ),
        (One, Step(engine::Step::Published(2))),
        (One, Hello("[\"hello\",[[1,2]]]\n")),
    ]];
    on_others(&rt, rt.alloc(), 16, ACTS)
}

/// Asserts that the answer to this hello, after its length, is the file from this byte to that one.
pub fn assert_kept<N: EngineName>(
    rt: &impl Abort,
    alloc: Global,
    reader: &mut ReaderToken<N>,
    said: &str,
    from: usize,
    to: usize,
) {
    let answered = answer(alloc, reader, said.as_bytes()).expect(rt, "an answer");
    let kept = with_length(rt, alloc, answered.as_slice());
    assert_eq!(rt; Some(kept.as_slice()), FILE.as_bytes().get(from..to));
}

/// An answer after its length.
fn with_length(rt: &impl Abort, alloc: Global, answered: &[u8]) -> Vec<u8> {
    let length = format!(in alloc; "{}\n", answered.len()).expect(rt, "memory");
    let mut kept = Vec::new(alloc);
    kept.extend_from_slice(length.as_str().as_bytes())
        .expect(rt, "memory");
    kept.extend_from_slice(answered).expect(rt, "memory");
    kept
}

/// Receives the answers of a file one after another, and steps until idle after each. Asserts how many operations are submitted, and where
/// the last answer stops.
pub fn read_back<N: EngineName, R: Wait + Abort>(
    rt: &R,
    alloc: Global,
    writer: &mut Writer<N>,
    client: &mut Client<N>,
    file: &str,
    want: (u64, Option<(u64, Refusal)>),
) {
    let mut rest = file;
    let mut submitted: u64 = 0;
    let mut stopped = None;
    for _ in 0..file.len() {
        let Some((kept, left)) = next_kept(rest) else {
            break;
        };
        assert_eq!(rt; stopped, None);
        let received = receive(rt, alloc, client, kept.as_bytes());
        step_until_idle(rt, alloc, writer);
        submitted = submitted.saturating_add(received.submitted);
        stopped = received.stopped;
        rest = left;
    }
    assert!(rt; (submitted, stopped) == want, "of {file}");
}

/// The next answer of a file, which may have fewer bytes than its length says, and what is after it; `None` if its length is cut.
fn next_kept(file: &str) -> Option<(&str, &str)> {
    let (length, rest) = file.split_once('\n')?;
    let length = length.parse::<usize>().ok()?;
    Some(rest.split_at_checked(length).unwrap_or((rest, "")))
}

/// Steps until there is nothing to do.
fn step_until_idle<N: EngineName, R: Wait + Abort>(rt: &R, alloc: Global, writer: &mut Writer<N>) {
    for _ in 0..6 {
        if writer.step(rt, alloc) == engine::Step::Idle {
            return;
        }
    }
    panic!(rt; "there is still something to do")
}
