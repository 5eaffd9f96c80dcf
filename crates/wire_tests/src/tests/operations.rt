//! Lines of operations.

use super::{Around, LINES, MOST_PAIRS, joined, list_of_five, pairs, with_part};
use ids::Refusal;
use operation::{Op, check_alone};
use std::alloc::Global;
use std::process::Abort;
use wire::{read_op, write_op};

/// Asserts that the operation is written as this line.
fn is_written(rt: &impl Abort, alloc: Global, op: &Op, line: &str) {
    let written = write_op(alloc, op).expect(rt, "not refused");
    assert_eq!(rt; written.as_slice(), line.as_bytes());
}

/// Asserts that both operations have the same parts.
fn are_same(rt: &impl Abort, again: &Op, op: &Op, line: &str) {
    assert_eq!(rt; again.id, op.id, "{line}");
    assert_eq!(rt; again.place, op.place, "{line}");
    assert_eq!(rt; again.mutation, op.mutation, "{line}");
    assert_eq!(rt; again.deps, op.deps, "{line}");
}

/// Asserts that this is the operation's line, and that it is read back as the operation.
fn has_line(rt: &impl Abort, alloc: Global, op: &Op, line: &str) {
    is_written(rt, alloc, op, line);
    let again = read_op(alloc, line.as_bytes()).expect(rt, "an operation");
    are_same(rt, &again, op, line);
    is_written(rt, alloc, &again, line)
}

#[test]
fn operations_are_read_as_they_are_written(rt: HostRuntime) {
    assert_eq!(rt; LINES[0].len(), 29);
    let ops = list_of_five(&rt, rt.alloc());
    for (op, line) in ops.iter().zip(LINES.iter()) {
        has_line(&rt, rt.alloc(), op, line);
    }
}

/// The counter and the replica of an id.
type Pair = (u64, u32);

/// What is read from a line: the id, or why there is no operation.
fn read(alloc: Global, line: &[u8]) -> Result<Pair, Refusal> {
    let op = read_op(alloc, line)?;
    let id = op.id;
    Ok((id.counter, id.replica.number()))
}

/// Asserts what is read from the line.
fn is_read(rt: &impl Abort, alloc: Global, line: &str, want: Result<Pair, Refusal>) {
    assert_eq!(rt; read(alloc, line.as_bytes()), want, "{line}");
}

/// Asserts what is read from the line of an operation whose vector has this many pairs.
fn is_read_with_pairs(rt: &impl Abort, alloc: Global, count: u32, want: Result<Pair, Refusal>) {
    let pairs = pairs(rt, alloc, count);
    let line = with_part(
        rt,
        alloc,
        (r#"["op",[2,1],"#, r#",[],0,["a",{}]]"#),
        pairs.as_str(),
    );
    is_read(rt, alloc, line.as_str(), want);
}

#[test]
fn operations_of_many_pairs(rt: HostRuntime) {
    is_read_with_pairs(&rt, rt.alloc(), MOST_PAIRS, Ok((2, 1)));
    is_read_with_pairs(&rt, rt.alloc(), MOST_PAIRS + 1, Err(Refusal::BadLine));
}

/// A line, and what is read from it.
type Row<'a> = (&'a str, Result<Pair, Refusal>);

/// Asserts what is read from each line.
fn are_read(rt: &impl Abort, alloc: Global, rows: &[Row]) {
    for (line, want) in rows {
        is_read(rt, alloc, line, *want);
    }
}

/// Asserts that none of these lines is an operation.
fn are_bad(rt: &impl Abort, alloc: Global, lines: &[&str]) {
    for line in lines {
        is_read(rt, alloc, line, Err(Refusal::BadLine));
    }
}

#[test]
fn lines_that_are_operations(rt: HostRuntime) {
    const ROWS: &[Row] = &[
        (
            r#"["op",[6,2],[[1,5]],[["m",0],["l","shopping"]],[3,1],["a","ham"]]"#,
            Ok((6, 2)),
        ),
        (r#"["op",[1,2],[],[["m",0]],"a",["i",1]]"#, Ok((1, 2))),
        (r#"["op",[9,2],[[1,7]],[["m",0]],"a",["d"]]"#, Ok((9, 2))),
        (r#"["op",[1,2],[],[["l",0]],1,["d"]]"#, Ok((1, 2))),
        (
            r#"["op",[4611686018427387904,2],[],[],0,["a",-9223372036854775808]]"#,
            Ok((4611686018427387904, 2)),
        ),
        (
            r#"["op",[1,1],[],[["m",0]],"\u00e9",["a","\ud83e\udd80"]]"#,
            Ok((1, 1)),
        ),
    ];
    are_read(&rt, rt.alloc(), ROWS);
}

#[test]
fn white_space_of_json_is_skipped(rt: HostRuntime) {
    const PARTS: &[&str] = &[
        r#" [ "op" ,["#,
        "\t",
        r#"1 , 2 ],[ ],"#,
        "\n",
        r#"[["m", 0]],"#,
        "\r",
        r#""a",["d" ] ]  "#,
    ];
    let line = joined(&rt, rt.alloc(), PARTS);
    is_read(&rt, rt.alloc(), line.as_str(), Ok((1, 2)));
}

#[test]
fn lines_that_are_no_operations(rt: HostRuntime) {
    const LINES: &[&str] = &[
        "",
        " ",
        "null",
        "[]",
        r#""op""#,
        r#"["op",[1,1],[],[],0,["a",{}]"#,
        r#"["op",[1,1],[],[],0,["d"]]]"#,
        r#"["op",[1,1],[],[],0,["d"]] 1"#,
        r#"["op",[1,1],[],[],0]"#,
        r#"["op",[1,1],[],[],0,["d"],0]"#,
        r#"["hello",[1,1],[],[],0,["d"]]"#,
        r#"{"op":[1,1]}"#,
    ];
    are_bad(&rt, rt.alloc(), LINES);
}

#[test]
fn parts_without_form(rt: HostRuntime) {
    const LINES: &[&str] = &[
        // The id.
        r#"["op",[1,0],[],[],0,["d"]]"#,
        r#"["op",[0,1],[],[],0,["d"]]"#,
        r#"["op",[1.0,1],[],[],0,["d"]]"#,
        r#"["op",[1e3,1],[],[],0,["d"]]"#,
        r#"["op",[-0,1],[],[],0,["d"]]"#,
        r#"["op",[-1,1],[],[],0,["d"]]"#,
        r#"["op",[4611686018427387905,1],[],[],0,["d"]]"#,
        r#"["op",[18446744073709551616,1],[],[],0,["d"]]"#,
        r#"["op",[1,4294967296],[],[],0,["d"]]"#,
        r#"["op",[1],[],[],0,["d"]]"#,
        r#"["op",[1,1,1],[],[],0,["d"]]"#,
        r#"["op",1,[],[],0,["d"]]"#,
        // The vector.
        r#"["op",[3,1],[[2,2],[1,2]],[],0,["d"]]"#,
        r#"["op",[3,1],{},[],0,["d"]]"#,
        // The texts.
        r#"["op",[1,1],[],[["m",0]],"\ud83e",["d"]]"#,
        r#"["op",[1,1],[],[["m",0]],"\udd80",["d"]]"#,
        r#"["op",[1,1],[],[["m",0]],"\ud83e\ud83e",["d"]]"#,
        r#"["op",[1,1],[],[["m",0]],"\x41",["d"]]"#,
    ];
    are_bad(&rt, rt.alloc(), LINES);
}

/// Asserts that the line with this part is no operation.
fn is_bad_with(rt: &impl Abort, alloc: Global, around: Around, part: &str) {
    let line = with_part(rt, alloc, around, part);
    is_read(rt, alloc, line.as_str(), Err(Refusal::BadLine));
}

/// A control character, unescaped in a text.
#[test]
fn texts_with_control_characters(rt: HostRuntime) {
    let text = (r#"["op",[1,1],[],[["m",0]],"a"#, r#"b",["d"]]"#);
    for part in ["\t", "\0", "\u{1f}", "\n"] {
        is_bad_with(&rt, rt.alloc(), text, part);
    }
}

/// White space that JSON doesn't allow.
#[test]
fn other_white_space(rt: HostRuntime) {
    let before = ("", r#"["op",[1,1],[],[],0,["d"]]"#);
    is_bad_with(&rt, rt.alloc(), before, "\u{c}");
    is_bad_with(&rt, rt.alloc(), before, "\u{feff}");
    let within = (r#"["op",[1,1],[],[],"#, r#"0,["d"]]"#);
    is_bad_with(&rt, rt.alloc(), within, "\u{a0}");
}

/// The bytes of a line with this key.
fn keyed(rt: &impl Abort, alloc: Global, key: &[u8]) -> Vec<u8> {
    let mut line = Vec::new(alloc);
    line.extend_from_slice(r#"["op",[1,1],[],[["m",0]],""#.as_bytes())
        .expect(rt, "memory");
    line.extend_from_slice(key).expect(rt, "memory");
    line.extend_from_slice(r#"",["d"]]"#.as_bytes())
        .expect(rt, "memory");
    line
}

/// A byte that is no character, half a character, half a surrogate pair, and a zero of two bytes.
#[test]
fn lines_that_are_no_text(rt: HostRuntime) {
    const KEYS: &[&[u8]] = &[b"\xffaa", b"a\xc3a", b"\xed\xa0\xbe", b"a\xc0\x80"];
    for key in KEYS {
        let line = keyed(&rt, rt.alloc(), key);
        assert_eq!(rt;
            read(rt.alloc(), line.as_slice()),
            Err(Refusal::BadLine),
            "{key:?}"
        );
    }
}

#[test]
fn places_without_form(rt: HostRuntime) {
    const LINES: &[&str] = &[
        r#"["op",[1,1],[],[],"a",["d"]]"#,
        r#"["op",[1,1],[],[],1,["d"]]"#,
        r#"["op",[1,1],[],[],2,["d"]]"#,
        r#"["op",[1,1],[],[],[1,1],["d"]]"#,
        r#"["op",[1,1],[],[["m",0]],0,["d"]]"#,
        r#"["op",[1,1],[],[["m",0]],1,["d"]]"#,
        r#"["op",[1,1],[],[["m",0]],[1,1],["d"]]"#,
        r#"["op",[1,1],[],[["l",0]],"a",["d"]]"#,
        r#"["op",[1,1],[],[["m",1]],"a",["d"]]"#,
        r#"["op",[1,1],[],[["m","a"]],"a",["d"]]"#,
        r#"["op",[1,1],[],[["l",0],["l",1]],1,["d"]]"#,
        r#"["op",[1,1],[],[["m",0],["l",0]],1,["d"]]"#,
        r#"["op",[1,1],[],[["l",0],["m","a"]],"b",["d"]]"#,
        r#"["op",[1,1],[],[["x",0]],"a",["d"]]"#,
        r#"["op",[1,1],[],[["m"]],"a",["d"]]"#,
        r#"["op",[1,1],[],[["m",0,0]],"a",["d"]]"#,
        r#"["op",[1,1],[],[[0,"m"]],"a",["d"]]"#,
        r#"["op",[1,1],[],[["m",0.0]],"a",["d"]]"#,
        r#"["op",[1,1],[],[["m",-0]],"a",["d"]]"#,
        r#"["op",[1,1],[],[["m",0]],null,["d"]]"#,
        r#"["op",[1,1],[],[["m",0]],{},["d"]]"#,
        r#"["op",[1,1],[],[["l",0]],[0,1],["d"]]"#,
        r#"["op",[1,1],[],{},0,["d"]]"#,
    ];
    are_bad(&rt, rt.alloc(), LINES);
}

/// What an operation does, and why no operation is read from its line.
const MUTATIONS: &[(&str, Refusal)] = &[
    (r#"["a",1.5]"#, Refusal::NotWhole),
    (r#"["a",1.0]"#, Refusal::NotWhole),
    (r#"["i",1e3]"#, Refusal::NotWhole),
    (r#"["i",-0]"#, Refusal::NotWhole),
    (r#"["a",9223372036854775808]"#, Refusal::NotWhole),
    (r#"["a",[1]]"#, Refusal::BadLine),
    (r#"["i",-9223372036854775809]"#, Refusal::NotWhole),
    (r#"["a",18446744073709551616]"#, Refusal::NotWhole),
    (r#"["a",1e309]"#, Refusal::BadLine),
    (r#"["a",01]"#, Refusal::BadLine),
    (r#"["a",{"k":1,"k":2}]"#, Refusal::BadLine),
    (r#"{"a":1,"a":2}"#, Refusal::BadLine),
    (r#"["a"]"#, Refusal::BadLine),
    (r#"["a",1,2]"#, Refusal::BadLine),
    (r#"["d",1]"#, Refusal::BadLine),
    (r#"["x",1]"#, Refusal::BadLine),
    (r#"[]"#, Refusal::BadLine),
    (r#""d""#, Refusal::BadLine),
    (r#"[1]"#, Refusal::BadLine),
];

/// Asserts that no operation is read from a line with this mutation, for this reason.
fn is_no_mutation(rt: &impl Abort, alloc: Global, does: &str, why: Refusal) {
    let line = with_part(rt, alloc, (r#"["op",[1,1],[],[["m",0]],"a","#, "]"), does);
    is_read(rt, alloc, line.as_str(), Err(why));
}

#[test]
fn mutations_without_form(rt: HostRuntime) {
    for (does, why) in MUTATIONS {
        is_no_mutation(&rt, rt.alloc(), does, *why);
    }
}

/// A line can't know who is a member.
#[test]
fn operations_of_any_replica(rt: HostRuntime) {
    const ROWS: &[Row] = &[
        (r#"["op",[1,3],[],[],0,["d"]]"#, Ok((1, 3))),
        (
            r#"["op",[1,4294967295],[],[],0,["d"]]"#,
            Ok((1, 4294967295)),
        ),
        (r#"["op",[2,1],[[3,1],[7,1]],[],0,["a",{}]]"#, Ok((2, 1))),
        (
            r#"["op",[2,1],[[2,1]],[["l",0]],[1,3],["a",1]]"#,
            Ok((2, 1)),
        ),
    ];
    are_read(&rt, rt.alloc(), ROWS);
}

/// Lines that are read, and the faults that their operations have by themselves.
const ALONE: &[(&str, Result<(), Refusal>)] = &[
    (r#"["op",[1,1],[],[],0,["a",{}]]"#, Ok(())),
    (
        r#"["op",[1,2],[],[["m",0]],"a",["i",1]]"#,
        Err(Refusal::NotInList),
    ),
    (
        r#"["op",[9,2],[[1,7]],[["m",0]],"a",["d"]]"#,
        Err(Refusal::BadCounter),
    ),
    (
        r#"["op",[1,2],[],[["l",0]],1,["d"]]"#,
        Err(Refusal::BadPlace),
    ),
    (r#"["op",[1,3],[],[],0,["d"]]"#, Ok(())),
];

/// Asserts what `check_alone` answers about the operation of the line.
fn is_answered(rt: &impl Abort, alloc: Global, line: &str, want: Result<(), Refusal>) {
    let op = read_op(alloc, line.as_bytes()).expect(rt, "an operation");
    assert_eq!(rt; check_alone(&op), want, "{line}");
}

/// What is read, but refused later: by itself for what it says, or against a history.
#[test]
fn operations_that_are_read_and_refused_alone(rt: HostRuntime) {
    for (line, want) in ALONE {
        is_answered(&rt, rt.alloc(), line, *want);
    }
}

/// What surrounds a part, the part, how many times it is repeated, and what is read from the line.
type Long<'a> = (Around<'a>, &'a str, usize, Result<Pair, Refusal>);

const PATH: Around = (r#"["op",[1,1],[],[["m",0]"#, r#"],"a",["d"]]"#);

const KEY: Around = (r#"["op",[1,1],[],[["m",0]],""#, r#"",["d"]]"#);

const TEXT: Around = (r#"["op",[1,1],[],[],0,["a",""#, r#""]]"#);

const LONG: &[Long] = &[
    (PATH, r#",["m","k"]"#, 31, Ok((1, 1))),
    (PATH, r#",["m","k"]"#, 32, Err(Refusal::TooDeep)),
    (KEY, "k", 256, Ok((1, 1))),
    (KEY, "k", 257, Err(Refusal::KeyTooLong)),
    (TEXT, "t", 4096, Ok((1, 1))),
    (TEXT, "t", 4097, Err(Refusal::TextTooLong)),
];

/// Lines with two faults, the first of which decides: of the vector, the path, the last key and the mutation.
const TWO_FAULTS: &[Long] = &[
    (
        (r#"["op",[1,1],[[2,1],[1,1]],[["m",0]"#, r#"],"a",["d"]]"#),
        r#",["m","k"]"#,
        32,
        Err(Refusal::BadLine),
    ),
    (
        (r#"["op",[1,1],[],[["m",0]"#, r#"],"a",["a",1.5]]"#),
        r#",["m","k"]"#,
        32,
        Err(Refusal::TooDeep),
    ),
    (
        (r#"["op",[1,1],[],[["m",0]],""#, r#"",["a",1.5]]"#),
        "k",
        257,
        Err(Refusal::KeyTooLong),
    ),
    // Faults of the keys come before how they fit together.
    (
        (r#"["op",[1,1],[],[["m",1]],""#, r#"",["a",1.5]]"#),
        "k",
        257,
        Err(Refusal::KeyTooLong),
    ),
    (
        (r#"["op",[1,1],[],[["l",0]],"#, r#",["a",1.5]]"#),
        r#""k""#,
        1,
        Err(Refusal::BadLine),
    ),
];

/// Asserts what is read from the line of a row.
fn is_long(rt: &impl Abort, alloc: Global, row: &Long) {
    let (around, part, times, want) = *row;
    let parts = part.repeat(alloc, times).expect(rt, "memory");
    let line = with_part(rt, alloc, around, parts.as_str());
    is_read(rt, alloc, line.as_str(), want);
}

#[test]
fn lengths_are_limited(rt: HostRuntime) {
    for row in LONG {
        is_long(&rt, rt.alloc(), row);
    }
}

#[test]
fn the_first_fault_decides(rt: HostRuntime) {
    for row in TWO_FAULTS {
        is_long(&rt, rt.alloc(), row);
    }
}

/// This many lists within one another.
fn nested(rt: &impl Abort, alloc: Global, times: usize) -> String {
    let open = "[".repeat(alloc, times).expect(rt, "memory");
    let close = "]".repeat(alloc, times).expect(rt, "memory");
    joined(rt, alloc, &[open.as_str(), close.as_str()])
}

/// Asserts why a line is refused whose path has too many parts, and whose value is this many lists within one another.
fn is_nested(rt: &impl Abort, alloc: Global, times: usize, why: Refusal) {
    let parts = r#",0"#.repeat(alloc, 32).expect(rt, "memory");
    let lists = nested(rt, alloc, times);
    let line = joined(
        rt,
        alloc,
        &[
            r#"["op",[1,1],[],[0"#,
            parts.as_str(),
            r#"],0,["a","#,
            lists.as_str(),
            "]]",
        ],
    );
    is_read(rt, alloc, line.as_str(), Err(why));
}

/// That the path is too long is reported only if the text is JSON: with 125 lists inside the mutation's and the line's.
#[test]
fn nesting_is_limited(rt: HostRuntime) {
    is_nested(&rt, rt.alloc(), 125, Refusal::TooDeep);
    is_nested(&rt, rt.alloc(), 126, Refusal::BadLine);
    is_nested(&rt, rt.alloc(), 1000, Refusal::BadLine);
}
