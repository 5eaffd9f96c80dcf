//! A line in the form in which it would be written is read directly, and any other as JSON, such as the same line after a space. Both ways
//! give the same.

use super::LINES;
use std::alloc::{AllocError, Global};
use std::process::Abort;
use wire::read_op;

/// Lines at the limits, beyond them, and in other forms.
const OTHERS: &[&str] = &[
    r#"["op",[1,1],[],[["m",0]],"a",["a","\"\\\/\n\t\r\b\f"]]"#,
    r#"["op",[1,1],[],[["m",0]],"a\"b",["a","c"]]"#,
    r#"["op",[1,1],[],[["m",0],["m","\\"]],"\\\"",["a","\b\f\n\r\t\"\\"]]"#,
    r#"["op",[1,1],[],[["m",0]],"a",["a","\u000b\n"]]"#,
    r#"["op",[1,1],[],[["m",0]],"a",["a","b\x"]]"#,
    r#"["op",[9,2],[[1,7],[2,8]],[["m",0],["m",""],["l","é"],["l",[3,1]]],[4,2],["a","\n🦀"]]"#,
    r#"["op",[1,1],[],[["l",0]],1,["i",-9223372036854775808]]"#,
    r#"["op",[1,1],[],[["l",0]],1,["i",-9223372036854775809]]"#,
    r#"["op",[1,1],[],[["l",0]],1,["i",9223372036854775807]]"#,
    r#"["op",[1,1],[],[["l",0]],1,["i",9223372036854775808]]"#,
    r#"["op",[1,1],[],[["m",0],["m",0]],"a",["a",-0]]"#,
    r#"["op",[1,1],[],[["m",0],["m",1]],"a",["a",-12]]"#,
    r#"["op",[1,1],[],[["m",1]],"a",["a",true]]"#,
    r#"["op",[1,1],[],[["m",0]],"a",["a",false]]"#,
    r#"["op",[1,1],[],[],0,["a",null]]"#,
    r#"["op",[1,1],[],[],1,["d"]]"#,
    r#"["op",[1,1],[],[["m",0]],"a",["a",1.5]]"#,
    r#"["op",[1,1],[],[["m",0]],"a",["a","\u0061"]]"#,
    r#"["op",[1,1],[],[["m",0]],"a",["a",[1]]]"#,
    r#"["op",[1,1],[[2,8],[1,7]],[],0,["d"]]"#,
    r#"["op",[1,1],[[1,7],[1,7]],[],0,["d"]]"#,
    r#"["op",[1,1],[[1,7],[2,8],[3,9]],[],0,["d"]]"#,
    r#"["op",[1,1],[[1,0]],[],0,["d"]]"#,
    r#"["op",[4611686018427387904,1],[[2,4611686018427387904]],[["l",0]],[4611686018427387904,2],["d"]]"#,
    r#"["op",[4611686018427387905,1],[],[],0,["d"]]"#,
    r#"["op",[1,1],[[2,4611686018427387905]],[],0,["d"]]"#,
    r#"["op",[1,1],[],[["l",0]],[4611686018427387905,2],["d"]]"#,
    r#"["op",[1,1],[],[["l",0]],[1,3],["d"]]"#,
    r#"["op",[1,4294967297],[],[],0,["d"]]"#,
    r#"["op",[18446744073709551617,1],[],[],0,["d"]]"#,
];

/// Of a line: what its keys and its text repeat, the hops to fields in its place, how many times each key and the text repeat it, and
/// whether it is an operation's. The values are about the limits of keys and texts; two lines, and the last two, are a little shorter and
/// a little longer than the longest that is read directly, 32,768 bytes.
const LONG: &[(&str, usize, usize, usize, bool)] = &[
    ("a", 0, 256, 4096, true),
    ("a", 0, 257, 1, false),
    ("a", 0, 1, 4097, false),
    ("a", 0, 1, 32_700, false),
    ("a", 0, 1, 32_800, false),
    (r#"\""#, 0, 256, 4096, true),
    (r#"\""#, 0, 257, 1, false),
    (r#"\""#, 0, 1, 4097, false),
    (r#"\""#, 30, 256, 1, true),
    (r#"\""#, 30, 256, 4096, true),
    (r"\u0001", 20, 256, 1, true),
    (r"\u0001", 21, 256, 1, true),
];

/// What replaces a byte of a line.
pub(super) const BYTES: [u8; 7] = *b"09\" ],\\";

/// The line, preceded by a space.
pub(super) fn spaced(alloc: Global, line: &[u8]) -> Result<Vec<u8>, AllocError> {
    let mut text = Vec::new(alloc);
    text.push(b' ')?;
    text.extend_from_slice(line)?;
    Ok(text)
}

/// The line with another byte at this index.
pub(super) fn changed(
    rt: &impl Abort,
    alloc: Global,
    line: &[u8],
    index: usize,
    byte: u8,
) -> Vec<u8> {
    let mut text = Vec::new(alloc);
    text.extend_from_slice(line).expect(rt, "memory");
    if let Some(place) = text.get_mut(index) {
        *place = byte;
    }
    text
}

/// The line of these measures.
fn long_line(
    rt: &impl Abort,
    alloc: Global,
    fill: &str,
    hops: usize,
    key: usize,
    text: usize,
) -> Vec<u8> {
    let mut line = Vec::new(alloc);
    line.extend_from_slice(br#"["op",[1,1],[],[["m",0]"#)
        .expect(rt, "memory");
    for _ in 0..hops {
        line.extend_from_slice(br#",["m",""#).expect(rt, "memory");
        push_times(rt, &mut line, fill, key);
        line.extend_from_slice(br#""]"#).expect(rt, "memory");
    }
    line.extend_from_slice(br#"],""#).expect(rt, "memory");
    push_times(rt, &mut line, fill, key);
    line.extend_from_slice(br#"",["a",""#).expect(rt, "memory");
    push_times(rt, &mut line, fill, text);
    line.extend_from_slice(br#""]]"#).expect(rt, "memory");
    line
}

fn push_times(rt: &impl Abort, line: &mut Vec<u8>, fill: &str, count: usize) {
    for _ in 0..count {
        line.extend_from_slice(fill.as_bytes()).expect(rt, "memory");
    }
}

/// Asserts that the line is read as it is when preceded by a space.
fn is_read_alike(rt: &impl Abort, alloc: Global, line: &[u8]) {
    let spaced = spaced(alloc, line).expect(rt, "not refused");
    match (read_op(alloc, line), read_op(alloc, spaced.as_slice())) {
        (Ok(op), Ok(other)) => assert!(rt; *op == *other),
        (Err(why), Err(other)) => assert_eq!(rt; why, other),
        _ => panic!(rt; "a space in front changes what is read"),
    }
}

/// Asserts this of the line, of each prefix of it, and of the line with one byte changed.
fn are_read_alike(rt: &impl Abort, alloc: Global, line: &[u8]) {
    for index in 0..line.len() {
        is_read_alike(rt, alloc, &line[..index]);
        for byte in BYTES {
            let other = changed(rt, alloc, line, index, byte);
            is_read_alike(rt, alloc, other.as_slice());
        }
    }
    is_read_alike(rt, alloc, line)
}

#[test]
fn a_space_in_front_changes_nothing(rt: HostRuntime) {
    for line in LINES {
        are_read_alike(&rt, rt.alloc(), line.as_bytes());
    }
    for line in OTHERS {
        are_read_alike(&rt, rt.alloc(), line.as_bytes());
    }
}

#[test]
fn a_space_in_front_changes_nothing_at_the_limits(rt: HostRuntime) {
    for (fill, hops, key, text, is_lawful) in LONG {
        let line = long_line(&rt, rt.alloc(), fill, *hops, *key, *text);
        assert_eq!(rt; read_op(rt.alloc(), line.as_slice()).is_ok(), *is_lawful);
        is_read_alike(&rt, rt.alloc(), line.as_slice());
    }
}
