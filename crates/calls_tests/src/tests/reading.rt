//! Lines, and what they call for. A line of `jdoc serve` has no line feed in it, so no talk of `tests/scripts` can say those that have one.

use super::showing::shown;
use calls::read_call;
use ids::Refusal;
use std::alloc::Global;
use std::process::Abort;

/// A line, and the text of its call.
type Row = (&'static str, &'static str);

/// White space wherever JSON allows it, and letters escaped by their numbers.
const OTHERWISE_WRITTEN: &[Row] = &[
    (" [ \"assign\" , [ \"a\" ] ,\t\"x\" ]\r", "assign /a text x"),
    ("\n[\"hello\"\n]\n", "hello"),
    (r#"["\u0068ello"]"#, "hello"),
    (r#"["values",["\u00e9\/\ud83d\ude00"]]"#, "values /é/😀"),
    (r#"["answer","\u005b\u005d"]"#, "answer []"),
    (r#"["receive","\u0000"]"#, "receive \0"),
];

#[test]
fn white_space_and_escapes(rt: HostRuntime) {
    for row in OTHERWISE_WRITTEN {
        calls_for(&rt, rt.alloc(), row);
    }
    let cut = read_call(rt.alloc(), b"[\"answer\",\"\n\"]").err();
    assert_eq!(rt; cut, Some(Refusal::BadLine));
}

/// Asserts that the line calls for what its row says.
fn calls_for(rt: &impl Abort, alloc: Global, row: &Row) {
    let (line, want) = *row;
    let call = read_call(alloc, line.as_bytes()).expect(rt, "a call");
    let text = shown(alloc, &call).expect(rt, "memory");
    assert_eq!(rt; text.as_str(), want);
}
