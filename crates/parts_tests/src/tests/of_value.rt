//! The tests of `value`: keys and texts, and values that are read from JSON and written to it.

use ids::Refusal;
use serde_json::Value;
use std::alloc::{AllocError, Global};
use std::cmp::Ordering;
use std::process::Abort;
use value::{Key, Scalar, Text, Val};

fn repeated(alloc: Global, letter: &str, times: usize) -> Result<String, AllocError> {
    let mut text = String::new(alloc);
    for _ in 0..times {
        text.push_str(letter)?;
    }
    Ok(text)
}

/// How many times a letter is repeated, the letter, and how many bytes of the text are kept.
type Long = (usize, &'static str, Result<usize, Refusal>);

/// How many bytes a key of this text has.
fn key_len(alloc: Global, letter: &str, times: usize) -> Result<usize, Refusal> {
    let text = repeated(alloc, letter, times)?;
    let key = Key::new(alloc, text.as_str())?;
    Ok(key.as_str().len())
}

#[test]
fn keys_have_at_most_256_bytes(rt: HostRuntime) {
    const ROWS: &[Long] = &[
        (0, "k", Ok(0)),
        (255, "k", Ok(255)),
        (256, "k", Ok(256)),
        (257, "k", Err(Refusal::KeyTooLong)),
        (128, "é", Ok(256)),
        (129, "é", Err(Refusal::KeyTooLong)),
        (64, "🦀", Ok(256)),
        (65, "🦀", Err(Refusal::KeyTooLong)),
    ];
    for (times, letter, want) in ROWS {
        let length = key_len(rt.alloc(), letter, *times);
        assert_eq!(rt; length, *want, "{times} times {letter}");
    }
}

/// How two keys compare, by each method.
fn compared(
    rt: &impl Abort,
    alloc: Global,
    a: &str,
    b: &str,
) -> (Ordering, Option<Ordering>, bool) {
    let key = Key::new(alloc, a).expect(rt, "a key");
    let other = Key::new(alloc, b).expect(rt, "a key");
    (key.cmp(&other), key.partial_cmp(&other), key == other)
}

const RISING: &[&str] = &["", "Z", "a", "a0", "aa", "b", "z", "é"];

/// Asserts how two keys compare.
fn assert_compared(rt: &impl Abort, alloc: Global, a: &str, b: &str, want: Ordering) {
    let wanted = (want, Some(want), want == Ordering::Equal);
    assert_eq!(rt; compared(rt, alloc, a, b), wanted, "{a} and {b}");
}

/// Asserts how the key at an index compares with each one.
fn assert_index(rt: &impl Abort, alloc: Global, index: usize, key: &str) {
    for (other, text) in RISING.iter().enumerate() {
        assert_compared(rt, alloc, key, text, index.cmp(&other));
    }
}

#[test]
fn keys_rise_by_bytes(rt: HostRuntime) {
    for (index, key) in RISING.iter().enumerate() {
        assert_index(&rt, rt.alloc(), index, key);
    }
}

const TEXTS: &[Long] = &[
    (0, "t", Ok(0)),
    (4096, "t", Ok(4096)),
    (4097, "t", Err(Refusal::TextTooLong)),
    (2048, "é", Ok(4096)),
    (2049, "é", Err(Refusal::TextTooLong)),
    (1024, "🦀", Ok(4096)),
    (1025, "🦀", Err(Refusal::TextTooLong)),
];

/// How many bytes the text has.
fn text_len(alloc: Global, letter: &str, times: usize) -> Result<usize, Refusal> {
    let text = repeated(alloc, letter, times)?;
    let text = Text::new(alloc, text.as_str())?;
    Ok(text.as_str().len())
}

/// How many bytes the text has that is read from a string.
fn read_len(alloc: Global, letter: &str, times: usize) -> Result<usize, Refusal> {
    let json = Value::String(repeated(alloc, letter, times)?);
    match Val::from_json(alloc, &json)? {
        Val::Scalar(Scalar::Text(text)) => Ok(text.as_str().len()),
        _ => Err(Refusal::BadLine),
    }
}

#[test]
fn texts_have_at_most_4096_bytes(rt: HostRuntime) {
    for (times, letter, want) in TEXTS {
        let length = text_len(rt.alloc(), letter, *times);
        assert_eq!(rt; length, *want, "{times} times {letter}");
    }
}

#[test]
fn texts_of_json_have_at_most_4096_bytes(rt: HostRuntime) {
    for (times, letter, want) in TEXTS {
        let length = read_len(rt.alloc(), letter, *times);
        assert_eq!(rt; length, *want, "{times} times {letter}");
    }
}

/// A value.
#[derive(Clone, Copy)]
enum Is {
    Null,
    Bool(bool),
    Whole(i64),
    Text(&'static str),
    Map,
    List,
}

/// The value of a row.
fn val(alloc: Global, is: Is) -> Result<Val, Refusal> {
    match is {
        Is::Null => Ok(Val::Scalar(Scalar::Null)),
        Is::Bool(bool) => Ok(Val::Scalar(Scalar::Bool(bool))),
        Is::Whole(whole) => Ok(Val::Scalar(Scalar::Whole(whole))),
        Is::Text(text) => Val::text(alloc, text),
        Is::Map => Ok(Val::EmptyMap),
        Is::List => Ok(Val::EmptyList),
    }
}

/// What is read from a text of JSON.
fn read(rt: &impl Abort, alloc: Global, text: &str) -> Result<Val, Refusal> {
    let json = Value::from_str(alloc, text).expect(rt, "memory");
    Val::from_json(alloc, &json)
}

/// Asserts that this value is read from the text.
fn assert_read(rt: &impl Abort, alloc: Global, text: &str, is: Is) {
    let read = read(rt, alloc, text);
    let want = val(alloc, is);
    assert_eq!(rt; read, want, "{text}");
}

#[test]
fn values_are_read_from_json(rt: HostRuntime) {
    const ROWS: &[(&str, Is)] = &[
        ("null", Is::Null),
        ("true", Is::Bool(true)),
        ("false", Is::Bool(false)),
        ("0", Is::Whole(0)),
        ("-1", Is::Whole(-1)),
        ("9223372036854775807", Is::Whole(i64::MAX)),
        ("-9223372036854775808", Is::Whole(i64::MIN)),
        (r#""tête""#, Is::Text("tête")),
        ("{}", Is::Map),
        ("[]", Is::List),
    ];
    for (text, is) in ROWS {
        assert_read(&rt, rt.alloc(), text, *is);
    }
}

/// Why no value is read from a text of JSON.
fn refused(rt: &impl Abort, alloc: Global, text: &str) -> Option<Refusal> {
    let read = read(rt, alloc, text);
    read.err()
}

#[test]
fn json_that_is_no_value(rt: HostRuntime) {
    const ROWS: &[(&str, Refusal)] = &[
        ("9223372036854775808", Refusal::NotWhole),
        ("-9223372036854775809", Refusal::NotWhole),
        ("18446744073709551616", Refusal::NotWhole),
        ("1.5", Refusal::NotWhole),
        ("1.0", Refusal::NotWhole),
        ("-0", Refusal::NotWhole),
        ("1e3", Refusal::NotWhole),
        (r#"{"a":1}"#, Refusal::BadLine),
        ("[1]", Refusal::BadLine),
        ("[[]]", Refusal::BadLine),
    ];
    for (text, why) in ROWS {
        assert_eq!(rt; refused(&rt, rt.alloc(), text), Some(*why), "{text}");
    }
}

/// The value of a text of JSON.
fn value_of(rt: &impl Abort, alloc: Global, text: &str) -> Val {
    let json = Value::from_str(alloc, text).expect(rt, "memory");
    Val::from_json(alloc, &json).expect(rt, "not refused")
}

/// The value, printed as JSON.
fn printed(rt: &impl Abort, alloc: Global, value: &Val) -> String {
    let json = value.to_json(alloc).expect(rt, "not refused");
    json.to_string(alloc).expect(rt, "memory")
}

/// Asserts that the text's value is printed as the text, and read as the same value again.
fn assert_kept(rt: &impl Abort, alloc: Global, text: &str) {
    let value = value_of(rt, alloc, text);
    let printed = printed(rt, alloc, &value);
    assert_eq!(rt; printed.as_str(), text);
    let again = value_of(rt, alloc, printed.as_str());
    assert_eq!(rt; again, value, "{text}");
}

/// Asserts that a copy of the text's value is equal to it.
fn assert_copied(rt: &impl Abort, alloc: Global, text: &str) {
    let value = value_of(rt, alloc, text);
    let copy = value.clone().expect(rt, "memory");
    assert_eq!(rt; copy, value, "{text}");
}

#[test]
fn printed_values_are_read_again(rt: HostRuntime) {
    const PRINTED: &[&str] = &[
        "null",
        "true",
        "false",
        "0",
        "-1",
        "{}",
        "[]",
        "9223372036854775807",
        "-9223372036854775808",
        r#""""#,
        r#""tête \"à\" 🦀\n""#,
    ];
    for text in PRINTED {
        assert_kept(&rt, rt.alloc(), text);
        assert_copied(&rt, rt.alloc(), text);
    }
}
