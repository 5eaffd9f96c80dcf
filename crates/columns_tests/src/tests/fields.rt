//! The fields of a map.

use super::*;
use std::alloc::Global;
use std::process::Abort;
use value::Key;

/// Puts a field that isn't there yet.
fn put(rt: &impl Abort, alloc: Global, fields: &mut Fields, text: &str, number: usize) {
    fields.reserve_one().expect(rt, "memory");
    let key = Key::new(alloc, text).expect(rt, "a key");
    if fields.get(&key).is_some() {
        panic!(rt; "a field that is there");
    }
    fields.put(key, number);
}

/// These fields, put in this order.
fn fields_of(rt: &impl Abort, alloc: Global, rows: &[(&str, usize)]) -> Fields {
    let mut fields = Fields::new(alloc);
    for (text, number) in rows {
        put(rt, alloc, &mut fields, text, *number);
    }
    fields
}

/// Asserts the fields, in order.
fn assert_fields(rt: &impl Abort, fields: &Fields, want: &[(&str, usize)]) {
    assert_eq!(rt; fields.len(), want.len());
    for (position, row) in want.iter().enumerate() {
        let (key, number) = fields.at(position);
        assert_eq!(rt; (key.as_str(), number), *row, "at {position}");
    }
}

/// Asserts the number of each key.
fn assert_got(rt: &impl Abort, alloc: Global, fields: &Fields, rows: &[(&str, Option<usize>)]) {
    for (text, want) in rows {
        let key = Key::new(alloc, text).expect(rt, "a key");
        assert_eq!(rt; fields.get(&key), *want, "of {text}");
    }
}

#[test]
fn fields_rise_by_key(rt: HostRuntime) {
    assert_eq!(rt; Fields::new(rt.alloc()).len(), 0);
    let fields = fields_of(
        &rt,
        rt.alloc(),
        &[("b", 3), ("", 4), ("ä", 1), ("B", 2), ("ba", 5)],
    );
    assert_fields(
        &rt,
        &fields,
        &[("", 4), ("B", 2), ("b", 3), ("ba", 5), ("ä", 1)],
    );
    assert_got(
        &rt,
        rt.alloc(),
        &fields,
        &[
            ("", Some(4)),
            ("A", None),
            ("B", Some(2)),
            ("a", None),
            ("b", Some(3)),
            ("ba", Some(5)),
            ("bb", None),
            ("ä", Some(1)),
            ("ö", None),
        ],
    )
}
