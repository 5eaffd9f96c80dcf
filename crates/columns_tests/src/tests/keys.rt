//! Keys in byte order, and how many keys a search compares.

use super::*;
use std::alloc::Global;
use std::process::Abort;
use value::Key;

/// The most probes that a search may start from.
const BEFORE: u64 = 18_446_744_073_709_551_550;

/// Puts a key that isn't there yet.
fn put(rt: &impl Abort, alloc: Global, keys: &mut SortedKeys, text: &str) {
    keys.reserve_one().expect(rt, "memory");
    let key = Key::new(alloc, text).expect(rt, "a key");
    match keys.find_with_hint(&key, 0, &mut 0) {
        Ok(_) => panic!(rt; "a key that is there"),
        Err(position) => {
            keys.put(position, key);
        }
    }
}

/// These keys, put in this order.
fn keys_of(rt: &impl Abort, alloc: Global, texts: &[&str]) -> SortedKeys {
    let mut keys = SortedKeys::new(alloc);
    for text in texts {
        put(rt, alloc, &mut keys, text);
    }
    keys
}

/// Puts a number of four digits as a key.
fn put_number(rt: &impl Abort, alloc: Global, keys: &mut SortedKeys, number: usize) {
    let text = format!(in alloc; "{number:04}").expect(rt, "memory");
    put(rt, alloc, keys, text.as_str())
}

/// This many keys, each a number of four digits.
fn numbered(rt: &impl Abort, alloc: Global, count: usize) -> SortedKeys {
    let mut keys = SortedKeys::new(alloc);
    for number in 0..count {
        put_number(rt, alloc, &mut keys, number);
    }
    keys
}

/// How many keys a search compares that looks here first.
fn probes_for(rt: &impl Abort, alloc: Global, keys: &SortedKeys, text: &str, hint: usize) -> u64 {
    let key = Key::new(alloc, text).expect(rt, "a key");
    let mut probes = BEFORE;
    let _ = keys.find_with_hint(&key, hint, &mut probes);
    probes - BEFORE
}

/// Asserts the keys in order, each with how many were put before it.
fn assert_keys(rt: &impl Abort, keys: &SortedKeys, want: &[(&str, usize)]) {
    assert_eq!(rt; keys.len(), want.len());
    for (position, row) in want.iter().enumerate() {
        let (key, number) = keys.at(position);
        assert_eq!(rt; (key.as_str(), number), *row, "at {position}");
        assert_eq!(rt; keys.number(position), number, "at {position}");
    }
}

/// Asserts that a search gives the same answer wherever it begins to look.
fn assert_any_hint(rt: &impl Abort, keys: &SortedKeys, key: &Key, want: Result<usize, usize>) {
    for hint in 0..9 {
        assert_eq!(rt; keys.find_with_hint(key, hint, &mut 0), want, "hint {hint}");
    }
}

/// Asserts the position of each key, or where it would be inserted.
fn assert_found(
    rt: &impl Abort,
    alloc: Global,
    keys: &SortedKeys,
    rows: &[(&str, Result<usize, usize>)],
) {
    for (text, want) in rows {
        let key = Key::new(alloc, text).expect(rt, "a key");
        assert_any_hint(rt, keys, &key, *want);
    }
}

/// Asserts that a search for each text, starting here, compares at most this many keys.
fn assert_few_probes(
    rt: &impl Abort,
    alloc: Global,
    keys: &SortedKeys,
    hint: usize,
    most: u64,
    texts: &[&str],
) {
    for text in texts {
        let probes = probes_for(rt, alloc, keys, text, hint);
        assert!(rt;
            probes <= most,
            "{probes} for {text} from {hint}, not {most}"
        );
    }
}

/// Asserts that each search among `count` keys compares at most `most`, wherever it looks first.
fn assert_most_probes(rt: &impl Abort, alloc: Global, count: usize, most: u64) {
    let keys = numbered(rt, alloc, count);
    assert_eq!(rt; keys.len(), count);
    for hint in [0, 1, 126, 127, 128, 254, 255, 256] {
        assert_few_probes(
            rt,
            alloc,
            &keys,
            hint,
            most,
            &["", "0000", "0127", "0127x", "0128", "0254", "0255", "9"],
        );
    }
}

/// Asserts how many keys each search among 255 compares, starting at this one.
fn assert_probes(rt: &impl Abort, alloc: Global, hint: usize, rows: &[(&str, u64)]) {
    let keys = numbered(rt, alloc, 255);
    for (text, want) in rows {
        assert_eq!(rt;
            probes_for(rt, alloc, &keys, text, hint),
            *want,
            "{text} from {hint}"
        );
    }
}

#[test]
fn keys_stand_in_byte_order(rt: HostRuntime) {
    let keys = keys_of(&rt, rt.alloc(), &["b", "", "ä", "B", "ba"]);
    assert_keys(
        &rt,
        &keys,
        &[("", 1), ("B", 3), ("b", 0), ("ba", 4), ("ä", 2)],
    );
    assert_found(
        &rt,
        rt.alloc(),
        &keys,
        &[
            ("", Ok(0)),
            ("A", Err(1)),
            ("B", Ok(1)),
            ("a", Err(2)),
            ("b", Ok(2)),
            ("ba", Ok(3)),
            ("bb", Err(4)),
            ("ä", Ok(4)),
            ("ö", Err(5)),
        ],
    )
}

/// Keys that share their first eight bytes, or have no others, are distinguished by what follows, and by their lengths.
#[test]
fn keys_with_one_beginning_stand_in_byte_order(rt: HostRuntime) {
    let keys = keys_of(
        &rt,
        rt.alloc(),
        &[
            "12345678b",
            "12345678",
            "a\0",
            "12345678a",
            "a",
            "1234567",
            "12345678a\0",
        ],
    );
    assert_keys(
        &rt,
        &keys,
        &[
            ("1234567", 5),
            ("12345678", 1),
            ("12345678a", 3),
            ("12345678a\0", 6),
            ("12345678b", 0),
            ("a", 4),
            ("a\0", 2),
        ],
    );
    assert_found(
        &rt,
        rt.alloc(),
        &keys,
        &[
            ("1234567\0", Err(1)),
            ("12345678", Ok(1)),
            ("12345678\0", Err(2)),
            ("12345678b", Ok(4)),
            ("12345678c", Err(5)),
            ("a\0", Ok(6)),
            ("a\0\0", Err(7)),
        ],
    )
}

/// At most the number of binary digits of the number of keys, and one more.
#[test]
fn searches_look_at_few_keys(rt: HostRuntime) {
    for (count, most) in [(0, 0), (1, 2), (2, 3), (3, 3), (255, 9), (256, 10)] {
        assert_most_probes(&rt, rt.alloc(), count, most);
    }
}

/// Of 255 keys, at most 127 may be on either side of the second one that is looked at, then 63, then 31, and so on. So after 0127 the next
/// one is looked at right away, and after 0064 first 0127.
#[test]
fn searches_look_at_the_hint_and_then_near_it(rt: HostRuntime) {
    assert_probes(
        &rt,
        rt.alloc(),
        127,
        &[("0127", 1), ("0127x", 2), ("0128", 2), ("0254", 9)],
    );
    assert_probes(
        &rt,
        rt.alloc(),
        64,
        &[("0064", 1), ("0127", 2), ("0064x", 3), ("0065", 3)],
    )
}
