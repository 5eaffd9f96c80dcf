//! The flags of a map's fields, on each side of the borders of rings.

use super::*;
use std::alloc::Global;
use std::process::Abort;
use value::Key;

/// Puts a field whose key is a number of four digits.
fn put(rt: &impl Abort, alloc: Global, fields: &mut Fields, number: usize) {
    fields.reserve_one().expect(rt, "memory");
    let text = format!(in alloc; "{number:04}").expect(rt, "memory");
    let key = Key::new(alloc, text.as_str()).expect(rt, "a key");
    if fields.get(&key).is_some() {
        panic!(rt; "a field that is there");
    }
    fields.put(key, number);
}

/// This many fields. Those of even numbers come first, and then the others go in between them.
fn fields_of(rt: &impl Abort, alloc: Global, count: usize) -> Fields {
    let mut fields = Fields::new(alloc);
    for half in 0..count.div_ceil(2) {
        put(rt, alloc, &mut fields, half * 2);
    }
    for half in 0..count / 2 {
        put(rt, alloc, &mut fields, half * 2 + 1);
    }
    fields
}

/// Sets the flags at these positions, as far as there are fields.
fn set_flags(fields: &mut Fields, positions: &[usize], flag: bool) {
    for position in positions {
        if *position < fields.len() {
            fields.set_flag(*position, flag);
        }
    }
}

/// The first of these ascending positions from this one on, or the number of fields if none of them has a field.
fn first_from(positions: &[usize], from: usize, count: usize) -> usize {
    for position in positions {
        if *position >= from {
            return count.min(*position);
        }
    }
    count
}

/// The positions at the borders of the first two rings, and of what is after them.
const BORDERS: &[usize] = &[0, 1, 2046, 2047, 2048, 2049, 4095, 4096, 4097, 4099];

/// Asserts that flags are raised at these positions alone, as seen from the borders.
fn assert_raised(rt: &impl Abort, fields: &Fields, raised: &[usize]) {
    let count = fields.len();
    for from in BORDERS {
        if *from <= count {
            let want = first_from(raised, *from, count);
            assert_eq!(rt; fields.next_flagged(*from), want, "from {from} of {count}");
        }
    }
}

/// Raises flags at the borders one by one, at all of them, and at none.
fn assert_borders(rt: &impl Abort, alloc: Global, count: usize) {
    let mut fields = fields_of(rt, alloc, count);
    assert_eq!(rt; fields.len(), count);
    assert_raised(rt, &fields, &[]);
    for position in BORDERS {
        let one = &[*position];
        set_flags(&mut fields, one, true);
        assert_raised(rt, &fields, one);
        set_flags(&mut fields, one, false);
    }
    set_flags(&mut fields, BORDERS, true);
    assert_raised(rt, &fields, BORDERS);
    set_flags(&mut fields, BORDERS, false);
    assert_raised(rt, &fields, &[]);
}

#[test]
fn flags_are_found_on_each_side_of_a_border(rt: HostRuntime) {
    for count in [0, 1, 2, 2047, 2048, 2049, 4096, 4100] {
        assert_borders(&rt, rt.alloc(), count);
    }
}

/// The fields of even numbers below 8,200, so that four digits are enough for those between them.
fn even_fields(rt: &impl Abort, alloc: Global) -> Fields {
    let mut fields = Fields::new(alloc);
    for half in 0..4100 {
        put(rt, alloc, &mut fields, half * 2);
    }
    fields
}

#[test]
fn flags_move_with_their_fields(rt: HostRuntime) {
    let mut fields = even_fields(&rt, rt.alloc());
    set_flags(&mut fields, &[1, 2046, 4095, 4099], true);
    // A field is inserted between 2 and 4, one between 5,000 and 5,002, and one after all: their flags are lowered.
    put(&rt, rt.alloc(), &mut fields, 3);
    assert_raised(&rt, &fields, &[1, 2047, 4096, 4100]);
    put(&rt, rt.alloc(), &mut fields, 5001);
    assert_raised(&rt, &fields, &[1, 2047, 4097, 4101]);
    put(&rt, rt.alloc(), &mut fields, 9999);
    assert_raised(&rt, &fields, &[1, 2047, 4097, 4101]);
}

/// Asserts the position and the number of a field.
fn assert_located(
    rt: &impl Abort,
    alloc: Global,
    fields: &Fields,
    number: usize,
    want: Option<(usize, usize)>,
) {
    let text = format!(in alloc; "{number:04}").expect(rt, "memory");
    let key = Key::new(alloc, text.as_str()).expect(rt, "a key");
    assert_eq!(rt; fields.locate(&key), want, "of {number}");
}

#[test]
fn fields_are_located_by_their_keys(rt: HostRuntime) {
    let fields = even_fields(&rt, rt.alloc());
    for (number, want) in [
        (0, Some((0, 0))),
        (1, None),
        (4094, Some((2047, 4094))),
        (4096, Some((2048, 4096))),
        (8198, Some((4099, 8198))),
        (9999, None),
    ] {
        assert_located(&rt, rt.alloc(), &fields, number, want);
    }
}
