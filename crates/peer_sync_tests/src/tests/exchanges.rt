//! Two engines that write concurrently, and exchange what they wrote, byte for byte.

use super::opening::on_two;
use super::playing::Side::{One, Two};
use super::playing::Turn::{Answer, Hello, Pull, Show, Write};
use super::playing::Writing::{Assign, Delete, Insert};
use super::playing::Wrote::{List, Map, Words};
use super::playing::{Row, Turn};
use super::showing::Shown::{Conflicts, Items, Keys, NoValues, Values};
use super::showing::To;
use super::showing::To::{Index, Key};
use super::*;
use cursor::Tag;

/// The capacity of each queue, which no test here fills.
const QUEUE: u32 = 65_536;

/// The hellos of engines that have the first operation of replica 1, and no more than the first two.
const FIRST: &str = r#"["hello",[[1,1]]]
"#;

const SECOND: &str = r#"["hello",[[1,2]]]
"#;

const KEY: &[To] = &[Key("key")];

const A: &str = r#"["op2",[1,1],[],[["m",0]],"key",["a","A"]]
"#;

const B: &str = r#"["op2",[2,1],[[1,1]],[["m",0]],"key",["a","B"]]
"#;

const C: &str = r#"["op2",[2,2],[[1,1]],[["m",0]],"key",["a","C"]]
"#;

/// Engine 1 writes at the key; once both have seen that, engine 1 and engine 2 write there concurrently, and exchange that.
const APART: &[Row] = &[
    (One, Write(Assign(KEY, Words("A")))),
    (Two, Pull(NEW, A)),
    (One, Pull(FIRST, "")),
    (One, Write(Assign(KEY, Words("B")))),
    (Two, Write(Assign(KEY, Words("C")))),
    (Two, Pull("[\"hello\",[[1,1],[2,2]]]\n", B)),
    (One, Pull(SECOND, C)),
];

#[test]
fn concurrent_values_stand_side_by_side(rt: HostRuntime) {
    const BOTH: Turn = Show(KEY, Values(&[((2, 1), "B"), ((2, 2), "C")]));
    const ALL: &str = r#"["hello",[[1,2],[2,2]]]
"#;
    const ACTS: &[&[Row]] = &[
        APART,
        &[
            (One, BOTH),
            (Two, BOTH),
            (One, Hello(ALL)),
            (Two, Hello(ALL)),
        ],
    ];
    on_two(&rt, rt.alloc(), QUEUE, ACTS)
}

#[test]
fn answers_leave_out_what_the_hello_covers(rt: HostRuntime) {
    // The history of engine 1 is A, B, C; that of engine 2 is A, C, B.
    const A_C_B: &str = r#"["op2",[1,1],[],[["m",0]],"key",["a","A"]]
["op2",[2,2],[[1,1]],[["m",0]],"key",["a","C"]]
["op2",[2,1],[],[["m",0]],"key",["a","B"]]
"#;
    const B_C: &str = r#"["op2",[2,1],[[1,1]],[["m",0]],"key",["a","B"]]
["op2",[2,2],[],[["m",0]],"key",["a","C"]]
"#;
    const ACTS: &[&[Row]] = &[
        APART,
        &[
            (One, Answer(NEW, Ok(THREE))),
            (Two, Answer(NEW, Ok(A_C_B))),
            (One, Answer(r#"["hello",[[1,2],[2,2]]]"#, Ok(""))),
            (One, Answer(r#"["hello",[[1,1]]]"#, Ok(B_C))),
            (One, Answer(FIRST, Ok(B_C))),
        ],
    ];
    on_two(&rt, rt.alloc(), QUEUE, ACTS)
}

#[test]
fn runs_of_concurrent_inserts_stay_together(rt: HostRuntime) {
    const L: &[To] = &[Key("l")];
    const HEAD: &[To] = &[Key("l"), Index(0)];
    const ONE: &[To] = &[Key("l"), Index(1)];
    const LIST_LINE: &str = r#"["op2",[1,1],[],[["m",0]],"l",["a",[]]]
"#;
    const X_Y: &str = r#"["op2",[2,1],[[1,1]],[["m",0],["l","l"]],1,["i","x"]]
["op2",[3,1],[[1,2]],[["m",0],["l","l"]],[2,1],["i","y"]]
"#;
    const A_B: &str = r#"["op2",[2,2],[[1,1]],[["m",0],["l","l"]],1,["i","a"]]
["op2",[3,2],[[2,2]],[["m",0],["l","l"]],[2,2],["i","b"]]
"#;
    const BOTH: Turn = Show(L, Items(&[(2, 2), (3, 2), (2, 1), (3, 1)]));
    const ACTS: &[&[Row]] = &[
        &[
            (One, Write(Assign(L, List))),
            (Two, Pull(NEW, LIST_LINE)),
            (One, Write(Insert(HEAD, Words("x")))),
            (One, Write(Insert(ONE, Words("y")))),
            (Two, Write(Insert(HEAD, Words("a")))),
            (Two, Write(Insert(ONE, Words("b")))),
        ],
        &[
            (One, Pull("[\"hello\",[[1,3]]]\n", A_B)),
            (Two, Pull("[\"hello\",[[1,1],[2,3]]]\n", X_Y)),
            (One, BOTH),
            (Two, BOTH),
        ],
    ];
    on_two(&rt, rt.alloc(), QUEUE, ACTS)
}

#[test]
fn what_is_written_beneath_a_deleted_map_stays(rt: HostRuntime) {
    const COLORS: &[To] = &[Key("colors")];
    const BLUE: &[To] = &[Key("colors"), Key("blue")];
    const GREEN: &[To] = &[Key("colors"), Key("green")];
    const MAP_AND_BLUE: &str = r##"["op2",[1,1],[],[["m",0]],"colors",["a",{}]]
["op2",[2,1],[[1,1]],[["m",0],["m","colors"]],"blue",["a","#00f"]]
"##;
    const DELETED: &str = r#"["op2",[3,1],[[1,2]],[["m",0]],"colors",["d"]]
"#;
    const GREEN_LINE: &str = r##"["op2",[3,2],[[1,2]],[["m",0],["m","colors"]],"green",["a","#0f0"]]
"##;
    const ROOT: Turn = Show(&[], Keys(&["colors"]));
    const FIELDS: Turn = Show(COLORS, Keys(&["green"]));
    const WRITTEN: Turn = Show(GREEN, Values(&[((3, 2), "#0f0")]));
    const STANDS: Turn = Show(COLORS, Conflicts(&[((3, 2), Tag::Map)]));
    const ACTS: &[&[Row]] = &[
        &[
            (One, Write(Assign(COLORS, Map))),
            (One, Write(Assign(BLUE, Words("#00f")))),
            (Two, Pull(NEW, MAP_AND_BLUE)),
            (One, Write(Delete(COLORS))),
            (Two, Write(Assign(GREEN, Words("#0f0")))),
            (Two, Pull("[\"hello\",[[1,2],[2,3]]]\n", DELETED)),
            (One, Pull("[\"hello\",[[1,3]]]\n", GREEN_LINE)),
        ],
        &[
            (One, ROOT),
            (One, FIELDS),
            (One, WRITTEN),
            (One, STANDS),
            (Two, ROOT),
            (Two, FIELDS),
            (Two, WRITTEN),
            (Two, STANDS),
        ],
    ];
    on_two(&rt, rt.alloc(), QUEUE, ACTS)
}

#[test]
fn a_map_and_a_list_stand_under_one_key(rt: HostRuntime) {
    const K: &[To] = &[Key("k")];
    const ROOT_LINE: &str = r#"["op2",[1,1],[],[],0,["a",{}]]
"#;
    const MAP_LINE: &str = r#"["op2",[2,1],[[1,1]],[["m",0]],"k",["a",{}]]
"#;
    const LIST_LINE: &str = r#"["op2",[2,2],[[1,1]],[["m",0]],"k",["a",[]]]
"#;
    const BOTH: Turn = Show(K, Conflicts(&[((2, 1), Tag::Map), ((2, 2), Tag::List)]));
    const ACTS: &[&[Row]] = &[
        &[
            (One, Write(Assign(&[], Map))),
            (Two, Pull(NEW, ROOT_LINE)),
            (One, Write(Assign(K, Map))),
            (Two, Write(Assign(K, List))),
            (Two, Pull("[\"hello\",[[1,1],[2,2]]]\n", MAP_LINE)),
            (One, Pull(SECOND, LIST_LINE)),
        ],
        &[(One, BOTH), (Two, BOTH)],
    ];
    on_two(&rt, rt.alloc(), QUEUE, ACTS)
}

#[test]
fn an_assign_fills_an_item_that_was_deleted_apart(rt: HostRuntime) {
    const LIST_AT: &[To] = &[Key("shopping")];
    const HEAD: &[To] = &[Key("shopping"), Index(0)];
    const ITEM: &[To] = &[Key("shopping"), Index(2)];
    const PAST: &[To] = &[Key("shopping"), Index(3)];
    const ALL: Turn = Show(LIST_AT, Items(&[(4, 1), (3, 1), (5, 1)]));
    const FILLED: Turn = Show(ITEM, Values(&[((6, 2), "ham")]));
    const ACTS: &[&[Row]] = &[
        &[
            (One, Write(Assign(&[], Map))),
            (One, Write(Assign(LIST_AT, List))),
            (One, Write(Insert(HEAD, Words("eggs")))),
            (One, Write(Insert(HEAD, Words("cheese")))),
            (One, Write(Insert(ITEM, Words("milk")))),
            (Two, Pull(NEW, FIVE)),
            (Two, ALL),
            (One, Write(Delete(ITEM))),
            (Two, Write(Assign(ITEM, Words("ham")))),
        ],
        &[
            (One, Show(LIST_AT, Items(&[(4, 1), (5, 1)]))),
            (One, Show(ITEM, Values(&[((5, 1), "milk")]))),
            (One, Show(PAST, NoValues(Refusal::PastEnd))),
            (One, Pull("[\"hello\",[[1,6]]]\n", HAM)),
            (Two, Pull("[\"hello\",[[1,5],[2,6]]]\n", DELETED)),
            (One, ALL),
            (Two, ALL),
            (One, FILLED),
            (Two, FILLED),
        ],
    ];
    on_two(&rt, rt.alloc(), QUEUE, ACTS)
}
