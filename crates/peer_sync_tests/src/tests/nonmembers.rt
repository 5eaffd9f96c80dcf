//! Nonmembers: engines that know only themselves, and how many other replicas there may be.

use super::opening::{Numbers, Opening, on_opened};
use super::playing::Side::{One, Two};
use super::playing::Told::{Kept, Refused};
use super::playing::Turn::{Answer, Dropped, Pull, Show, TakeFirst, TakeFirsts, Write};
use super::playing::Writing::Assign;
use super::playing::Wrote::Words;
use super::playing::{Row, Turn};
use super::showing::Shown::Values;
use super::showing::To;
use super::showing::To::Key;
use super::*;

/// Replica 2, which knows only itself.
const TWO: Numbers = Numbers {
    own: 2,
    members: &[2],
};

#[test]
fn engines_that_know_only_themselves(rt: HostRuntime) {
    const KEY: &[To] = &[Key("key")];
    const A: &str = r#"["op2",[1,1],[],[["m",0]],"key",["a","A"]]
"#;
    const B: &str = r#"["op2",[1,2],[],[["m",0]],"key",["a","B"]]
"#;
    const C: &str = r#"["op2",[2,1],[[1,1],[2,1]],[["m",0]],"key",["a","C"]]
"#;
    // The history of engine 2 is B, A, C.
    const B_A_C: &str = r#"["op2",[1,2],[],[["m",0]],"key",["a","B"]]
["op2",[1,1],[],[["m",0]],"key",["a","A"]]
["op2",[2,1],[[1,1],[2,1]],[["m",0]],"key",["a","C"]]
"#;
    const APART: Turn = Show(KEY, Values(&[((1, 1), "A"), ((1, 2), "B")]));
    const OVER: Turn = Show(KEY, Values(&[((2, 1), "C")]));
    const ACTS: &[&[Row]] = &[
        &[
            (One, Write(Assign(KEY, Words("A")))),
            (Two, Write(Assign(KEY, Words("B")))),
            (Two, Pull("[\"hello\",[[2,1]]]\n", A)),
            (One, Pull("[\"hello\",[[1,1]]]\n", B)),
            (One, APART),
            (Two, APART),
        ],
        &[
            (One, Write(Assign(KEY, Words("C")))),
            (Two, Pull("[\"hello\",[[1,1],[2,1]]]\n", C)),
            (Two, Pull("[\"hello\",[[1,2],[2,1]]]\n", "")),
            (One, Pull("[\"hello\",[[1,2],[2,1]]]\n", "")),
            (One, OVER),
            (Two, OVER),
            (Two, Answer(NEW, Ok(B_A_C))),
        ],
    ];
    const OPENING: Opening = Opening {
        one: Numbers {
            own: 1,
            members: &[1],
        },
        two: TWO,
        queue: 16,
    };
    on_opened(&rt, rt.alloc(), OPENING, ACTS)
}

/// Replica 1 and 63 others, as many as there may be.
const MOST_MEMBERS: &[u32] = &[
    1, 101, 102, 103, 104, 105, 106, 107, 108, 109, 110, 111, 112, 113, 114, 115, 116, 117, 118,
    119, 120, 121, 122, 123, 124, 125, 126, 127, 128, 129, 130, 131, 132, 133, 134, 135, 136, 137,
    138, 139, 140, 141, 142, 143, 144, 145, 146, 147, 148, 149, 150, 151, 152, 153, 154, 155, 156,
    157, 158, 159, 160, 161, 162, 163,
];

#[test]
fn no_more_than_256_replicas_write(rt: HostRuntime) {
    const ACTS: &[&[Row]] = &[&[
        (One, TakeFirsts(1001, 1192)),
        (One, TakeFirst(2000, Refused(Refusal::UnknownReplica, 192))),
        // A member has its index from the beginning.
        (One, TakeFirst(101, Kept(193))),
        (One, Dropped(0)),
    ]];
    const OPENING: Opening = Opening {
        one: Numbers {
            own: 1,
            members: MOST_MEMBERS,
        },
        two: TWO,
        queue: 16,
    };
    on_opened(&rt, rt.alloc(), OPENING, ACTS)
}
