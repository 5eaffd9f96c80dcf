//! Operations that no engine made, and more of them than an inbox holds.

use super::opening::on_two;
use super::playing::Row;
use super::playing::Side::One;
use super::playing::Told::{Kept, Known, Refused};
use super::playing::Turn::{Dropped, Take, TakeAllEarly, TakeEarly};
use super::*;

#[test]
fn the_first_fault_of_an_operation_decides(rt: HostRuntime) {
    // An insert at a field, with a counter that skips one.
    const SKIPS: &str = r#"["op",[9,2],[[1,7]],[["m",0]],"a",["i",1]]
"#;
    const INSERTS: &str = r#"["op",[1,2],[],[["m",0]],"a",["i",1]]
"#;
    // A delete of an item that its vector doesn't cover, which names an operation that isn't there.
    const UNCOVERED: &str = r#"["op",[2,2],[[1,1]],[["m",0],["l","a"]],[5,1],["d"]]
"#;
    // Of the engine's own replica, with a counter that skips one, and with the right one.
    const OWN_SKIPS: &str = r#"["op",[3,1],[[1,1]],[["m",0]],"a",["d"]]
"#;
    const OWN: &str = r#"["op",[1,1],[],[["m",0]],"a",["d"]]
"#;
    const ACTS: &[&[Row]] = &[&[
        (One, Take(SKIPS, Refused(Refusal::BadCounter, 0))),
        (One, Take(INSERTS, Refused(Refusal::NotInList, 0))),
        (One, Take(UNCOVERED, Refused(Refusal::BadPlace, 0))),
        (One, Take(OWN_SKIPS, Refused(Refusal::BadCounter, 0))),
        (One, Take(OWN, Refused(Refusal::OwnName, 0))),
        (One, Dropped(0)),
    ]];
    on_two(&rt, rt.alloc(), 16, ACTS)
}

#[test]
fn no_more_than_4096_operations_wait(rt: HostRuntime) {
    const OF_TWO: &str = r#"["op",[1,2],[],[["m",0]],"a",["d"]]
"#;
    const OF_THREE: &str = r#"["op",[1,3],[],[["m",0]],"a",["d"]]
"#;
    const ACTS: &[&[Row]] = &[
        &[
            (One, TakeAllEarly(2, 4097, Kept(0))),
            (One, TakeEarly(4098, Refused(Refusal::InboxFull, 0))),
            (One, TakeEarly(2, Known(0))),
        ],
        &[
            // One that is ready has a slot of its own.
            (One, Take(OF_TWO, Kept(1))),
            (One, Dropped(0)),
            // It makes operation 2 of replica 2 ready, whose vector leaves out operation 1 of that replica.
            (One, Take(OF_THREE, Kept(2))),
            (One, Dropped(1)),
            (One, TakeEarly(4098, Kept(2))),
        ],
    ];
    on_two(&rt, rt.alloc(), 16, ACTS)
}
