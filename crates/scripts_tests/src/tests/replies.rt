//! Every reply as it is printed.

use document::Reading;
use fixtures::{Pair, id_of, named};
use ids::Refusal;
use scripts::reply_lines;
use std::alloc::Global;
use std::process::Abort;
use world::{Reply, WorldReply};

/// A reply. Its ids and its vector are pairs, which can be part of a constant.
#[derive(Clone, Copy)]
enum Says {
    Ticket(u64),
    Denied(Refusal),
    Published(u64),
    Idle,
    Unanswered,
    Made(Pair, u64),
    Refused(Refusal, u64),
    Kept(u64),
    Known(u64),
    NotRead(u64, Refusal),
    Took,
    Gave(usize, u64),
    Seen(u64),
    Dropped(u64),
    NoMessage,
    Bundle(u64, u64),
    Received(u64, u64, Option<(u64, Refusal)>),
    Hello(u64, &'static [Pair]),
    /// How many entries were seen, and the items that were read.
    Read(u64, &'static [Pair]),
}

/// A reply, and how it is printed, without the line feed.
type Row<'a> = (Says, &'a str);

const ROWS: &[Row] = &[
    (Says::Ticket(1), r#"["ticket",1]"#),
    (
        Says::Ticket(18446744073709551615),
        r#"["ticket",18446744073709551615]"#,
    ),
    (Says::Denied(Refusal::QueueFull), r#"["refused","E9"]"#),
    (Says::Denied(Refusal::SerialEnd), r#"["refused","E10"]"#),
    (Says::Denied(Refusal::Foreign), r#"["refused","E11"]"#),
    (Says::Published(5), r#"["published",5]"#),
    (Says::Idle, r#"["idle"]"#),
    (Says::Unanswered, r#"["none"]"#),
    (Says::Made((5, 1), 4), r#"["made",[5,1],4]"#),
    (
        Says::Refused(Refusal::HistoryFull, 1048576),
        r#"["refused","E8",1048576]"#,
    ),
    (Says::NotRead(6, Refusal::PastEnd), r#"["refused","E3",6]"#),
    (Says::NotRead(0, Refusal::AtHead), r#"["refused","E2",0]"#),
    (Says::Took, r#"["took"]"#),
    (Says::Gave(0, 1), r#"["gave",0,1]"#),
    (
        Says::Gave(63, 18446744073709551615),
        r#"["gave",63,18446744073709551615]"#,
    ),
    (Says::Seen(2), r#"["seen",2]"#),
    (Says::Seen(0), r#"["seen",0]"#),
    (Says::Dropped(7), r#"["dropped",7]"#),
    (Says::Kept(5), r#"["kept",5]"#),
    (Says::Kept(0), r#"["kept",0]"#),
    (Says::Known(5), r#"["known",5]"#),
    (Says::NoMessage, r#"["none"]"#),
    (Says::Bundle(1, 5), r#"["message",1,5]"#),
    (Says::Received(1, 5, None), r#"["received",1,5]"#),
    (
        Says::Received(0, 0, Some((1, Refusal::BadLine))),
        r#"["received",0,0,1,"E22"]"#,
    ),
    (
        Says::Received(6, 2, Some((3, Refusal::QueueFull))),
        r#"["received",6,2,3,"E9"]"#,
    ),
    (Says::Hello(0, &[]), r#"["message",0,[]]"#),
    (
        Says::Hello(2, &[(6, 1), (4611686018427387904, 9)]),
        r#"["message",2,[[1,6],[9,4611686018427387904]]]"#,
    ),
    (Says::Read(0, &[]), r#"["reading",0,[]]"#),
    (
        Says::Read(
            18446744073709551615,
            &[(1, 1), (4611686018427387904, 4294967295)],
        ),
        r#"["reading",18446744073709551615,[[1,1],[4611686018427387904,4294967295]]]"#,
    ),
];

/// The answer that a reply gives to a client, if it is one.
fn answer(rt: &impl Abort, says: Says) -> Option<Reply> {
    match says {
        Says::Made(pair, before) => Some(Reply::Made(id_of(pair).expect(rt, "an id"), before)),
        Says::Refused(why, length) => Some(Reply::Refused(why, length)),
        Says::Kept(length) => Some(Reply::Kept(length)),
        Says::Known(length) => Some(Reply::Known(length)),
        _ => None,
    }
}

/// A reply that is no answer and has no ids.
fn other(says: Says) -> WorldReply {
    match says {
        Says::Ticket(serial) => WorldReply::Ticket(serial),
        Says::Denied(why) => WorldReply::Denied(why),
        Says::Published(count) => WorldReply::Published(count),
        Says::Unanswered => WorldReply::Unanswered,
        Says::NotRead(seen, why) => WorldReply::NotRead { seen, why },
        Says::Took => WorldReply::Took,
        Says::Gave(client, serial) => WorldReply::Gave { client, serial },
        Says::Seen(length) => WorldReply::Seen(length),
        Says::Dropped(count) => WorldReply::Dropped(count),
        Says::NoMessage => WorldReply::NoMessage,
        Says::Bundle(message, operations) => {
            WorldReply::Bundle {
                message,
                operations,
            }
        }
        Says::Received(first, submitted, stopped) => {
            WorldReply::Received {
                first,
                submitted,
                stopped,
            }
        }
        _ => WorldReply::Idle,
    }
}

/// The reading of the items with these ids.
fn items(rt: &impl Abort, alloc: Global, pairs: &[Pair]) -> Reading {
    let mut items = Vec::new(alloc);
    for pair in pairs {
        items
            .push(id_of(*pair).expect(rt, "an id"))
            .expect(rt, "memory");
    }
    Reading::Items(items)
}

fn reply(rt: &impl Abort, alloc: Global, says: Says) -> WorldReply {
    match says {
        Says::Hello(message, pairs) => WorldReply::Hello {
            message,
            vector: named(alloc, pairs).expect(rt, "a vector"),
        },
        Says::Read(seen, pairs) => WorldReply::Read {
            seen,
            reading: items(rt, alloc, pairs),
        },
        _ => match answer(rt, says) {
            Some(answer) => WorldReply::Replied(answer),
            None => other(says),
        },
    }
}

/// Each reply has a line, in their order; no replies have none.
#[test]
fn each_reply_is_a_line(rt: HostRuntime) {
    let mut replies = Vec::new(rt.alloc());
    let mut wanted = String::new(rt.alloc());
    for (says, line) in ROWS {
        replies
            .push(reply(&rt, rt.alloc(), *says))
            .expect(&rt, "memory");
        wanted.push_str(line).expect(&rt, "memory");
        wanted.push('\n').expect(&rt, "memory");
    }
    let printed = reply_lines(rt.alloc(), &replies).expect(&rt, "memory");
    assert_eq!(rt; printed.as_str(), wanted.as_str());
    let none = reply_lines(rt.alloc(), &[]).expect(&rt, "memory");
    assert_eq!(rt; none.as_str(), "");
}
