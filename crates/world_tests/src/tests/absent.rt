//! Engines, clients and tokens that aren't there: in a script a line that names one is bad.

use super::*;
use std::process::Abort;

/// The number of an engine, its act, and its reply.
type Row<'a> = (usize, Act<'a>, &'a str);

/// What a world of two engines replies, whose clients are 0 and 1 and whose tokens are 0 to 2. An engine or a client that isn't there is
/// idle, has no answer and hears of no message that isn't a bundle; a token that isn't there asks and learns as a new one.
const OF_TWO: &[Row] = &[
    (0, Act::Push(2, "a", 9), "Idle"),
    (2, Act::Push(0, "a", 9), "Idle"),
    (0, Act::Push(0, "a", 1), "Ticket(1)"),
    (0, Act::Push(1, "b", 2), "Ticket(1)"),
    (2, Act::Step, "Idle"),
    (0, Act::Ask(3, "a"), "Read 0"),
    (0, Act::Step, "Published(2)"),
    (0, Act::Ask(3, "a"), "Read 2"),
    (2, Act::Ask(0, "a"), "Idle"),
    (0, Act::Poll(2, 1), "Idle"),
    (2, Act::Poll(0, 1), "Idle"),
    (0, Act::Learn(2, 2, 1), "Unanswered"),
    (0, Act::Learn(3, 0, 1), "Seen(2)"),
    (2, Act::Learn(2, 0, 1), "Idle"),
    (1, Act::Hello(0), "Hello 0"),
    (2, Act::Hello(0), "Idle"),
    (0, Act::Deliver(2, 0), "NoMessage"),
    (0, Act::Bundle(0, 0), "Bundle 1"),
    (0, Act::Deliver(2, 1), "Idle"),
    (2, Act::Deliver(0, 1), "Idle"),
    (0, Act::Lines(2, LINE), "Idle"),
    (2, Act::Dropped, "Idle"),
    (1, Act::Hello(0), "Hello 2"),
];

const LINE: &str = r#"["op",[1,2],[],[["m",0]],"a",["a",7]]
"#;

/// What a world without engines replies.
const OF_NONE: &[Row] = &[
    (0, Act::Push(0, "a", 1), "Idle"),
    (0, Act::Step, "Idle"),
    (0, Act::Ask(0, "a"), "Idle"),
];

#[test]
fn who_is_not_there_is_idle(rt: HostRuntime) {
    let first = config(rt.alloc(), 1, &[1, 2], 2).expect(&rt, "memory");
    let second = config(rt.alloc(), 2, &[1, 2], 2).expect(&rt, "memory");
    let mut two = World::new(rt.alloc(), &[first, second]).expect(&rt, "two engines");
    let mut none = World::new(rt.alloc(), &[]).expect(&rt, "no engines");
    for row in OF_TWO {
        replies(&rt, rt.alloc(), &mut two, row);
    }
    for row in OF_NONE {
        replies(&rt, rt.alloc(), &mut none, row);
    }
}

/// Asserts the reply to a row's act.
fn replies(rt: &impl Abort, alloc: Global, world: &mut World, row: &Row) {
    let (engine, act, want) = *row;
    let step = step(alloc, engine, act).expect(rt, "memory");
    let replies = world.run(alloc, &[step]).expect(rt, "memory");
    let Some(reply) = replies.first() else {
        panic!(rt; "no reply");
    };
    assert_eq!(rt; told(rt, alloc, reply).as_str(), want, "engine {engine}");
}

/// The reply, without what was read or sent.
fn told(rt: &impl Abort, alloc: Global, reply: &WorldReply) -> String {
    match reply {
        WorldReply::Read { seen, .. } => format!(in alloc; "Read {seen}"),
        WorldReply::Hello { message, .. } => format!(in alloc; "Hello {message}"),
        WorldReply::Bundle { message, .. } => format!(in alloc; "Bundle {message}"),
        other => format!(in alloc; "{other:?}"),
    }
    .expect(rt, "memory")
}
