//! Operations that come before what they depend on, and operations that depend on nothing.

use fixtures::{counted, field, id_of};
use operation::{Mutation, Op, Shared};
use std::alloc::Global;
use std::process::Abort;

/// The operation of replica 2 with this counter, which deletes a key and depends on replica 3's operation with the counter before.
pub fn early_op(rt: &impl Abort, alloc: Global, counter: u64) -> Shared<Op> {
    let op = Op {
        id: id_of((counter, 2)).expect(rt, "an id"),
        deps: counted(alloc, &[0, 0, counter.saturating_sub(1)]).expect(rt, "a vector"),
        place: field(alloc, "a").expect(rt, "a place"),
        mutation: Mutation::Delete,
    };
    Shared::new(alloc, op).expect(rt, "memory")
}

/// The line of the first operation of this replica, which deletes a key.
pub fn first_line(rt: &impl Abort, alloc: Global, replica: u32) -> String {
    format!(in alloc;
        r#"["op",[1,{replica}],[],[["m",0]],"a",["d"]]
"#
    )
    .expect(rt, "memory")
}
