//! What happens if more was handed out than the journal has: two operations have one id.

use super::opening::{Life, live};
use super::playing::Row::{Answer, Journal, Receive, Replay, Write};
use super::*;

/// Engine 1 writes and sends that; its journal is lost, and it writes again. From then on both engines have the same vector, and so neither
/// sends anything, but they show different values: nothing repairs that.
#[test]
fn what_was_sent_and_lost_stands_twice(rt: HostRuntime) -> Result<(), Fail> {
    const SENT: &str = r#"["op2",[1,1],[],[["m",0]],"a",["a",1]]
"#;
    const FIRST: Life = (
        1,
        &[Write(r#"["assign",["a"],1]"#, (1, 1)), Answer(NEW, SENT)],
    );
    const PEER: Life = (
        2,
        &[
            Receive(SENT, 1),
            Journal(
                0,
                r#"["op",[1,1],[],[["m",0]],"a",["a",1]]
"#,
                1,
            ),
            Answer(r#"["hello",[[1,1]]]"#, ""),
        ],
    );
    const ANEW: Life = (
        1,
        &[
            Replay(&[("", (0, 0, None))]),
            Write(r#"["assign",["a"],9]"#, (1, 1)),
            Journal(
                0,
                r#"["own",[1,1],["assign",["a"],9]]
"#,
                1,
            ),
            Answer(r#"["hello",[[1,1]]]"#, ""),
        ],
    );
    live(&rt, rt.alloc(), &[FIRST, PEER, ANEW])
}
