//! Only what was called stored is sent.

use super::opening::{Life, live};
use super::playing::Row::{Hello, Receive, Send, Stored, Unstored, Write};
use super::*;

/// The lines that three commands write.
const THREE: &str = r#"["own",[1,1],["assign",["a"],1]]
["own",[2,1],["assign",["b"],2]]
["own",[3,1],["assign",["c"],3]]
"#;

/// The rest of them after the first two.
const THIRD: &str = r#"["own",[3,1],["assign",["c"],3]]
"#;

/// The first two of them, as they are sent.
const TWO_SENT: &str = r#"["op2",[1,1],[],[["m",0]],"a",["a",1]]
["op2",[2,1],[[1,1]],[["m",0]],"b",["a",2]]
"#;

/// The third one, as it is sent to a peer that has the first.
const LAST_SENT: &str = r#"["op2",[2,1],[[1,1]],[["m",0]],"b",["a",2]]
["op2",[3,1],[[1,2]],[["m",0]],"c",["a",3]]
"#;

/// Nothing is sent before it is stored; what is stored stays so, and what wasn't seen isn't stored. A hello names all that is published.
#[test]
fn nothing_goes_out_before_it_is_stored(rt: HostRuntime) -> Result<(), Fail> {
    const LIFE: Life = (
        1,
        &[
            Write(r#"["assign",["a"],1]"#, (1, 1)),
            Write(r#"["assign",["b"],2]"#, (2, 1)),
            Write(r#"["assign",["c"],3]"#, (3, 1)),
            Stored(3),
            Send(NEW, "", false),
            Unstored(THREE, 3),
            Send(NEW, "", false),
            Stored(2),
            Send(NEW, TWO_SENT, false),
            Unstored(THIRD, 3),
            Stored(1),
            Send(NEW, TWO_SENT, false),
            Hello("[\"hello\",[[1,3]]]\n"),
            Stored(9),
            Unstored("", 3),
            Send(r#"["hello",[[1,1]]]"#, LAST_SENT, false),
            Send(r#"["hello",[[1,3]]]"#, "", false),
        ],
    );
    live(&rt, rt.alloc(), &[LIFE])
}

/// A hello that names more of this engine's own number than is known here shows that the engine forgot what it had sent. One that names
/// more of another number doesn't.
#[test]
fn a_hello_tells_what_was_forgotten(rt: HostRuntime) -> Result<(), Fail> {
    const LIFE: Life = (
        1,
        &[
            Receive(
                r#"["op2",[1,2],[],[["m",0]],"a",["a",1]]
"#,
                1,
            ),
            Send(r#"["hello",[[2,9]]]"#, "", false),
            Send(r#"["hello",[[1,2]]]"#, "", true),
            Write(r#"["assign",["b"],2]"#, (2, 1)),
            Send(r#"["hello",[[1,2]]]"#, "", false),
            Send(r#"["hello",[[1,3],[2,1]]]"#, "", true),
        ],
    );
    live(&rt, rt.alloc(), &[LIFE])
}
