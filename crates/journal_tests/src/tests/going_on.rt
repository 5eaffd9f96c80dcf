//! An engine that resumes from its journal.

use super::opening::{Life, live};
use super::playing::Row::{Answer, Journal, Receive, Replay, Write};
use super::*;

/// Two own commands, an operation of a peer that inserts after them, and an own command that depends on it.
const FOUR: &str = r#"["own",[1,1],["assign",["l"],[]]]
["own",[2,1],["insert",["l",0],"x"]]
["op",[3,2],[[1,2]],[["m",0],["l","l"]],[2,1],["i","y"]]
["own",[4,1],["delete",["l",2]]]
"#;

/// The last two of them.
const LAST_TWO: &str = r#"["op",[3,2],[[1,2]],[["m",0],["l","l"]],[2,1],["i","y"]]
["own",[4,1],["delete",["l",2]]]
"#;

/// What the next life writes.
const FIFTH: &str = r#"["own",[5,1],["assign",["k"],true]]
"#;

/// The life that writes the journal of four entries.
const FIRST: Life = (
    1,
    &[
        Journal(0, "", 0),
        Write(r#"["assign",["l"],[]]"#, (1, 1)),
        Write(r#"["insert",["l",0],"x"]"#, (2, 1)),
        Receive(
            r#"["op2",[3,2],[[1,2]],[["m",0],["l","l"]],[2,1],["i","y"]]
"#,
            1,
        ),
        Write(r#"["delete",["l",2]]"#, (4, 1)),
        Journal(0, FOUR, 4),
        Journal(2, LAST_TWO, 4),
        Journal(4, "", 4),
        Journal(9, "", 4),
    ],
);

/// The history is what it was, own entries as own; the next id is above all of them, and peers get what is new.
#[test]
fn a_history_comes_back(rt: HostRuntime) -> Result<(), Fail> {
    const SECOND: Life = (
        1,
        &[
            Replay(&[(FOUR, (4, 161, None))]),
            Journal(0, FOUR, 4),
            Write(r#"["assign",["k"],true]"#, (5, 1)),
            Journal(4, FIFTH, 5),
            Answer(
                r#"["hello",[[1,4],[2,3]]]"#,
                r#"["op2",[5,1],[[1,4],[2,3]],[["m",0]],"k",["a",true]]
"#,
            ),
        ],
    );
    live(&rt, rt.alloc(), &[FIRST, SECOND])
}

/// A journal may come in pieces, with what was written in an earlier life.
#[test]
fn a_journal_comes_in_pieces(rt: HostRuntime) -> Result<(), Fail> {
    const THIRD: Life = (
        1,
        &[
            Replay(&[
                ("", (0, 0, None)),
                (FOUR, (4, 161, None)),
                (FIFTH, (1, 36, None)),
            ]),
            Journal(
                3,
                "[\"own\",[4,1],[\"delete\",[\"l\",2]]]\n[\"own\",[5,1],[\"assign\",[\"k\"],true]]\n",
                5,
            ),
            Write(r#"["delete",["k"]]"#, (6, 1)),
        ],
    );
    live(&rt, rt.alloc(), &[THIRD])
}

/// More lives than there are numbers in a table: a start doesn't use up a number.
#[test]
fn a_number_lives_more_often_than_there_are_numbers(rt: HostRuntime) -> Result<(), Fail> {
    const ONE: &str = r#"["own",[1,1],["assign",["a"],1]]
"#;
    const AGAIN: Life = (1, &[Replay(&[(ONE, (1, 33, None))]), Journal(0, ONE, 1)]);
    for _ in 0..300 {
        live(&rt, rt.alloc(), &[AGAIN])?;
    }
    Ok(())
}
