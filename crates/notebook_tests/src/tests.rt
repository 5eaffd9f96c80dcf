//! Notebooks that end and resume from a disk of bytes, as tables that small functions play.

mod damaged;
mod exchanging;
mod failing;
mod going_on;
mod opening;
mod playing;

use std::test::Fail;

/// The hello of a peer that has nothing.
const NEW: &str = r#"["hello",[]]
"#;

/// Two own commands, an operation of a peer that inserts after them, and an own command that depends on it.
const FOUR: &str = r#"["own",[1,1],["assign",["l"],[]]]
["own",[2,1],["insert",["l",0],"x"]]
["op",[3,2],[[1,2]],[["m",0],["l","l"]],[2,1],["i","y"]]
["own",[4,1],["delete",["l",2]]]
"#;
