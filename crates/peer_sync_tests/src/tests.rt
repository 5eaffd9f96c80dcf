//! Engines that exchange operations on one thread, as tables that small functions play.

mod beside;
mod cuts;
mod early;
mod exchanges;
mod forged;
mod full;
mod lines;
mod nonmembers;
mod opening;
mod playing;
mod refused_memory;
mod showing;
mod store;

use ids::Refusal;
use peer_sync::{Received, answer, hello, receive};
use std::test::Fail;

/// The lines of five operations of replica 1, which make a list in the root and put three items into it.
const FIVE: &str = r#"["op2",[1,1],[],[],0,["a",{}]]
["op2",[2,1],[[1,1]],[["m",0]],"shopping",["a",[]]]
["op2",[3,1],[[1,2]],[["m",0],["l","shopping"]],1,["i","eggs"]]
["op2",[4,1],[[1,3]],[["m",0],["l","shopping"]],1,["i","cheese"]]
["op2",[5,1],[[1,4]],[["m",0],["l","shopping"]],[3,1],["i","milk"]]
"#;

/// The same in profile 1, whose lines have whole vectors.
const FIVE_ALONE: &str = r#"["op",[1,1],[],[],0,["a",{}]]
["op",[2,1],[[1,1]],[["m",0]],"shopping",["a",[]]]
["op",[3,1],[[1,2]],[["m",0],["l","shopping"]],1,["i","eggs"]]
["op",[4,1],[[1,3]],[["m",0],["l","shopping"]],1,["i","cheese"]]
["op",[5,1],[[1,4]],[["m",0],["l","shopping"]],[3,1],["i","milk"]]
"#;

/// The first of them.
const FIRST_LINE: &str = r#"["op2",[1,1],[],[],0,["a",{}]]
"#;

/// Replica 1 writes at a key; once both have seen that, replica 1 and replica 2 write there concurrently.
const THREE: &str = r#"["op2",[1,1],[],[["m",0]],"key",["a","A"]]
["op2",[2,1],[[1,1]],[["m",0]],"key",["a","B"]]
["op2",[2,2],[],[["m",0]],"key",["a","C"]]
"#;

/// The same, and then replica 3, which had seen nothing, deletes another key.
const FOUR: &str = r#"["op2",[1,1],[],[["m",0]],"key",["a","A"]]
["op2",[2,1],[[1,1]],[["m",0]],"key",["a","B"]]
["op2",[2,2],[],[["m",0]],"key",["a","C"]]
["op2",[1,3],[[1,0]],[["m",0]],"z",["d"]]
"#;

/// The line of a nonmember.
const NEWCOMER: &str = r#"["op",[1,4],[],[],0,["d"]]
"#;

/// The hello of an engine that has nothing.
const NEW: &str = r#"["hello",[]]
"#;

/// Replica 1 deletes the second item of the list.
const DELETED: &str = r#"["op2",[6,1],[[1,5]],[["m",0],["l","shopping"]],[3,1],["d"]]
"#;

/// Replica 2 overwrites that item.
const HAM: &str = r#"["op2",[6,2],[[1,5]],[["m",0],["l","shopping"]],[3,1],["a","ham"]]
"#;
