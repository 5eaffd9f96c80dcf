//! Lines with values from the rules, and each call once in a case that succeeds.

mod beside_lines;
mod bundles;
mod canonical_lines;
mod many_pairs;
mod mixtures;
mod operations;
mod refused_memory;
mod vectors;

use cursor::Place;
use fixtures::{field, id_of};
use ids::Refusal;
use operation::{Mutation, Op, Shared};
use std::alloc::Global;
use std::process::Abort;
use value::{Scalar, Val};
use wire::write_op;

/// The operations of a shopping list: a map, a list in it, and three items. In profile 1.
const LINES: [&str; 5] = [
    r#"["op",[1,1],[],[],0,["a",{}]]"#,
    r#"["op",[2,1],[[1,1]],[["m",0]],"shopping",["a",[]]]"#,
    r#"["op",[3,1],[[1,2]],[["m",0],["l","shopping"]],1,["i","eggs"]]"#,
    r#"["op",[4,1],[[1,3]],[["m",0],["l","shopping"]],1,["i","cheese"]]"#,
    r#"["op",[5,1],[[1,4]],[["m",0],["l","shopping"]],[3,1],["i","milk"]]"#,
];

/// The same in profile 2, each relative to the one before. All are replica 1's, so each vector differs from the one before in its only
/// pair.
const BESIDE: [&str; 5] = [
    r#"["op2",[1,1],[],[],0,["a",{}]]"#,
    r#"["op2",[2,1],[[1,1]],[["m",0]],"shopping",["a",[]]]"#,
    r#"["op2",[3,1],[[1,2]],[["m",0],["l","shopping"]],1,["i","eggs"]]"#,
    r#"["op2",[4,1],[[1,3]],[["m",0],["l","shopping"]],1,["i","cheese"]]"#,
    r#"["op2",[5,1],[[1,4]],[["m",0],["l","shopping"]],[3,1],["i","milk"]]"#,
];

/// The key of the list.
const LIST: &str = "shopping";

/// The place of an operation of the list: the root, the list, its head, or its item 3@1.
#[derive(Clone, Copy)]
enum At {
    Root,
    List,
    Head,
    Item,
}

/// What it does at its place.
#[derive(Clone, Copy)]
enum Does<'a> {
    Map,
    List,
    Number(i64),
    Insert(&'a str),
    Delete,
}

/// How many operations of replica 1 come before an operation of it, its place, and what it does.
type Row<'a> = (u64, At, Does<'a>);

/// The operations of the five lines.
const FIVE: &[Row] = &[
    (0, At::Root, Does::Map),
    (1, At::List, Does::List),
    (2, At::Head, Does::Insert("eggs")),
    (3, At::Head, Does::Insert("cheese")),
    (4, At::Item, Does::Insert("milk")),
];

fn head(alloc: Global) -> Result<Place, Refusal> {
    let list = field(alloc, LIST)?;
    list.head(alloc)
}

fn item(alloc: Global) -> Result<Place, Refusal> {
    let id = id_of((3, 1))?;
    let list = field(alloc, LIST)?;
    list.item(alloc, id)
}

fn place(alloc: Global, at: At) -> Result<Place, Refusal> {
    match at {
        At::Root => Ok(Place::doc(alloc)),
        At::List => field(alloc, LIST),
        At::Head => head(alloc),
        At::Item => item(alloc),
    }
}

fn mutation(alloc: Global, does: Does) -> Result<Mutation, Refusal> {
    match does {
        Does::Map => Ok(Mutation::Assign(Val::EmptyMap)),
        Does::List => Ok(Mutation::Assign(Val::EmptyList)),
        Does::Number(number) => Ok(Mutation::Assign(Val::Scalar(Scalar::Whole(number)))),
        Does::Insert(words) => Ok(Mutation::Insert(Val::text(alloc, words)?)),
        Does::Delete => Ok(Mutation::Delete),
    }
}

/// The operation of a row.
fn op(alloc: Global, row: &Row) -> Result<Shared<Op>, Refusal> {
    let (before, at, does) = *row;
    let place = place(alloc, at)?;
    let mutation = mutation(alloc, does)?;
    fixtures::op(
        alloc,
        (before.saturating_add(1), 1),
        &[before, 0],
        place,
        mutation,
    )
}

/// The operations of the five lines.
fn list_of_five(rt: &impl Abort, alloc: Global) -> Vec<Shared<Op>> {
    let mut ops = Vec::new(alloc);
    for row in FIVE {
        ops.push(op(alloc, row).expect(rt, "an operation"))
            .expect(rt, "memory");
    }
    ops
}

/// Asserts that the line of profile 1 is the operation's.
fn is_op(rt: &impl Abort, alloc: Global, op: &Op, want: &str) -> Result<(), Refusal> {
    let whole = write_op(alloc, op)?;
    assert_eq!(rt; whole.as_slice(), want.as_bytes());
    Ok(())
}

/// The parts of a text, joined.
fn joined(rt: &impl Abort, alloc: Global, parts: &[&str]) -> String {
    let mut text = String::new(alloc);
    for part in parts {
        text.push_str(part).expect(rt, "memory");
    }
    text
}

/// What comes before a part of a line, and what comes after it.
type Around<'a> = (&'a str, &'a str);

/// The line with this part.
fn with_part(rt: &impl Abort, alloc: Global, around: Around, part: &str) -> String {
    joined(rt, alloc, &[around.0, part, around.1])
}

/// The most pairs of a vector.
const MOST_PAIRS: u32 = 256;

/// That many pairs, of the replicas 1, 2 and so on.
fn pairs(rt: &impl Abort, alloc: Global, count: u32) -> String {
    let mut pairs = String::new(alloc);
    for replica in 1..=count {
        let comma = if replica > 1 { "," } else { "" };
        pairs
            .push_str(
                format!(in alloc; "{comma}[{replica},1]")
                    .expect(rt, "memory")
                    .as_str(),
            )
            .expect(rt, "memory");
    }
    format!(in alloc; "[{pairs}]").expect(rt, "memory")
}
