//! The operations that are written and read.

ghost use Rattle.std.specs.Prelude.{◌≡◌, ◌<◌, length, IfOk};

use ids::Refusal;
use operation::{Op, Shared};
use std::alloc::Global;
use wire::read_op;

/// Operations of one kind.
#[derive(Debug, Drop)]
pub struct Sample {
    pub name: &'static str,
    pub ops: Vec<Shared<Op>>,
}

/// A map, a list in it, and three items.
const SHOPPING: [&str; 5] = [
    r#"["op",[1,1],[],[],0,["a",{}]]"#,
    r#"["op",[2,1],[[1,1]],[["m",0]],"shopping",["a",[]]]"#,
    r#"["op",[3,1],[[1,2]],[["m",0],["l","shopping"]],1,["i","eggs"]]"#,
    r#"["op",[4,1],[[1,3]],[["m",0],["l","shopping"]],1,["i","cheese"]]"#,
    r#"["op",[5,1],[[1,4]],[["m",0],["l","shopping"]],[3,1],["i","milk"]]"#,
];

/// How many operations the replica makes in a sample of many replicas.
const INSERTS: u32 = 50;

/// How many operations of each replica came before them.
const BEFORE: u32 = 1_000;

/// All samples.
///
/// # Errors
/// `NoMemory` if allocation fails, or the refusal of `read_op` for a line.
pub fn all_samples(alloc: Global) -> Result<Vec<Sample>, Refusal>
    ensures { IfOk result (λ samples. length samples.items ≡ 5) }
{
    let mut samples = Vec::new(alloc);
    samples.push(shopping_list(alloc)?)?;
    samples.push(inserts_after_all(alloc, "inserts of one of 2 replicas", 2)?)?;
    samples.push(inserts_after_all(alloc, "inserts of one of 4 replicas", 4)?)?;
    samples.push(inserts_after_all(alloc, "inserts of one of 32 replicas", 32)?)?;
    samples.push(inserts_after_all(alloc, "inserts of one of 256 replicas", 256)?)?;
    Ok(samples)
}

/// Operations of one replica.
fn shopping_list(alloc: Global) -> Result<Sample, Refusal>
    ensures { IfOk result (λ s. length s.ops.items ≡ 5) }
{
    let mut ops = Vec::new(alloc);
    for line in SHOPPING {
        ops.push(read_op(alloc, line.as_bytes())?)?;
    }
    Ok(Sample {
        name: "a shopping list",
        ops,
    })
}

/// Operations of one of `replicas` replicas, whose vectors name all that came before.
fn inserts_after_all(alloc: Global, name: &'static str, replicas: u32) -> Result<Sample, Refusal>
    ensures { IfOk result (λ s. length s.ops.items ≡ 50) }
{
    let others = other_pairs(alloc, replicas)?;
    let mut ops = Vec::new(alloc);
    for number in 0..INSERTS {
        ops.push(insert_after(alloc, BEFORE + number, others.as_str())?)?;
    }
    Ok(Sample { name, ops })
}

/// The pairs of a vector for the other replicas, each with a comma before it.
fn other_pairs(alloc: Global, replicas: u32) -> Result<String, Refusal> {
    let mut pairs = String::new(alloc);
    for number in 2..=replicas {
        pairs.push_str(format!(in alloc; ",[{number},{BEFORE}]")?.as_str())?;
    }
    Ok(pairs)
}

/// The insert of replica 1, after its operation with this counter and the operations of the others.
fn insert_after(alloc: Global, counter: u32, others: &str) -> Result<Shared<Op>, Refusal>
    requires { counter < 2000 }
{
    let next = counter + 1;
    let line = format!(in alloc;
        r#"["op",[{next},1],[[1,{counter}]{others}],[["m",0],["l","shopping"]],1,["i","eggs"]]"#
    )?;
    read_op(alloc, line.as_bytes())
}
