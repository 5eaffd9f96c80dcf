//! What a test does with a document, as a table of turns, and what plays them.
//!
//! A call whose allocation is refused leaves the document as it was, and is made once more. So such a test passes whichever single
//! allocation is refused; if none is refused, nothing is called again.

ghost use Rattle.std.specs.Prelude.{◌≡◌, false, None, IsTrue, OnOk};
ghost use Rattle.ids.specs.Tables.{lacks_room};
ghost use Rattle.semantics.specs.Entries.{applied};
ghost use Rattle.semantics.specs.Joining.{table_after};
ghost use Rattle.semantics.specs.Stamped.{MayFollow};
ghost use Rattle.operation.specs.Alone.{alone_fault_of_op};
ghost use Rattle.operation.specs.Ops.{stamped_of};
ghost use Rattle.document.specs.Documents.{HasRoomFor};

use super::glances::{Asked, Shown, assert_glance};
use cursor::{Expr, Place, Tag};
use document::{Document, Question, Reading};
use fixtures::{Pair, counted, id_of, pair_of};
use ids::{OpId, Refusal, ReplicaId, ReplicaTable};
use operation::{Entry, Mutation, Op, Shared, check_alone};
use std::alloc::{AllocError, Global};
use std::process::Abort;
use std::test::Fail;
use value::{Key, Scalar, Val};

/// One step of the way from the root to a place.
#[derive(Clone, Copy)]
pub enum Hop<'a> {
    /// Into the map here, to the field with this key.
    Field(&'a str),
    /// Into the list here, to the item with this id.
    Item(Pair),
    /// To the head of the list here.
    Head,
}

/// One step of an expression.
#[derive(Clone, Copy)]
pub enum Step<'a> {
    /// To the field with this key of the map here.
    Get(&'a str),
    /// To the item with this index in the list here, from 1 on.
    Idx(u64),
    /// To the item with this id in the list here, even if it isn't shown.
    ById(Pair),
}

/// A value that an operation writes.
#[derive(Clone, Copy)]
pub enum Value<'a> {
    Map,
    List,
    Whole(i64),
    Text(&'a str),
}

/// What an operation does at its place.
#[derive(Clone, Copy)]
pub enum Does<'a> {
    Assign(Value<'a>),
    Insert(Value<'a>),
    Delete,
}

/// A peer's operation: its id, the counters of the replicas 1, 2 and so on in its vector, its place, and what it does there.
pub type Sent<'a> = (Pair, &'a [u64], &'a [Hop<'a>], Does<'a>);

/// One turn: something that is done with a document, or a question with its answer.
#[derive(Clone, Copy)]
pub enum Turn<'a> {
    /// Takes an operation that passes each test.
    Take(Sent<'a>),
    /// Reserves an operation, and no more.
    Reserve(Sent<'a>),
    /// The fault, against the history, of an operation that is ready and has none by itself.
    Check(Sent<'a>, Result<(), Refusal>),
    /// An operation that isn't ready.
    Waits(Sent<'a>),
    /// Whether one with this id was applied.
    Has(Pair, bool),
    /// How many entries there are.
    Len(usize),
    /// The values to which an expression leads, with the ids of the operations that wrote them.
    Values(&'a [Step<'a>], &'a [(Pair, Value<'a>)]),
    /// The keys of the map there.
    Keys(&'a [Step<'a>], &'a [&'a str]),
    /// The items of the list there.
    Items(&'a [Step<'a>], &'a [Pair]),
    /// The ids of what is present there, each with its tag.
    Conflicts(&'a [Step<'a>], &'a [(Pair, Tag)]),
    /// The operations that a vector of these counters doesn't cover, by `missing` and by a question.
    Missing(&'a [u64], &'a [Pair]),
    /// The greatest counter of each replica that was applied.
    Vector(&'a [Pair]),
    /// The replicas, in the order of their indices.
    Table(&'a [u32]),
    /// What is seen at a glance, and whether there is more.
    Glance(Asked<'a>, &'a [Shown<'a>], bool),
}

/// The place to which a hop leads from here.
fn further(alloc: Global, place: &Place, hop: Hop) -> Result<Place, Refusal> {
    match hop {
        Hop::Field(key) => place.get(alloc, Key::new(alloc, key)?),
        Hop::Item(pair) => place.item(alloc, id_of(pair)?),
        Hop::Head => place.head(alloc),
    }
}

/// The place to which these hops lead from the root.
fn place(alloc: Global, hops: &[Hop]) -> Result<Place, Refusal> {
    let mut place = Place::doc(alloc);
    for hop in hops {
        place = further(alloc, &place, *hop)?;
    }
    Ok(place)
}

/// The value that an operation writes.
fn val(alloc: Global, value: Value) -> Result<Val, Refusal> {
    Ok(match value {
        Value::Map => Val::EmptyMap,
        Value::List => Val::EmptyList,
        Value::Whole(whole) => Val::Scalar(Scalar::Whole(whole)),
        Value::Text(words) => Val::text(alloc, words)?,
    })
}

/// The mutation that an operation makes.
fn mutation(alloc: Global, does: Does) -> Result<Mutation, Refusal> {
    Ok(match does {
        Does::Assign(value) => Mutation::Assign(val(alloc, value)?),
        Does::Insert(value) => Mutation::Insert(val(alloc, value)?),
        Does::Delete => Mutation::Delete,
    })
}

/// The operation, or `NoMemory` if an allocation is refused.
fn try_op(alloc: Global, sent: Sent) -> Result<Shared<Op>, Refusal> {
    let (pair, counters, hops, does) = sent;
    let place = place(alloc, hops)?;
    let mutation = mutation(alloc, does)?;
    fixtures::op(alloc, pair, counters, place, mutation)
}

/// The operation, at the second attempt if an allocation of the first is refused.
fn op(alloc: Global, sent: Sent) -> Result<Shared<Op>, Refusal> {
    match try_op(alloc, sent) {
        Err(Refusal::NoMemory) => try_op(alloc, sent),
        made => made,
    }
}

/// Whether the operation has no fault by itself.
fn stands_alone(op: &Op) -> bool
    ensures { IsTrue result → alone_fault_of_op op.now ≡ None }
{
    check_alone(op).is_ok()
}

/// The fault, against the history, of an operation that is ready and has none by itself.
fn check(rt: &impl Abort, document: &Document, op: &Op) -> Result<(), Refusal>
    ensures lawful { OnOk result (MayFollow (applied document.now.entries) (stamped_of op.now)) }
    ensures fits { OnOk result (lacks_room (table_after document.now.members document.now.entries) op.now.id.replica ≡ false) }
{
    assert!(rt; stands_alone(op));
    assert!(rt; document.ready(op));
    document.check(op)
}

/// Whether the table has these numbers in this order.
fn is_table(table: &ReplicaTable, numbers: &[u32]) -> bool {
    for (index, number) in numbers.iter().enumerate() {
        if table.at(index) != ReplicaId::new(*number) {
            return false;
        }
    }
    table.len() == numbers.len()
}

/// What a refused call must leave: how many entries and replicas there are, and the greatest counter.
fn measures(document: &Document) -> (usize, usize, u64) {
    (
        document.len(),
        document.table().len(),
        document.applied().greatest(),
    )
}

/// Reserves an operation, at the second attempt if an allocation of the first is refused. A refusal changes no content.
fn reserve(
    rt: &impl Abort,
    alloc: Global,
    document: &mut Document,
    op: &Op,
) -> Result<(), AllocError>
    ensures members { document.new.members ≡ document.old.members }
    ensures entries { document.new.entries ≡ document.old.entries }
    ensures room { OnOk result (HasRoomFor document.new (stamped_of op.now)) }
{
    let before = measures(document);
    if document.reserve(alloc, op).is_ok() {
        return Ok(());
    }
    assert_eq!(rt; measures(document), before);
    document.reserve(alloc, op)
}

/// Takes an operation that passes each test.
pub fn take(
    rt: &impl Abort,
    alloc: Global,
    document: &mut Document,
    sent: Sent,
) -> Result<(), Refusal> {
    let op = op(alloc, sent)?;
    check(rt, document, &op)?;
    reserve(rt, alloc, document, &op)?;
    document.commit(Entry::Peer(op));
    Ok(())
}

/// Reserves an operation, and no more.
pub fn reserve_alone(
    rt: &impl Abort,
    alloc: Global,
    document: &mut Document,
    sent: Sent,
) -> Result<(), Refusal> {
    let op = op(alloc, sent)?;
    Ok(reserve(rt, alloc, document, &op)?)
}

/// Asserts the fault, against the history, of an operation that is ready and has none by itself.
fn assert_check(
    rt: &impl Abort,
    alloc: Global,
    document: &Document,
    sent: Sent,
    wanted: Result<(), Refusal>,
) -> Result<(), Refusal> {
    let op = op(alloc, sent)?;
    let found = check(rt, document, &op);
    assert_eq!(rt; found, wanted, "of {:?}", sent.0);
    Ok(())
}

/// The step of a row.
fn step_of(alloc: Global, step: Step) -> Result<cursor::Step, Refusal> {
    match step {
        Step::Get(key) => Ok(cursor::Step::Get(Key::new(alloc, key)?)),
        Step::Idx(index) => Ok(cursor::Step::Idx(index)),
        Step::ById(pair) => Ok(cursor::Step::Item(id_of(pair)?)),
    }
}

/// The expression of these steps.
pub fn expr(alloc: Global, path: &[Step]) -> Result<Expr, Refusal> {
    let mut steps = Vec::new(alloc);
    for next in path {
        let step = step_of(alloc, *next)?;
        steps.push(step)?;
    }
    Ok(Expr::new(steps))
}

/// The question of a turn that asks one. Other turns are never asked for it.
fn question(alloc: Global, turn: Turn) -> Result<Question, Refusal> {
    Ok(match turn {
        Turn::Values(path, _) => Question::Values(expr(alloc, path)?),
        Turn::Keys(path, _) => Question::Keys(expr(alloc, path)?),
        Turn::Items(path, _) => Question::Items(expr(alloc, path)?),
        Turn::Conflicts(path, _) => Question::Conflicts(expr(alloc, path)?),
        Turn::Missing(counters, _) => Question::Missing(counted(alloc, counters)?),
        _ => Question::Vector,
    })
}

/// What the document answers, or `NoMemory` if an allocation is refused.
fn try_ask(alloc: Global, document: &Document, turn: Turn) -> Result<Reading, Refusal> {
    let question = question(alloc, turn)?;
    document.ask(alloc, &question)
}

/// What the document answers, at the second attempt if an allocation of the first is refused.
fn ask(alloc: Global, document: &Document, turn: Turn) -> Result<Reading, Refusal> {
    match try_ask(alloc, document, turn) {
        Err(Refusal::NoMemory) => try_ask(alloc, document, turn),
        answer => answer,
    }
}

/// Whether the scalar is this value.
fn is_scalar(scalar: &Scalar, wanted: Value) -> bool {
    match (scalar, wanted) {
        (Scalar::Whole(whole), Value::Whole(wanted)) => *whole == wanted,
        (Scalar::Text(text), Value::Text(wanted)) => text.as_str() == wanted,
        _ => false,
    }
}

/// Whether the values are these, with these ids.
pub fn are_values(values: &[(OpId, Scalar)], wanted: &[(Pair, Value)]) -> bool {
    for ((id, scalar), (pair, value)) in values.iter().zip(wanted) {
        if pair_of(*id) != *pair || !is_scalar(scalar, *value) {
            return false;
        }
    }
    values.len() == wanted.len()
}

/// Whether the keys are these.
fn are_keys(keys: &[Key], wanted: &[&str]) -> bool {
    for (key, wanted) in keys.iter().zip(wanted) {
        if key.as_str() != *wanted {
            return false;
        }
    }
    keys.len() == wanted.len()
}

/// Whether the ids are these.
fn are_ids(ids: &[OpId], wanted: &[Pair]) -> bool {
    for (id, pair) in ids.iter().zip(wanted) {
        if pair_of(*id) != *pair {
            return false;
        }
    }
    ids.len() == wanted.len()
}

/// Whether the ids are these, with these tags.
fn are_conflicts(conflicts: &[(OpId, Tag)], wanted: &[(Pair, Tag)]) -> bool {
    for ((id, tag), (pair, wanted)) in conflicts.iter().zip(wanted) {
        if pair_of(*id) != *pair || *tag != *wanted {
            return false;
        }
    }
    conflicts.len() == wanted.len()
}

/// Whether the operations have these ids.
fn are_ops(ops: &[Shared<Op>], wanted: &[Pair]) -> bool {
    for (op, pair) in ops.iter().zip(wanted) {
        if pair_of(op.id) != *pair {
            return false;
        }
    }
    ops.len() == wanted.len()
}

/// Whether the reading is the one that the turn wants.
fn is_wanted(reading: &Reading, turn: Turn) -> bool {
    match (reading, turn) {
        (Reading::Values(values), Turn::Values(_, wanted)) => are_values(values, wanted),
        (Reading::Keys(keys), Turn::Keys(_, wanted)) => are_keys(keys, wanted),
        (Reading::Items(items), Turn::Items(_, wanted)) => are_ids(items, wanted),
        (Reading::Conflicts(pairs), Turn::Conflicts(_, wanted)) => are_conflicts(pairs, wanted),
        (Reading::Missing(ops), Turn::Missing(_, wanted)) => are_ops(ops, wanted),
        (Reading::Vector(vector), Turn::Vector(wanted)) => are_ids(vector.ids(), wanted),
        _ => false,
    }
}

/// Asserts what the document answers.
fn assert_answer(
    rt: &impl Abort,
    alloc: Global,
    document: &Document,
    turn: Turn,
) -> Result<(), Refusal> {
    let reading = ask(alloc, document, turn)?;
    assert!(rt; is_wanted(&reading, turn), "{reading:?}");
    Ok(())
}

/// The operations that a vector of these counters doesn't cover, or `NoMemory` if an allocation is refused.
fn try_missing(
    alloc: Global,
    document: &Document,
    counters: &[u64],
) -> Result<Vec<Shared<Op>>, Refusal> {
    let vector = counted(alloc, counters)?;
    Ok(document.missing(alloc, &vector)?)
}

/// The operations that a vector of these counters doesn't cover, at the second attempt if an allocation of the first is refused.
fn missing(
    alloc: Global,
    document: &Document,
    counters: &[u64],
) -> Result<Vec<Shared<Op>>, Refusal> {
    match try_missing(alloc, document, counters) {
        Err(Refusal::NoMemory) => try_missing(alloc, document, counters),
        answer => answer,
    }
}

/// Asserts the operations that a vector doesn't cover, by `missing` and by a question.
fn assert_missing(
    rt: &impl Abort,
    alloc: Global,
    document: &Document,
    turn: Turn,
    counters: &[u64],
    wanted: &[Pair],
) -> Result<(), Refusal> {
    let ops = missing(alloc, document, counters)?;
    assert!(rt; are_ops(&ops, wanted), "{ops:?}");
    assert_answer(rt, alloc, document, turn)
}

/// Plays a turn.
fn take_turn(
    rt: &impl Abort,
    alloc: Global,
    document: &mut Document,
    turn: Turn,
) -> Result<(), Refusal> {
    match turn {
        Turn::Take(sent) => take(rt, alloc, document, sent),
        Turn::Reserve(sent) => reserve_alone(rt, alloc, document, sent),
        Turn::Check(sent, wanted) => assert_check(rt, alloc, document, sent, wanted),
        Turn::Waits(sent) => {
            let op = op(alloc, sent)?;
            assert!(rt; !document.ready(&op));
            Ok(())
        }
        Turn::Has(pair, wanted) => {
            let id = id_of(pair)?;
            assert_eq!(rt; document.contains(id), wanted, "{id:?}");
            Ok(())
        }
        Turn::Len(wanted) => {
            assert_eq!(rt; document.len(), wanted);
            Ok(())
        }
        Turn::Table(wanted) => {
            assert!(rt;
                is_table(document.table(), wanted),
                "{:?}",
                document.table()
            );
            Ok(())
        }
        Turn::Glance(asked, rows, is_cut) => {
            assert_glance(rt, alloc, document, asked, rows, is_cut)
        }
        Turn::Missing(counters, wanted) => assert_missing(
            rt, alloc, document, turn, counters, wanted,
        ),
        _ => assert_answer(rt, alloc, document, turn),
    }
}

/// Takes these operations, and then plays these turns.
pub fn play(
    rt: &impl Abort,
    alloc: Global,
    document: &mut Document,
    ops: &[Sent],
    turns: &[Turn],
) -> Result<(), Refusal> {
    for op in ops {
        take(rt, alloc, document, *op)?;
    }
    for turn in turns {
        take_turn(rt, alloc, document, *turn)?;
    }
    Ok(())
}

/// A new document with these members, at the second attempt if an allocation of the first is refused.
pub fn empty(alloc: Global, members: &[u32]) -> Result<Document, Refusal> {
    match Document::new(alloc, members) {
        Err(Refusal::NoMemory) => Document::new(alloc, members),
        made => made,
    }
}

/// A new document with these members takes these operations; then these turns are played.
pub fn on_new_of(
    rt: &impl Abort,
    alloc: Global,
    members: &[u32],
    ops: &[Sent],
    turns: &[Turn],
) -> Result<(), Fail> {
    let mut document = empty(alloc, members)?;
    play(rt, alloc, &mut document, ops, turns)?;
    Ok(())
}

/// A new document of the replicas 1, 2 and 3 takes these operations; then these turns are played.
pub fn on_new(rt: &impl Abort, alloc: Global, ops: &[Sent], turns: &[Turn]) -> Result<(), Fail> {
    on_new_of(rt, alloc, &[1, 2, 3], ops, turns)
}
