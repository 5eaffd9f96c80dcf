//! What a test does with a replica, as a table of turns, and what plays them.
//!
//! A turn whose allocation is refused is taken once more, so that a test passes whichever allocation is refused. If none is refused,
//! nothing is done twice.

ghost use Rattle.std.specs.Prelude.{◌≡◌, ℕ, IfOk, OnErr};
ghost use Rattle.semantics.specs.Entries.{IsAbove};

use super::recorder::{Before, Recorder};
use super::*;
use cursor::{Expr, Place, Step};
use document::{Question, Reading};
use fixtures::{Pair, field, id_of, pair_of};
use ids::{Refusal, ReplicaId, ReplicaTable};
use operation::{Command, Mutation, Op, Shared};
use std::alloc::Global;
use std::marker::Brand;
use std::process::Abort;
use std::test::Fail;
use value::{Key, Val};

/// The answer to a delivery.
pub type Answer = Result<Delivered, Refusal>;

/// What an operation writes, and where.
#[derive(Clone, Copy)]
pub enum Writes<'a> {
    /// An assign of a text at this field of the root.
    Text(&'a str, &'a str),
    /// A delete of the field `key` of the root.
    Delete,
    /// A delete of this item of the list at `key`.
    DeleteItem(Pair),
    /// An insert of a map at the field `key` of the root, where an insert isn't allowed.
    Insert,
}

/// One turn: something that is done with a replica, and its answer.
#[derive(Clone, Copy)]
pub enum Turn<'a> {
    /// Makes the operation of an assign, which has this id and is not committed.
    Make(Pair),
    /// Client 0 assigns a text at this field of the root, by an operation with this id.
    Assign(&'a str, &'a str, Pair),
    /// Delivers an operation with this id and with these counters in its vector: the answer. Nothing is drained.
    Deliver(Pair, &'a [u64], Writes<'a>, Answer),
    /// Drains: how many operations are then applied, and how many were dropped.
    Drain(usize, u64),
    /// Appends the next one that is ready, if there is one: its id.
    Next(Option<Pair>),
    /// Asks for a copy of the next one that is ready, and appends nothing: its id.
    Copy(Option<Pair>),
    /// How many operations are applied, and how many were dropped.
    Lengths(usize, u64),
    /// The ids of the values at the field `key` of the root.
    Values(&'a [Pair]),
    /// The replicas of the document, in the order of their indices.
    Table(&'a [u32]),
}

/// How many operations are applied, and how many were dropped.
fn lengths(replica: &Replica) -> (usize, u64) {
    (replica.history_len(), replica.dropped())
}

/// The expression of one field of the root.
fn expression(alloc: Global, key: &str) -> Result<Expr, Refusal> {
    Expr::root(alloc).get(alloc, key)
}

/// The command that assigns a text at a field of the root.
fn assigning(alloc: Global, key: &str, value: &str) -> Result<Command, Refusal> {
    Ok(Command::Assign(expression(alloc, key)?, Val::text(alloc, value)?))
}

/// An item of the list at `key`.
fn item(alloc: Global, pair: Pair) -> Result<Place, Refusal> {
    let id = id_of(pair)?;
    Ok(field(alloc, "key")?.item(alloc, id)?)
}

/// The place at which an operation writes.
fn place(alloc: Global, writes: Writes<'_>) -> Result<Place, Refusal> {
    match writes {
        Writes::Text(key, _) => field(alloc, key),
        Writes::DeleteItem(pair) => item(alloc, pair),
        Writes::Delete | Writes::Insert => field(alloc, "key"),
    }
}

/// What an operation writes there.
fn mutation(alloc: Global, writes: Writes<'_>) -> Result<Mutation, Refusal> {
    match writes {
        Writes::Text(_, value) => Ok(Mutation::Assign(Val::text(alloc, value)?)),
        Writes::Insert => Ok(Mutation::Insert(Val::EmptyMap)),
        Writes::Delete | Writes::DeleteItem(_) => Ok(Mutation::Delete),
    }
}

/// An operation with this id, and with these counters in its vector.
fn op(
    alloc: Global,
    pair: Pair,
    counters: &[u64],
    writes: Writes<'_>,
) -> Result<Shared<Op>, Refusal> {
    let place = place(alloc, writes)?;
    let mutation = mutation(alloc, writes)?;
    fixtures::op(alloc, pair, counters, place, mutation)
}

/// Makes the operation of an assign, which has this id and is not committed.
fn make(rt: &impl Abort, alloc: Global, replica: &mut Replica, want: Pair) -> Result<(), Refusal>
    ensures { replica.new.document.entries ≡ replica.old.document.entries }
{
    let command = assigning(alloc, "a", "1")?;
    let op = replica.make(alloc, &command)?;
    assert_eq!(rt; pair_of(op.id), want);
    Ok(())
}

/// Client 0 assigns a text at this field of the root, under a serial above its earlier ones: the operation has this id. Returns the next
/// serial.
fn assign(
    rt: &impl Abort,
    alloc: Global,
    replica: &mut Replica,
    serial: u64,
    at: (&str, &str),
    want: Pair,
) -> Result<u64, Refusal>
    requires { IsAbove 0 serial replica.old.document.entries }
    ensures ok { IfOk result (λ next. IsAbove 0 next replica.new.document.entries) }
    ensures err { OnErr result (replica.new.document.entries ≡ replica.old.document.entries) }
{
    if serial == u64::MAX {
        return Err(Refusal::SerialEnd);
    }
    let command = assigning(alloc, at.0, at.1)?;
    let op = replica.make(alloc, &command)?;
    assert_eq!(rt; pair_of(op.id), want);
    let command = Shared::new(alloc, command)?;
    replica.commit_own(0, serial, command, op);
    Ok(serial + 1)
}

/// Delivers an operation, and asserts the answer.
fn deliver(
    rt: &impl Abort,
    replica: &mut Replica,
    op: Shared<Op>,
    want: Answer,
) -> Result<(), Refusal>
    ensures { replica.new.document.entries ≡ replica.old.document.entries }
{
    let id = op.id;
    let answer = replica.deliver(op);
    if answer == Err(Refusal::NoMemory) {
        return Err(Refusal::NoMemory);
    }
    assert_eq!(rt; answer, want, "to {id}");
    Ok(())
}

/// Drains, with a recorder as the publisher.
fn drain(alloc: Global, replica: &mut Replica) -> Result<(), Refusal>
    ensures { (serial : ℕ) → IsAbove 0 serial replica.old.document.entries → IsAbove 0 serial replica.new.document.entries }
{
    drain_after::<Brand>(alloc, replica)
}

/// Drains after a history that has this name.
fn drain_after<B: Before>(alloc: Global, replica: &mut Replica) -> Result<(), Refusal>
    requires before { (replica.old.own ≡ B.own) × (replica.old.document.members ≡ B.members) × (replica.old.document.entries ≡ B.entries) }
    ensures { (serial : ℕ) → IsAbove 0 serial replica.old.document.entries → IsAbove 0 serial replica.new.document.entries }
{
    let _running = replica.document();
    let mut recorder: Recorder<B> = Recorder::new(alloc);
    Ok(replica.drain(alloc, &mut recorder)?)
}

/// The id of the next one, if there is one.
fn copy(alloc: Global, replica: &mut Replica) -> Result<Option<Pair>, Refusal>
    ensures { replica.new.document.entries ≡ replica.old.document.entries }
{
    let Some(op) = replica.next_ready(alloc)? else {
        return Ok(None);
    };
    Ok(Some(pair_of(op.id)))
}

/// Appends the next one, if there is one. Returns its id.
fn append_next(alloc: Global, replica: &mut Replica) -> Result<Option<Pair>, Refusal>
    ensures { (serial : ℕ) → IsAbove 0 serial replica.old.document.entries → IsAbove 0 serial replica.new.document.entries }
{
    let Some(op) = replica.next_ready(alloc)? else {
        return Ok(None);
    };
    replica.commit_peer(op.id);
    Ok(Some(pair_of(op.id)))
}

/// Asserts the ids of the values at the field `key` of the root.
fn expect_values(
    rt: &impl Abort,
    alloc: Global,
    replica: &Replica,
    pairs: &[Pair],
) -> Result<(), Refusal> {
    let question = Question::Values(expression(alloc, "key")?);
    let Reading::Values(values) = replica.document().ask(alloc, &question)? else {
        return Err(Refusal::NoReading);
    };
    assert_eq!(rt; values.len(), pairs.len());
    for ((id, _), pair) in values.iter().zip(pairs) {
        assert_eq!(rt; pair_of(*id), *pair);
    }
    Ok(())
}

/// Asserts that the table has these numbers in this order.
fn expect_table(rt: &impl Abort, table: &ReplicaTable, numbers: &[u32]) {
    assert_eq!(rt; table.len(), numbers.len());
    for (index, number) in numbers.iter().enumerate() {
        assert_eq!(rt; table.at(index), ReplicaId::new(*number));
    }
}

/// Takes a turn. A client assigns under this serial. Returns the next serial.
fn try_turn(
    rt: &impl Abort,
    alloc: Global,
    replica: &mut Replica,
    serial: u64,
    turn: Turn<'_>,
) -> Result<u64, Refusal>
    requires { IsAbove 0 serial replica.old.document.entries }
    ensures ok { IfOk result (λ next. IsAbove 0 next replica.new.document.entries) }
    ensures err { OnErr result (IsAbove 0 serial replica.new.document.entries) }
{
    match turn {
        Turn::Assign(key, value, want) => {
            return assign(rt, alloc, replica, serial, (key, value), want);
        }
        Turn::Make(want) => make(rt, alloc, replica, want)?,
        Turn::Deliver(pair, counters, writes, want) => {
            let op = op(alloc, pair, counters, writes)?;
            deliver(rt, replica, op, want)?;
        }
        Turn::Drain(len, dropped) => {
            drain(alloc, replica)?;
            assert_eq!(rt; lengths(replica), (len, dropped));
        }
        Turn::Next(want) => assert_eq!(rt; append_next(alloc, replica)?, want),
        Turn::Copy(want) => assert_eq!(rt; copy(alloc, replica)?, want),
        Turn::Values(pairs) => expect_values(rt, alloc, replica, pairs)?,
        Turn::Table(numbers) => expect_table(rt, replica.document().table(), numbers),
        Turn::Lengths(len, dropped) => assert_eq!(rt; lengths(replica), (len, dropped)),
    }
    Ok(serial)
}

/// Asserts how the lengths after a turn whose allocation was refused compare with those before it. A drain may have appended and
/// dropped some, a search for the next one may have dropped some, and no other turn has changed anything.
fn expect_kept(rt: &impl Abort, turn: Turn<'_>, before: (usize, u64), after: (usize, u64)) {
    match turn {
        Turn::Drain(..) => assert!(rt; after.0 >= before.0 && after.1 >= before.1),
        Turn::Next(_) => assert!(rt; after.0 == before.0 && after.1 >= before.1),
        Turn::Copy(_) => assert!(rt; after.0 == before.0 && after.1 >= before.1),
        _ => assert_eq!(rt; after, before),
    }
}

/// Takes a turn, once more if an allocation is refused.
fn take_turn(
    rt: &impl Abort,
    alloc: Global,
    replica: &mut Replica,
    serial: u64,
    turn: Turn<'_>,
) -> Result<u64, Refusal>
    requires { IsAbove 0 serial replica.old.document.entries }
    ensures { IfOk result (λ next. IsAbove 0 next replica.new.document.entries) }
{
    let before = lengths(replica);
    let taken = try_turn(rt, alloc, replica, serial, turn);
    if taken != Err(Refusal::NoMemory) {
        return taken;
    }
    expect_kept(rt, turn, before, lengths(replica));
    try_turn(rt, alloc, replica, serial, turn)
}

/// Takes these turns in order. The client assigns from this serial on. Returns the next serial.
pub fn play(
    rt: &impl Abort,
    alloc: Global,
    replica: &mut Replica,
    serial: u64,
    turns: &[Turn<'_>],
) -> Result<u64, Refusal>
    requires { IsAbove 0 serial replica.old.document.entries }
    ensures { IfOk result (λ next. IsAbove 0 next replica.new.document.entries) }
{
    let mut serial = serial;
    for turn in turns {
        serial = take_turn(rt, alloc, replica, serial, *turn)?;
    }
    Ok(serial)
}

/// A replica with this number among these members.
pub fn new_replica(alloc: Global, own: u32, members: &[u32]) -> Result<Replica, Refusal>
    ensures { IfOk result (λ r. (serial : ℕ) → IsAbove 0 serial r.document.entries) }
{
    match Replica::new(alloc, own, members) {
        Err(Refusal::NoMemory) => Replica::new(alloc, own, members),
        made => made,
    }
}

/// Asserts that the history has these ids, the oldest first.
pub fn expect_history(rt: &impl Abort, replica: Replica, history: &[Pair]) {
    let entries = replica.into_entries();
    assert_eq!(rt; entries.len(), history.len());
    for (entry, pair) in entries.iter().zip(history) {
        assert_eq!(rt; pair_of(entry.op().id), *pair);
    }
}

/// Takes the first turns and then the last. The client's first serial is 1.
fn play_both(
    rt: &impl Abort,
    alloc: Global,
    replica: &mut Replica,
    first: &[Turn<'_>],
    second: &[Turn<'_>],
) -> Result<(), Refusal>
    requires { IsAbove 0 1 replica.old.document.entries }
{
    let serial = play(rt, alloc, replica, 1, first)?;
    play(rt, alloc, replica, serial, second)?;
    Ok(())
}

/// Plays the first turns and then the last on a new replica of this number among 1, 2 and 3. Asserts the ids that its history then has.
pub fn on_new_after(
    rt: &impl Abort,
    alloc: Global,
    own: u32,
    first: &[Turn<'_>],
    second: &[Turn<'_>],
    history: &[Pair],
) -> Result<(), Fail> {
    let mut replica = new_replica(alloc, own, &[1, 2, 3])?;
    play_both(rt, alloc, &mut replica, first, second)?;
    expect_history(rt, replica, history);
    Ok(())
}

/// Plays these turns on a new replica of this number among 1, 2 and 3. Asserts the ids that its history then has.
pub fn on_new(
    rt: &impl Abort,
    alloc: Global,
    own: u32,
    turns: &[Turn<'_>],
    history: &[Pair],
) -> Result<(), Fail> {
    on_new_after(rt, alloc, own, &[], turns, history)
}

/// Plays these turns on a new replica whose number is the only member. Asserts the ids that its history then has.
pub fn on_lone(
    rt: &impl Abort,
    alloc: Global,
    own: u32,
    turns: &[Turn<'_>],
    history: &[Pair],
) -> Result<(), Fail> {
    let mut replica = new_replica(alloc, own, &[own])?;
    play_both(rt, alloc, &mut replica, &[], turns)?;
    expect_history(rt, replica, history);
    Ok(())
}
