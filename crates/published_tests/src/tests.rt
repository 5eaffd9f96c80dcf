//! A publisher and its tokens: what they answer before and after a publish, and what they learn.

ghost use Rattle.std.specs.Prelude.{◌≡◌, ◌≢◌, ◌∷◌, [], false, None, IsTrue, IfOk, OnOk};
ghost use Rattle.ids.specs.Members.{in_order};
ghost use Rattle.ids.specs.Tables.{lacks_room};
ghost use Rattle.semantics.specs.Entries.{IsEntryHistory, applied};
ghost use Rattle.semantics.specs.Joining.{table_after};
ghost use Rattle.semantics.specs.Stamped.{MayFollow};
ghost use Rattle.operation.specs.Alone.{alone_fault_of_op};
ghost use Rattle.operation.specs.Ops.{stamped_of};

mod of_command;

use cursor::{Expr, Step};
use document::{Document, Question, Reading};
use fixtures::{Pair, field, id_of};
use ids::{NamedVector, Refusal};
use operation::{Entry, Mutation, Op, Shared, check_alone};
use published::*;
use std::alloc::Global;
use std::marker::Brand;
use std::process::Abort;
use std::sync::Wait;
use std::thread::{Threads, join, yield_now};
use value::{Key, Scalar, Val};

/// The members; the publisher's own number is 9.
const MEMBERS: [u32; 3] = [1, 2, 9];

#[test]
fn one_thread(rt: HostRuntime) {
    alone::<Brand, _>(&rt, rt.alloc(), Opened::new())
}

fn alone<N: EngineName, R: Wait + Abort>(rt: &R, alloc: Global, opened: Opened)
    requires book { opened.seen.book ≡ N.book }
    requires own { N.own ≡ 9 }
    requires table { N.table ≡ in_order (1 ∷ 2 ∷ 9 ∷ []) }
{
    let (mut publisher, mut tokens) = new_publisher::<N, R>(rt, alloc, opened);
    mirrored(rt, alloc, &mut publisher, &mut tokens);
    let (_document, _notice) = publisher.end(rt);
}

/// A publisher of new documents, with two tokens.
fn new_publisher<N: EngineName, R: Wait + Abort>(
    rt: &R,
    alloc: Global,
    opened: Opened,
) -> (Publisher<N>, Vec<ReaderToken<N>>)
    requires book { opened.seen.book ≡ N.book }
    requires table { N.table ≡ in_order (1 ∷ 2 ∷ 9 ∷ []) }
    ensures { result.0.appended ≡ [] }
{
    let first = Document::new(alloc, &MEMBERS).expect(rt, "a document");
    let second = Document::new(alloc, &MEMBERS).expect(rt, "a document");
    let (publisher, tokens, _unnamed) = open::<N>(rt, alloc, opened, first, second, 2).expect(
        rt,
        "an engine",
    );
    (publisher, tokens)
}

/// Makes a document that holds what is appended, for a session.
fn mirrored<N: EngineName, R: Wait + Abort>(
    rt: &R,
    alloc: Global,
    publisher: &mut Publisher<N>,
    tokens: &mut Vec<ReaderToken<N>>,
)
    requires own { N.own ≡ 9 }
    requires table { N.table ≡ in_order (1 ∷ 2 ∷ 9 ∷ []) }
    requires new { publisher.old.appended ≡ [] }
{
    let mut mirror = Document::new(alloc, &MEMBERS).expect(rt, "a document");
    token_state(rt, alloc, &mut mirror, publisher, tokens)
}

#[test]
fn two_threads(rt: HostRuntime) {
    shared::<Brand, _>(&rt, rt.alloc(), Opened::new())
}

fn shared<N: EngineName + Send + Sync, R: Threads + Wait + Abort + Sync>(
    rt: &R,
    alloc: Global,
    opened: Opened,
)
    requires book { opened.seen.book ≡ N.book }
    requires own { N.own ≡ 9 }
    requires table { N.table ≡ in_order (1 ∷ 2 ∷ 9 ∷ []) }
{
    let (mut publisher, mut tokens) = new_publisher::<N, R>(rt, alloc, opened);
    meanwhile(rt, alloc, &mut publisher, &mut tokens);
    let (_document, _notice) = publisher.end(rt);
}

/// One thread publishes two entries, while another asks until it reads both.
fn meanwhile<N: EngineName + Send + Sync, R: Threads + Wait + Abort + Sync>(
    rt: &R,
    alloc: Global,
    publisher: &mut Publisher<N>,
    tokens: &mut Vec<ReaderToken<N>>,
)
    requires own { N.own ≡ 9 }
    requires table { N.table ≡ in_order (1 ∷ 2 ∷ 9 ∷ []) }
    requires new { publisher.old.appended ≡ [] }
{
    fill(rt, alloc, publisher);
    let mut token = tokens.pop().expect(rt, "not refused");
    let read = both(rt, alloc, publisher, &mut token);
    assert!(rt; read);
    assert!(rt; token.seen_len() == 2);
}

/// Appends two entries to a publisher that has none.
fn fill<N: EngineName, R: Abort>(rt: &R, alloc: Global, publisher: &mut Publisher<N>)
    requires own { N.own ≡ 9 }
    requires table { N.table ≡ in_order (1 ∷ 2 ∷ 9 ∷ []) }
    requires new { publisher.old.appended ≡ [] }
{
    let mut mirror = Document::new(alloc, &MEMBERS).expect(rt, "a document");
    write_two(rt, alloc, &mut mirror, publisher).expect(rt, "not refused")
}

/// Whether one thread published and the other read the number.
fn both<N: EngineName + Send + Sync, R: Threads + Wait + Sync>(
    rt: &R,
    alloc: Global,
    publisher: &mut Publisher<N>,
    token: &mut ReaderToken<N>,
) -> bool {
    let (published, read) = join(
        rt,
        move || publisher.publish(rt),
        move || wait_for(rt, alloc, token, 8),
    );
    published.is_ok() && read
}

/// Asks until the number is read. False if a read is refused.
fn wait_for<N: EngineName, R: Wait>(
    rt: &R,
    alloc: Global,
    token: &mut ReaderToken<N>,
    number: i64,
) -> bool {
    for _ in rt.forever() {
        match value(alloc, token) {
            Ok(Some(found)) if found == number => return true,
            Ok(_) => yield_now(),
            Err(_) => return false,
        }
    }
    unreachable!()
}

/// Takes two tokens for a session.
fn token_state<N: EngineName, R: Wait + Abort>(
    rt: &R,
    alloc: Global,
    mirror: &mut Document,
    publisher: &mut Publisher<N>,
    tokens: &mut Vec<ReaderToken<N>>,
)
    requires own { N.own ≡ 9 }
    requires table { N.table ≡ mirror.old.members }
    requires mirror { publisher.old.appended ≡ mirror.old.entries }
    requires legal { IsEntryHistory N.own mirror.old.entries }
{
    let mut late = tokens.pop().expect(rt, "not refused");
    let mut token = tokens.pop().expect(rt, "not refused");
    session(rt, alloc, mirror, publisher, &mut token, &mut late)
}

fn session<N: EngineName, R: Wait + Abort>(
    rt: &R,
    alloc: Global,
    mirror: &mut Document,
    publisher: &mut Publisher<N>,
    token: &mut ReaderToken<N>,
    late: &mut ReaderToken<N>,
)
    requires own { N.own ≡ 9 }
    requires table { N.table ≡ mirror.old.members }
    requires mirror { publisher.old.appended ≡ mirror.old.entries }
    requires legal { IsEntryHistory N.own mirror.old.entries }
{
    let opening = publisher.notice();
    write_two(rt, alloc, mirror, publisher).expect(rt, "not refused");
    // Nothing is published yet.
    check_value(rt, alloc, token, None, 0);
    publish(rt, publisher, 2);
    check_value(rt, alloc, token, Some(8), 2);
    // A token that has read nothing learns from a notice.
    check_lessons(rt, late, &opening, &publisher.notice());
    // Replica 5 is a nonmember.
    write(rt, alloc, mirror, publisher, (3, 5), 9).expect(rt, "memory");
    publish(rt, publisher, 3);
    check_value(rt, alloc, late, Some(9), 3);
    assert!(rt; token.seen_len() == 2);
}

/// Publishes, and asserts how many entries are published.
fn publish<N: EngineName, R: Wait + Abort>(rt: &R, publisher: &mut Publisher<N>, count: usize)
    ensures { publisher.new.appended ≡ publisher.old.appended }
{
    publisher.publish(rt).expect(rt, "not refused");
    assert!(rt; publisher.notice().len() == count);
}

/// Asserts the number at the key `a`, in a history of this length.
fn check_value<N: EngineName, R: Abort>(
    rt: &R,
    alloc: Global,
    token: &mut ReaderToken<N>,
    wanted: Option<i64>,
    length: usize,
) {
    let found = value(alloc, token).expect(rt, "not refused");
    assert!(rt; found == wanted);
    assert!(rt; token.seen_len() == length);
}

/// Asserts that a token that has seen nothing learns the longer of two notices, the opening and that of two entries.
fn check_lessons<N: EngineName, R: Abort>(
    rt: &R,
    token: &mut ReaderToken<N>,
    opening: &Notice<N>,
    two: &Notice<N>,
) {
    assert!(rt; token.seen_len() == 0);
    token.learn(opening);
    assert!(rt; token.seen_len() == 0);
    assert!(rt; token.begins(two));
    token.learn(two);
    assert!(rt; token.seen_len() == 2);
    assert!(rt; !token.begins(opening));
    token.learn(opening);
    assert!(rt; token.seen_len() == 2);
}

fn write_two<N: EngineName, R: Abort>(
    rt: &R,
    alloc: Global,
    mirror: &mut Document,
    publisher: &mut Publisher<N>,
) -> Result<(), Refusal>
    requires own { N.own ≡ 9 }
    requires table { N.table ≡ mirror.old.members }
    requires mirror { publisher.old.appended ≡ mirror.old.entries }
    requires legal { IsEntryHistory N.own mirror.old.entries }
    ensures table { OnOk result (N.table ≡ mirror.new.members) }
    ensures mirror { OnOk result (publisher.new.appended ≡ mirror.new.entries) }
    ensures legal { OnOk result (IsEntryHistory N.own mirror.new.entries) }
{
    write(rt, alloc, mirror, publisher, (1, 1), 7)?;
    write(rt, alloc, mirror, publisher, (2, 1), 8)?;
    Ok(())
}

/// Asks for the values at the key `a`.
fn question(alloc: Global) -> Result<Question, Refusal> {
    let key = Key::new(alloc, "a")?;
    let mut steps = Vec::new(alloc);
    steps.push(Step::Get(key))?;
    Ok(Question::Values(Expr::new(steps)))
}

/// The first whole number among what was read, if anything was.
fn first_number(reading: &Reading) -> Result<Option<i64>, Refusal> {
    let Reading::Values(values) = reading else {
        return Err(Refusal::BadLine);
    };
    match values.first() {
        None => Ok(None),
        Some((_, Scalar::Whole(number))) => Ok(Some(*number)),
        Some(_) => Err(Refusal::BadLine),
    }
}

/// The whole number at the key `a`, if there is one.
fn value<N: EngineName>(alloc: Global, token: &mut ReaderToken<N>) -> Result<Option<i64>, Refusal> {
    let question = question(alloc)?;
    let reading = token.ask(alloc, &question)?;
    first_number(&reading)
}

/// Appends that the number was assigned at the key `a` by an operation with this id, to the publisher and to a document that holds
/// the same.
fn write<N: EngineName, R: Abort>(
    rt: &R,
    alloc: Global,
    mirror: &mut Document,
    publisher: &mut Publisher<N>,
    id: Pair,
    number: i64,
) -> Result<(), Refusal>
    requires own { N.own ≡ 9 }
    requires table { N.table ≡ mirror.old.members }
    requires mirror { publisher.old.appended ≡ mirror.old.entries }
    requires legal { IsEntryHistory N.own mirror.old.entries }
    ensures table { N.table ≡ mirror.new.members }
    ensures mirror { OnOk result (publisher.new.appended ≡ mirror.new.entries) }
    ensures legal { OnOk result (IsEntryHistory N.own mirror.new.entries) }
{
    let op = assign(rt, alloc, mirror, id, number);
    check(rt, mirror, &op)?;
    assert!(rt; mirror.len() < 1_048_576);
    mirror.reserve(alloc, &op)?;
    publisher.append(Entry::Peer(op.clone()?))?;
    mirror.commit(Entry::Peer(op));
    Ok(())
}

/// The operation with this id that assigns the number at the key `a`, after all that was applied.
fn assign(
    rt: &impl Abort,
    alloc: Global,
    document: &Document,
    id: Pair,
    number: i64,
) -> Shared<Op> {
    let id = id_of(id).expect(rt, "an id");
    let place = field(alloc, "a").expect(rt, "a place");
    let op = Op {
        id,
        deps: NamedVector::of(alloc, document.applied().ids()).expect(rt, "not refused"),
        place,
        mutation: Mutation::Assign(Val::Scalar(Scalar::Whole(number))),
    };
    Shared::new(alloc, op).expect(rt, "memory")
}

/// Whether the operation has no fault by itself.
fn stands_alone(op: &Op) -> bool
    ensures { IsTrue result → alone_fault_of_op op.now ≡ None }
{
    check_alone(op).is_ok()
}

/// The fault, against the history, of a peer's operation that is ready and has none by itself.
fn check(rt: &impl Abort, document: &Document, op: &Op) -> Result<(), Refusal>
    ensures lawful { OnOk result (MayFollow (applied document.now.entries) (stamped_of op.now)) }
    ensures fits { OnOk result (lacks_room (table_after document.now.members document.now.entries) op.now.id.replica ≡ false) }
    ensures peer { op.now.id.replica ≢ 9 }
{
    assert!(rt; op.id.replica.number() != 9);
    assert!(rt; stands_alone(op));
    assert!(rt; document.ready(op));
    document.check(op)
}
