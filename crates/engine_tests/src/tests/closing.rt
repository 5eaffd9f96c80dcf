//! What is left of an engine that is closed.

ghost use Rattle.std.specs.Prelude.{◌≡◌};
ghost use Rattle.ids.specs.Members.{in_order};

use super::*;
use document::Question;
use operation::{Command, Entry, Reply};
use std::marker::Brand;
use std::process::Abort;
use std::sync::Wait;
use value::{Scalar, Val};

#[test]
fn what_is_not_taken_is_counted(rt: HostRuntime) {
    let alloc = rt.alloc();
    let parts = prepare(alloc, config(&rt, alloc, 4, 4)).expect(&rt, "an engine");
    one_left::<Brand, _>(&rt, alloc, parts)
}

fn assign(rt: &impl Abort, alloc: Global, number: i64) -> Command {
    Command::Assign(
        at(alloc, "a").expect(rt, "an expression"),
        Val::Scalar(Scalar::Whole(number)),
    )
}

fn one_left<N: EngineName, R: Wait + Abort>(rt: &R, alloc: Global, parts: Parts)
    requires book { parts.opened.seen.book ≡ N.book }
    requires own { parts.config.own ≡ N.own }
    requires table { in_order parts.config.members ≡ N.table }
{
    let (first, second) = (assign(rt, alloc, 1), assign(rt, alloc, 2));
    let (mut writer, mut clients, _readers) = open::<N>(rt, alloc, parts).expect(rt, "an engine");
    assert_eq!(rt; clients.len(), 2);
    let one = clients[0].submit(rt, alloc, first);
    let step = writer.step(rt, alloc);
    let two = clients[0].submit(rt, alloc, second);
    let last = close(rt, writer, clients);
    assert!(rt; one.is_ok() && two.is_ok());
    assert_eq!(rt; step, Step::Published(1));
    assert_one_left(rt, &last);
}

/// The owner of a client or a reader that is kept is told that the engine is closed, and gets the answers that came before.
#[test]
fn a_closed_engine_refuses_what_is_left(rt: HostRuntime) {
    let alloc = rt.alloc();
    let parts = prepare(alloc, config(&rt, alloc, 4, 4)).expect(&rt, "an engine");
    keep_two::<Brand, _>(&rt, alloc, parts)
}

/// Keeps a client and the reader when the engine closes.
fn keep_two<N: EngineName, R: Wait + Abort>(rt: &R, alloc: Global, parts: Parts)
    requires book { parts.opened.seen.book ≡ N.book }
    requires own { parts.config.own ≡ N.own }
    requires table { in_order parts.config.members ≡ N.table }
{
    let (mut writer, mut clients, mut readers) = open::<N>(rt, alloc, parts).expect(
        rt,
        "an engine",
    );
    let mut kept = clients.pop();
    let tickets = match &mut kept {
        Some(client) => answer_one(rt, alloc, &mut writer, client),
        None => panic!(rt; "no client"),
    };
    let last = close(rt, writer, clients);
    assert_eq!(rt; last.left, 1);
    let (answered, unanswered) = tickets;
    let mut client = kept.expect(rt, "a client");
    assert_answers(rt, &mut client, &answered, &unanswered);
    assert_closed(rt, alloc, &mut client);
    let mut reader = readers.pop().expect(rt, "a reader");
    let question = Question::Vector;
    assert!(rt; matches!(reader.ask(alloc, &question), Err(Refusal::Closed)));
}

/// Makes a client submit twice, and the writer answer only the first.
fn answer_one<N: EngineName, R: Wait + Abort>(
    rt: &R,
    alloc: Global,
    writer: &mut Writer<N>,
    client: &mut Client<N>,
) -> (Ticket, Ticket) {
    let answered = client
        .submit(rt, alloc, assign(rt, alloc, 1))
        .expect(rt, "a ticket");
    assert_eq!(rt; writer.step(rt, alloc), Step::Published(1));
    let unanswered = client
        .submit(rt, alloc, assign(rt, alloc, 2))
        .expect(rt, "a ticket");
    (answered, unanswered)
}

/// Asserts that an answer is still there, and that one that isn't there never comes.
fn assert_answers<N: EngineName, A: Abort>(
    rt: &A,
    client: &mut Client<N>,
    answered: &Ticket,
    unanswered: &Ticket,
) {
    assert!(rt; matches!(client.poll(answered), Ok(Some(Reply::Made(_, 0)))));
    assert!(rt; matches!(client.notice_of(answered), Ok(Some(_))));
    assert_eq!(rt; client.poll(unanswered), Err(Refusal::Closed));
    assert!(rt; matches!(client.notice_of(unanswered), Err(Refusal::Closed)));
}

/// Asserts that a client can neither submit nor ask.
fn assert_closed<N: EngineName, R: Wait + Abort>(rt: &R, alloc: Global, client: &mut Client<N>) {
    let submitted = client.submit(rt, alloc, assign(rt, alloc, 3));
    assert_eq!(rt; submitted, Err(Refusal::Closed));
    assert!(rt; client.ticket_of(3).is_err());
    let question = Question::Vector;
    assert!(rt; matches!(client.ask(alloc, &question), Err(Refusal::Closed)));
}

/// Asserts that one submission is left, and that the entry of the other is in the history.
fn assert_one_left<A: Abort>(rt: &A, last: &Final) {
    assert_eq!(rt; last.left, 1);
    assert_eq!(rt; last.history.len(), 1);
    assert!(rt;
        matches!(
            last.history.first(),
            Some(Entry::Own {
                client: 0,
                serial: 1,
                ..
            })
        )
    );
}
