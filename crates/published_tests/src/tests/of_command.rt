//! A queue of submissions: its limits, full and empty, its order, and its two ends in threads of their own; and answers.

ghost use Rattle.std.specs.Prelude.{◌≡◌, ◌+◌, ◌++◌, ◌∷◌, [], IfOk, length};
ghost use Rattle.crossbeam_queue.specs.Passes.{view};
ghost use Rattle.command.specs.InOrder.{sender_hand};

use command::*;
use cursor::Expr;
use ids::Refusal;
use operation::{Command, Request, Shared, Submission};
use published::EngineName;
use std::alloc::Global;
use std::marker::Brand;
use std::process::Abort;
use std::sync::Wait;
use std::thread::{Threads, join, yield_now};

#[test]
fn a_queue_has_from_one_to_65536_slots(rt: HostRuntime) {
    let alloc = rt.alloc();
    assert!(rt; matches!(Queue::new::<Brand>(alloc, 0), Err(Refusal::BadConfig)));
    assert!(rt; matches!(Queue::new::<Brand>(alloc, 65_537), Err(Refusal::BadConfig)));
    assert!(rt; Queue::new::<Brand>(alloc, 65_536).is_ok());
}

#[test]
fn a_full_queue_gives_the_item_back(rt: HostRuntime) {
    let alloc = rt.alloc();
    let mut taker = Queue::new::<Brand>(alloc, 1).expect(&rt, "a queue");
    let mut sender = taker.sender().expect(&rt, "not refused");
    fill_and_empty(&rt, alloc, &mut taker, &mut sender)
}

/// Sends two submissions through a queue of capacity 1.
fn fill_and_empty<N: EngineName, R: Wait + Abort>(
    rt: &R,
    alloc: Global,
    taker: &mut Taker<N>,
    sender: &mut Sender<N>,
)
    requires { view sender.old.pass ≡ sender_hand 0 [] }
{
    assert!(rt; taker.take(rt).is_none());
    assert!(rt;
        sender
            .send(rt, envelope(alloc, 1).expect(rt, "not refused"))
            .is_ok()
    );
    let Err((why, back)) = sender.send(rt, envelope(alloc, 2).expect(rt, "not refused")) else {
        panic!(rt; "the queue has one slot");
    };
    assert!(rt; why == Refusal::QueueFull && back.submission().serial == 2);
    assert!(rt; serial_taken(rt, taker) == Some(1));
    assert!(rt; sender.send(rt, back).is_ok());
    assert!(rt; serial_taken(rt, taker) == Some(2));
    assert!(rt; serial_taken(rt, taker).is_none());
}

#[test]
fn a_client_sends_while_the_writer_takes(rt: HostRuntime) {
    let alloc = rt.alloc();
    let mut taker = Queue::new::<Brand>(alloc, 2).expect(&rt, "a queue");
    let mut sender = taker.sender().expect(&rt, "not refused");
    let shared = &rt;
    let (sent, taken) = join(
        &rt,
        || send_all(shared, alloc, &mut sender, 100),
        || take_all(shared, &mut taker, 100),
    );
    assert!(rt; sent.is_ok() && taken);
}

/// Sends submissions with the serials from 1 on, each again until there is room.
fn send_all<N: EngineName, R: Wait>(
    rt: &R,
    alloc: Global,
    sender: &mut Sender<N>,
    count: u64,
) -> Result<(), Refusal>
    requires { view sender.old.pass ≡ sender_hand 0 [] }
{
    for sent in 0..count {
        let next = envelope(alloc, sent + 1)?;
        send_until_sent(rt, sender, next);
    }
    Ok(())
}

/// Sends one submission, again until there is room.
fn send_until_sent<N: EngineName, R: Wait>(rt: &R, sender: &mut Sender<N>, submission: Envelope<N>)
    requires client { submission.answer.value.submission.client ≡ (view sender.old.pass).from }
    requires serial { submission.answer.value.submission.serial ≡ length (view sender.old.pass).put + 1 }
    ensures from { (view sender.new.pass).from ≡ (view sender.old.pass).from }
    ensures put { length (view sender.new.pass).put ≡ length (view sender.old.pass).put + 1 }
{
    let mut next = submission;
    for _ in rt.forever() {
        match sender.send(rt, next) {
            Ok(()) => return,
            Err((_, back)) => {
                next = back;
                yield_now();
            }
        }
    }
    unreachable!()
}

/// Takes this many submissions, and says whether their serials were 1, 2, 3 and so on.
fn take_all<N: EngineName, R: Wait>(rt: &R, taker: &mut Taker<N>, count: u64) -> bool {
    let mut taken = 0;
    for _ in rt.forever() {
        if taken >= count {
            return true;
        }
        match serial_taken(rt, taker) {
            None => yield_now(),
            Some(serial) if serial == taken + 1 => taken = serial,
            Some(_) => return false,
        }
    }
    unreachable!()
}

/// Takes the submission at the front, and returns its serial.
fn serial_taken<N: EngineName, R: Wait>(rt: &R, taker: &mut Taker<N>) -> Option<u64> {
    let submission = taker.take(rt)?;
    Some(submission.submission().serial)
}

/// A submission of client 0 with this serial, which asks for a delete at the root.
fn envelope<N: EngineName>(alloc: Global, serial: u64) -> Result<Envelope<N>, Refusal>
    ensures { IfOk result (λ e. (e.answer.value.submission.client ≡ 0) × (e.answer.value.submission.serial ≡ serial)) }
{
    let command = Command::Delete(Expr::root(alloc));
    let command = Shared::new(alloc, command)?;
    let submission = Submission {
        client: 0,
        serial,
        floor: 0,
        request: Request::Command(command),
    };
    let (envelope, _cell) = Envelope::new(alloc, Shared::new(alloc, submission)?)?;
    Ok(envelope)
}
