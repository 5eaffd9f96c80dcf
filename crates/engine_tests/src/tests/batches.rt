//! How many submissions a step takes, and in which order they are answered.

use super::playing::{Token, Told, Turn, on_new};
use super::*;

#[test]
fn a_queue_of_one_slot(rt: HostRuntime) {
    const TURNS: &[Turn] = &[
        Turn::Assign(0, 1, Ok(1)),
        Turn::Assign(0, 2, Err(Refusal::QueueFull)),
        Turn::Step(Step::Published(1)),
        // The refused call took no serial.
        Turn::Assign(0, 3, Ok(2)),
    ];
    let alloc = rt.alloc();
    on_new(&rt, alloc, config(&rt, alloc, 1, 4), TURNS)
}

#[test]
fn a_step_takes_no_more_than_a_batch(rt: HostRuntime) {
    const TURNS: &[Turn] = &[
        Turn::AssignAll(0, 3),
        Turn::Step(Step::Published(2)),
        Turn::Read(Token::Reader, "a", Some(2), 2),
        Turn::Poll(0, (0, 2), Told::Made(2, 1)),
        Turn::Poll(0, (0, 3), Told::Nothing),
        Turn::Step(Step::Published(1)),
        Turn::Poll(0, (0, 3), Told::Made(3, 2)),
        Turn::Step(Step::Idle),
    ];
    let alloc = rt.alloc();
    on_new(&rt, alloc, config(&rt, alloc, 4, 2), TURNS)
}

#[test]
fn a_batch_has_up_to_256_items(rt: HostRuntime) {
    const TURNS: &[Turn] = &[
        Turn::AssignAll(1, 300),
        Turn::Step(Step::Published(256)),
        Turn::Step(Step::Published(44)),
        Turn::Step(Step::Idle),
        Turn::Poll(1, (1, 300), Told::Made(300, 299)),
        Turn::Poll(1, (1, 1), Told::Made(1, 0)),
        Turn::Read(Token::Client(1), "a", Some(300), 300),
    ];
    let alloc = rt.alloc();
    on_new(&rt, alloc, config(&rt, alloc, 300, 256), TURNS)
}

#[test]
fn each_client_gets_its_own_answers(rt: HostRuntime) {
    const TURNS: &[Turn] = &[
        Turn::Assign(0, 1, Ok(1)),
        Turn::Assign(1, 2, Ok(1)),
        Turn::DeleteHead(0, Ok(2)),
        Turn::Assign(1, 3, Ok(2)),
        Turn::Assign(0, 4, Ok(3)),
        Turn::Step(Step::Published(5)),
        Turn::Poll(0, (0, 1), Told::Made(1, 0)),
        Turn::Poll(1, (1, 1), Told::Made(2, 1)),
        Turn::Poll(0, (0, 2), Told::Refused(Refusal::AtHead, 2)),
        Turn::Poll(1, (1, 2), Told::Made(3, 2)),
        Turn::Poll(0, (0, 3), Told::Made(4, 3)),
        Turn::Read(Token::Reader, "a", Some(4), 4),
    ];
    let alloc = rt.alloc();
    on_new(&rt, alloc, config(&rt, alloc, 8, 8), TURNS)
}
