//! What polls answer, and what tokens have then seen.

use super::playing::{Token, Told, Turn, on_new};
use super::*;

#[test]
fn a_new_engine_is_empty(rt: HostRuntime) {
    const TURNS: &[Turn] = &[
        Turn::Keys(Token::Reader, 0, 0),
        Turn::Keys(Token::Client(0), 0, 0),
        Turn::Poll(0, (0, 1), Told::Foreign),
        Turn::Step(Step::Idle),
    ];
    let alloc = rt.alloc();
    on_new(&rt, alloc, config(&rt, alloc, 4, 4), TURNS)
}

#[test]
fn who_knows_of_an_answer_reads_what_was_written(rt: HostRuntime) {
    const TURNS: &[Turn] = &[
        Turn::Assign(0, 1, Ok(1)),
        Turn::Poll(0, (0, 1), Told::Nothing),
        Turn::Read(Token::Client(0), "a", None, 0),
        Turn::Step(Step::Published(1)),
        Turn::Poll(0, (0, 1), Told::Made(1, 0)),
        Turn::Read(Token::Client(0), "a", Some(1), 1),
        Turn::Learn(Token::Reader, (0, 1), 1),
        Turn::Read(Token::Reader, "a", Some(1), 1),
        Turn::Learn(Token::Client(1), (0, 1), 1),
        Turn::Poll(0, (0, 1), Told::Made(1, 0)),
        Turn::Step(Step::Idle),
    ];
    let alloc = rt.alloc();
    on_new(&rt, alloc, config(&rt, alloc, 4, 4), TURNS)
}

#[test]
fn who_knows_nothing_reads_what_is_published(rt: HostRuntime) {
    const TURNS: &[Turn] = &[
        Turn::Assign(0, 1, Ok(1)),
        Turn::Step(Step::Published(1)),
        Turn::Read(Token::Reader, "a", Some(1), 1),
        Turn::Read(Token::Client(1), "a", Some(1), 1),
    ];
    let alloc = rt.alloc();
    on_new(&rt, alloc, config(&rt, alloc, 4, 4), TURNS)
}

#[test]
fn a_refused_command_changes_nothing(rt: HostRuntime) {
    const TURNS: &[Turn] = &[
        Turn::DeleteHead(1, Ok(1)),
        Turn::Step(Step::Published(1)),
        Turn::Poll(1, (1, 1), Told::Refused(Refusal::AtHead, 0)),
        Turn::Keys(Token::Client(1), 0, 0),
    ];
    let alloc = rt.alloc();
    on_new(&rt, alloc, config(&rt, alloc, 4, 4), TURNS)
}

#[test]
fn a_refusal_names_a_length_that_its_client_had_seen(rt: HostRuntime) {
    const TURNS: &[Turn] = &[
        Turn::Assign(0, 1, Ok(1)),
        Turn::Step(Step::Published(1)),
        Turn::Poll(0, (0, 1), Told::Made(1, 0)),
        Turn::DeleteHead(0, Ok(2)),
        Turn::Step(Step::Published(1)),
        Turn::Poll(0, (0, 2), Told::Refused(Refusal::AtHead, 1)),
    ];
    let alloc = rt.alloc();
    on_new(&rt, alloc, config(&rt, alloc, 4, 4), TURNS)
}

#[test]
fn only_the_own_tickets_are_answered(rt: HostRuntime) {
    const TURNS: &[Turn] = &[
        Turn::Assign(0, 1, Ok(1)),
        Turn::Step(Step::Published(1)),
        Turn::Poll(0, (0, 0), Told::Foreign),
        Turn::Poll(0, (0, 2), Told::Foreign),
        Turn::Poll(1, (0, 1), Told::Foreign),
        Turn::Poll(1, (1, 1), Told::Foreign),
        Turn::Poll(0, (0, 1), Told::Made(1, 0)),
        Turn::TicketOf(0, 0, false),
        Turn::TicketOf(0, 1, true),
        Turn::TicketOf(0, 2, false),
        Turn::TicketOf(1, 1, false),
    ];
    let alloc = rt.alloc();
    on_new(&rt, alloc, config(&rt, alloc, 4, 4), TURNS)
}

#[test]
fn serials_end(rt: HostRuntime) {
    const TURNS: &[Turn] = &[
        Turn::Assign(0, 1, Ok(1)),
        // The queue is full too, which is tested later.
        Turn::Assign(0, 2, Err(Refusal::SerialEnd)),
        Turn::Assign(1, 2, Err(Refusal::QueueFull)),
        Turn::Step(Step::Published(1)),
        Turn::Assign(0, 2, Err(Refusal::SerialEnd)),
        Turn::Assign(1, 2, Ok(1)),
    ];
    let alloc = rt.alloc();
    let config = Config {
        serials: 1,
        ..config(&rt, alloc, 1, 4)
    };
    on_new(&rt, alloc, config, TURNS)
}

#[test]
fn operations_of_peers_wait_until_they_are_ready(rt: HostRuntime) {
    const TURNS: &[Turn] = &[
        Turn::Deliver(1, 2, Ok(1)),
        Turn::Step(Step::Published(1)),
        Turn::Poll(1, (1, 1), Told::Kept(0)),
        Turn::Read(Token::Reader, "b", None, 0),
        Turn::Deliver(1, 1, Ok(2)),
        Turn::Deliver(1, 1, Ok(3)),
        Turn::Step(Step::Published(2)),
        Turn::Poll(1, (1, 2), Told::Kept(2)),
        Turn::Poll(1, (1, 3), Told::Known(2)),
        Turn::Read(Token::Reader, "b", Some(2), 2),
        Turn::Assign(0, 1, Ok(1)),
        Turn::Step(Step::Published(1)),
        Turn::Poll(0, (0, 1), Told::Made(3, 2)),
    ];
    let alloc = rt.alloc();
    on_new(&rt, alloc, config(&rt, alloc, 4, 4), TURNS)
}
