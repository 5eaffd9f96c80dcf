//! The numbers of refusals, and why an allocation fails.

use ids::Refusal;
use std::alloc::{AllocError, Global};
use std::process::Abort;

/// A refusal, its number, and what is printed.
type Row = (Refusal, u8, &'static str);

const ROWS: &[Row] = &[
    (Refusal::NoMemory, 1, "E1"),
    (Refusal::AtHead, 2, "E2"),
    (Refusal::PastEnd, 3, "E3"),
    (Refusal::NotInList, 4, "E4"),
    (Refusal::TooDeep, 5, "E5"),
    (Refusal::KeyTooLong, 6, "E6"),
    (Refusal::TextTooLong, 7, "E7"),
    (Refusal::HistoryFull, 8, "E8"),
    (Refusal::QueueFull, 9, "E9"),
    (Refusal::SerialEnd, 10, "E10"),
    (Refusal::Foreign, 11, "E11"),
    (Refusal::BadFloor, 12, "E12"),
    (Refusal::UnknownReplica, 13, "E13"),
    (Refusal::BadCounter, 14, "E14"),
    (Refusal::BrokenChain, 15, "E15"),
    (Refusal::NamesNothing, 16, "E16"),
    (Refusal::NotClosed, 17, "E17"),
    (Refusal::BadPlace, 18, "E18"),
    (Refusal::InboxFull, 19, "E19"),
    (Refusal::OwnName, 20, "E20"),
    (Refusal::NotWhole, 21, "E21"),
    (Refusal::BadLine, 22, "E22"),
    (Refusal::NoReaderPlace, 23, "E23"),
    (Refusal::BadConfig, 24, "E24"),
    (Refusal::NoReading, 25, "E25"),
    (Refusal::Closed, 26, "E26"),
];

fn assert_printed(rt: &impl Abort, alloc: Global, row: &Row) {
    let (refusal, number, text) = *row;
    assert_eq!(rt; refusal.number(), number);
    assert_eq!(rt;
        format!(in alloc; "{refusal}").expect(rt, "memory").as_str(),
        text
    );
}

#[test]
fn refusals_are_printed_by_their_numbers(rt: HostRuntime) {
    for row in ROWS {
        assert_printed(&rt, rt.alloc(), row);
    }
}

#[test]
fn a_refused_allocation_is_no_memory(rt: HostRuntime) {
    assert_eq!(rt; Refusal::from(AllocError), Refusal::NoMemory);
}
