//! A bundle that is cut after any of its bytes.

use super::opening::on_two;
use super::playing::Side::Two;
use super::playing::Turn::{Hello, Receive, Seen, Step};
use super::*;
use std::alloc::Global;
use std::process::Abort;
use std::sync::Wait;

/// The five lines of a profile, and how many bytes the first ones have, line feeds included: none of them, the first, the first two, and so
/// on.
#[derive(Clone, Copy)]
struct Bundle {
    text: &'static str,
    whole: [usize; 6],
}

/// As an engine sends them.
const SENT: Bundle = Bundle {
    text: FIVE,
    whole: [0, 31, 83, 147, 213, 281],
};

/// In profile 1.
const ALONE: Bundle = Bundle {
    text: FIVE_ALONE,
    whole: [0, 30, 81, 144, 209, 276],
};

/// The hello of an engine that has handled none of them, the first, the first two, and so on.
const HELLOS: [&str; 6] = [
    NEW,
    "[\"hello\",[[1,1]]]\n",
    "[\"hello\",[[1,2]]]\n",
    "[\"hello\",[[1,3]]]\n",
    "[\"hello\",[[1,4]]]\n",
    "[\"hello\",[[1,5]]]\n",
];

/// A cut within a line stops there, and the whole lines before it are received, of a bundle as it is sent.
#[test]
fn a_cut_stops_after_the_last_whole_line(rt: HostRuntime) {
    assert_eq!(rt; SENT.text.len(), 281);
    for length in 0..=281 {
        receive_cut(&rt, rt.alloc(), &SENT, length);
    }
}

/// The same for a bundle of profile 1.
#[test]
fn a_cut_stops_in_profile_1_too(rt: HostRuntime) {
    assert_eq!(rt; ALONE.text.len(), 276);
    for length in 0..=276 {
        receive_cut(&rt, rt.alloc(), &ALONE, length);
    }
}

/// Asserts what a new engine receives of the first `length` bytes of the five lines.
fn receive_cut<R: Wait + Abort>(rt: &R, alloc: Global, bundle: &Bundle, length: usize) {
    let cut = bundle.text.get(..length).expect(rt, "no such cut");
    let (whole, bytes) = whole_lines(bundle, length);
    let stopped = if bytes == length {
        None
    } else {
        Some(((whole as u64).saturating_add(1), Refusal::BadLine))
    };
    let (first, handled) = match whole {
        0 => (0, engine::Step::Idle),
        count => (1, engine::Step::Published(count)),
    };
    let said = HELLOS.get(whole).expect(rt, "no such hello");
    on_two(
        rt,
        alloc,
        16,
        &[&[
            (Two, Receive(cut, first, whole as u64, bytes, stopped)),
            (Two, Step(handled)),
            (Two, Hello(said)),
            (Two, Seen(whole)),
        ]],
    )
}

/// How many whole lines there are in this many bytes, and how many bytes they have.
fn whole_lines(bundle: &Bundle, length: usize) -> (usize, usize) {
    let mut whole = 0;
    let mut bytes = 0;
    for (lines, end) in bundle.whole.iter().enumerate() {
        if *end <= length {
            whole = lines;
            bytes = *end;
        }
    }
    (whole, bytes)
}
