//! Lines that are too long.

use super::*;
use serving::{Found, next_line};

/// The lines of this input, if a line may have at most three bytes.
const FOUND: [(Found, &str); 6] = [
    (Found::Line, "abc"),
    (Found::TooLong, ""),
    (Found::Line, ""),
    (Found::TooLong, ""),
    (Found::Cut, "xyz"),
    (Found::End, ""),
];

/// A line that is too long is skipped, and the next one is found.
#[test]
fn long_lines_are_passed_over(rt: HostRuntime) {
    let mut input = "abc\nabcd\n\nabcdefghi\nxyz".as_bytes();
    let mut line = Vec::new(rt.alloc());
    for (found, text) in FOUND {
        let next = next_line(&mut input, 3, &mut line).expect(&rt, "input");
        assert_eq!(rt; next, found);
        assert_eq!(rt; line.as_slice(), text.as_bytes());
    }
}
