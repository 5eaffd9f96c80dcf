//! Where the plays write, and the texts that they write.

use crate::draws::Hands;
use engine::{Expr, Refusal, Scalar, Val};
use std::alloc::Global;

/// Lines of notes and values of fields.
const LINES: [&str; 16] = [
    "a",
    "e",
    "t",
    "and",
    "the ",
    "milk, 2 l",
    "call back before noon",
    "Käse und Brot",
    "日本語の行",
    "- [ ] ask whether the \"draft\" is final",
    "https://example.org/path/to/a/page?with=some&words=1",
    "one\ttwo\tthree\n",
    "C:\\Users\\notes\\2026\\november.txt",
    "Lorem ipsum dolor sit amet, consectetur adipiscing elit, sed do eiusmod tempor incididunt ut labore et dolore magna aliqua.",
    "0.5",
    "true",
];

/// Names of maps, from the root of a configuration down.
const LEVELS: [&str; 8] = [
    "application",
    "settings-of-the-window-on-the-left-side",
    "settings-of-the-window-on-the-left",
    "network",
    "users",
    "editor",
    "colours",
    "shortcuts",
];

/// A value: mostly a text, else a number of either sign, a boolean or null.
pub fn drawn_value(alloc: Global, hands: &mut Hands) -> Result<Val, Refusal> {
    match hands.below(16) {
        0 => Ok(Val::Scalar(Scalar::Null)),
        1 => Ok(Val::Scalar(Scalar::Bool(hands.below(2) == 1))),
        2 | 3 | 4 => Ok(Val::Scalar(Scalar::Whole(i64::from(hands.below(1_000_000)) - 500_000))),
        _ => Val::text(alloc, LINES[hands.below(16) as usize % 16]),
    }
}

/// A name with a number, in letters.
pub fn numbered(alloc: Global, name: &str, number: u32) -> Result<String, Refusal> {
    let mut text = String::new(alloc);
    text.push_str(name)?;
    let mut rest = number;
    for _ in 0..5 {
        text.push(char::from(b'a' + (rest % 16) as u8))?;
        rest /= 16;
    }
    Ok(text)
}

/// The field of the root with this name.
pub fn field(alloc: Global, name: &str) -> Result<Expr, Refusal> {
    Expr::root(alloc).get(alloc, name)
}

/// The item of the list at this field of the root, counted from 1.
pub fn item(alloc: Global, name: &str, index: u32) -> Result<Expr, Refusal> {
    Ok(field(alloc, name)?.idx(u64::from(index))?)
}

/// A leaf of the configuration, three to six maps deep; each number has a place of its own.
pub fn leaf(alloc: Global, number: u32) -> Result<Expr, Refusal> {
    let mut place = field(alloc, "config")?;
    let mut rest = number;
    for _ in 0..1 + number % 4 {
        place = place.get(alloc, LEVELS[(rest % 8) as usize])?;
        rest /= 8;
    }
    let name = numbered(alloc, "option-", number)?;
    place.get(alloc, name.as_str())
}

/// A field of the one map that is seven keys deep.
pub fn deep_leaf(alloc: Global, number: u32) -> Result<Expr, Refusal> {
    let mut place = field(alloc, "config")?;
    for level in 0..6 {
        place = place.get(alloc, LEVELS[level])?;
    }
    let name = numbered(alloc, "option-", number)?;
    place.get(alloc, name.as_str())
}
