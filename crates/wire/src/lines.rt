//! The lines of a text.

ghost use Rattle.std.specs.Prelude.{◌≡◌, ◌≢◌, ◌+◌, ◌<◌, ◌^◌, [], length, IfNone, IfSome, MatchOption};
ghost use Rattle.wire.specs.Lines.{HasNoEnd, IsFirstLine};

use memchr::memchr;

/// The byte that ends each line.
pub const LINE_END: u8 = b'\n';

/// A line of a text.
#[derive(Clone, Copy, Debug)]
pub struct Line<'a> {
    /// Counted from 1.
    pub number: u64,
    /// Without the byte that ends it.
    pub text: &'a [u8],
}

/// The remaining lines of a text.
#[derive(Debug, Drop)]
pub struct Lines<'a> {
    /// How many lines were taken.
    pub taken: u64,
    /// The bytes after those lines.
    pub rest: &'a [u8],
    ghost fits: { taken + length rest.now < 2 ^ 64 },
}

impl<'a> Lines<'a> {
    /// An iterator over the lines of these bytes.
    pub fn new(bytes: &'a [u8]) -> Lines<'a>
        ensures none_taken { result.taken ≡ 0 }
        ensures all_left { result.rest.now ≡ bytes.entry.now }
    {
        let _length = bytes.len();
        Lines {
            taken: 0,
            rest: bytes,
        }
    }

    /// The next line that has its line feed.
    pub fn take_line(&mut self) -> Option<Line<'a>>
        ensures line { IfSome result (λ line. IsFirstLine self.old.rest.now line.text.now self.new.rest.now) }
        ensures number { IfSome result (λ line. (line.number ≡ self.old.taken + 1) × (self.new.taken ≡ line.number)) }
        ensures none { IfNone result
            (HasNoEnd self.old.rest.now × (self.new.rest.now ≡ self.old.rest.now) × (self.new.taken ≡ self.old.taken)) }
    {
        let rest = self.rest;
        let end = memchr(LINE_END, rest)?;
        self.rest = &rest[end + 1..];
        self.taken += 1;
        Some(Line {
            number: self.taken,
            text: &rest[..end],
        })
    }

    /// The number of a last line without a line feed, if there is one.
    pub fn cut_line(&self) -> Option<u64>
        ensures { MatchOption result (self.now.rest.now ≡ []) (λ number. (number ≡ self.now.taken + 1) × (self.now.rest.now ≢ [])) }
    {
        if self.rest.is_empty() {
            return None;
        }
        Some(self.taken + 1)
    }
}
