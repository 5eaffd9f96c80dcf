//! The one history of an engine, as a logbook that exists in proofs alone, and the beginnings of it that were seen.

ghost use Rattle.std.specs.Prelude.{◌≡◌, ◌+◌, ◌==◌, ◌<◌, ◌≤◌, ◌^◌, ◌++◌, ◌∷◌, [], length, MatchBool};
ghost use mathlib.Core.List.{IsPrefix};
ghost use Rattle.published.specs.Rules.{entries_in, head_of, queue_word_of};

use crate::notice::EngineName;
use crate::queue_name::Unnamed;
use crate::written::Written;
use document::Entry;
use logbook::{Gain, Offer, Plain, Play, Rule, Seen, Start, Word};
use std::marker::Model;

/// The rule of the logbook: its words count the entries and the queues.
pub struct Law;

impl Rule<Written, u64> for Law {
    ghost use Rattle.std.specs.Prelude.{[]};
    ghost use base.Fml.{ftrue};
    ghost use Rattle.published.specs.Rules.{CountsWritten};

    ghost holds = { λ cells log. CountsWritten cells log };

    ghost first = { [] };

    ghost hinted = { λ n log. Unit {0} };

    ghost shows = { λ log. [] };

    ghost keeps = { λ names log. ftrue };

    ghost moves = { λ ask before after answer. Unit {0} };
}

/// A step of the logbook exchanges nothing with its caller.
pub struct Nothing;

impl Gain<Written, u64> for Nothing {
    ghost use base.Fml.{ftrue};

    ghost after = { λ names about answer. ftrue };
}

/// The step that adds an entry.
pub struct Add;

impl Play<Written, u64> for Add {
    ghost use Rattle.published.specs.Rules.{Adds};

    ghost then = { Adds };
}

impl Plain<Entry, Written, u64> for Add {
    ghost use Rattle.std.specs.Prelude.{None};
    ghost use Rattle.published.specs.declared.written.Written.TheVariants.{Entry};

    ghost ask = { λ entry. Entry entry };

    ghost state = { λ entry. None };
}

/// A new, empty history. It allocates nothing beyond its fields; the caller that opens an engine names it.
#[derive(Drop)]
pub struct Opened {
    head: Word<Written, u64, Law>,
    queue: Word<Written, u64, Law>,
    seen: Seen<Written, u64, Law>,
    pub ghost empty: { seen.log ≡ [] },
    pub ghost head_is: { head ≡ head_of seen.book },
    pub ghost queue_is: { queue ≡ queue_word_of seen.book },
}

impl Opened {
    /// Opens a history that nobody else knows.
    pub fn new() -> Opened {
        let (seen, mut first, mut second) = Seen::open(Start::alone(), 0, 0);
        Opened {
            head: Word::tracked(0, &mut first),
            queue: Word::tracked(0, &mut second),
            seen,
        }
    }

    /// The word that counts the entries of the history, the history's empty beginning, and what names the engine's queue.
    pub(crate) fn start<N: EngineName>(self) -> (Word<Written, u64, Law>, Point, Unnamed<N>)
        requires { self.seen.book ≡ N.book }
        ensures head { result.0 ≡ head_of self.seen.book }
        ensures point { result.1 ≡ record { log = []; book = self.seen.book } }
    {
        let Opened { head, queue, seen } = self;
        let unnamed = Unnamed::new(queue, seen.again());
        (head, Point { count: 0, seen }, unnamed)
    }
}

/// A point in some engine's history: all entries up to it. It is a counter; the entries exist in proofs alone.
/// Contracts see the entries, the oldest first, and the name of the history.
#[derive(Drop)]
pub struct Point {
    count: u64,
    seen: Seen<Written, u64, Law>,
}

impl Model for Point {
    ghost use Rattle.std.specs.Prelude.{◌≡◌, length};
    ghost use Rattle.std.specs.Coded.{codes};
    ghost use Rattle.semantics.specs.Codes.{coded_element};
    ghost use Rattle.published.specs.Beginnings.{Beginning};
    ghost use Rattle.published.specs.Rules.{entries_in};

    ghost Value = { Beginning };

    ghost coded = { Prim.hlevel (codes, coded_element) };

    ghost view = { λ p. record { log = entries_in p.seen.log; book = p.seen.book } };

    ghost invariant = { λ p. p.count ≡ length (entries_in p.seen.log) };
}

impl Point {
    /// How many entries there are up to this point.
    pub fn len(&self) -> u64
        ensures { result ≡ length self.now.log }
    {
        self.count
    }

    /// The same point again.
    pub fn again(&self) -> Point
        ensures { result ≡ self.now }
    {
        Point {
            count: self.count,
            seen: self.seen.again(),
        }
    }

    /// Does nothing: its contract says that the two are beginnings of one history, and the shorter is a prefix of the longer.
    pub fn compare(&self, other: &Point)
        requires { other.now.book ≡ self.now.book }
        ensures shorter { length self.now.log ≤ length other.now.log → IsPrefix self.now.log other.now.log }
        ensures longer { length other.now.log ≤ length self.now.log → IsPrefix other.now.log self.now.log }
    {
        let _ = (self.count, other.count);
        let mut both = self.seen.again();
        both.learn(&other.seen);
    }

    /// Adds an entry after all that was seen, and returns whether it did. It doesn't if the history is longer than what was seen; the
    /// longer one is then seen.
    pub fn extend(&mut self, head: &Word<Written, u64, Law>, entry: &Entry) -> bool
        requires head { head.now ≡ head_of self.old.book }
        requires room { length self.old.log < 2 ^ 62 }
        ensures book { self.new.book ≡ self.old.book }
        ensures added { MatchBool result (self.new.log ≡ self.old.log ++ entry.now ∷ []) (IsPrefix self.old.log self.new.log) }
    {
        let mut offer: Offer<Written, u64, Law, Nothing> = self
            .seen
            .plain::<Nothing, Entry, Add>(entry);
        let mut pen = self.seen.no_pen();
        let count = self.count;
        let found = head.compare_exchange::<Add, Nothing>(
            count,
            count + 1,
            &mut self.seen,
            &mut offer,
            &mut pen,
        );
        self.count = if found == count { count + 1 } else { found };
        found == count
    }
}
