//! Which queue an engine has, according to its logbook: so everything that has a name of one engine is of one queue.

ghost use Rattle.std.specs.Prelude.{◌≡◌, IfOk};
ghost use Rattle.atomic_table.specs.Seated.{TableId};
ghost use Rattle.published.specs.Rules.{IsQueueOf, queue_word_of};

use crate::book::{Law, Nothing};
use crate::notice::EngineName;
use crate::written::Written;
use atomic_table::Seat;
use logbook::{Offer, Plain, Play, Seen, Word};
use std::alloc::AllocError;
use std::marker::PhantomData;

/// The step that names the queue.
struct Name;

impl Play<Written, u64> for Name {
    ghost use Rattle.published.specs.Rules.{Names};

    ghost then = { Names };
}

impl<S, D> Plain<Seat<S, D>, Written, u64> for Name {
    ghost use Rattle.std.specs.Prelude.{None};
    ghost use Rattle.published.specs.declared.written.Written.TheVariants.{Queue};

    ghost ask = { λ seat. Queue seat.table_id };

    ghost state = { λ seat. None };
}

/// What names the queue of a new engine: the word that counts its queues.
#[derive(Drop)]
pub struct Unnamed<N: EngineName> {
    word: Word<Written, u64, Law>,
    seen: Seen<Written, u64, Law>,
    of: PhantomData<N>,
    pub ghost word_is: { word ≡ queue_word_of N.book },
    pub ghost book: { seen.book ≡ N.book },
}

/// Which queue the engine has, known in proofs alone: it is zero-sized.
#[derive(Drop)]
pub struct QueueName<N: EngineName> {
    seen: Seen<Written, u64, Law>,
    of: PhantomData<N>,
    pub ghost book: { seen.book ≡ N.book },
}

impl<N: EngineName> Unnamed<N> {
    pub(crate) fn new(word: Word<Written, u64, Law>, seen: Seen<Written, u64, Law>) -> Unnamed<N>
        requires { (word ≡ queue_word_of N.book) × (seen.book ≡ N.book) }
    {
        Unnamed {
            word,
            seen,
            of: PhantomData,
        }
    }

    /// Names the queue whose table this seat is in. Allocates nothing.
    ///
    /// # Errors
    /// `AllocError` if a queue was named before. That never happens: only this value can name one, and it is consumed by that. No contract
    /// says so.
    pub fn name<S, D>(self, seat: &Seat<S, D>) -> Result<QueueName<N>, AllocError>
        ensures { IfOk result (λ name. IsQueueOf seat.now.table_id name.seen.log) }
    {
        let Unnamed { word, mut seen, of } = self;
        let mut offer: Offer<Written, u64, Law, Nothing> = seen.plain::<Nothing, Seat<S, D>, Name>(
            seat,
        );
        let mut pen = seen.no_pen();
        let found = word.compare_exchange::<Name, Nothing>(0, 1, &mut seen, &mut offer, &mut pen);
        if found != 0 {
            return Err(AllocError);
        }
        Ok(QueueName { seen, of })
    }
}

impl<N: EngineName> QueueName<N> {
    /// The same name again.
    pub fn again(&self) -> QueueName<N>
        ensures { result.seen.log ≡ self.now.seen.log }
    {
        QueueName {
            seen: self.seen.again(),
            of: PhantomData,
        }
    }

    /// Does nothing: its contract says that two names of one engine are of one queue.
    pub fn agree(&self, other: &QueueName<N>)
        ensures { (q r : TableId) → IsQueueOf q self.now.seen.log → IsQueueOf r other.now.seen.log → q ≡ r }
    {
        let mut both = self.seen.again();
        both.learn(&other.seen);
    }
}
