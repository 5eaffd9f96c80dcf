//! Only what was stored may be sent.

ghost use Rattle.std.specs.Prelude.{◌≡◌, ◌⊎◌, ◌≤◌, [], Ok, Err, IfErr, IfOk, length, max, min};
ghost use Rattle.ids.specs.declared.refusal.Refusal.TheVariants.{NoMemory};
ghost use Rattle.semantics.specs.Entries.{IsEntryHistory, applied, lacked_of};
ghost use Rattle.semantics.specs.Journals.{entries_from};
ghost use Rattle.semantics.specs.NamedIds.{vector_of};
ghost use Rattle.semantics.specs.Vectors.{Vector};
ghost use Rattle.semantics.specs.WorldHistory.{BeginsWith};
ghost use Rattle.peer_sync.specs.engine.published.Tokens.{GivesNoReading};
ghost use Rattle.records.specs.wire.Bundles.{bundle_form, bundle_text};
ghost use Rattle.records.specs.wire.Messages.{hello_form};
ghost use Rattle.peer_sync.specs.Sending.{hello_text, without_end};
ghost use Rattle.records.specs.Lines.{journal_text};
ghost use Rattle.records.specs.Lost.{is_beyond};
ghost use Rattle.journal.specs.Outgoing.{stored_of};

use crate::writing::{Written, write_from};
use ids::{Refusal, ReplicaId};
use peer_sync::{EngineName, ReaderToken, hello, read_hello};
use records::write_bundle;
use std::alloc::Global;
use std::marker::Model;

/// A token that answers peers with stored entries alone: those before a position that the application called stored. So no operation is
/// sent that a restart wouldn't bring back. Contracts see the number of the engine, what was seen and read, and how many entries are
/// stored.
#[derive(Drop)]
pub struct Outgoing<N: EngineName> {
    token: ReaderToken<N>,
    own: ReplicaId,
    stored: usize,
}

/// An answer to a hello.
#[derive(Debug, Drop)]
pub struct Answered {
    /// The bundle for the peer.
    pub lines: Vec<u8>,
    /// Whether the hello names more operations of this engine's own number than are known here. If so, this engine, or another one with its
    /// number, has handed out operations that its journal lost: it must write no more until an exchange has brought them back, or it needs
    /// a new number.
    pub is_beyond: bool,
}

impl<N: EngineName> Model for Outgoing<N> {
    ghost use Rattle.std.specs.Prelude.{◌≤◌, length};
    ghost use Rattle.std.specs.Coded.{codes};
    ghost use Rattle.semantics.specs.Codes.{coded_element};
    ghost use Rattle.journal.specs.Outgoing.{Sending};

    ghost Value = { Sending };

    ghost coded = { Prim.hlevel (codes, coded_element) };

    ghost view = { λ o. record { own = o.own; seen = o.token.seen; read = o.token.read; stored = o.stored } };

    ghost invariant = { λ o. o.stored ≤ length o.token.seen };
}

impl<N: EngineName> Outgoing<N> {
    /// An `Outgoing` that answers peers through this token, of the engine with this number. Nothing is called stored yet.
    pub fn new(token: ReaderToken<N>, own: ReplicaId) -> Outgoing<N>
        ensures { result ≡ record { own = own; seen = token.seen; read = token.read; stored = 0 } }
    {
        Outgoing {
            token,
            own,
            stored: 0,
        }
    }

    /// The lines of the entries that aren't called stored, of all that is published at this one read, as in `write_from`. Until they are
    /// called stored, it returns the same lines again, and perhaps more.
    ///
    /// # Errors
    /// As `write_from`.
    pub fn unstored(&mut self, alloc: Global) -> Result<Written, Refusal>
        ensures same { (self.new.own ≡ self.old.own) × (self.new.stored ≡ self.old.stored) }
        ensures grows { BeginsWith self.new.seen self.old.seen }
        ensures legal { IsEntryHistory N.own self.new.seen }
        ensures lines { IfOk result (λ w. w.lines.items ≡ journal_text (entries_from self.old.stored self.new.seen)) }
        ensures upto { IfOk result (λ w. w.upto ≡ length self.new.seen) }
        ensures published { IfOk result (λ _. self.new.read ≡ self.new.seen) }
        ensures err { IfErr result GivesNoReading }
    {
        write_from(alloc, &mut self.token, self.stored)
    }

    /// Calls the entries before this position stored: do so only once they would survive a loss of power. What is called stored stays so,
    /// and an entry that wasn't seen isn't stored.
    pub fn call_stored(&mut self, upto: usize)
        ensures { self.new ≡ record self.old { stored = max self.old.stored (min upto (length self.old.seen)) } }
    {
        self.stored = self.stored.max(upto.min(self.token.seen_len()));
    }

    /// The hello of all that is published, as in `hello`. It hands out no operation.
    ///
    /// # Errors
    /// As `hello`.
    pub fn hello(&mut self, alloc: Global) -> Result<Vec<u8>, Refusal>
        ensures same { (self.new.own ≡ self.old.own) × (self.new.stored ≡ self.old.stored) }
        ensures grows { BeginsWith self.new.seen self.old.seen }
        ensures legal { IsEntryHistory N.own self.new.seen }
        ensures line { IfOk result (λ text. text.items ≡ hello_text self.new.seen) }
        ensures reads_back { IfOk result (λ text. hello_form (without_end text.items) ≡ Ok (vector_of (applied self.new.seen))) }
        ensures published { IfOk result (λ _. self.new.read ≡ self.new.seen) }
        ensures err { IfErr result GivesNoReading }
    {
        hello(alloc, &mut self.token)
    }

    /// The answer to a hello, as `answer` gives it, from the entries that are called stored: what else is published comes with a later
    /// hello, once it is stored. A peer reads the same operations.
    ///
    /// # Errors
    /// As `answer`.
    pub fn answer(&mut self, alloc: Global, hello: &[u8]) -> Result<Answered, Refusal>
        ensures same { (self.new.own ≡ self.old.own) × (self.new.stored ≡ self.old.stored) }
        ensures grows { BeginsWith self.new.seen self.old.seen }
        ensures legal { IsEntryHistory N.own self.new.seen }
        ensures lines { IfOk result
            (λ a. (v : Vector) × (hello_form (without_end hello.now) ≡ Ok v)
            × (a.lines.items ≡ bundle_text [] (lacked_of (stored_of self.old) v))
            × (a.is_beyond ≡ is_beyond self.old.own self.new.seen v)) }
        ensures reads_back { IfOk result
            (λ a. (v : Vector) → hello_form (without_end hello.now) ≡ Ok v
            → bundle_form [] a.lines.items ≡ Ok (lacked_of (stored_of self.old) v)) }
        ensures published { IfOk result (λ _. self.new.read ≡ self.new.seen) }
        ensures err { IfErr result (λ why. GivesNoReading why ⊎ (hello_form (without_end hello.now) ≡ Err why)) }
        ensures bad { IfErr (hello_form (without_end hello.now))
            (λ why. ((result ≡ Err why) ⊎ (result ≡ Err NoMemory)) × (self.new ≡ self.old)) }
    {
        // What a token has seen is an entry history, even if the hello is refused.
        prove!(self.token.seen_len() <= usize::MAX);
        let vector = read_hello(alloc, hello)?;
        let ops = self.token.missing_before(alloc, self.stored, &vector)?;
        let lines = write_bundle(alloc, ops.as_slice())?;
        let known = self.token.vector(alloc)?;
        Ok(Answered {
            lines,
            is_beyond: known.at(self.own) < vector.at(self.own),
        })
    }
}
