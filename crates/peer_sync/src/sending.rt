//! What an engine sends to a peer: its hello, and answers to the peer's hellos.

ghost use Rattle.std.specs.Prelude.{◌≡◌, ◌⊎◌, [], IfOk, IfErr, Ok, Err};
ghost use Rattle.ids.specs.declared.refusal.Refusal.TheVariants.{NoMemory};
ghost use Rattle.semantics.specs.Entries.{IsEntryHistory, applied, lacked_of};
ghost use Rattle.semantics.specs.NamedIds.{vector_of};
ghost use Rattle.semantics.specs.Vectors.{Vector};
ghost use Rattle.semantics.specs.WorldHistory.{BeginsWith};
ghost use Rattle.wire.specs.Bundles.{bundle_form, bundle_text};
ghost use Rattle.wire.specs.Forms.{IsRead};
ghost use Rattle.wire.specs.Messages.{hello_form};
ghost use Rattle.engine.specs.published.Tokens.{GivesNoReading};
ghost use Rattle.peer_sync.specs.Sending.{hello_text, without_end};

use engine::{EngineName, ReaderToken};
use ids::{NamedVector, Refusal};
use std::alloc::Global;
use wire::{read_vector, write_bundle, write_vector};

/// The line, with its line feed, of the vector of all that the token sees in this read, which it has then seen. A peer reads it as
/// that vector.
///
/// # Errors
/// `NoReading` if the copies gave no reading, `Closed` if the engine is closed, `NoMemory` if allocation fails. The token may then have
/// seen more than before, never less.
pub fn hello<N: EngineName>(alloc: Global, token: &mut ReaderToken<N>) -> Result<Vec<u8>, Refusal>
    ensures grows { BeginsWith token.new.seen token.old.seen }
    ensures legal { IsEntryHistory N.own token.new.seen }
    ensures line { IfOk result (λ text. text.items ≡ hello_text token.new.seen) }
    ensures reads_back { IfOk result (λ text. hello_form (without_end text.items) ≡ Ok (vector_of (applied token.new.seen))) }
    ensures published { IfOk result (λ _. token.new.read ≡ token.new.seen) }
    ensures err { IfErr result GivesNoReading }
{
    let vector = token.vector(alloc)?;
    // What a token has seen is a history of its engine, so all counters fit a line.
    prove!(token.seen_len() <= usize::MAX);
    let mut line = write_vector(alloc, &vector)?;
    line.push(b'\n')?;
    Ok(line)
}

/// The answer to a hello, which is given with its line feed or without it: the lines, each with its line feed, of the operations that its
/// vector doesn't cover, the oldest first, of all that the token sees in this one read, which it has then seen. A peer reads the same
/// operations. Takes time and memory in proportion to what is missing: for the empty vector, that is the whole history as one text.
///
/// # Errors
/// First `BadLine` if the hello isn't such a line, as in `read_vector`; the token is then unchanged. Then `NoReading` if the copies gave no
/// reading, `Closed` if the engine is closed: the token may have seen more, never less. `NoMemory`, at any moment, if allocation fails.
pub fn answer<N: EngineName>(
    alloc: Global,
    token: &mut ReaderToken<N>,
    hello: &[u8],
) -> Result<Vec<u8>, Refusal>
    ensures grows { BeginsWith token.new.seen token.old.seen }
    ensures legal { IsEntryHistory N.own token.new.seen }
    ensures lines { IfOk result
        (λ text. (v : Vector) × (hello_form (without_end hello.now) ≡ Ok v)
        × (text.items ≡ bundle_text [] (lacked_of token.new.seen v))) }
    ensures reads_back { IfOk result
        (λ text. (v : Vector) → hello_form (without_end hello.now) ≡ Ok v
        → bundle_form [] text.items ≡ Ok (lacked_of token.new.seen v)) }
    ensures published { IfOk result (λ _. token.new.read ≡ token.new.seen) }
    ensures err { IfErr result (λ why. GivesNoReading why ⊎ (hello_form (without_end hello.now) ≡ Err why)) }
    ensures bad { IfErr (hello_form (without_end hello.now))
        (λ why. ((result ≡ Err why) ⊎ (result ≡ Err NoMemory)) × (token.new ≡ token.old)) }
{
    // What a token has seen is an entry history, even if the hello is refused.
    prove!(token.seen_len() <= usize::MAX);
    let vector = read_hello(alloc, hello)?;
    let ops = token.missing(alloc, &vector)?;
    // It is a history of its engine, so a line can carry each of its operations.
    prove!(token.seen_len() <= usize::MAX);
    let lines = write_bundle(alloc, ops.as_slice())?;
    Ok(lines)
}

/// The vector of a hello, which is given with its line feed or without it.
///
/// # Errors
/// `BadLine` if it isn't such a line, as in `read_vector`; `NoMemory` if allocation fails.
pub fn read_hello(alloc: Global, hello: &[u8]) -> Result<NamedVector, Refusal>
    ensures { IsRead (λ v. v) result (hello_form (without_end hello.now)) }
{
    read_vector(alloc, without_end(hello))
}

/// A line without the line feed that may end it.
fn without_end(line: &[u8]) -> &[u8]
    ensures { result.now ≡ without_end line.now }
{
    match line.strip_suffix(b"\n") {
        Some(text) => text,
        None => line,
    }
}
