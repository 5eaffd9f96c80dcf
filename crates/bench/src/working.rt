//! A worker: one client that writes, polls and reads back.

ghost use Rattle.std.specs.Prelude.{◌≡◌, ◌<◌, ◌≤◌, ◌-◌, ◌+◌, ◌++◌, ◌∷◌, [], ℕ, Ok, IfOk, MatchResult, map, pos, true};
ghost use Rattle.semantics.specs.Ids.{OpId as AnId};
ghost use Rattle.semantics.specs.Elements.{Scalar as TheScalar, Whole};
ghost use Rattle.semantics.specs.LegalAnswer.{OfCommand};
ghost use Rattle.peer_sync.specs.operation.Ops.{command_of};
ghost use Rattle.peer_sync.specs.value.Values.{scalar_of};
ghost use Rattle.bench.specs.Workers.{Shows, assignment, assignments, requests_by};

use crate::gate::{Gate, at, values_at};
use crate::plan::{MOST_TURNS, Stop};
use ids::{OpId, Refusal};
use peer_sync::{Client, Command, EngineName, Key, Reading, Reply, Scalar, Ticket, Val};
use std::alloc::{AllocError, Global};
use std::sync::Wait;
use std::thread::yield_now;

/// Assigns the numbers from 0 to `ops - 1` at the key, in turn: waits at the gate, submits, polls the answer, and reads the number back.
/// Returns false if a number wasn't read back; then the rest isn't submitted.
///
/// # Errors
/// `TurnLimit` if for `MOST_TURNS` turns the gate stayed shut, the queue stayed full or no answer came; `Refused` if a call or a command
/// was refused.
pub fn worker<N: EngineName, R: Wait, G: Gate>(
    rt: &R,
    alloc: Global,
    gate: &mut G,
    client: &mut Client<N>,
    key: &Key,
    ops: u32,
) -> Result<bool, Stop>
    ensures requests { (n : ℕ) × (n ≤ ops) × (result ≡ Ok true → n ≡ ops)
        × (requests_by client.new ≡ requests_by client.old ++ assignments key.now n) }
    ensures read { result ≡ Ok true → 0 < ops → Shows client.new.seen key.now (ops - 1) }
    ensures same { client.new
        ≡ record client.old {
          found_full = client.new.found_full;
          seen = client.new.seen;
          read = client.new.read;
          reads = client.new.reads;
          kept = client.new.kept;
        } }
{
    for number in 0..ops {
        wait_at(gate, alloc, client, number)?;
        let ticket = submit(rt, alloc, client, key, number)?;
        await_answer(client, &ticket)?;
        if !is_read(alloc, client, key, number)? {
            return Ok(false);
        }
    }
    Ok(true)
}

/// Waits until the gate lets the client submit this number.
fn wait_at<N: EngineName, G: Gate>(
    gate: &mut G,
    alloc: Global,
    client: &mut Client<N>,
    number: u32,
) -> Result<(), Stop>
    ensures { client.new ≡ record client.old { seen = client.new.seen; read = client.new.read; reads = client.new.reads } }
{
    for _ in 0..MOST_TURNS {
        if gate.may(alloc, client, number)? {
            return Ok(());
        }
        yield_now();
    }
    Err(Stop::TurnLimit)
}

/// Submits the assignment of the number, and tries again while the queue is full.
fn submit<N: EngineName, R: Wait>(
    rt: &R,
    alloc: Global,
    client: &mut Client<N>,
    key: &Key,
    number: u32,
) -> Result<Ticket, Stop>
    ensures requests { MatchResult result
        (λ _. requests_by client.new ≡ requests_by client.old ++ OfCommand (assignment key.now number) ∷ [])
        (λ _. requests_by client.new ≡ requests_by client.old) }
    ensures same { client.new ≡ record client.old { found_full = client.new.found_full; kept = client.new.kept } }
{
    for _ in 0..MOST_TURNS {
        match client.submit(rt, alloc, assign(alloc, key, number)?) {
            Ok(ticket) => return Ok(ticket),
            Err(Refusal::QueueFull) => yield_now(),
            Err(refusal) => return Err(Stop::Refused(refusal)),
        }
    }
    Err(Stop::TurnLimit)
}

/// The command that assigns the number at the key.
fn assign(alloc: Global, key: &Key, number: u32) -> Result<Command, AllocError>
    ensures { IfOk result (λ c. command_of c ≡ assignment key.now number) }
{
    let place = at(alloc, key)?;
    Ok(Command::Assign(place, Val::Scalar(Scalar::Whole(i64::from(number)))))
}

/// Polls until the ticket is answered.
fn await_answer<N: EngineName>(client: &mut Client<N>, ticket: &Ticket) -> Result<(), Stop>
    ensures requests { requests_by client.new ≡ requests_by client.old }
    ensures same { client.new ≡ record client.old { seen = client.new.seen; kept = client.new.kept } }
{
    for _ in 0..MOST_TURNS {
        match client.poll(ticket)? {
            Some(Reply::Refused(refusal, _)) => return Err(Stop::Refused(refusal)),
            Some(_) => return Ok(()),
            None => yield_now(),
        }
    }
    Err(Stop::TurnLimit)
}

/// Whether the key has this number alone.
fn is_read<N: EngineName>(
    alloc: Global,
    client: &mut Client<N>,
    key: &Key,
    number: u32,
) -> Result<bool, Refusal>
    ensures read { result ≡ Ok true → Shows client.new.seen key.now number }
    ensures same { client.new ≡ record client.old { seen = client.new.seen; read = client.new.read; reads = client.new.reads } }
{
    match client.ask(alloc, &values_at(alloc, key)?)? {
        Reading::Values(values) => Ok(is_number_alone(values.as_slice(), number)),
        _ => Ok(false),
    }
}

/// Whether these are the values of one operation, which wrote this number.
fn is_number_alone(values: &[(OpId, Scalar)], number: u32) -> bool
    ensures { result ≡ true
        → (a : AnId) × (map {B = AnId × TheScalar} (λ p. (p.0, scalar_of p.1)) values.now ≡ (a, Whole (pos number)) ∷ []) }
{
    values.len() == 1 && values[0].1 == Scalar::Whole(i64::from(number))
}
