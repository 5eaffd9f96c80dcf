//! The parts of a step that are numbers: engines, clients, tokens, messages and serials.
#![tactic(auto, using(crate::proofs::WrongLengths::number_lengths))]

ghost use Rattle.std.specs.Prelude.{◌≡◌};
ghost use Rattle.serde_json.specs.View.{view, items_view};
ghost use Rattle.world.specs.wire.Forms.{number_form};
ghost use Rattle.scripts.specs.Numbers.{one_number, two_numbers, three_numbers, four_numbers};

use ids::Refusal;
use serde_json::Value;
use world::number_in;

/// The number of an engine, a client or a token.
pub fn index_in(value: &Value) -> Result<usize, Refusal>
    ensures { result ≡ number_form (view value.now) }
{
    Ok(number_in(value)? as usize)
}

/// An engine.
pub fn one_in(parts: &[Value]) -> Result<usize, Refusal>
    ensures { result ≡ one_number (items_view parts.now) }
{
    let [engine] = parts else {
        return Err(Refusal::BadLine);
    };
    index_in(engine)
}

/// An engine and a token.
pub fn two_in(parts: &[Value]) -> Result<(usize, usize), Refusal>
    ensures { result ≡ two_numbers (items_view parts.now) }
{
    let [engine, token] = parts else {
        return Err(Refusal::BadLine);
    };
    Ok((index_in(engine)?, index_in(token)?))
}

/// An engine, a client or a token, and a serial or a message.
pub fn three_in(parts: &[Value]) -> Result<(usize, usize, u64), Refusal>
    ensures { result ≡ three_numbers (items_view parts.now) }
{
    let [engine, index, number] = parts else {
        return Err(Refusal::BadLine);
    };
    Ok((index_in(engine)?, index_in(index)?, number_in(number)?))
}

/// An engine, a token, a client and a serial.
pub fn four_in(parts: &[Value]) -> Result<(usize, usize, usize, u64), Refusal>
    ensures { result ≡ four_numbers (items_view parts.now) }
{
    let [engine, token, client, serial] = parts else {
        return Err(Refusal::BadLine);
    };
    Ok((
        index_in(engine)?,
        index_in(token)?,
        index_in(client)?,
        number_in(serial)?,
    ))
}
