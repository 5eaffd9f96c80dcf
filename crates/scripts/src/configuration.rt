//! The first line of a script: the world's engines.
#![tactic(auto, using(crate::proofs::WrongLengths::engine_lengths))]

ghost use Rattle.std.specs.Prelude.{◌≡◌, ◌⊎◌, Ok, Err, IfOk, IfErr, MatchResult, true, false};
ghost use Rattle.std.specs.List.{list_all};
ghost use Rattle.ids.specs.declared.refusal.Refusal.TheVariants.{NoMemory, BadConfig};
ghost use Rattle.serde_json.specs.View.{view, items_view};
ghost use Rattle.world.specs.wire.Forms.{IsRead, IsOrNoMemory, phrase_form};
ghost use Rattle.scripts.specs.Engines.{all_fit, edition_by, edition_of, engine_form, engines_of, fits, numbers_of, only_engines};
ghost use Rattle.scripts.specs.Engines.{said_engines, world_form};

use ids::{Config, Refusal};
use requests::Edition;
use serde_json::Value;
use std::alloc::Global;
use std::marker::Model;
use world::{json_of, list_in, number_in, phrase_in};

/// An engine as a script has it, with numbers of any size. Contracts see the configuration.
#[derive(Debug, Drop)]
struct WrittenConfig {
    own: u64,
    members: Vec<u64>,
    clients: u64,
    readers: u64,
    queue: u64,
    batch: u64,
    serials: u64,
}

impl Model for WrittenConfig {
    ghost use Rattle.ids.specs.Configurations.{Configuration};

    ghost Value = { Configuration };

    ghost view = { λ e. record {
      own = e.own;
      members = e.members.items;
      clients = e.clients;
      readers = e.readers;
      queue = e.queue;
      batch = e.batch;
      serials = e.serials;
    } };
}

/// The edition of a script with this first line, and the engines that it opens, from 1 to 16 of them. Whether these are within the limits
/// is up to the world to test.
pub fn read_engines(alloc: Global, text: &[u8]) -> Result<(Edition, Vec<Config>), Refusal>
    ensures engines { IsRead (λ p. p.1.items) result (said_engines text.now) }
    ensures edition { IfOk result (λ p. p.0 ≡ edition_of text.now) }
{
    let value = json_of(alloc, text)?;
    let (edition, engines) = world_in(alloc, &value)?;
    Ok((edition, configurations_of(alloc, engines.as_slice())?))
}

fn world_in(alloc: Global, value: &Value) -> Result<(Edition, Vec<WrittenConfig>), Refusal>
    ensures engines { IsRead (λ p. p.1.items) result (world_form (view value.now)) }
    ensures edition { IfOk result (λ p. p.0 ≡ edition_by (phrase_form (view value.now))) }
{
    let (word, parts) = phrase_in(value)?;
    match word {
        "world" => Ok((Edition::First, only_engines_in(alloc, parts)?)),
        "world2" => Ok((Edition::Second, only_engines_in(alloc, parts)?)),
        _ => Err(Refusal::BadLine),
    }
}

fn only_engines_in(alloc: Global, parts: &[Value]) -> Result<Vec<WrittenConfig>, Refusal>
    ensures { IsRead (λ v. v.items) result (only_engines (items_view parts.now)) }
{
    let [engines] = parts else {
        return Err(Refusal::BadLine);
    };
    let engines = engines_in(alloc, list_in(engines)?)?;
    if engines.is_empty() || engines.len() > 16 {
        return Err(Refusal::BadLine);
    }
    Ok(engines)
}

/// The engines, from the left.
fn engines_in(alloc: Global, parts: &[Value]) -> Result<Vec<WrittenConfig>, Refusal>
    ensures { IsRead (λ v. v.items) result (engines_of (items_view parts.now)) }
{
    let mut engines = Vec::new(alloc);
    for part in parts {
        engines.push(engine_in(alloc, part)?)?;
    }
    Ok(engines)
}

fn engine_in(alloc: Global, value: &Value) -> Result<WrittenConfig, Refusal>
    ensures { IsRead (λ g. g) result (engine_form (view value.now)) }
{
    let [own, members, clients, readers, queue, batch, serials] = list_in(value)? else {
        return Err(Refusal::BadLine);
    };
    Ok(WrittenConfig {
        own: number_in(own)?,
        members: numbers_in(alloc, list_in(members)?)?,
        clients: number_in(clients)?,
        readers: number_in(readers)?,
        queue: number_in(queue)?,
        batch: number_in(batch)?,
        serials: number_in(serials)?,
    })
}

fn numbers_in(alloc: Global, parts: &[Value]) -> Result<Vec<u64>, Refusal>
    ensures { MatchResult result (λ v. numbers_of (items_view parts.now) ≡ Ok v.items)
        (λ why. IsOrNoMemory (Err why) (numbers_of (items_view parts.now))) }
{
    let mut numbers = Vec::new(alloc);
    for part in parts {
        numbers.push(number_in(part)?)?;
    }
    Ok(numbers)
}

/// The configurations of the engines. A number that is too large for its type is `BadConfig`.
fn configurations_of(alloc: Global, engines: &[WrittenConfig]) -> Result<Vec<Config>, Refusal>
    ensures ok { IfOk result (λ v. (v.items ≡ engines.now) × (list_all all_fit engines.now ≡ true)) }
    ensures err { IfErr result (λ why. (why ≡ NoMemory) ⊎ ((why ≡ BadConfig) × (list_all all_fit engines.now ≡ false))) }
{
    let mut all = Vec::new(alloc);
    for engine in engines {
        all.push(engine.fitted(alloc)?)?;
    }
    Ok(all)
}

impl WrittenConfig {
    /// The configuration of this engine. A number that is too large for its type is `BadConfig`.
    fn fitted(&self, alloc: Global) -> Result<Config, Refusal>
        ensures ok { IfOk result (λ g. (g ≡ self.now) × (all_fit self.now ≡ true)) }
        ensures err { IfErr result (λ why. (why ≡ NoMemory) ⊎ ((why ≡ BadConfig) × (all_fit self.now ≡ false))) }
    {
        Ok(Config {
            own: fitted(self.own)?,
            members: all_fitted(alloc, self.members.as_slice())?,
            clients: fitted(self.clients)?,
            readers: fitted(self.readers)?,
            queue: fitted(self.queue)?,
            batch: fitted(self.batch)?,
            serials: fitted(self.serials)?,
        })
    }
}

fn all_fitted(alloc: Global, numbers: &[u64]) -> Result<Vec<u32>, Refusal>
    ensures ok { IfOk result (λ v. (v.items ≡ numbers.now) × (list_all fits numbers.now ≡ true)) }
    ensures err { IfErr result (λ why. (why ≡ NoMemory) ⊎ ((why ≡ BadConfig) × (list_all fits numbers.now ≡ false))) }
{
    let mut all = Vec::new(alloc);
    for number in numbers {
        all.push(fitted(*number)?)?;
    }
    Ok(all)
}

fn fitted(number: u64) -> Result<u32, Refusal>
    ensures { MatchResult result (λ n. (n ≡ number) × (fits number ≡ true)) (λ why. (why ≡ BadConfig) × (fits number ≡ false)) }
{
    match u32::try_from(number) {
        Ok(number) => Ok(number),
        Err(_) => Err(Refusal::BadConfig),
    }
}
