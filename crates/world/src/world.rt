//! Engines on one thread and the messages between them, moved by a list of steps.

ghost use Rattle.std.specs.Prelude.{◌≡◌, ◌+◌, ℕ, ◌↔◌, ◌⊎◌, OnOk, OnErr, IfOk, IfErr, Err, IsFalse, true, false, min, map, length};
ghost use Rattle.std.specs.Prelude.{alloc_error};
ghost use Rattle.std.specs.List.{list_all};
ghost use Rattle.ids.specs.declared.refusal.Refusal.TheVariants.{NoMemory, BadConfig};
ghost use Rattle.ids.specs.Configurations.{is_within_limits};
ghost use Rattle.semantics.specs.World.{opened, opened_engine, world_step, world_after, replies_of};
ghost use Rattle.world.specs.Engines.{message_of};
ghost use Rattle.world.specs.Acts.{step_of, step_reply_of};
ghost use Rattle.world.specs.Polls.{AllPollTruly};
ghost use Rattle.world.specs.Worlds.{IsReachedWorld, MovesInPart, StopsInStep, world, world_of};

use crate::engine::Engine;
use crate::message::Message;
use crate::step::{WorldReply, WorldStep};
use ids::{Config, Refusal};
use std::alloc::{AllocError, Global};
use std::marker::Model;

/// Engines on one thread, and the messages between them. If an allocation fails, the world is poisoned: every later call of `run` returns
/// `AllocError`.
///
/// Contracts see the engines of the definitions, how many steps were done, and whether the world is poisoned.
#[derive(Debug, Drop)]
pub struct World {
    engines: Vec<Engine>,
    /// All that was ever sent, the oldest first.
    messages: Vec<Message>,
    done: u64,
    failed: bool,
}

impl Model for World {
    ghost use Rattle.std.specs.Prelude.{◌≡◌, map, false};
    ghost use Rattle.std.specs.Coded.{codes};
    ghost use Rattle.semantics.specs.Codes.{coded_element};
    ghost use Rattle.world.specs.Engines.{message_of};
    ghost use Rattle.world.specs.Worlds.{Running, IsReachedWorld, world};

    ghost Value = { Running };

    ghost coded = { Prim.hlevel (codes, coded_element) };

    ghost view = { λ w. record {
      engines = w.engines.items;
      messages = map message_of w.messages.items;
      done = w.done;
      failed = w.failed;
    } };

    ghost invariant = { λ w. w.failed ≡ false → IsReachedWorld (world w.engines.items (map message_of w.messages.items)) };
}

impl World {
    /// New engines, numbered from 0.
    ///
    /// # Errors
    /// `BadConfig` if a configuration is outside the limits, else `NoMemory` if allocation fails.
    pub fn new(alloc: Global, configs: &[Config]) -> Result<World, Refusal>
        ensures engines { IfOk result (λ w. world_of w ≡ opened configs.now) }
        ensures started { IfOk result (λ w. (w.done ≡ 0) × (w.failed ≡ false)) }
        ensures bad_config { (result ≡ Err BadConfig) ↔ IsFalse (list_all is_within_limits configs.now) }
        ensures err { IfErr result (λ why. (why ≡ BadConfig) ⊎ (why ≡ NoMemory)) }
    {
        check_all(configs)?;
        let engines = open_all(alloc, configs)?;
        Ok(World {
            engines,
            messages: Vec::new(alloc),
            done: 0,
            failed: false,
        })
    }

    /// Runs the steps in order, and returns the reply to each. A step of an engine that doesn't exist replies `Idle`.
    ///
    /// # Errors
    /// `AllocError` if allocation fails, and for each call after that. `steps_done` steps were done whole; the next one may be done in
    /// part, by its engine alone, which is then between what it was and what the whole step makes of it.
    pub fn run(&mut self, alloc: Global, steps: &[WorldStep]) -> Result<Vec<WorldReply>, AllocError>
        ensures replies { IfOk result
            (λ rs. map step_reply_of rs.items ≡ replies_of (world_of self.old) (map step_of steps.now)) }
        ensures world { OnOk result (world_of self.new
            ≡ world_after (world_of self.old) (map step_of steps.now)) }
        ensures polls { OnOk result (AllPollTruly (world_of self.old) (map step_of steps.now)) }
        ensures done { OnOk result (self.new.done ≡ min (self.old.done + length steps.now) 18446744073709551615) }
        ensures running { OnOk result ((self.old.failed ≡ false) × (self.new.failed ≡ false)) }
        ensures err { OnErr result (self.new.failed ≡ true) }
        ensures stopped { OnErr result (self.old.failed ≡ false
            → (n : ℕ) × (self.new.done ≡ min (self.old.done + n) 18446744073709551615)
            × StopsInStep (world_of self.old) (map step_of steps.now) n (world_of self.new)) }
        ensures failed { self.old.failed ≡ true → (result ≡ Err alloc_error) × (self.new ≡ self.old) }
    {
        if self.failed {
            return Err(AllocError);
        }
        self.failed = true;
        let mut whole = 0;
        let outcome = run_all(
            alloc,
            &mut self.engines,
            &mut self.messages,
            &mut whole,
            steps,
        );
        self.done = self.done.saturating_add(whole as u64);
        let replies = outcome?;
        self.failed = false;
        Ok(replies)
    }

    /// How many steps were done whole, by all runs. Saturates at 18446744073709551615.
    pub fn steps_done(&self) -> u64
        ensures { result ≡ self.now.done }
    {
        self.done
    }
}

/// Tests whether each configuration is within the limits.
fn check_all(configs: &[Config]) -> Result<(), Refusal>
    ensures ok { OnOk result (list_all is_within_limits configs.now ≡ true) }
    ensures err { IfErr result (λ why. (why ≡ BadConfig) × IsFalse (list_all is_within_limits configs.now)) }
{
    for config in configs {
        config.check()?;
    }
    Ok(())
}

/// A new engine for each configuration.
fn open_all(alloc: Global, configs: &[Config]) -> Result<Vec<Engine>, AllocError>
    requires { list_all is_within_limits configs.now ≡ true }
    ensures engines { IfOk result (λ v. v.items ≡ map opened_engine configs.now) }
{
    let mut engines = Vec::with_capacity(alloc, configs.len())?;
    for config in configs {
        engines.push(Engine::open(alloc, config)?)?;
    }
    Ok(engines)
}

/// Runs the steps in order, and counts those that were done whole.
fn run_all(
    alloc: Global,
    engines: &mut Vec<Engine>,
    messages: &mut Vec<Message>,
    whole: &mut usize,
    steps: &[WorldStep],
) -> Result<Vec<WorldReply>, AllocError>
    requires reached { IsReachedWorld (world engines.old.items (map message_of messages.old.items)) }
    requires none { whole.old ≡ 0 }
    ensures replies { IfOk result
        (λ rs. map step_reply_of rs.items
        ≡ replies_of (world engines.old.items (map message_of messages.old.items))
        (map step_of steps.now)) }
    ensures world { OnOk result (world engines.new.items (map message_of messages.new.items)
        ≡ world_after (world engines.old.items (map message_of messages.old.items))
        (map step_of steps.now)) }
    ensures whole { OnOk result (whole.new ≡ length steps.now) }
    ensures stopped { OnErr result
        (StopsInStep (world engines.old.items (map message_of messages.old.items))
        (map step_of steps.now) whole.new
        (world engines.new.items (map message_of messages.new.items))) }
{
    let mut replies = Vec::with_capacity(alloc, steps.len())?;
    for step in steps {
        let reply = turn(alloc, engines, messages, step)?;
        *whole += 1;
        replies.push(reply)?;
    }
    Ok(replies)
}

/// One step: its engine moves, and the others stay.
fn turn(
    alloc: Global,
    engines: &mut Vec<Engine>,
    messages: &mut Vec<Message>,
    step: &WorldStep,
) -> Result<WorldReply, AllocError>
    requires { IsReachedWorld (world engines.old.items (map message_of messages.old.items)) }
    ensures world { OnOk result (world engines.new.items (map message_of messages.new.items)
        ≡ (world_step (world engines.old.items (map message_of messages.old.items))
        (step_of step.now)).world) }
    ensures reply { IfOk result
        (λ r. step_reply_of r
        ≡ (world_step (world engines.old.items (map message_of messages.old.items))
        (step_of step.now)).reply) }
    ensures messages { OnErr result (map message_of messages.new.items ≡ map message_of messages.old.items) }
    ensures stopped { OnErr result
        (MovesInPart (map message_of messages.old.items)
        (step_of step.now) engines.old.items engines.new.items) }
{
    if step.engine >= engines.len() {
        return Ok(WorldReply::Idle);
    }
    let engine = &mut engines[step.engine];
    engine.turn(alloc, messages, &step.act)
}
