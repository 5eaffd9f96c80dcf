//! The configuration that an engine is opened with.

ghost use Rattle.std.specs.Prelude.{◌≡◌, IsTrue, IsFalse, MatchResult};
ghost use Rattle.ids.specs.Configurations.{is_within_limits};
ghost use Rattle.ids.specs.declared.refusal.Refusal.TheVariants.{BadConfig};

use crate::Refusal;
use crate::members::{are_members, is_from_one_to};
use std::marker::Model;

/// The greatest capacity of a queue.
pub const MOST_QUEUE: u32 = 65_536;

/// The configuration of an engine. Contracts see the members as a list; `check` tests the limits.
#[derive(Debug, Drop)]
pub struct Config {
    /// The engine's own replica number, one of the members.
    pub own: u32,
    /// From 1 to 64 distinct replica numbers above 0.
    pub members: Vec<u32>,
    /// How many clients there are, from 1 to 64: one for each thread that submits or receives.
    pub clients: u32,
    /// How many readers there are, from 1 to 64: one for each thread that only reads, or says hello and answers.
    pub readers: u32,
    /// How many submissions may wait, from 1 to 65,536; one more is refused with `QueueFull`.
    pub queue: u32,
    /// The most submissions that one step of the writer takes and publishes, from 1 to 256.
    pub batch: u32,
    /// How many serials each client has in its whole life, at least 1: a command takes one, and so does each received operation. A high
    /// bound costs nothing, so use `u32::MAX` unless you want a limit. What was submitted under a serial is kept for good.
    pub serials: u32,
}

impl Model for Config {
    ghost use Rattle.ids.specs.Configurations.{Configuration};

    ghost Value = { Configuration };

    ghost view = { λ c. record {
      own = c.own;
      members = c.members.items;
      clients = c.clients;
      readers = c.readers;
      queue = c.queue;
      batch = c.batch;
      serials = c.serials;
    } };
}

impl Config {
    /// Tests whether an engine may be opened with this configuration. Compares at most 2,080 pairs of numbers, and allocates nothing.
    ///
    /// # Errors
    /// `BadConfig` if a number is outside its limits, a member occurs twice, or the own number isn't a member.
    pub fn check(&self) -> Result<(), Refusal>
        ensures { MatchResult result (λ _. IsTrue (is_within_limits self.now))
            (λ why. (why ≡ BadConfig) × IsFalse (is_within_limits self.now)) }
    {
        let is_within_limits = are_members(&self.members)
            && self.members.contains(&self.own)
            && is_from_one_to(64, self.clients)
            && is_from_one_to(64, self.readers)
            && is_from_one_to(MOST_QUEUE, self.queue)
            && is_from_one_to(256, self.batch)
            && is_from_one_to(4_294_967_295, self.serials);
        if is_within_limits {
            Ok(())
        } else {
            Err(Refusal::BadConfig)
        }
    }
}
