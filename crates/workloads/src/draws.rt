//! Random draws from a seed.

use crate::digest::Digest;
use engine::{Refusal, Ticket};
use std::alloc::Global;

/// The draws of a play, its digest, and the tickets that weren't polled yet.
#[derive(Drop)]
pub struct Hands {
    state: u64,
    pub digest: Digest,
    /// Submitted but not yet polled.
    pub tickets: Vec<Ticket>,
}

impl Hands {
    pub fn new(alloc: Global, seed: u32) -> Hands {
        Hands {
            state: u64::from(seed),
            digest: Digest::new(),
            tickets: Vec::new(alloc),
        }
    }

    /// The next draw, below the limit (SplitMix64, by a remainder); 0 if the limit is 0.
    pub fn below(&mut self, limit: u32) -> u32 {
        self.state = self.state.wrapping_add(11_400_714_819_323_198_485);
        let first = (self.state ^ (self.state >> 30)).wrapping_mul(13_787_848_793_156_543_929);
        let second = (first ^ (first >> 27)).wrapping_mul(10_723_151_780_598_845_931);
        let drawn = (second ^ (second >> 31)) % u64::from(limit.max(1));
        u32::try_from(drawn).unwrap_or(0)
    }

    /// Keeps a ticket to be polled, and returns how many are kept.
    pub fn keep(&mut self, ticket: Ticket) -> Result<usize, Refusal> {
        self.tickets.push(ticket)?;
        Ok(self.tickets.len())
    }
}
