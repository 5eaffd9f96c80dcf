//! An engine's ends, and what can be done with them.

use crate::draws::Hands;
use engine::{Client, Command, EngineName, ReaderToken, Refusal, Step, Writer};
use peer_sync::{Received, receive};
use std::alloc::Global;
use std::sync::Wait;

/// An engine with one client and one reader.
#[derive(Drop)]
pub struct Stage<'a, N: EngineName> {
    pub writer: &'a mut Writer<N>,
    pub client: &'a mut Client<N>,
    pub reader: &'a mut ReaderToken<N>,
    /// How many commands are submitted before the writer steps.
    pub batch: usize,
}

impl<N: EngineName> Stage<'_, N> {
    /// Submits a command, and settles if a batch is full.
    pub fn submit<R: Wait>(
        &mut self,
        rt: &R,
        alloc: Global,
        hands: &mut Hands,
        command: Command,
    ) -> Result<(), Refusal> {
        let ticket = self.client.submit(rt, alloc, command)?;
        if hands.keep(ticket)? >= self.batch {
            self.settle(rt, alloc, hands)?;
        }
        Ok(())
    }

    /// Steps until nothing waits, and polls what was submitted.
    pub fn settle<R: Wait>(
        &mut self,
        rt: &R,
        alloc: Global,
        hands: &mut Hands,
    ) -> Result<(), Refusal> {
        self.step_all(rt, alloc, hands)?;
        for _ in rt.forever() {
            let Some(ticket) = hands.tickets.pop() else {
                break;
            };
            match self.client.poll(&ticket)? {
                Some(reply) => hands.digest.reply(&reply),
                None => return Err(Refusal::NoReading),
            }
        }
        Ok(())
    }

    /// Steps until the queue is empty.
    fn step_all<R: Wait>(
        &mut self,
        rt: &R,
        alloc: Global,
        hands: &mut Hands,
    ) -> Result<(), Refusal> {
        for _ in rt.forever() {
            match self.writer.step(rt, alloc) {
                Step::Idle => break,
                Step::Published(count) => hands.digest.number(count as u64),
                Step::Held => return Err(Refusal::NoMemory),
            }
        }
        Ok(())
    }

    /// Receives a bundle, and handles all of it.
    pub fn take<R: Wait>(
        &mut self,
        rt: &R,
        alloc: Global,
        hands: &mut Hands,
        bundle: &[u8],
    ) -> Result<(), Refusal> {
        if bundle.is_empty() {
            return Ok(());
        }
        let received = receive(rt, alloc, self.client, bundle);
        self.keep_received(hands, &received)?;
        self.settle(rt, alloc, hands)
    }

    /// Keeps the tickets of what was received, and adds their serials and number to the digest.
    fn keep_received(&mut self, hands: &mut Hands, received: &Received) -> Result<(), Refusal> {
        if let Some((_, refusal)) = received.stopped {
            return Err(refusal);
        }
        hands.digest.number(received.first_serial);
        hands.digest.number(received.submitted);
        for number in 0..received.submitted {
            let ticket = self
                .client
                .ticket_of(received.first_serial.saturating_add(number))?;
            let _kept = hands.keep(ticket)?;
        }
        Ok(())
    }
}
