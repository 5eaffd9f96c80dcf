//! A publisher receives the entries of a replica.

use crate::notice::EngineName;
use crate::publisher::Publisher;
use document::{Entry, Publish};
use std::alloc::AllocError;

impl<N: EngineName> Publish for Publisher<N> {
    ghost publication = { λ p. record p { own = N.own; members = N.table } };

    fn add(&mut self, entry: Entry) -> Result<(), AllocError> {
        self.append(entry)
    }
}
