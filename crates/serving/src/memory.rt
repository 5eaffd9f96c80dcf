//! A store that keeps nothing.

use std::alloc::Global;
use store::{Store, StoreFailed};

/// The store of a document that lives in memory alone: it discards its bytes. Contracts know none of them.
#[derive(Clone, Copy, Debug)]
pub struct Memory;

impl Store for Memory {
    fn read(&mut self, alloc: Global) -> Result<Vec<u8>, StoreFailed> {
        Ok(Vec::new(alloc))
    }

    fn append(&mut self, _bytes: &[u8]) -> Result<(), StoreFailed> {
        Ok(())
    }

    fn sync(&mut self) -> Result<(), StoreFailed> {
        Ok(())
    }

    fn cut(&mut self, _len: u64) -> Result<(), StoreFailed> {
        Ok(())
    }
}
