//! A store that knows which of its bytes would survive a loss of power, and that fails on request. It says so in its contract.

ghost use Rattle.std.specs.Prelude.{◌≡◌};

use std::alloc::{AllocError, Global};
use std::io::ErrorKind;
use store::{Store, StoreFailed};

/// The error of every failed call of a disk.
pub const FAILED: StoreFailed = StoreFailed {
    kind: ErrorKind::Other,
};

/// Which calls of a disk fail, counted from 1.
#[derive(Clone, Copy, Debug, PartialEq, Eq)]
pub enum Breaks {
    Never,
    /// This call alone.
    At(u64),
    /// This call and all after it.
    From(u64),
}

/// A disk of bytes.
#[derive(Drop)]
pub struct Disk {
    /// What a read returns.
    bytes: Vec<u8>,
    /// What survives a loss of power.
    synced: Vec<u8>,
    breaks: Breaks,
    calls: u64,
}

impl Disk {
    /// A disk that has these bytes, synced.
    pub fn of(alloc: Global, bytes: &[u8], breaks: Breaks) -> Result<Disk, AllocError> {
        Ok(Disk {
            bytes: Vec::from_slice(alloc, bytes)?,
            synced: Vec::from_slice(alloc, bytes)?,
            breaks,
            calls: 0,
        })
    }

    pub fn bytes(&self) -> &[u8] {
        &self.bytes
    }

    pub fn is_synced(&self) -> bool {
        self.bytes == self.synced
    }

    /// How many calls were made.
    pub fn calls(&self) -> u64 {
        self.calls
    }

    /// How many bytes a loss of power may leave or take: those by which what a read returns is longer or shorter than what survives.
    pub fn loose(&self) -> usize {
        self.bytes.len().abs_diff(self.synced.len())
    }

    /// What a loss of power leaves, with this many of those bytes, on a disk that works.
    pub fn left(&self, alloc: Global, loose: usize) -> Result<Disk, AllocError> {
        let (shorter, longer) = if self.bytes.len() < self.synced.len() {
            (&self.bytes, &self.synced)
        } else {
            (&self.synced, &self.bytes)
        };
        let left = shorter.len().saturating_add(loose).min(longer.len());
        Disk::of(alloc, &longer[..left], Breaks::Never)
    }

    /// Whether the next call fails.
    fn breaks(&mut self) -> bool
        ensures { self.new ≡ record self.old { calls = self.new.calls } }
    {
        self.calls = self.calls.saturating_add(1);
        match self.breaks {
            Breaks::Never => false,
            Breaks::At(call) => self.calls == call,
            Breaks::From(call) => self.calls >= call,
        }
    }
}

impl Store for Disk {
    ghost use Rattle.std.specs.Prelude.{Some};

    ghost contents = { λ disk. Some disk.bytes.items };

    ghost synced = { λ disk. Some disk.synced.items };

    fn read(&mut self, alloc: Global) -> Result<Vec<u8>, StoreFailed> {
        if self.breaks() {
            return Err(FAILED);
        }
        match Vec::from_slice(alloc, &self.bytes) {
            Ok(bytes) => Ok(bytes),
            Err(_) => Err(FAILED),
        }
    }

    /// A call that fails takes the first half of the bytes.
    fn append(&mut self, bytes: &[u8]) -> Result<(), StoreFailed> {
        let is_broken = self.breaks();
        let taken = if is_broken {
            &bytes[..bytes.len() / 2]
        } else {
            bytes
        };
        if self.bytes.extend_from_slice(taken).is_err() || is_broken {
            return Err(FAILED);
        }
        Ok(())
    }

    fn sync(&mut self) -> Result<(), StoreFailed> {
        if self.breaks() {
            return Err(FAILED);
        }
        self.synced.clear();
        if self.synced.extend_from_slice(&self.bytes).is_err() {
            return Err(FAILED);
        }
        Ok(())
    }

    fn cut(&mut self, len: u64) -> Result<(), StoreFailed> {
        if self.breaks() {
            return Err(FAILED);
        }
        self.bytes.truncate(len as usize);
        Ok(())
    }
}
