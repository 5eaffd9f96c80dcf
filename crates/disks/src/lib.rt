//! A disk of bytes for tests: it knows what would survive a loss of power, and fails on request. No program uses it.
#![tactic(auto)]

mod disk;

pub use disk::{Breaks, Disk, FAILED};
