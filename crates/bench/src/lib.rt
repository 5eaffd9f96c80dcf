//! A bench: threads that write into engines at the same time, poll each answer, and read each value back; then the engines exchange
//! operations, and what they show is compared.
//!
//! `play` gives each engine a thread, and in it a thread to its writer and to each client. It measures no time: whatever depends on the
//! schedule isn't part of its verdict.
#![tactic(auto)]

mod engines;
mod exchange;
mod gate;
mod links;
mod plan;
mod playing;
mod serving;
mod showing;
mod working;

pub use engines::play;
pub use gate::{Gate, Meeting};
pub use plan::{MOST_TURNS, Plan, Stop, Verdict};
pub use showing::{Shown, judge};
pub use working::worker;
