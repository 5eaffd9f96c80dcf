//! The engine of a world and the engine of threads do the same: a law, and tests that play the same on both and compare all their answers.
#![tactic(auto)]

mod law;
#[cfg(test)]
mod tests;

pub use law::a_step_is_a_step_of_a_world;
