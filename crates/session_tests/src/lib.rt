//! The tests of `session`, through its public functions. They are a crate of their own, so that their proof doesn't repeat the crate's.
#![tactic(auto)]

#[cfg(test)]
mod tests;
