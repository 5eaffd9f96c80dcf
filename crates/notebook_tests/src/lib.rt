//! The tests of `notebook`, through its public functions, on a disk of bytes that fails. They are a crate of their own, so that their proof
//! doesn't repeat the crate's.
#![tactic(auto)]

#[cfg(test)]
mod tests;
