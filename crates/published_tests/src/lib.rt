//! The tests of `published`, and in `of_command` those of `command`, through their public functions. They are a crate of their own, so
//! that their proof doesn't repeat the crates'.
#![tactic(auto)]

#[cfg(test)]
mod tests;
