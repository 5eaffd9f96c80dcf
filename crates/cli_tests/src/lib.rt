//! The tests of `cli`, and in `of_bench` those of `bench`, through their public functions. They are a crate of their own, so that their
//! proof doesn't repeat the crates'.
#![tactic(auto)]

#[cfg(test)]
mod tests;
