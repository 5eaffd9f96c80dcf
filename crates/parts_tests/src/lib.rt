//! The tests of the parts below the document, through their public functions: those of the crate `X` are in `tests/of_X`. They are a crate
//! of their own, so that their proof doesn't repeat that of each part.
#![tactic(auto)]

#[cfg(test)]
mod tests;
