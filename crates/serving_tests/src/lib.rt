//! The tests of `serving`, through its public functions: the replies of a program over lines, also when its disk fails or its input is cut
//! off.
#![tactic(auto)]

#[cfg(test)]
mod tests;
