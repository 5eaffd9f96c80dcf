//! The tests of `ids`.

mod config;
mod id;
mod refusal;
mod table;
mod vectors;
