//! The program's words, what it reads and writes, and what a bench prints.

mod benches;
mod of_bench;
mod streams;
mod words;
