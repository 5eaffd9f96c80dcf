//! The kernels over counters, each compared with a plain loop: whether both answer and write the same, and how long both take.

mod agreement;
mod kernel;
mod numbers;
mod plain;
mod times;

pub use agreement::compare;
pub use times::report;
