//! Lines of the protocol with the calls that they make, and responses with their lines.

mod reading;
mod refused_memory;
mod responses;
mod showing;
