//! Limits and examples with values from the rules, and each call once in a case that succeeds.

mod fields;
mod flags;
mod keys;
mod many_ids;
mod numbers;
mod orders;
mod presences;
mod refused_memory;
mod registers;

use columns::{Fields, ListOrder, Numbers, Presence, Register, SortedKeys};
use fixtures::{Pair, id_of, pair_of};
use ids::OpId;
use std::test::Fail;
