//! Limits and examples with values from the rules, and each call once in a case that succeeds.

mod of_chunks;
mod of_cursor;
mod of_ids;
mod of_inbox;
mod of_lanes;
mod of_operation;
mod of_oplog;
mod of_rings;
mod of_value;
mod of_version;
