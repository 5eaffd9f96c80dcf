//! What the rule of the copies records of each reader.

use document::Entry;
use std::collections::LinkedList;

/// The history that a token read last, the oldest entry first, and how many reads it has made. It exists in proofs alone: no value of it is
/// ever made.
pub struct View {
    pub read: LinkedList<Entry>,
    pub reads: u64,
}
