//! What the logbook of an engine holds. It exists in proofs alone: no value of it is ever made.

use document::Entry;
use std::collections::LinkedList;
use std::marker::Model;

/// Which queue it is, by what distinguishes one table from all others. Contracts see that table's id.
pub struct QueueId {
    words: usize,
    slots: usize,
    views_name: usize,
    atom: usize,
    block: usize,
    offset: usize,
    slot_names: LinkedList<usize>,
}

impl Model for QueueId {
    ghost use Rattle.atomic_table.specs.Seated.{TableId, table_id_coded};

    ghost Value = { TableId };

    ghost coded = { table_id_coded };

    ghost view = { λ q. record {
      words = q.words;
      slots = q.slots;
      views_name = q.views_name;
      atom = q.atom;
      block = q.block;
      offset = q.offset;
      slot_names = q.slot_names;
    } };
}

/// An entry of the history, or which queue the engine has.
pub enum Written {
    Entry(Entry),
    Queue(QueueId),
}
