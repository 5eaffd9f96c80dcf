//! The digest of what was answered.

use engine::{OpId, Reading, Refusal, Reply, Scalar, Tag};
use std::alloc::Global;

/// A digest of all answers, and how many there were. Each reply and reading is added whole, after a number for its kind, and each list and
/// text after its length, so that a difference anywhere shows.
#[derive(Drop)]
pub struct Digest {
    state: u64,
    answers: u64,
}

impl Digest {
    pub fn new() -> Digest {
        Digest {
            state: 14_695_981_039_346_656_037,
            answers: 0,
        }
    }

    /// How many answers were counted.
    pub fn answers(&self) -> u64 {
        self.answers
    }

    pub fn value(&self) -> u64 {
        self.state
    }

    /// Adds a number.
    pub fn number(&mut self, number: u64) {
        let mixed = (self.state ^ number).wrapping_mul(11_400_714_819_323_198_485);
        self.state = mixed ^ (mixed >> 29);
    }

    fn length(&mut self, length: usize) {
        self.number(length as u64);
    }

    /// Adds bytes (FNV-1a).
    pub fn bytes(&mut self, bytes: &[u8]) {
        self.length(bytes.len());
        for byte in bytes {
            self.state = (self.state ^ u64::from(*byte)).wrapping_mul(1_099_511_628_211);
        }
    }

    fn id(&mut self, id: &OpId) {
        self.number(id.counter);
        self.number(u64::from(id.replica.number()));
    }

    /// Counts a reply, and adds it.
    pub fn reply(&mut self, reply: &Reply) {
        self.answers = self.answers.wrapping_add(1);
        match reply {
            Reply::Made(id, position) => {
                self.number(1);
                self.id(id);
                self.number(*position);
            }
            Reply::Kept(length) => {
                self.number(2);
                self.number(*length);
            }
            Reply::Known(length) => {
                self.number(3);
                self.number(*length);
            }
            Reply::Refused(refusal, length) => {
                self.number(4);
                self.number(u64::from(refusal.number()));
                self.number(*length);
            }
        }
    }

    /// Counts a reading, and adds it. The jobs ask for operations and vectors by lines alone, so these are added in their printed form.
    pub fn reading(&mut self, alloc: Global, reading: &Reading) -> Result<(), Refusal> {
        self.answers = self.answers.wrapping_add(1);
        match reading {
            Reading::Values(values) => self.values(values.as_slice()),
            Reading::Keys(keys) => {
                self.number(6);
                self.length(keys.len());
                for key in keys {
                    self.bytes(key.as_str().as_bytes());
                }
            }
            Reading::Items(items) => self.items(items.as_slice()),
            Reading::Conflicts(conflicts) => self.conflicts(conflicts.as_slice()),
            Reading::Missing(_) | Reading::Vector(_) => {
                let printed = format!(in alloc; "{reading:?}")?;
                self.number(9);
                self.bytes(printed.as_bytes());
            }
        }
        Ok(())
    }

    fn values(&mut self, values: &[(OpId, Scalar)]) {
        self.number(5);
        self.length(values.len());
        for (id, value) in values {
            self.id(id);
            self.scalar(value);
        }
    }

    fn scalar(&mut self, value: &Scalar) {
        match value {
            Scalar::Null => self.number(0),
            Scalar::Bool(false) => self.number(1),
            Scalar::Bool(true) => self.number(2),
            Scalar::Whole(whole) => {
                self.number(if *whole < 0 { 3 } else { 4 });
                self.number(whole.unsigned_abs());
            }
            Scalar::Text(text) => {
                self.number(5);
                self.bytes(text.as_str().as_bytes());
            }
        }
    }

    fn items(&mut self, items: &[OpId]) {
        self.number(7);
        self.length(items.len());
        for id in items {
            self.id(id);
        }
    }

    fn conflicts(&mut self, conflicts: &[(OpId, Tag)]) {
        self.number(8);
        self.length(conflicts.len());
        for (id, tag) in conflicts {
            self.id(id);
            self.number(match tag {
                Tag::Map => 1,
                Tag::List => 2,
                Tag::Reg => 3,
            });
        }
    }
}
