//! The writer's end.

ghost use Rattle.std.specs.Prelude.{◌≡◌, ◌++◌, List, [], map};
ghost use Rattle.semantics.specs.Entries.{Entry as TheEntry};
ghost use Rattle.semantics.specs.WorldHistory.{BeginsWith};
ghost use Rattle.document.specs.operation.Ops.{entry_of};
ghost use Rattle.document.specs.oplog.Logs.{history};
ghost use Rattle.rtrb.specs.Ring.{SameProducer, sent};
ghost use Rattle.followers.specs.Feeds.{IsFedFrom};

use document::{Document, Entry};
use rtrb::Producer;
use std::alloc::{AllocError, Global};

/// The writer's end of a ring, which sends to one follower of its document.
#[derive(Drop)]
pub struct Feed {
    pub(crate) to: Producer<Entry>,
    /// Entries that the ring had no room for, the newest first.
    ahead: Vec<Entry>,
    /// How many entries were sent, or are ahead.
    next: usize,
}

impl Feed {
    /// A feed that has sent nothing.
    pub(crate) fn new(alloc: Global, to: Producer<Entry>) -> Feed
        requires { sent to ≡ [] }
        ensures { (result.to ≡ to) × (result.ahead.items ≡ []) × (result.next ≡ 0) }
    {
        Feed {
            to,
            ahead: Vec::new(alloc),
            next: 0,
        }
    }

    /// Sends the entries of this document from where it stopped, the oldest first, as many as the ring has room for. The next call sends
    /// the others. If a feed is always given the same document as it grows, what was sent is the beginning of its history.
    ///
    /// # Errors
    /// `AllocError` if allocation fails: what isn't sent yet is sent by the next call.
    pub fn send(&mut self, alloc: Global, document: &Document) -> Result<(), AllocError>
        ensures fed { (G : List TheEntry) → BeginsWith document.now.entries G
            → IsFedFrom G self.old.next self.old.ahead.items (sent self.old.to)
            → IsFedFrom document.now.entries self.new.next self.new.ahead.items (sent self.new.to) }
        ensures ring { SameProducer self.old.to self.new.to }
    {
        self.push();
        if self.ahead.is_empty() {
            self.look_ahead(alloc, document)?;
            self.push();
        }
        Ok(())
    }

    /// Whether the follower is gone, so that nobody takes in what is sent. No contract says anything of the result.
    pub fn is_abandoned(&mut self) -> bool
        ensures ring { SameProducer self.old.to self.new.to }
        ensures same { (sent self.new.to ≡ sent self.old.to) × (self.new.ahead ≡ self.old.ahead) × (self.new.next ≡ self.old.next) }
    {
        self.to.is_abandoned()
    }

    /// Puts the document's new entries ahead, if none are.
    fn look_ahead(&mut self, alloc: Global, document: &Document) -> Result<(), AllocError>
        requires { self.old.ahead.items ≡ [] }
        ensures fed { IsFedFrom document.now.entries self.old.next [] (sent self.old.to)
            → IsFedFrom document.now.entries self.new.next self.new.ahead.items (sent self.new.to) }
        ensures same { self.new.to ≡ self.old.to }
    {
        let mut ahead = document.entries_from(alloc, self.next)?;
        ahead.reverse();
        self.next = document.len();
        self.ahead = ahead;
        Ok(())
    }

    /// Sends as much of what is ahead as the ring has room for.
    fn push(&mut self)
        ensures same { map entry_of self.new.ahead.items ++ history (sent self.new.to)
            ≡ map entry_of self.old.ahead.items ++ history (sent self.old.to) }
        ensures next { self.new.next ≡ self.old.next }
        ensures ring { SameProducer self.old.to self.new.to }
    {
        for _ in 0..self.to.slots() {
            let Some(entry) = self.ahead.pop() else {
                return;
            };
            self.to.push_reserved(entry);
        }
    }
}
