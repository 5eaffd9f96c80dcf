//! What is published of a replica's history, on one thread.

ghost use Rattle.std.specs.Prelude.{◌≡◌, [], drop, OnOk};
ghost use Rattle.semantics.specs.WorldHistory.{BeginsWith};
ghost use Rattle.world.specs.Publishers.{CanPublish, PublishesMore, appended_of};

use replica::{Document, Entry, Publish};
use std::alloc::{AllocError, Global};
use std::collections::VecDeque;
use std::marker::Model;

/// The published document, and the entries that are appended but not yet published. Contracts see the publication.
#[derive(Debug, Drop)]
pub struct Publisher {
    /// The replica's own number, which only contracts use.
    own: u32,
    published: Document,
    /// The oldest first.
    pending: VecDeque<Entry>,
}

impl Model for Publisher {
    ghost use Rattle.std.specs.Coded.{codes};
    ghost use Rattle.semantics.specs.Codes.{coded_element};
    ghost use Rattle.semantics.specs.Publication.{Publication};
    ghost use Rattle.world.specs.Publishers.{CanPublish, appended_of};

    ghost Value = { Publication };

    ghost coded = { Prim.hlevel (codes, coded_element) };

    ghost view = { λ p. record {
      own = p.own;
      members = p.published.members;
      published = p.published.entries;
      appended = appended_of p.published p.pending.items;
    } };

    ghost invariant = { λ p. CanPublish p.published p.pending.items };
}

impl Publisher {
    /// A publisher of the replica with this number, whose history is empty.
    pub fn new(alloc: Global, own: u32, empty: Document) -> Publisher
        requires { empty.entries ≡ [] }
        ensures { result ≡ record { own = own; members = empty.members; published = []; appended = [] } }
    {
        Publisher {
            own,
            published: empty,
            pending: VecDeque::new(alloc),
        }
    }

    /// The document of what is published.
    pub fn published(&self) -> &Document
        ensures members { result.now.members ≡ self.now.members }
        ensures entries { result.now.entries ≡ self.now.published }
        ensures begins { BeginsWith self.now.appended self.now.published }
    {
        &self.published
    }

    /// Publishes all that is appended. Clones nothing.
    ///
    /// # Errors
    /// `AllocError` if allocation fails. Some entries may then be published, the oldest first; the others stay pending.
    pub fn publish(&mut self, alloc: Global) -> Result<(), AllocError>
        ensures published { OnOk result (self.new ≡ record self.old { published = self.old.appended }) }
        ensures partly { self.new ≡ record self.old { published = self.new.published } }
        ensures more { BeginsWith self.new.published self.old.published }
        ensures begins { BeginsWith self.new.appended self.new.published }
    {
        publish_all(alloc, &mut self.published, &mut self.pending)
    }
}

impl Publish for Publisher {
    ghost publication = { λ p. p };

    fn add(&mut self, entry: Entry) -> Result<(), AllocError> {
        self.pending.push_back(entry)?;
        Ok(())
    }
}

/// Publishes the pending entries, the oldest first.
fn publish_all(
    alloc: Global,
    published: &mut Document,
    pending: &mut VecDeque<Entry>,
) -> Result<(), AllocError>
    requires { CanPublish published.old pending.old.items }
    ensures all { OnOk result (pending.new.items ≡ []) }
    ensures more { PublishesMore published.old pending.old.items published.new pending.new.items }
{
    for _ in 0..pending.len() {
        publish_oldest(alloc, published, pending)?;
    }
    Ok(())
}

/// Publishes the oldest pending entry, if there is one.
fn publish_oldest(
    alloc: Global,
    published: &mut Document,
    pending: &mut VecDeque<Entry>,
) -> Result<(), AllocError>
    requires { CanPublish published.old pending.old.items }
    ensures one { OnOk result (pending.new.items ≡ drop 1 pending.old.items) }
    ensures more { PublishesMore published.old pending.old.items published.new pending.new.items }
{
    let Some(oldest) = pending.front() else {
        return Ok(());
    };
    published.reserve(alloc, oldest.op())?;
    let Some(entry) = pending.pop_front() else {
        return Ok(());
    };
    published.commit(entry);
    Ok(())
}
