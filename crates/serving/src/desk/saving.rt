//! Saving to the shelf.

ghost use Rattle.std.specs.Prelude.{◌≡◌, ◌≢◌, ◌⊎◌, ◌-◌, false, true, length, IfErr, OnOk};
ghost use Rattle.calls.specs.declared.response.Response.TheVariants as said;
ghost use Rattle.store.specs.declared.fault.Fault.TheVariants.{MustStartAgain};
ghost use Rattle.serving.specs.Desks.{IsSaved, SaysSaved};

use super::Desk;
use calls::Response;
use std::alloc::Global;
use store::{Fault, Store};

impl<S: Store> Desk<S> {
    /// Saves, and responds that it is done, or that it isn't saved.
    pub(super) fn saved(&mut self, alloc: Global, done: Response) -> Response
        ensures { SaysSaved done self.old result self.new }
    {
        match self.save(alloc) {
            Ok(()) => done,
            Err(Fault::MustStartAgain) => Response::Lost,
            Err(_) => Response::Unsaved {
                length: self.session.len() as u64,
                saved: self.stored as u64,
            },
        }
    }

    /// Appends the entries that aren't on the shelf to it.
    ///
    /// # Errors
    /// `Held` if an allocation for their lines failed; `MustStartAgain` and `Store` as `put` of the shelf.
    fn save(&mut self, alloc: Global) -> Result<(), Fault>
        ensures ok { OnOk result ((self.new.replica ≡ self.old.replica) × IsSaved self.old self.new) }
        ensures err { IfErr result
            (λ why. ((why ≡ MustStartAgain) × (self.new.replica ≡ self.old.replica) × (self.new.stored ≡ self.old.stored)
            × (self.new.is_lost ≡ true))
            ⊎ ((why ≢ MustStartAgain) × (self.new ≡ self.old) × (self.new.is_lost ≡ false))) }
    {
        self.shelf.check()?;
        let Ok(lines) = self.session.lines_from(alloc, self.stored) else {
            return Err(Fault::Held);
        };
        self.shelf.put(&lines)?;
        self.stored = self.session.len();
        Ok(())
    }

    /// How many entries aren't on the shelf.
    pub fn unsaved(&self) -> usize
        ensures { result ≡ length self.now.replica.entries - self.now.stored }
    {
        self.session.len().saturating_sub(self.stored)
    }

    /// Saves what isn't saved yet. The response says that it is done, or that it isn't.
    pub fn save_all(&mut self, alloc: Global) -> Response
        ensures { SaysSaved (said.Saved (length self.old.replica.entries)) self.old result self.new }
    {
        let length = self.session.len() as u64;
        self.saved(alloc, Response::Saved(length))
    }

    /// The store, as it is. What isn't saved is lost.
    pub fn into_store(self) -> S
        ensures { (S.contents result ≡ self.held) × (S.synced result ≡ self.synced) }
    {
        let Desk {
            session: _session,
            shelf,
            stored: _,
        } = self;
        shelf.into_store()
    }
}
