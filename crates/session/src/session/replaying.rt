//! A session that resumes from its journal.

ghost use Rattle.std.specs.Prelude.{◌≡◌, ◌+◌, [], ◌∷◌, IfErr, IfSome, IsFalse, List, None, OnErr, OnOk, length, map, take};
ghost use Rattle.semantics.specs.Entries.{Entry as TheEntry};
ghost use Rattle.semantics.specs.Journals.{Commanded, Received, entries_from, recorded};
ghost use Rattle.semantics.specs.WorldHistory.{BeginsWith};
ghost use Rattle.replica.specs.operation.Ops.{command_of, stamped_of};
ghost use Rattle.records.specs.wire.Lines.{cut};
ghost use Rattle.records.specs.Replays.{BringsBackLines, record_meant};
ghost use Rattle.session.specs.Replays.{AreFirstLines, HasRecord, may_stand};

use super::{Session, append};
use ids::{OpId, Refusal};
use records::{Lines, Recorded, Replayed, Scratch, Unfit, check_recorded, read_record};
use replica::{Command, Op, Shared};
use std::alloc::Global;

impl Session {
    /// Takes the lines of a journal, one after the other, and stops at the first that doesn't fit: each own command is made again, and must
    /// make the id that its line says, and each operation of a peer must be applied at once. After this the history has an entry for each
    /// line that was taken. A line that is refused by the rules, or that made another id, has changed nothing; after `NotApplied` its
    /// operation may wait. After `NotAlone` (more was ready than this line), and if allocation failed (`NoMemory`), its entry may be in the
    /// history all the same: start over with a new session. A journal may be given in pieces, one after the other.
    pub fn replay(&mut self, alloc: Global, journal: &[u8]) -> Replayed
        ensures taken { (G : List TheEntry)
            × BringsBackLines self.old.entries (take result.entries (cut journal.now).lines) G
            × BeginsWith self.new.entries G
            × (result.stopped ≡ None → (self.new.entries ≡ G) × (result.bytes ≡ length journal.now))
            × IfSome result.stopped (λ stop. IsFalse (may_stand stop.1) → self.new.entries ≡ G) }
        ensures bytes { AreFirstLines journal.now result.entries result.bytes }
        ensures stopped { IfSome result.stopped (λ stop. stop.0 ≡ result.entries + 1) }
        ensures own { self.new.own ≡ self.old.own }
    {
        let mut scratch = Scratch::new(alloc);
        let mut lines = Lines::new(journal);
        let mut replayed = Replayed {
            entries: 0,
            bytes: 0,
            stopped: None,
        };
        while let Some(line) = lines.take_line() {
            match self.bring_back(alloc, &mut scratch, line.text) {
                Ok(()) => replayed.count(line.text.len() + 1),
                Err(why) => {
                    replayed.stopped = Some((line.number, why));
                    return replayed;
                }
            }
        }
        if let Some(number) = lines.cut_line() {
            replayed.stopped = Some((number, Unfit::Refused(Refusal::BadLine)));
            return replayed;
        }
        replayed
    }

    /// Replays a line.
    fn bring_back(&mut self, alloc: Global, scratch: &mut Scratch, line: &[u8]) -> Result<(), Unfit>
        ensures ok { OnOk result (BringsBackLines self.old.entries (line.now ∷ []) self.new.entries) }
        ensures grows { BeginsWith self.new.entries self.old.entries }
        ensures own { self.new.own ≡ self.old.own }
        ensures same { IfErr result (λ why. IsFalse (may_stand why) → self.new.entries ≡ self.old.entries) }
    {
        match read_record(alloc, scratch, line)? {
            Recorded::Commanded(id, command) => self.remake(alloc, id, command),
            Recorded::Received(op) => self.receive_again(alloc, op),
        }
    }

    /// Makes an operation of a command again, and appends it if it has this id.
    fn remake(&mut self, alloc: Global, id: OpId, command: Shared<Command>) -> Result<(), Unfit>
        ensures ok { OnOk result (HasRecord self.old.entries (Commanded id (command_of command)) self.new.entries) }
        ensures same { OnErr result (self.new ≡ self.old) }
        ensures own { self.new.own ≡ self.old.own }
    {
        let op = self.replica.make(alloc, &command)?;
        let made = op.id;
        if made != id {
            return Err(Unfit::OtherId(made));
        }
        append(&mut self.replica, command, op);
        Ok(())
    }

    /// Receives an operation of a peer, which must be applied at once.
    fn receive_again(&mut self, alloc: Global, op: Shared<Op>) -> Result<(), Unfit>
        ensures ok { OnOk result (HasRecord self.old.entries (Received (stamped_of op)) self.new.entries) }
        ensures grows { BeginsWith self.new.entries self.old.entries }
        ensures own { self.new.own ≡ self.old.own }
        ensures same { IfErr result (λ why. IsFalse (may_stand why) → self.new.entries ≡ self.old.entries) }
    {
        let position = self.len();
        self.receive_one(alloc, op.clone()?)?;
        self.check_behind(alloc, position, &Recorded::Received(op))
    }

    /// Delivers an operation of a peer, and applies what is then ready.
    fn receive_one(&mut self, alloc: Global, op: Shared<Op>) -> Result<(), Unfit>
        ensures grows { BeginsWith self.new.entries self.old.entries }
        ensures own { self.new.own ≡ self.old.own }
        ensures same { IfErr result (λ why. IsFalse (may_stand why) → self.new.entries ≡ self.old.entries) }
    {
        self.deliver(op)?;
        self.settle(alloc)?;
        Ok(())
    }

    /// Tests that there is one entry from a position on, and that it is what a line records.
    fn check_behind(&self, alloc: Global, position: usize, said: &Recorded) -> Result<(), Unfit>
        ensures ok { OnOk result (map recorded (entries_from position self.now.entries) ≡ record_meant said.now ∷ []) }
        ensures none { IfErr result (λ why. IsFalse (may_stand why) → entries_from position self.now.entries ≡ []) }
    {
        let entries = self.document().entries_from(alloc, position)?;
        check_recorded(entries.as_slice(), said)?;
        Ok(())
    }
}
