//! What holds of every run of a world in which all that is received was sent by its engines, and no two have the same own number.

ghost use Rattle.std.specs.Prelude.{◌≡◌, ◌⊎◌, ℕ, List, ◌++◌, Some, slice_get};
ghost use Rattle.ids.specs.Configurations.{Configuration};
ghost use Rattle.semantics.specs.Ids.{OpId};
ghost use Rattle.semantics.specs.Operations.{Operation};
ghost use Rattle.semantics.specs.LegalHistory.{IsLegal, IsAmong, has_id};
ghost use Rattle.semantics.specs.Questions.{Question};
ghost use Rattle.semantics.specs.DocumentAnswer.{document_answer};
ghost use Rattle.semantics.specs.Stamped.{Stamped};
ghost use Rattle.semantics.specs.Entries.{Entry, applied, stamped_entries};
ghost use Rattle.semantics.specs.OneWorld.{IsReplicaOf};
ghost use Rattle.semantics.specs.Exchange.{LacksRoomFor};
ghost use Rattle.semantics.specs.Engine.{Engine, Message, published_entries};
ghost use Rattle.semantics.specs.World.{WorldStep, opened, world_after};
ghost use Rattle.semantics.specs.WorldHistory.{IsEngineAfter};
ghost use Rattle.semantics.specs.WorldExchange.{HaveOwnNumbers, AreWithoutLines, IsExchange, IsHandledBelow, IsAppliedUnlessFull};

/// All histories are of one legal history, and an engine drops nothing unless its table is full.
pub fn histories_are_of_one_world()
    ensures { (cs : List Configuration) (steps : List WorldStep) → HaveOwnNumbers cs → AreWithoutLines steps →
        (K : List Operation) × IsLegal K
        × ((e : ℕ) (E : Engine) → IsEngineAfter cs steps e E → IsReplicaOf K E.replica.own E.replica) }
{}

/// Engines that have published the same ids answer every question alike.
pub fn engines_answer_alike()
    ensures { (cs : List Configuration) (steps : List WorldStep) → HaveOwnNumbers cs → AreWithoutLines steps →
        (d e : ℕ) (D E : Engine) → IsEngineAfter cs steps d D → IsEngineAfter cs steps e E →
        ((a : OpId) → has_id (applied (published_entries D)) a ≡ has_id (applied (published_entries E)) a) →
        (q : Question) → document_answer (applied (published_entries D)) q ≡ document_answer (applied (published_entries E)) q }
{}

/// A message that was sent stays under its number.
pub fn messages_stay()
    ensures { (cs : List Configuration) (steps more : List WorldStep) (k : ℕ) (m : Message) →
        slice_get (world_after (opened cs) steps).messages k ≡ Some m →
        slice_get (world_after (opened cs) (steps ++ more)).messages k ≡ Some m }
{}

/// An engine that said hello and received the answer has, once what came is handled, all that its peer had published when it answered, and
/// none of it waits. Only if its history is full may an operation wait, or have been refused with HistoryFull when it was delivered; and
/// only if its table has no room for a replica that wrote some of it may anything else be lacking.
pub fn an_exchange_of_messages_is_complete()
    ensures { (cs : List Configuration) (steps : List WorldStep) → HaveOwnNumbers cs → AreWithoutLines steps →
        (a b c first end : ℕ) (published : List Entry) (A : Engine) → IsExchange cs steps a b c first end published →
        IsEngineAfter cs steps a A → IsHandledBelow A c end →
        (s : Stamped) → IsAmong s (stamped_entries published) →
        IsAppliedUnlessFull A c first end s ⊎ LacksRoomFor A.replica (stamped_entries published) }
{}
