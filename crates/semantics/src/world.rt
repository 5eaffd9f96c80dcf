//! What holds of every run of a world, over every list of steps.

ghost use Rattle.std.specs.Prelude.{◌≡◌, ◌+◌, ◌<◌, ◌≤◌, ℕ, suc, List, ◌∷◌, ◌++◌, length, Option, Some, slice_get};
ghost use Rattle.ids.specs.Configurations.{Configuration};
ghost use Rattle.ids.specs.declared.refusal.Refusal.{Refusal};
ghost use Rattle.semantics.specs.Ids.{OpId};
ghost use Rattle.semantics.specs.LegalHistory.{IsAmong};
ghost use Rattle.semantics.specs.NamedIds.{vector_of};
ghost use Rattle.semantics.specs.Vectors.{Vector};
ghost use Rattle.semantics.specs.Questions.{Question};
ghost use Rattle.semantics.specs.View.{view};
ghost use Rattle.semantics.specs.Stamped.{Stamped};
ghost use Rattle.semantics.specs.Making.{Command};
ghost use Rattle.semantics.specs.Entries.{IsEntryHistory, Own, applied, entry_at, first_entries, stamped_entries};
ghost use Rattle.semantics.specs.LegalAnswer.{Request, OfCommand, OfPeer, Submitted, Reply, Made, RefusedAt, Asked, OfDocument, Reading};
ghost use Rattle.semantics.specs.LegalAnswer.{Answered, LacksSerial, reading_of};
ghost use Rattle.semantics.specs.PeerAnswers.{IsAnswer};
ghost use Rattle.semantics.specs.Engine.{Engine, Client, Given, Message, Hello, Bundle, Ticket, Replied, Read, SentBundle, Received};
ghost use Rattle.semantics.specs.Engine.{published_entries};
ghost use Rattle.semantics.specs.WriteSteps.{next_submission, push};
ghost use Rattle.semantics.specs.ReadSteps.{poll, ask, learn, seen_by};
ghost use Rattle.semantics.specs.PeerSteps.{say_hello, answer_hello, receive_lines};
ghost use Rattle.semantics.specs.World.{WorldAct, WorldStep, Push, step_by, sent_by};
ghost use Rattle.semantics.specs.WorldHistory.{IsEngineAfter, BeginsWith, WasSubmitted, WasGiven, WasReplied, IsNotBelow, HasGrown};
ghost use Rattle.semantics.specs.WorldHistory.{HasAllSubmitted};

/// Each history is an entry history of its replica. What is published is a beginning of it, and no token has seen more than that.
pub fn histories_are_entry_histories()
    ensures history { (cs : List Configuration) (steps : List WorldStep) (e : ℕ) (E : Engine) → IsEngineAfter cs steps e E →
        IsEntryHistory E.replica.own E.replica.entries }
    ensures published { (cs : List Configuration) (steps : List WorldStep) (e : ℕ) (E : Engine) → IsEngineAfter cs steps e E →
        E.published ≤ length E.replica.entries }
    ensures seen { (cs : List Configuration) (steps : List WorldStep) (e : ℕ) (E : Engine) → IsEngineAfter cs steps e E →
        (t : ℕ) → seen_by E t ≤ E.published }
{}

/// A ticket is for what was submitted: the client's request, with its next serial and with what its token has seen as the floor.
/// It stays under that serial. What is received is submitted in the same way, each operation in turn, as many as the reply counts.
pub fn tickets_are_for_what_was_submitted()
    ensures ticket { (E : Engine) (c : ℕ) (request : Request) (serial : ℕ) → (push E c request).reply ≡ Ticket serial →
        (k : Client) × (slice_get E.clients c ≡ Some k) × (serial ≡ suc (length k.cells))
        × WasSubmitted (push E c request).engine c serial (next_submission c k request) }
    ensures kept { (cs : List Configuration) (steps more : List WorldStep) (e c : ℕ) (command : Command) (serial : ℕ) (E F : Engine) →
        IsEngineAfter cs steps e E → (push E c (OfCommand command)).reply ≡ Ticket serial →
        IsEngineAfter cs (steps ++ step_by e (Push c command) ∷ more) e F →
        (k : Client) × (slice_get E.clients c ≡ Some k) × WasSubmitted F c serial (next_submission c k (OfCommand command)) }
    ensures received { (cs : List Configuration) (steps : List WorldStep) (e : ℕ) (E : Engine) → IsEngineAfter cs steps e E →
        (c first n : ℕ) (ss : List Stamped) (bad : Option Refusal) (stop : Option (ℕ × Refusal)) →
        (receive_lines E c ss bad).reply ≡ Received first n stop → (i : ℕ) → i < n →
        (k : Client) × (s : Stamped) × (slice_get E.clients c ≡ Some k) × (slice_get ss i ≡ Some s)
        × WasSubmitted (receive_lines E c ss bad).engine c (first + i)
        (record { client = c; serial = first + i; request = OfPeer s; floor = k.seen }) }
{}

/// No accepted write vanishes. What a client submitted stands in its cells, under the serials 1, 2, 3 and so on. The first ones
/// have their answers; the rest are, in the same order and each once, what is due, handled or in the queue. A command that was
/// answered Made stands in the history (`made_commands_stand_once`).
pub fn no_submission_vanishes()
    ensures { (cs : List Configuration) (steps : List WorldStep) (e : ℕ) (E : Engine) → IsEngineAfter cs steps e E →
        (c : ℕ) → HasAllSubmitted E c }
{}

/// Each reply to a poll is a legal answer, in the published history, to what was submitted under that serial, and not below its floor.
/// `deliveries_are_answered_truly` says what a delivery's refusal is true of.
pub fn polls_reply_legally()
    ensures { (cs : List Configuration) (steps : List WorldStep) (e : ℕ) (E : Engine) → IsEngineAfter cs steps e E →
        (c serial : ℕ) (r : Reply) → (poll E c serial).reply ≡ Replied r →
        (x : Submitted) × WasSubmitted E c serial x × (x.client ≡ c) × (x.serial ≡ serial)
        × IsAnswer E.replica.own E.replica.members (published_entries E) x r × IsNotBelow x.floor r }
{}

/// A command that was answered Made stands in the history at the position that the answer names, as submitted, and nowhere else.
pub fn made_commands_stand_once()
    ensures { (cs : List Configuration) (steps : List WorldStep) (e : ℕ) (E : Engine) → IsEngineAfter cs steps e E →
        (c serial : ℕ) (x : Submitted) (a : OpId) (n : ℕ) → WasSubmitted E c serial x → (poll E c serial).reply ≡ Replied (Made a n) →
        (command : Command) × (s : Stamped) × (x.request ≡ OfCommand command)
        × (entry_at n (published_entries E) ≡ Some (Own c serial command s)) × (s.id ≡ a)
        × ((m : ℕ) (other : Command) (t : Stamped) → entry_at m E.replica.entries ≡ Some (Own c serial other t) → m ≡ n) }
{}

/// Each own entry of the history is of the command that its client submitted under its serial, to which the writer replied Made, with
/// the entry's id and position. No serial has two replies, so a command that was refused stands nowhere in the history.
pub fn refused_commands_stand_nowhere()
    ensures made { (cs : List Configuration) (steps : List WorldStep) (e : ℕ) (E : Engine) → IsEngineAfter cs steps e E →
        (m c serial : ℕ) (command : Command) (s : Stamped) → entry_at m E.replica.entries ≡ Some (Own c serial command s) →
        (x : Submitted) × WasSubmitted E c serial x × (x.request ≡ OfCommand command) × WasReplied E c serial (Made s.id m) }
    ensures once { (cs : List Configuration) (steps : List WorldStep) (e : ℕ) (E : Engine) → IsEngineAfter cs steps e E →
        (c serial : ℕ) (q r : Reply) → WasReplied E c serial q → WasReplied E c serial r → q ≡ r }
    ensures refused { (cs : List Configuration) (steps : List WorldStep) (e : ℕ) (E : Engine) → IsEngineAfter cs steps e E →
        (c serial : ℕ) (why : Refusal) (n : ℕ) → WasReplied E c serial (RefusedAt why n) → LacksSerial c serial E.replica.entries }
{}

/// Each reading is the answer of a published history that begins with what its token had seen: the document's answer, and the view of its
/// operations as a set.
pub fn readings_are_of_what_is_published()
    ensures reading { (cs : List Configuration) (steps : List WorldStep) (e : ℕ) (E : Engine) → IsEngineAfter cs steps e E →
        (t : ℕ) (q : Asked) (n : ℕ) (R : Reading) → (ask E t q).reply ≡ Read n R →
        (n ≡ length (published_entries E)) × (R ≡ reading_of (published_entries E) q)
        × BeginsWith (published_entries E) (first_entries (seen_by E t) E.replica.entries) }
    ensures view { (cs : List Configuration) (steps : List WorldStep) (e : ℕ) (E : Engine) → IsEngineAfter cs steps e E →
        (t : ℕ) (q : Question) (n : ℕ) (R : Reading) → (ask E t (OfDocument q)).reply ≡ Read n R →
        R ≡ Answered (view (applied (published_entries E)) q) }
{}

/// A token has seen what it reads: after a question, a hello or an answer to a hello, all that is published; after a poll, or after it
/// learnt of an answer, at least what was published with that answer.
pub fn tokens_see_what_they_read()
    ensures asked { (E : Engine) (t : ℕ) (q : Asked) → t < length E.clients + length E.readers →
        seen_by (ask E t q).engine t ≡ E.published }
    ensures greeted { (E : Engine) (t k : ℕ) → t < length E.clients + length E.readers →
        seen_by (say_hello E t k).engine t ≡ E.published }
    ensures answered { (E : Engine) (t k j n : ℕ) (m : Option Message) → t < length E.clients + length E.readers →
        (answer_hello E t k m).reply ≡ SentBundle j n → seen_by (answer_hello E t k m).engine t ≡ E.published }
    ensures polled { (E : Engine) (c serial : ℕ) (g : Given) → WasGiven E c serial g →
        g.published ≤ seen_by (poll E c serial).engine c }
    ensures learnt { (E : Engine) (t c serial : ℕ) (g : Given) → t < length E.clients + length E.readers → WasGiven E c serial g →
        g.published ≤ seen_by (learn E t c serial).engine t }
{}

/// What is sent is published: a hello names what is, and each operation of a bundle stands in the published history.
pub fn what_is_sent_is_published()
    ensures hello { (ms : List Message) (act : WorldAct) (E : Engine) (v : Vector) → IsAmong (Hello v) (sent_by ms act E) →
        v ≡ vector_of (applied (published_entries E)) }
    ensures bundle { (ms : List Message) (act : WorldAct) (E : Engine) (ss : List Stamped) → IsAmong (Bundle ss) (sent_by ms act E) →
        (s : Stamped) → IsAmong s ss → IsAmong s (stamped_entries (published_entries E)) }
{}

/// Nothing that was seen goes away: histories, what is published of them and what tokens have seen only grow, and what was
/// submitted, replied and answered stays.
pub fn worlds_only_grow()
    ensures { (cs : List Configuration) (steps more : List WorldStep) (e : ℕ) (E : Engine) (F : Engine) →
        IsEngineAfter cs steps e E → IsEngineAfter cs (steps ++ more) e F → HasGrown E F }
{}
