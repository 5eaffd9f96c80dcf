//! A batch that the writer handles is a step of a world.

ghost use Rattle.std.specs.Prelude.{List};
ghost use Rattle.semantics.specs.LegalAnswer.{Submitted};
ghost use Rattle.semantics.specs.Engine.{Engine as TheEngine, Handled};
ghost use Rattle.semantics.specs.Handling.{Handler, Runs};
ghost use Rattle.agreement.specs.GrantedTurns.{AreGranted, Awaits, StepsAlike};

/// A batch that is handled by the rules alone, as one in which no allocation fails, is a whole step of a world's engine, which consists of
/// its takes, one publish and its gives: it does the same with the same submissions. That a step of the writer handles such a batch is in
/// the contract of `Writer::step`; that it took the whole queue if the batch isn't full is only tested.
pub fn a_step_is_a_step_of_a_world()
    ensures runs { (w v : Handler) (hs : List Handled) → AreGranted w hs v → Runs w hs v }
    ensures alike { (E : TheEngine) (w v : Handler) (hs : List Handled) (rest : List Submitted) → Awaits E w hs rest → AreGranted w hs v
        → StepsAlike E hs rest v }
{}
