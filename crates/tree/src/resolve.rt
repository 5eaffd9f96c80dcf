//! Expressions, and the places that they lead to.

ghost use Rattle.std.specs.Prelude.{◌≡◌, ◌⊎◌, map, IfOk, IfErr, OnOk, Ok, Err};
ghost use Rattle.ids.specs.declared.refusal.Refusal.TheVariants.{NoMemory};
ghost use Rattle.semantics.specs.DocumentAnswer.{lists_of};
ghost use Rattle.semantics.specs.Questions.{resolve};
ghost use Rattle.operation.specs.cursor.Steps.{hop_of};
ghost use Rattle.operation.specs.cursor.Places.{is_head, place_at};
ghost use Rattle.tree.specs.Nodes.{IsTree, context};
ghost use Rattle.tree.specs.Shown.{AreShown};
ghost use Rattle.tree.specs.Writes.{end_of};
ghost use Rattle.tree.specs.Spots.{target_from};

use crate::node::Node;
use crate::spot::{Spot, Target};
use ids::Refusal;
use operation::{Expr, ExprStep as Step, Hop, MOST_KEYS, Place};
use std::alloc::{AllocError, Global};

/// The place that an expression leads to from the root. Copies its keys. Items are looked up in the order of their list: for an index it
/// looks at how many items each block shows, for an id it is a binary search.
pub fn resolve(alloc: Global, nodes: &[Node], expression: &Expr) -> Result<Place, Refusal>
    requires tree { IsTree nodes.now }
    requires shown { AreShown nodes.now }
    ensures place { IfOk result (λ p. resolve (lists_of (context nodes.now)) expression.now ≡ Ok p) }
    ensures err { IfErr result (λ why. (why ≡ NoMemory) ⊎ (resolve (lists_of (context nodes.now)) expression.now ≡ Err why)) }
{
    let steps = expression.steps();
    let mut hops = Vec::with_capacity(alloc, count_hops(steps))?;
    let mut spot = Spot::root();
    for step in steps {
        // A `match`, as in `find`.
        match spot.target(nodes, step) {
            Ok(target) => {
                push_hop(&mut hops, &target)?;
                spot = spot.after(nodes, &target);
            }
            Err(why) => return Err(why),
        }
    }
    Place::new(hops, spot.is_head)
}

/// How many hops the place has that the steps lead to: one for each step, but none for one to the head of a list. A place has 32 at most,
/// and keeps its hops for good, so no more room is reserved for them.
fn count_hops(steps: &[Step]) -> usize {
    let hops = match steps.split_last() {
        Some((Step::Idx(0), before)) => before.len(),
        _ => steps.len(),
    };
    hops.min(MOST_KEYS)
}

/// Appends the hop to a target; a head has none.
fn push_hop(hops: &mut Vec<Hop>, target: &Target) -> Result<(), AllocError>
    ensures { OnOk result
        (place_at (map hop_of hops.new.items) (is_head (target_from (end_of (map hop_of hops.old.items)) target.now))
        ≡ target_from (end_of (map hop_of hops.old.items)) target.now) }
{
    match target {
        Target::Head => {}
        Target::Field(key) => hops.push(Hop::Field((*key).clone()?))?,
        Target::Item(id) => hops.push(Hop::Item(*id))?,
    }
    Ok(())
}
