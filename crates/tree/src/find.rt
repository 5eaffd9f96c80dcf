//! The node that an expression leads to, for answers: no key is copied on the way.

ghost use Rattle.std.specs.Prelude.{◌≡◌, ◌<◌, length, IfSome, IfOk, IfErr, Ok};
ghost use Rattle.semantics.specs.Elements.{At, Element};
ghost use Rattle.semantics.specs.DocumentAnswer.{lists_of};
ghost use Rattle.semantics.specs.Questions.{answer_at, resolve, Answer, Refused};
ghost use Rattle.tree.specs.Nodes.{IsTree, context, number};
ghost use Rattle.tree.specs.Shown.{AreShown};

use crate::node::{Node, NodeNumber};
use crate::spot::Spot;
use ids::Refusal;
use operation::Expr;

/// The node of the element that an expression leads to, `None` if none was made there. A binary search for each key, two for an id; for an
/// index it looks at how many items each block of the list shows. Allocates nothing.
///
/// # Errors
/// `AtHead` for a step from a head, or if the expression ends at one; `TooDeep` for a step from an element 32 keys deep; `PastEnd` if the
/// list has fewer visible items than the index, or never had an item with the id. The first step that fails decides.
pub fn find(nodes: &[Node], expression: &Expr) -> Result<Option<NodeNumber>, Refusal>
    requires tree { IsTree nodes.now }
    requires shown { AreShown nodes.now }
    ensures found { IfOk result
        (λ o. (e : Element) × (resolve (lists_of (context nodes.now)) expression.now ≡ Ok (At e)) × (number nodes.now e ≡ o)) }
    ensures inside { IfOk result (λ o. IfSome o (λ at. at < length nodes.now)) }
    ensures err { IfErr result
        (λ why. (f : Element → Answer) → answer_at f (resolve (lists_of (context nodes.now)) expression.now) ≡ Refused why) }
{
    let mut spot = Spot::root();
    for step in expression.steps() {
        // A `match`, since the borrow checker doesn't support `?` on a result that holds a target.
        match spot.target(nodes, step) {
            Ok(target) => spot = spot.after(nodes, &target),
            Err(why) => return Err(why),
        }
    }
    if spot.is_head {
        return Err(Refusal::AtHead);
    }
    Ok(spot.node)
}
