//! Expressions, as clients write them.

ghost use Rattle.std.specs.Prelude.{◌≡◌, ◌⊎◌, ◌<◌, ◌≤◌, ◌++◌, ◌∷◌, [], length, map, IfOk, MatchResult};
ghost use Rattle.std.specs.Cmp;
ghost use Rattle.std.specs.Cmp.Lexicographic.{pointwise};
ghost use Rattle.ids.specs.declared.refusal.Refusal.TheVariants.{NoMemory, KeyTooLong};
ghost use Rattle.semantics.specs.Limits.{most_key_bytes};
ghost use Rattle.semantics.specs.Questions.{ById, Get as GetOf, Idx as IdxOf};
ghost use Rattle.cursor.specs.SamePlaces.{is_same_step, same_expression_equiv, same_step_equiv};
ghost use Rattle.cursor.specs.Steps.{step_of};

use ids::{OpId, Refusal};
use std::alloc::{AllocError, Global};
use std::marker::Model;
use value::Key;

/// One step of an expression.
#[derive(Debug, Drop)]
pub enum Step {
    /// Into the map here, to the field with this key.
    Get(Key),
    /// Into the list here: to its head at 0, to its first visible item at 1, and so on.
    Idx(u64),
    /// Into the list here: to the item with this id, even if the list no longer shows it.
    Item(OpId),
}

impl Clone for Step {
    ghost is_clone = { λ s t. t ≡ s };

    fn clone(&self) -> Result<Step, AllocError> {
        match self {
            Step::Get(key) => Ok(Step::Get(key.clone()?)),
            Step::Idx(index) => Ok(Step::Idx(*index)),
            Step::Item(id) => Ok(Step::Item(*id)),
        }
    }
}

impl PartialEq for Step {
    ghost eq = { λ s t. is_same_step (step_of s) (step_of t) };

    ghost laws = { Cmp.partial_equiv_from_equiv (Cmp.on_equiv step_of same_step_equiv) };

    fn eq(&self, other: &Step) -> bool {
        match (self, other) {
            (Step::Get(key), Step::Get(other)) => key == other,
            (Step::Idx(index), Step::Idx(other)) => index == other,
            (Step::Item(id), Step::Item(other)) => id == other,
            _ => false,
        }
    }
}

impl Eq for Step {
    ghost laws = { Cmp.on_equiv step_of same_step_equiv };
}

/// The steps from the root to an element: `Expr::root(alloc).get(alloc, "items")?.idx(1)?` leads to the first visible item of the
/// list at the key `items`. Contracts see the list of steps.
#[derive(Debug, Drop)]
pub struct Expr {
    steps: Vec<Step>,
}

impl Model for Expr {
    ghost use Rattle.std.specs.Prelude.{List, map};
    ghost use Rattle.std.specs.Coded.{codes};
    ghost use Rattle.semantics.specs.Questions.{Step as TheStep};
    ghost use Rattle.cursor.specs.Steps.{step_of};

    ghost Value = { List TheStep };

    ghost coded = { Prim.hlevel codes };

    ghost view = { λ e. map step_of e.steps.items };
}

impl Expr {
    /// The expression of the root, without steps. Allocates nothing.
    pub fn root(alloc: Global) -> Expr
        ensures { result ≡ [] }
    {
        Expr {
            steps: Vec::new(alloc),
        }
    }

    /// One step further: into the map there, to the field with this key.
    ///
    /// # Errors
    /// `KeyTooLong` for a key of more than 256 bytes, else `NoMemory` if allocation fails.
    pub fn get(mut self, alloc: Global, key: &str) -> Result<Expr, Refusal>
        ensures { MatchResult result
            (λ e. (e ≡ self ++ GetOf key.now ∷ []) × (length key.now ≤ most_key_bytes))
            (λ why. ((why ≡ NoMemory) × (length key.now ≤ most_key_bytes)) ⊎ ((why ≡ KeyTooLong) × (most_key_bytes < length key.now))) }
    {
        let key = Key::new(alloc, key)?;
        self.steps.push(Step::Get(key))?;
        Ok(self)
    }

    /// One step further: into the list there, to its head at 0, to its first visible item at 1, and so on.
    ///
    /// # Errors
    /// `AllocError` if allocation fails.
    pub fn idx(mut self, index: u64) -> Result<Expr, AllocError>
        ensures { IfOk result (λ e. e ≡ self ++ IdxOf index ∷ []) }
    {
        self.steps.push(Step::Idx(index))?;
        Ok(self)
    }

    /// One step further: into the list there, to the item with this id, which need no longer be shown. It leads there after any other edit,
    /// whereas an index may come to mean another item.
    ///
    /// # Errors
    /// `AllocError` if allocation fails.
    pub fn item(mut self, id: OpId) -> Result<Expr, AllocError>
        ensures { IfOk result (λ e. e ≡ self ++ ById id ∷ []) }
    {
        self.steps.push(Step::Item(id))?;
        Ok(self)
    }

    /// The expression of these steps, taken from the root on. Allocates nothing.
    pub fn new(steps: Vec<Step>) -> Expr
        ensures { result ≡ map step_of steps.items }
    {
        Expr { steps }
    }

    /// The steps from the root on.
    pub fn steps(&self) -> &[Step]
        ensures { map step_of result.now ≡ self.now }
    {
        &self.steps
    }
}

impl Clone for Expr {
    ghost is_clone = { λ d e. e ≡ d };

    fn clone(&self) -> Result<Expr, AllocError> {
        Ok(Expr {
            steps: self.steps.clone()?,
        })
    }
}

impl PartialEq for Expr {
    ghost eq = { pointwise is_same_step };

    ghost laws = { Cmp.partial_equiv_from_equiv same_expression_equiv };

    fn eq(&self, other: &Expr) -> bool {
        self.steps == other.steps
    }
}

impl Eq for Expr {
    ghost laws = { same_expression_equiv };
}
