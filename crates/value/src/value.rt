//! The values that operations write.

ghost use Rattle.std.specs.Prelude.{◌≡◌, ◌⊎◌, ◌<◌, ◌≤◌, length, MatchResult};
ghost use Rattle.std.specs.Cmp;
ghost use Rattle.ids.specs.declared.refusal.Refusal.TheVariants.{NoMemory, TextTooLong};
ghost use Rattle.semantics.specs.Elements as element;
ghost use Rattle.semantics.specs.Limits.{most_text_bytes};
ghost use Rattle.value.specs.SameValues.{is_same_scalar, is_same_value, same_scalar_equiv, same_value_equiv};
ghost use Rattle.value.specs.Values.{scalar_of, value_of};

use crate::text::Text;
use ids::Refusal;
use std::alloc::{AllocError, Global};

/// A value without parts.
#[derive(Debug, Drop)]
pub enum Scalar {
    Null,
    Bool(bool),
    /// A whole number of 64 bits.
    Whole(i64),
    Text(Text),
}

impl Clone for Scalar {
    ghost is_clone = { λ s t. t ≡ s };

    fn clone(&self) -> Result<Scalar, AllocError> {
        match self {
            Scalar::Null => Ok(Scalar::Null),
            Scalar::Bool(truth) => Ok(Scalar::Bool(*truth)),
            Scalar::Whole(whole) => Ok(Scalar::Whole(*whole)),
            Scalar::Text(text) => Ok(Scalar::Text(text.clone()?)),
        }
    }
}

impl PartialEq for Scalar {
    ghost eq = { λ s t. is_same_scalar (scalar_of s) (scalar_of t) };

    ghost laws = { Cmp.partial_equiv_from_equiv (Cmp.on_equiv scalar_of same_scalar_equiv) };

    fn eq(&self, other: &Scalar) -> bool {
        match (self, other) {
            (Scalar::Null, Scalar::Null) => true,
            (Scalar::Bool(truth), Scalar::Bool(other)) => truth == other,
            (Scalar::Whole(whole), Scalar::Whole(other)) => whole == other,
            (Scalar::Text(text), Scalar::Text(other)) => text == other,
            _ => false,
        }
    }
}

impl Eq for Scalar {
    ghost laws = { Cmp.on_equiv scalar_of same_scalar_equiv };
}

/// A value that an operation writes: one without parts, or an empty map or list.
#[derive(Debug, Drop)]
pub enum Val {
    Scalar(Scalar),
    EmptyMap,
    EmptyList,
}

impl Val {
    /// The value that is this text. One allocation, which all its clones share.
    ///
    /// # Errors
    /// `TextTooLong` for more than 4,096 bytes, else `NoMemory` if allocation fails.
    pub fn text(alloc: Global, text: &str) -> Result<Val, Refusal>
        ensures { MatchResult result
            (λ v. (value_of v ≡ element.Plain (element.Text text.now)) × (length text.now ≤ most_text_bytes))
            (λ why. ((why ≡ NoMemory) × (length text.now ≤ most_text_bytes))
            ⊎ ((why ≡ TextTooLong) × (most_text_bytes < length text.now))) }
    {
        Ok(Val::Scalar(Scalar::Text(Text::new(alloc, text)?)))
    }
}

impl Clone for Val {
    ghost is_clone = { λ v w. w ≡ v };

    fn clone(&self) -> Result<Val, AllocError> {
        match self {
            Val::Scalar(scalar) => Ok(Val::Scalar(scalar.clone()?)),
            Val::EmptyMap => Ok(Val::EmptyMap),
            Val::EmptyList => Ok(Val::EmptyList),
        }
    }
}

impl PartialEq for Val {
    ghost eq = { λ v w. is_same_value (value_of v) (value_of w) };

    ghost laws = { Cmp.partial_equiv_from_equiv (Cmp.on_equiv value_of same_value_equiv) };

    fn eq(&self, other: &Val) -> bool {
        match (self, other) {
            (Val::Scalar(scalar), Val::Scalar(other)) => scalar == other,
            (Val::EmptyMap, Val::EmptyMap) | (Val::EmptyList, Val::EmptyList) => true,
            _ => false,
        }
    }
}

impl Eq for Val {
    ghost laws = { Cmp.on_equiv value_of same_value_equiv };
}
