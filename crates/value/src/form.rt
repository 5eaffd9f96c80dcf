//! Values in JSON.

ghost use Rattle.std.specs.Prelude.{◌≡◌, ◌⊎◌, Ok, Err, IfOk, IfErr, IsOkAnd};
ghost use Rattle.ids.specs.declared.refusal.Refusal.TheVariants.{NoMemory};
ghost use Rattle.semantics.specs.Elements.{Value as TheValue, Plain};
ghost use Rattle.serde_json.specs.View.{view};
ghost use Rattle.value.specs.Forms.{IsText, IsWithinLimits, json_of, scalar_json, value_form};
ghost use Rattle.value.specs.Values.{scalar_of, value_of};

use crate::text::Text;
use crate::value::{Scalar, Val};
use ids::Refusal;
use serde_json::{Map, Value};
use std::alloc::{AllocError, Global};

impl Val {
    /// The value of a JSON value. Only a text allocates, after its length is checked.
    ///
    /// # Errors
    /// `NotWhole` for a number that isn't whole or has more than 64 bits, `TextTooLong` for a text of more than 4,096 bytes,
    /// `BadLine` for a list or an object with parts, or `NoMemory` if allocation fails.
    pub fn from_json(alloc: Global, json: &Value) -> Result<Val, Refusal>
        ensures ok { IfOk result (λ v. value_form (view json.now) ≡ Ok (value_of v)) }
        ensures err { IfErr result
            (λ why. (value_form (view json.now) ≡ Err why) ⊎ ((why ≡ NoMemory) × IsOkAnd (value_form (view json.now)) IsText)) }
    {
        match json {
            Value::Null => Ok(Val::Scalar(Scalar::Null)),
            Value::Bool(truth) => Ok(Val::Scalar(Scalar::Bool(*truth))),
            Value::Number(number) => {
                let whole = number.as_i64().ok_or(Refusal::NotWhole)?;
                Ok(Val::Scalar(Scalar::Whole(whole)))
            }
            Value::String(text) => {
                let text = Text::new(alloc, text.as_str())?;
                Ok(Val::Scalar(Scalar::Text(text)))
            }
            Value::Array(items) if items.is_empty() => Ok(Val::EmptyList),
            Value::Array(_) => Err(Refusal::BadLine),
            Value::Object(members) if members.is_empty() => Ok(Val::EmptyMap),
            Value::Object(_) => Err(Refusal::BadLine),
        }
    }

    /// The value as JSON, which `from_json` reads as the same value. Only a text allocates.
    ///
    /// # Errors
    /// `AllocError` if allocation fails.
    pub fn to_json(&self, alloc: Global) -> Result<Value, AllocError>
        ensures ok { IfOk result (λ json. view json ≡ json_of (value_of self.now)) }
        ensures err { IfErr result (λ _. IsText (value_of self.now)) }
        ensures reads_back { value_form (json_of (value_of self.now)) ≡ Ok (value_of self.now) }
    {
        match self {
            Val::Scalar(scalar) => scalar.to_json(alloc),
            Val::EmptyMap => Ok(Value::Object(Map::new(alloc))),
            Val::EmptyList => Ok(Value::Array(Vec::new(alloc))),
        }
    }
}

impl Scalar {
    /// The scalar as JSON. Only a text allocates.
    ///
    /// # Errors
    /// `AllocError` if allocation fails.
    pub fn to_json(&self, alloc: Global) -> Result<Value, AllocError>
        ensures ok { IfOk result (λ json. view json ≡ scalar_json (scalar_of self.now)) }
        ensures err { IfErr result (λ _. IsText (Plain (scalar_of self.now))) }
        ensures reads_back { value_form (scalar_json (scalar_of self.now)) ≡ Ok (Plain (scalar_of self.now)) }
    {
        match self {
            Scalar::Null => Ok(Value::Null),
            Scalar::Bool(truth) => Ok(Value::Bool(*truth)),
            Scalar::Whole(whole) => Ok(Value::from(*whole)),
            Scalar::Text(text) => Ok(Value::String(String::from_str(alloc, text.as_str())?)),
        }
    }
}

/// The JSON of a value within the limits is read as that value.
pub fn values_are_read_back()
    ensures { (v : TheValue) → IsWithinLimits v → value_form (json_of v) ≡ Ok v }
{}
