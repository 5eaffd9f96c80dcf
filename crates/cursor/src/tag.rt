//! The types of the elements of a document.

ghost use Rattle.std.specs.Prelude.{◌≡◌};
ghost use Rattle.semantics.specs.Elements.{tag_of as tag_of_value};
ghost use Rattle.value.specs.Values.{value_of};

use value::Val;

/// The type of what stands at an element: a map, a list or a register.
#[derive(Clone, Copy, Debug, PartialEq, Eq)]
pub enum Tag {
    Map,
    List,
    /// A register.
    Reg,
}

impl Tag {
    ghost use Rattle.cursor.specs.Steps.{tag_of};

    /// The tag of a value.
    pub fn of(value: &Val) -> Tag
        ensures { tag_of result ≡ tag_of_value (value_of value.now) }
    {
        match value {
            Val::EmptyMap => Tag::Map,
            Val::EmptyList => Tag::List,
            Val::Scalar(_) => Tag::Reg,
        }
    }
}
