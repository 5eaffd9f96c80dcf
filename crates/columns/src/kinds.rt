//! The kinds of value that are present at an element.

ghost use Rattle.std.specs.Prelude.{◌≡◌, ◌||◌};
ghost use Rattle.semantics.specs.Elements.{Tag as TheTag};
ghost use Rattle.semantics.specs.Glances.{is_same_tag};
ghost use Rattle.cursor.specs.Steps.{tag_of};
ghost use Rattle.columns.specs.Kinds.{has_kind};

use cursor::Tag;

/// The kinds of value that are present at an element. There can be several at once, after concurrent writes.
#[derive(Clone, Copy, Debug, PartialEq, Eq)]
pub struct Kinds {
    pub register: bool,
    pub map: bool,
    pub list: bool,
}

impl Kinds {
    /// No kind: nothing is present.
    pub const NONE: Kinds = Kinds {
        register: false,
        map: false,
        list: false,
    };

    /// These kinds, and that of this tag.
    pub fn with(self, tag: Tag) -> Kinds
        ensures { (t : TheTag) → has_kind result t ≡ (has_kind self t || is_same_tag t (tag_of tag)) }
    {
        let mut kinds = self;
        match tag {
            Tag::Reg => kinds.register = true,
            Tag::Map => kinds.map = true,
            Tag::List => kinds.list = true,
        }
        kinds
    }
}
