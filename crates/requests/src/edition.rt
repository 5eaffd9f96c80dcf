//! The forms that the lines of a script may have.

/// The forms that the lines of a script may have, as its first word says. A form that was added later isn't allowed in a script with the
/// first word, so such a script keeps its meaning.
#[derive(Clone, Copy, Debug, PartialEq, Eq)]
pub enum Edition {
    /// For the word `world`.
    First,
    /// For the word `world2`, with steps to items by their ids.
    Second,
}
