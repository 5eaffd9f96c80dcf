//! What engines show, and whether they show the same.

ghost use Rattle.std.specs.Prelude.{◌≡◌, ◌⊎◌, ◌↔◌, map};
ghost use Rattle.std.specs.Bool.{Decides};
ghost use Rattle.bench.specs.declared.plan.Verdict.TheVariants.{Agree, Differ};
ghost use Rattle.bench.specs.Showing.{ShowAlike, is_same_view, view_of};

use crate::plan::Verdict;
use ids::OpId;
use peer_sync::{Key, Scalar};

/// What an engine shows to a reader.
#[derive(Debug, Drop)]
pub struct Shown {
    /// How many operations its history has.
    pub length: usize,
    /// The keys of the document.
    pub keys: Vec<Key>,
    /// The values at each of the keys.
    pub values: Vec<Vec<(OpId, Scalar)>>,
}

impl Shown {
    /// Whether both have the same length, keys and values.
    pub fn is_same(&self, other: &Shown) -> bool
        ensures { result ≡ is_same_view (view_of self.now) (view_of other.now) }
    {
        self.length == other.length && self.keys == other.keys && self.values == other.values
    }
}

/// Whether all engines show the same, in histories of this many operations.
pub fn judge(shown: &[Shown], operations: u32) -> Verdict
    ensures agree { (result ≡ Agree operations) ↔ ShowAlike operations (map view_of shown.now) }
    ensures differ { (result ≡ Agree operations) ⊎ (result ≡ Differ) }
{
    if show_alike(shown, operations as usize) {
        Verdict::Agree(operations)
    } else {
        Verdict::Differ
    }
}

/// Whether all show the same, in histories of this length.
fn show_alike(shown: &[Shown], length: usize) -> bool
    ensures { Decides result (ShowAlike length (map view_of shown.now)) }
{
    match shown.first() {
        Some(first) => first.length == length && shown.iter().all(|one| one.is_same(first)),
        None => true,
    }
}
