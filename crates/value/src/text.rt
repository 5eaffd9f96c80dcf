//! Texts of bounded length: the keys of maps, and the texts among values.

ghost use Rattle.std.specs.Prelude.{◌≡◌, ◌≤◌, ◌<◌, ◌==◌, ◌↔◌, ◌⊎◌, length, IfOk, IfErr, Err, Some, refl};
ghost use Rattle.std.specs.Cmp.Lexicographic.{pointwise, slice_cmp, nat_list_eq_equiv, nat_list_cmp_total, texts_ties, texts_po};
ghost use Rattle.std.specs.Cmp;
ghost use Rattle.std.specs.Ordering.{nat_cmp};
ghost use Rattle.semantics.specs.Limits.{most_key_bytes, most_text_bytes};
ghost use Rattle.ids.specs.declared.refusal.Refusal.TheVariants.{NoMemory, KeyTooLong, TextTooLong};

use ids::Refusal;
use std::alloc::{AllocError, Global};
use std::cmp::Ordering;
use std::marker::Model;
use std::sync::ArcStr;

/// The most bytes that a key may have.
pub const MOST_KEY_BYTES: usize = 256;

/// The most bytes that a text may have.
pub const MOST_TEXT_BYTES: usize = 4096;

/// A text of at most `MOST` bytes of UTF-8, ordered by bytes, whose clones share it. Contracts see its bytes.
#[derive(Debug, Drop)]
pub struct BoundedText<const MOST: usize> {
    text: ArcStr,
}

/// A map key.
pub type Key = BoundedText<MOST_KEY_BYTES>;

/// A text that is a value.
pub type Text = BoundedText<MOST_TEXT_BYTES>;

impl<const MOST: usize> Model for BoundedText<MOST> {
    ghost use Rattle.std.specs.Prelude.{ℕ, List, ◌≤◌, length};
    ghost use Rattle.std.specs.Arc.{arc_str_bytes};

    ghost Value = { List ℕ };

    ghost view = { λ k. arc_str_bytes k.text };

    ghost invariant = { λ k. length (arc_str_bytes k.text) ≤ MOST };
}

impl Key {
    /// A copy of the text as a key.
    ///
    /// # Errors
    /// `KeyTooLong` for more than 256 bytes, before anything is allocated, else `NoMemory` if allocation fails.
    pub fn new(alloc: Global, text: &str) -> Result<Key, Refusal>
        ensures ok { IfOk result (λ k. (k ≡ text.now) × (length text.now ≤ most_key_bytes)) }
        ensures too_long { (result ≡ Err KeyTooLong) ↔ (most_key_bytes < length text.now) }
        ensures err { IfErr result (λ why. (why ≡ NoMemory) ⊎ (why ≡ KeyTooLong)) }
    {
        BoundedText::copy_of(alloc, text, Refusal::KeyTooLong)
    }
}

impl Text {
    /// A copy of the text as a value.
    ///
    /// # Errors
    /// `TextTooLong` for more than 4,096 bytes, before anything is allocated, else `NoMemory` if allocation fails.
    pub fn new(alloc: Global, text: &str) -> Result<Text, Refusal>
        ensures ok { IfOk result (λ t. (t ≡ text.now) × (length text.now ≤ most_text_bytes)) }
        ensures too_long { (result ≡ Err TextTooLong) ↔ (most_text_bytes < length text.now) }
        ensures err { IfErr result (λ why. (why ≡ NoMemory) ⊎ (why ≡ TextTooLong)) }
    {
        BoundedText::copy_of(alloc, text, Refusal::TextTooLong)
    }
}

impl<const MOST: usize> BoundedText<MOST> {
    /// The text itself.
    pub fn as_str(&self) -> &str
        ensures text { result.now ≡ self.now }
        ensures short { length result.now ≤ MOST }
    {
        self.text.as_str()
    }

    /// A copy of the text. Checks its length before it allocates.
    fn copy_of(alloc: Global, text: &str, too_long: Refusal) -> Result<BoundedText<MOST>, Refusal>
        ensures ok { IfOk result (λ t. (t ≡ text.now) × (length text.now ≤ MOST)) }
        ensures err { IfErr result (λ why. ((why ≡ NoMemory) × (length text.now ≤ MOST)) ⊎ ((why ≡ too_long) × (MOST < length text.now))) }
    {
        if text.len() > MOST {
            return Err(too_long);
        }
        let text = ArcStr::from_str(alloc, text)?;
        Ok(BoundedText { text })
    }
}

impl<const MOST: usize> Clone for BoundedText<MOST> {
    ghost is_clone = { λ s t. t ≡ s };

    fn clone(&self) -> Result<BoundedText<MOST>, AllocError> {
        Ok(BoundedText {
            text: self.text.clone()?,
        })
    }
}

impl<const MOST: usize> PartialEq for BoundedText<MOST> {
    ghost eq = { λ x y. pointwise (λ a b. a == b) x y };

    ghost laws = { Cmp.partial_equiv_from_equiv nat_list_eq_equiv };

    fn eq(&self, other: &BoundedText<MOST>) -> bool {
        self.text == other.text
    }
}

impl<const MOST: usize> Eq for BoundedText<MOST> {
    ghost laws = { nat_list_eq_equiv };
}

impl<const MOST: usize> PartialOrd for BoundedText<MOST> {
    ghost partial_cmp = { λ x y. Some (slice_cmp nat_cmp x y) };

    ghost laws = { texts_po };

    fn partial_cmp(&self, other: &BoundedText<MOST>) -> Option<Ordering> {
        Some(self.cmp(other))
    }
}

impl<const MOST: usize> Ord for BoundedText<MOST> {
    ghost cmp = { slice_cmp nat_cmp };

    ghost total = { nat_list_cmp_total };

    ghost matches_partial_cmp = { λ x y. refl };

    ghost matches_eq = { λ x y. texts_ties x y };

    /// In byte order.
    fn cmp(&self, other: &BoundedText<MOST>) -> Ordering {
        self.text.cmp(&other.text)
    }
}
