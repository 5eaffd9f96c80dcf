//! Kernels over columns of counters, which compare or change eight of them at once.
#![tactic(auto)]

mod block;
mod compare;
mod mask;
mod maxima;

pub use compare::{all_eq, all_le};
pub use mask::{count_over, is_set, mask_over, masks_keep_counts};
pub use maxima::{greatest, max_into};
