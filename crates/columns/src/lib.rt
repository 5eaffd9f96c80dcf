//! The columns of which a document's tree is made: what stands at each id, the keys of a map, the order of a list, and the numbers
//! of the nodes below.
#![tactic(auto)]

mod block;
mod block_indices;
mod by_id;
mod entry;
mod entry_list;
mod field_list;
mod fields;
mod flag_row;
mod held;
mod held_tags;
mod homes;
mod kinds;
mod list_order;
mod number_column;
mod numbers;
mod order_blocks;
mod prefix;
mod presence;
mod replica_column;
mod replica_columns;
mod rising_counters;
mod sorted_keys;
mod tag_columns;
mod tag_list;
mod walks;

pub use by_id::{ById, Register};
pub use fields::Fields;
pub use kinds::Kinds;
pub use list_order::ListOrder;
pub use numbers::Numbers;
pub use presence::Presence;
pub use sorted_keys::SortedKeys;
