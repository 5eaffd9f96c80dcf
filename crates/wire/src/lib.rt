//! The wire: operations, version vectors and bundles of operations, as lines of JSON. Scripts are read by the same functions, from the
//! lines of a text to the parts of a line.
#![tactic(auto)]

mod bundles;
mod canonical;
mod changes;
mod deltas;
mod escapes;
mod forms;
mod lines;
mod messages;
mod op_ids;
mod places;
mod profiles;
mod reading;
mod scan;
mod vectors;
mod writing;

pub use bundles::{
    LinesRead, bundles_are_read_back, bundles_are_written_alike, read_bundle, read_lines,
    write_bundle,
};
pub use deltas::vectors_are_their_differences;
pub use forms::{json_of, list_in, number_in, phrase_in, text_in};
pub use lines::{LINE_END, Line, Lines};
pub use messages::{
    lines_are_read_back, operations_are_read_back, read_op, read_vector,
    what_is_read_is_written_alike, write_op, write_vector,
};
pub use op_ids::id_in;
pub use profiles::{BundleReader, BundleWriter, lines_beside_are_read_back};
pub use reading::operation_in;
pub use vectors::vector_in;
pub use writing::{put_id, put_op, put_scalar, put_value, put_vector};
