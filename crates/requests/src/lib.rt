//! Clients' questions and commands as JSON, and the replies to them; glances as human-readable JSON.
#![tactic(auto)]

mod codes;
mod commands;
mod edition;
mod expressions;
mod glances;
mod parts;
mod phrases;
mod questions;
mod readings;
mod taken_commands;

pub use codes::{put_made, put_refusal, put_refused};
pub use commands::{command_in, commands_are_read_back, commands_are_written_alike, put_command};
pub use edition::Edition;
pub use expressions::expression_in;
pub use glances::glance_json;
pub use parts::{opens, take_id, take_text, take_whole};
pub use phrases::{put_one, put_two, put_word};
pub use questions::{question_in, questions_are_written_alike};
pub use readings::put_reading;
pub use taken_commands::take_command;

// Re-exported from the crates below, for users of this one.
pub use document::{Command, Entry, Expr, Glance, Op, Question, Reading, Shared};
pub use wire::{
    BundleReader, BundleWriter, LINE_END, Lines, id_in, json_of, number_in, operation_in,
    phrase_in, put_id, put_op, put_vector, read_op, read_vector, text_in, write_bundle,
};
