//! A world: engines on one thread and the messages between them, moved by a list of steps.
#![tactic(auto)]

mod client;
mod engine;
mod message;
mod publisher;
mod step;
mod world;

pub use replica::Reply;
pub use step::{WorldAct, WorldReply, WorldStep};
pub use world::World;

// Re-exported from the crates below, for users of this one.
pub use replica::{
    Command, Expr, ExprStep, Key, NamedVector, Op, Question, Reading, Scalar, Shared, Tag, Val,
};
pub use wire::{
    LINE_END, Lines, id_in, json_of, list_in, number_in, phrase_in, put_id, put_op, put_scalar,
    put_vector, text_in, vector_in,
};
