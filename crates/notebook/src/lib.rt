//! An application that keeps a document in a file: it is there again at each start, and nothing is called saved, or sent, before it would
//! survive a loss of power.
//!
//! A `Journal` is what a store held when it was read. `Notebook::open` resumes from it; `write` and `receive` store what came of them
//! before they return, and `answer` sends only what is stored. `FileStore` is a store on a file.
#![tactic(auto)]

mod asking;
mod exchange;
mod opening;
mod writing;

pub use exchange::Receipt;
pub use opening::config_of;
pub use writing::Notebook;

// The other names that an application uses.
pub use engine::{
    Command, EngineName, Expr, Glance, OpId, Parts, Question, Reading, Refusal, Scalar, Val,
    prepare,
};
pub use ids::ReplicaId;
pub use journal::{Answered, Unfit};
pub use store::{Fault, FileStore, Journal, Store, StoreFailed, Unopened, draw_number};
