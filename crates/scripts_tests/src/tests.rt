//! What no script of `tests/scripts` can say: replies that no script reaches, and what a caller of the crate is told.

mod replies;
mod running;
