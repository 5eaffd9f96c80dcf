//! What a document answers to a question, and shows at a glance.

ghost use Rattle.std.specs.Prelude.{IfOk};
ghost use Rattle.session.specs.replica.document.Documents.{asked_of};
ghost use Rattle.serving.specs.Desks.{Asks, Looks};

use calls::Response;
use ids::Refusal;
use session::{Document, Expr, Question};
use std::alloc::{AllocError, Global};

/// The response to a question: the document's answer or refusal, and how many operations its history has. Costs what `Document::ask` does.
///
/// # Errors
/// `AllocError` if allocation fails.
pub fn ask(alloc: Global, document: &Document, question: &Question) -> Result<Response, AllocError>
    ensures { IfOk result (Asks document.now.entries (asked_of question.now)) }
{
    let length = document.len() as u64;
    match document.ask(alloc, question) {
        Ok(reading) => Ok(Response::Read(length, reading)),
        Err(Refusal::NoMemory) => Err(AllocError),
        Err(why) => Ok(Response::Refused(why, length)),
    }
}

/// The response with an element at a glance, to a depth of `depth` below it and at most `elements` elements in all, or with why there is
/// none. Costs what `Document::glance` does.
///
/// # Errors
/// As `ask`.
pub fn glance(
    alloc: Global,
    document: &Document,
    expression: &Expr,
    depth: usize,
    elements: usize,
) -> Result<Response, AllocError>
    ensures { IfOk result (Looks document.now.entries expression.now depth elements) }
{
    let length = document.len() as u64;
    match document.glance(alloc, expression, depth, elements) {
        Ok(glance) => Ok(Response::Glance(length, glance)),
        Err(Refusal::NoMemory) => Err(AllocError),
        Err(why) => Ok(Response::Refused(why, length)),
    }
}
