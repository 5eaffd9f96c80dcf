//! A call in the text form that rows of tests have: its word, and its parts with spaces between them.

use calls::Call;
use document::{Command, Expr, ExprStep, Question, Scalar, Val};
use ids::OpId;
use std::alloc::{AllocError, Global};

/// The text of a call.
pub(super) fn shown(alloc: Global, call: &Call) -> Result<String, AllocError> {
    let mut out = String::new(alloc);
    put_call(alloc, &mut out, call)?;
    Ok(out)
}

fn put_call(alloc: Global, out: &mut String, call: &Call) -> Result<(), AllocError> {
    match call {
        Call::Write(command) => put_command(alloc, out, command),
        Call::Ask(question) => put_question(alloc, out, question),
        Call::Glance {
            expression,
            depth,
            elements,
        } => put_glance(alloc, out, expression, *depth, *elements),
        Call::Hello => out.push_str("hello"),
        Call::Answer(hello) => put_two(out, "answer ", hello.as_str()),
        Call::Receive(bundle) => put_two(out, "receive ", bundle.as_str()),
        Call::Save => out.push_str("save"),
        Call::Status => out.push_str("status"),
    }
}

fn put_two(out: &mut String, word: &str, text: &str) -> Result<(), AllocError> {
    out.push_str(word)?;
    out.push_str(text)
}

fn put_command(alloc: Global, out: &mut String, command: &Command) -> Result<(), AllocError> {
    match command {
        Command::Assign(expression, value) => {
            put_asked(alloc, out, "assign ", expression)?;
            put_value(alloc, out, value)
        }
        Command::InsertAfter(expression, value) => {
            put_asked(alloc, out, "insert ", expression)?;
            put_value(alloc, out, value)
        }
        Command::Delete(expression) => put_asked(alloc, out, "delete ", expression),
    }
}

fn put_question(alloc: Global, out: &mut String, question: &Question) -> Result<(), AllocError> {
    match question {
        Question::Values(expression) => put_asked(alloc, out, "values ", expression),
        Question::Keys(expression) => put_asked(alloc, out, "keys ", expression),
        Question::Items(expression) => put_asked(alloc, out, "items ", expression),
        Question::Conflicts(expression) => put_asked(alloc, out, "conflicts ", expression),
        Question::Missing(vector) => put_missing(alloc, out, vector.ids()),
        Question::Vector => out.push_str("vector"),
    }
}

fn put_missing(alloc: Global, out: &mut String, ids: &[OpId]) -> Result<(), AllocError> {
    out.push_str("missing")?;
    for id in ids {
        put_id(alloc, out, *id)?;
    }
    Ok(())
}

fn put_glance(
    alloc: Global,
    out: &mut String,
    expression: &Expr,
    depth: u64,
    elements: u64,
) -> Result<(), AllocError> {
    put_asked(alloc, out, "glance ", expression)?;
    put_number(alloc, out, depth)?;
    put_number(alloc, out, elements)
}

/// A word and an expression: the steps from the root, each after a slash.
fn put_asked(
    alloc: Global,
    out: &mut String,
    word: &str,
    expression: &Expr,
) -> Result<(), AllocError> {
    out.push_str(word)?;
    for step in expression.steps() {
        put_step(alloc, out, step)?;
    }
    Ok(())
}

fn put_step(alloc: Global, out: &mut String, step: &ExprStep) -> Result<(), AllocError> {
    out.push_str("/")?;
    match step {
        ExprStep::Get(key) => out.push_str(key.as_str()),
        ExprStep::Idx(index) => put_number(alloc, out, *index),
        ExprStep::Item(id) => put_id(alloc, out, *id),
    }
}

fn put_value(alloc: Global, out: &mut String, value: &Val) -> Result<(), AllocError> {
    match value {
        Val::Scalar(scalar) => put_scalar(alloc, out, scalar),
        Val::EmptyMap => out.push_str(" map"),
        Val::EmptyList => out.push_str(" list"),
    }
}

fn put_scalar(alloc: Global, out: &mut String, scalar: &Scalar) -> Result<(), AllocError> {
    match scalar {
        Scalar::Null => out.push_str(" null"),
        Scalar::Bool(truth) => out.push_str(if *truth { " true" } else { " false" }),
        Scalar::Whole(whole) => out.push_str(format!(in alloc; " {whole}")?.as_str()),
        Scalar::Text(text) => put_two(out, " text ", text.as_str()),
    }
}

fn put_id(alloc: Global, out: &mut String, id: OpId) -> Result<(), AllocError> {
    out.push_str(format!(in alloc; " {id}")?.as_str())
}

fn put_number(alloc: Global, out: &mut String, number: u64) -> Result<(), AllocError> {
    out.push_str(format!(in alloc; " {number}")?.as_str())
}
