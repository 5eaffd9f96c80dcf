//! The entries of a diary: a list of texts at the key `entries`.

use notebook::{
    Command, EngineName, Expr, Fault, Notebook, OpId, Question, Reading, Refusal, Scalar, Store,
    Val,
};
use std::alloc::Global;
use std::sync::Wait;

/// The list of entries.
fn list(alloc: Global) -> Result<Expr, Refusal> {
    Expr::root(alloc).get(alloc, "entries")
}

/// Adds an entry after the last one, and returns once it is saved.
pub fn add<N: EngineName, S: Store>(
    rt: &impl Wait,
    alloc: Global,
    notebook: &mut Notebook<N, S>,
    text: &str,
) -> Result<OpId, Fault> {
    let text = Val::text(alloc, text)?;
    let place = match ids(alloc, notebook)?.last() {
        Some(last) => list(alloc)?.item(*last)?,
        // The head of the list, after which its first item comes.
        None => list(alloc)?.idx(0)?,
    };
    notebook.write(rt, alloc, Command::InsertAfter(place, text))
}

/// The ids of the entries, in their order.
fn ids<N: EngineName, S: Store>(
    alloc: Global,
    notebook: &mut Notebook<N, S>,
) -> Result<Vec<OpId>, Refusal> {
    match notebook.ask(alloc, &Question::Items(list(alloc)?))? {
        Reading::Items(ids) => Ok(ids),
        _ => Ok(Vec::new(alloc)),
    }
}

/// All entries, in their order.
pub fn all<N: EngineName, S: Store>(
    alloc: Global,
    notebook: &mut Notebook<N, S>,
) -> Result<Vec<String>, Refusal> {
    let mut texts = Vec::new(alloc);
    for id in &ids(alloc, notebook)? {
        if let Some(text) = entry(alloc, notebook, *id)? {
            texts.push(text)?;
        }
    }
    Ok(texts)
}

/// The text of an entry. If several replicas overwrote it concurrently, the one with the greatest id.
fn entry<N: EngineName, S: Store>(
    alloc: Global,
    notebook: &mut Notebook<N, S>,
    id: OpId,
) -> Result<Option<String>, Refusal> {
    let values = Question::Values(list(alloc)?.item(id)?);
    let Reading::Values(values) = notebook.ask(alloc, &values)? else {
        return Ok(None);
    };
    match values.last() {
        Some((_, Scalar::Text(text))) => Ok(Some(String::from_str(alloc, text.as_str())?)),
        _ => Ok(None),
    }
}
