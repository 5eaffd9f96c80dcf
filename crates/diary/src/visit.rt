//! A visit to the diary: its file is opened, and closed at the end.

ghost use Rattle.std.specs.Prelude.{◌≡◌};
ghost use Rattle.ids.specs.Members.{in_order};

use crate::entries::{add, all};
use anyhow::{Context, Result};
use notebook::{
    EngineName, Fault, FileStore, Journal, Notebook, Parts, Store, config_of, draw_number, prepare,
};
use std::alloc::Global;
use std::fs::{File, Files};
use std::marker::Brand;
use std::random::RandomSource;
use std::sync::Wait;

/// Opens the diary in this file, adds the text if there is one, and returns all entries, all of which are saved.
pub fn visit<R: Files<File = File> + RandomSource + Wait>(
    rt: &R,
    alloc: Global,
    file: &str,
    text: Option<&str>,
) -> Result<Vec<String>> {
    let store = FileStore::open(rt, file).context("opening the file")?;
    store.try_lock().context("another program has the file")?;
    Ok(visit_store(rt, alloc, store, text)?)
}

/// The same with the store of an open file.
fn visit_store<R: RandomSource + Wait, S: Store + Drop>(
    rt: &R,
    alloc: Global,
    store: S,
    text: Option<&str>,
) -> Result<Vec<String>, Fault> {
    let journal = match Journal::read(alloc, store) {
        Ok(journal) => journal,
        Err(unopened) => return Err(unopened.why),
    };
    // The number is in the file. If the file has none, none was ever used.
    let own = match journal.own(alloc)? {
        Some(own) => own,
        None => draw_number(rt)?,
    };
    let parts = prepare(alloc, config_of(alloc, own)?)?;
    visit_notebook::<Brand, R, S>(rt, alloc, parts, journal, text)
}

/// The same with a notebook of its own.
fn visit_notebook<N: EngineName, R: Wait, S: Store + Drop>(
    rt: &R,
    alloc: Global,
    parts: Parts,
    journal: Journal<S>,
    text: Option<&str>,
) -> Result<Vec<String>, Fault>
    requires book { parts.opened.seen.book ≡ N.book }
    requires own { parts.config.own ≡ N.own }
    requires table { in_order parts.config.members ≡ N.table }
{
    match Notebook::<N, S>::open(rt, alloc, parts, journal) {
        Ok(notebook) => {
            let mut notebook = notebook;
            let entries = add_and_read(rt, alloc, &mut notebook, text);
            // Its engine is closed on every path; the file is closed with the store.
            let _store = notebook.end(rt);
            entries
        }
        Err(unopened) => Err(unopened.why),
    }
}

fn add_and_read<N: EngineName, S: Store>(
    rt: &impl Wait,
    alloc: Global,
    notebook: &mut Notebook<N, S>,
    text: Option<&str>,
) -> Result<Vec<String>, Fault> {
    if let Some(text) = text {
        add(rt, alloc, notebook, text)?;
    }
    Ok(all(alloc, notebook)?)
}
