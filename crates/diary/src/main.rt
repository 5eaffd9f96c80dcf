//! A diary in a file: `diary FILE [TEXT]` adds the text as an entry, says `saved`, and shows all entries, one per line.
//!
//! What it shows comes from the file: the notebook that wrote has ended by then, and another one is opened.
#![tactic(auto)]

mod entries;
mod visit;

use anyhow::{Result, bail};
use std::env;
use visit::visit;

fn main(rt: HostRuntime) -> Result<()> {
    let mut words = env::args(&rt)?.skip(1);
    match (words.next(), words.next(), words.next()) {
        (Some(file), None, None) => print(&rt, visit(&rt, rt.alloc(), file.as_str(), None)?),
        (Some(file), Some(text), None) => {
            visit(&rt, rt.alloc(), file.as_str(), Some(text.as_str()))?;
            println!(rt; "saved")?;
            print(&rt, visit(&rt, rt.alloc(), file.as_str(), None)?)
        }
        _ => bail!("say: diary FILE [TEXT]"),
    }
}

/// Prints the entries, one per line.
fn print(rt: &impl Print, entries: Vec<String>) -> Result<()> {
    for entry in &entries {
        println!(rt; "{entry}")?;
    }
    Ok(())
}
