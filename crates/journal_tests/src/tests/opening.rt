//! How the engine of a life is opened.

ghost use Rattle.std.specs.Prelude.{◌≡◌};
ghost use Rattle.ids.specs.Members.{in_order};

use super::playing::{Row, Stage, play};
use super::*;
use engine::{Client, EngineName, Parts, ReaderToken, Writer, close, open, prepare};
use ids::{Config, Refusal};
use journal::Outgoing;
use std::alloc::Global;
use std::marker::Brand;
use std::process::Abort;
use std::sync::Wait;

/// A life of an engine: its number, and what is done until it ends.
pub type Life = (u32, &'static [Row]);

/// Opens an engine for each of these lives, one after the other, and plays its rows.
pub fn live<R: Wait + Abort>(rt: &R, alloc: Global, lives: &[Life]) -> Result<(), Fail> {
    for (own, rows) in lives {
        live_once(rt, alloc, *own, rows)?;
    }
    Ok(())
}

fn live_once<R: Wait + Abort>(rt: &R, alloc: Global, own: u32, rows: &[Row]) -> Result<(), Fail> {
    let parts = prepare(alloc, config(alloc, own)?)?;
    open_engine::<Brand, R>(rt, alloc, parts, rows)
}

/// An engine of this number that knows only itself, with one client and two readers.
fn config(alloc: Global, own: u32) -> Result<Config, Refusal> {
    Ok(Config {
        own,
        members: vec![in alloc; own]?,
        clients: 1,
        readers: 2,
        queue: 16,
        batch: 8,
        serials: 4_294_967_295,
    })
}

fn open_engine<N: EngineName, R: Wait + Abort>(
    rt: &R,
    alloc: Global,
    parts: Parts,
    rows: &[Row],
) -> Result<(), Fail>
    requires book { parts.opened.seen.book ≡ N.book }
    requires own { parts.config.own ≡ N.own }
    requires table { in_order parts.config.members ≡ N.table }
{
    let (mut writer, mut clients, mut readers) = open::<N>(rt, alloc, parts)?;
    let result = match (clients.first_mut(), readers.pop(), readers.first_mut()) {
        (Some(client), Some(token), Some(reader)) => {
            let mut outgoing = Outgoing::new(token, client.replica());
            on_stage(rt, alloc, &mut writer, client, &mut outgoing, reader, rows)
        }
        _ => Err("no client".into()),
    };
    let _final = close(rt, writer, clients);
    result
}

fn on_stage<N: EngineName, R: Wait + Abort>(
    rt: &R,
    alloc: Global,
    writer: &mut Writer<N>,
    client: &mut Client<N>,
    outgoing: &mut Outgoing<N>,
    reader: &mut ReaderToken<N>,
    rows: &[Row],
) -> Result<(), Fail> {
    let mut stage = Stage {
        writer,
        client,
        outgoing,
        reader,
    };
    play(rt, alloc, &mut stage, rows)
}
