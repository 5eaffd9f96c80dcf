//! How the two engines of a test are opened.

ghost use Rattle.std.specs.Prelude.{◌≡◌};
ghost use Rattle.ids.specs.Members.{in_order};

use super::playing::{Row, Stage, play};
use super::*;
use engine::{Client, EngineName, Parts, ReaderToken, Writer, close, open, prepare};
use ids::Config;
use std::alloc::Global;
use std::marker::Brand;
use std::process::Abort;
use std::sync::Wait;

/// The own number of an engine, and its members.
#[derive(Clone, Copy)]
pub struct Numbers {
    pub own: u32,
    pub members: &'static [u32],
}

/// What both engines are opened with: the numbers of each, and the capacity of both queues.
#[derive(Clone, Copy)]
pub struct Opening {
    pub one: Numbers,
    pub two: Numbers,
    pub queue: u32,
}

/// The members of most tests.
const MEMBERS: &[u32] = &[1, 2, 3];

/// An engine of this replica and these members, with one client and one reader, and a queue of this capacity.
fn config(alloc: Global, own: u32, members: &[u32], queue: u32) -> Result<Config, Refusal> {
    Ok(Config {
        own,
        members: members.to_vec(alloc)?,
        clients: 1,
        readers: 1,
        queue,
        batch: 256,
        serials: 4_294_967_295,
    })
}

/// Opens engines 1 and 2 of the members 1, 2 and 3, with queues of this capacity, and plays these rows on them in order.
pub fn on_two<R: Wait + Abort>(rt: &R, alloc: Global, queue: u32, acts: &[&[Row]]) {
    let opening = Opening {
        one: Numbers {
            own: 1,
            members: MEMBERS,
        },
        two: Numbers {
            own: 2,
            members: MEMBERS,
        },
        queue,
    };
    on_opened(rt, alloc, opening, acts)
}

/// The same with the engines 4 and 5, which know only themselves.
pub fn on_others<R: Wait + Abort>(rt: &R, alloc: Global, queue: u32, acts: &[&[Row]]) {
    let opening = Opening {
        one: Numbers {
            own: 4,
            members: &[4],
        },
        two: Numbers {
            own: 5,
            members: &[5],
        },
        queue,
    };
    on_opened(rt, alloc, opening, acts)
}

/// Opens both engines in this way, and plays these rows on them in order.
pub fn on_opened<R: Wait + Abort>(rt: &R, alloc: Global, opening: Opening, acts: &[&[Row]]) {
    let parts = prepare_engine(alloc, opening.one.own, opening.one.members, opening.queue).expect(
        rt,
        "an engine",
    );
    open_first::<Brand, R>(rt, alloc, parts, opening, acts)
}

/// What the engine of this replica and these members is opened with.
pub fn prepare_engine(
    alloc: Global,
    own: u32,
    members: &[u32],
    queue: u32,
) -> Result<Parts, Refusal> {
    prepare(alloc, config(alloc, own, members, queue)?)
}

fn open_first<N: EngineName, R: Wait + Abort>(
    rt: &R,
    alloc: Global,
    parts: Parts,
    opening: Opening,
    acts: &[&[Row]],
)
    requires book { parts.opened.seen.book ≡ N.book }
    requires own { parts.config.own ≡ N.own }
    requires table { in_order parts.config.members ≡ N.table }
{
    let (mut writer, mut clients, mut readers) = open::<N>(rt, alloc, parts).expect(
        rt,
        "an engine",
    );
    match (clients.first_mut(), readers.first_mut()) {
        (Some(client), Some(reader)) => with_first(
            rt,
            alloc,
            &mut writer,
            client,
            reader,
            opening,
            acts,
        ),
        _ => panic!(rt; "no client"),
    };
    let _final = close(rt, writer, clients);
}

fn with_first<N: EngineName, R: Wait + Abort>(
    rt: &R,
    alloc: Global,
    writer: &mut Writer<N>,
    client: &mut Client<N>,
    reader: &mut ReaderToken<N>,
    opening: Opening,
    acts: &[&[Row]],
) {
    let mut one = Stage {
        own: opening.one.own,
        writer,
        client,
        reader,
    };
    with_second(rt, alloc, &mut one, opening, acts)
}

fn with_second<N: EngineName, R: Wait + Abort>(
    rt: &R,
    alloc: Global,
    one: &mut Stage<N>,
    opening: Opening,
    acts: &[&[Row]],
) {
    let parts = prepare_engine(alloc, opening.two.own, opening.two.members, opening.queue).expect(
        rt,
        "an engine",
    );
    open_second::<N, Brand, R>(rt, alloc, one, parts, opening.two.own, acts)
}

fn open_second<N: EngineName, M: EngineName, R: Wait + Abort>(
    rt: &R,
    alloc: Global,
    one: &mut Stage<N>,
    parts: Parts,
    own: u32,
    acts: &[&[Row]],
)
    requires book { parts.opened.seen.book ≡ M.book }
    requires own { parts.config.own ≡ M.own }
    requires table { in_order parts.config.members ≡ M.table }
{
    let (mut writer, mut clients, mut readers) = open::<M>(rt, alloc, parts).expect(
        rt,
        "an engine",
    );
    match (clients.first_mut(), readers.first_mut()) {
        (Some(client), Some(reader)) => on_both(
            rt,
            alloc,
            one,
            &mut writer,
            client,
            reader,
            own,
            acts,
        ),
        _ => panic!(rt; "no client"),
    };
    let _final = close(rt, writer, clients);
}

fn on_both<N: EngineName, M: EngineName, R: Wait + Abort>(
    rt: &R,
    alloc: Global,
    one: &mut Stage<N>,
    writer: &mut Writer<M>,
    client: &mut Client<M>,
    reader: &mut ReaderToken<M>,
    own: u32,
    acts: &[&[Row]],
) {
    let mut two = Stage {
        own,
        writer,
        client,
        reader,
    };
    play(rt, alloc, one, &mut two, acts)
}
