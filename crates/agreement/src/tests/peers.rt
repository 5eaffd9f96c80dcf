//! What both engines send to a peer: an engine of threads sends bytes, a world's sends values, which are written as bytes here.

use super::acts::CLIENTS;
use super::both::reply;
use document::{Question, Reading};
use engine::{EngineName, ReaderToken};
use ids::NamedVector;
use peer_sync::{answer, hello};
use std::alloc::Global;
use std::process::Abort;
use wire::{read_vector, write_bundle, write_vector};
use world::{World, WorldAct, WorldReply};

/// The hellos of a peer that has nothing, of one that has a little, and of one that has everything that the members may have written.
const HELLOS: [&[u8]; 3] = [
    br#"["hello",[]]"#,
    br#"["hello",[[1,2],[3,1]]]"#,
    br#"["hello",[[1,1000],[3,1000],[4,1000]]]"#,
];

/// Whether both send the same hello, and give the same answer to each of the hellos; the answer to the first of them is the whole history.
pub fn send_the_same<N: EngineName, A: Abort>(
    rt: &A,
    alloc: Global,
    world: &mut World,
    reader: &mut ReaderToken<N>,
) -> bool {
    for line in HELLOS {
        if answer(alloc, reader, line).expect(rt, "an answer")
            != world_answer(rt, alloc, world, line)
        {
            return false;
        }
    }
    hello(alloc, reader).expect(rt, "a hello") == world_hello(rt, alloc, world)
}

/// The line of the vector that the world's engine sends as a hello.
fn world_hello(rt: &impl Abort, alloc: Global, world: &mut World) -> Vec<u8> {
    let act = WorldAct::SayHello {
        token: CLIENTS as usize,
    };
    match reply(rt, alloc, world, act) {
        WorldReply::Hello { vector, .. } => line_of(rt, alloc, &vector),
        _ => panic!(rt; "no hello"),
    }
}

fn line_of(rt: &impl Abort, alloc: Global, vector: &NamedVector) -> Vec<u8> {
    let mut line = write_vector(alloc, vector).expect(rt, "not refused");
    line.push(b'\n').expect(rt, "memory");
    line
}

/// The lines of what the world's engine has and a hello lacks.
fn world_answer(rt: &impl Abort, alloc: Global, world: &mut World, hello: &[u8]) -> Vec<u8> {
    let vector = read_vector(alloc, hello).expect(rt, "not refused");
    let act = WorldAct::Ask {
        token: CLIENTS as usize,
        question: Question::Missing(vector),
    };
    match reply(rt, alloc, world, act) {
        WorldReply::Read { reading, .. } => bundle_of(rt, alloc, &reading),
        _ => panic!(rt; "no answer"),
    }
}

/// The lines of the operations that were read.
fn bundle_of(rt: &impl Abort, alloc: Global, reading: &Reading) -> Vec<u8> {
    match reading {
        Reading::Missing(ops) => write_bundle(alloc, ops.as_slice()).expect(rt, "not refused"),
        _ => panic!(rt; "no operations"),
    }
}
