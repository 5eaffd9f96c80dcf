//! Serves a document.

use crate::fault::Fault;
use ids::ReplicaId;
use serving::{FileStore, Memory, NotServed, Stop, Store, serve as serve_desk, start};
use std::alloc::Global;
use std::fs::{File, Files, OpenOptions};
use std::io::{self, BufRead, ErrorKind, Write};
use std::random::RandomSource;
use std::sync::Wait;

/// Serves the document in the file of this name, or one in memory if no name is given: one request per line, one reply per line, until the
/// input ends. The replica's number is the one that is given, else that of the file, else a random one. A line of `faults` says why it
/// can't be served, or can't be served any longer. Returns the status with which the process exits.
pub fn serve<R: Files<File = File> + RandomSource + Wait, B: BufRead, O: Write, F: Write>(
    rt: &R,
    alloc: Global,
    file: Option<&str>,
    number: Option<u32>,
    input: &mut B,
    out: &mut O,
    faults: &mut F,
) -> u8 {
    let served = match file {
        Some(name) => serve_file(rt, alloc, name, number, input, out),
        None => serve_store(rt, alloc, "memory", Memory, number, input, out),
    };
    match served {
        Ok(()) => 0,
        Err(fault) => fault.report(faults) as u8,
    }
}

/// The null device, whose name is the same on each system that has files.
const NULL: &str = "/dev/null";

/// Serves the document in a file that no other program has.
fn serve_file<'a, R: Files<File = File> + RandomSource + Wait, B: BufRead, O: Write>(
    rt: &R,
    alloc: Global,
    name: &'a str,
    number: Option<u32>,
    input: &mut B,
    out: &mut O,
) -> Result<(), Fault<'a>> {
    let Ok(_standard) = null_devices(rt) else {
        return Err(Fault::CannotOpen(NULL));
    };
    let Ok(store) = FileStore::open(rt, name) else {
        return Err(Fault::CannotOpen(name));
    };
    match store.try_lock() {
        Ok(()) => serve_store(rt, alloc, name, store, number, input, out),
        Err(failed) if failed.kind == ErrorKind::WouldBlock => Err(Fault::InUse(name)),
        Err(_) => Err(Fault::CannotOpen(name)),
    }
}

/// The null device, three times. A program that was started with standard input, output or error closed gets their descriptors for these,
/// and not for the file of a document, into which it would then print.
fn null_devices<R: Files<File = File>>(rt: &R) -> io::Result<[File; 3]> {
    let mut options = OpenOptions::new();
    options.read(true).write(true);
    Ok([
        options.open(rt, NULL)?,
        options.open(rt, NULL)?,
        options.open(rt, NULL)?,
    ])
}

/// Serves the document in a store, which is reported under this name.
pub fn serve_store<'a, R: RandomSource + Wait, S: Store + Drop, B: BufRead, O: Write>(
    rt: &R,
    alloc: Global,
    name: &'a str,
    store: S,
    number: Option<u32>,
    input: &mut B,
    out: &mut O,
) -> Result<(), Fault<'a>> {
    let number = match number {
        Some(number) => {
            let Some(own) = ReplicaId::new(number) else {
                return Err(Fault::OutOfRange);
            };
            Some(own)
        }
        None => None,
    };
    let mut desk = match start(rt, alloc, store, number) {
        Ok(desk) => desk,
        Err(why) => return Err(fault_of(name, why)),
    };
    let served = serve_desk(rt, alloc, &mut desk, input, out);
    let _store = desk.into_store();
    match served {
        Ok(()) => Ok(()),
        Err(stop) => Err(stop_of(name, stop)),
    }
}

/// Why a document can't be served.
fn fault_of(name: &str, why: NotServed) -> Fault<'_> {
    match why {
        NotServed::NoMemory => Fault::NoMemory,
        NotServed::CannotOpen => Fault::CannotOpen(name),
        NotServed::OtherNumber(own) => Fault::OtherNumber(name, own.number()),
        NotServed::Damaged(line, why) => Fault::Damaged(name, line, why),
    }
}

/// Why serving a document stopped.
fn stop_of(name: &str, stop: Stop) -> Fault<'_> {
    match stop {
        Stop::NoMemory => Fault::NoMemory,
        Stop::Lost => Fault::Lost(name),
        Stop::NotRead => Fault::CannotRead("standard input"),
        Stop::NotWritten => Fault::NotWritten,
        Stop::Unsaved(count) => Fault::Unsaved(name, count as u64),
    }
}
