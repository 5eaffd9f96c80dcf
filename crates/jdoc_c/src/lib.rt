//! The engine for C, and for every language that calls C. `include/jdoc.h` declares what this exports, and says what the caller owes.
//!
//! A handle holds a document that is written, or a reader of one. Its journal is the host's: the library opens no file and starts no
//! thread.
#![tactic(auto)]

ghost use Rattle.std.specs.Prelude.{◌≡◌, ◌⊎◌, is_some, true, false, None, Option, Some, option_map, IfErr, OnOk};
ghost use Rattle.jdoc_c.specs.declared.status.Status.TheVariants.{NoMemory};
ghost use Rattle.jdoc_c.specs.Handles.{Asks, Calls, Feeds, Follows, GivesLines, GivesReply, IsRead, OnOpen};
ghost use Rattle.jdoc_c.specs.Handles.{OpensAt, OpensReaderAt, Settles};

mod held;
mod law;
mod parts;
mod reader;
mod slot;
mod status;
mod writer;

use held::{Held, hand_out, sent};
use slot::Slot;
use status::{Status, code_of};
use std::alloc::Global;
use std::mem;
use writer::taken_of;

/// A handle. C sets all bytes of a new one to 0, which means closed, and then only passes it on.
#[repr(C)]
#[derive(Drop)]
pub struct Handle {
    slot: Slot,
    is_open: bool,
    ghost tied: { is_open ≡ is_some slot.held },
}

/// Opens a closed handle on a document that resumes from the lines of its journal, and sets `*taken` to the number of bytes that were
/// taken.
#[unsafe(no_mangle)]
pub extern "C" fn jdoc_open(
    alloc: Global,
    handle: &mut Handle,
    number: u32,
    journal: &[u8],
    taken: &mut usize,
) -> u32
    ensures { OpensAt number journal.now result taken.old taken.new handle.old.slot.held handle.new.slot.held }
{
    if handle.is_open {
        return Status::WasOpen.number();
    }
    match Held::open(alloc, number, journal) {
        Ok(held) => {
            let opened = keep(alloc, handle, held);
            if opened.is_ok() {
                *taken = taken_of(journal);
            }
            code_of(opened)
        }
        Err(why) => why.number(),
    }
}

/// Opens a closed handle on a reader of a document, for another thread.
#[unsafe(no_mangle)]
pub extern "C" fn jdoc_reader(
    alloc: Global,
    handle: &mut Handle,
    reader: &mut Handle,
    room: usize,
) -> u32
    ensures reader { OpensReaderAt result reader.old.slot.held reader.new.slot.held }
    ensures document { IsRead result handle.old.slot.held handle.new.slot.held }
{
    if reader.is_open {
        return Status::WasOpen.number();
    }
    let Some(mut held) = take(alloc, handle) else {
        return Status::Closed.number();
    };
    let made = held.reader(alloc, room);
    put(handle, held);
    match made {
        Ok(made) => code_of(keep(alloc, reader, made)),
        Err(why) => why.number(),
    }
}

/// Frees what an open handle holds, and closes it.
#[unsafe(no_mangle)]
pub extern "C" fn jdoc_close(alloc: Global, handle: &mut Handle)
    ensures closed { (handle.new.slot.held ≡ None) × (handle.new.is_open ≡ false) }
{
    let _held = take(alloc, handle);
}

/// Answers a request to a document.
#[unsafe(no_mangle)]
pub extern "C" fn jdoc_call(alloc: Global, handle: &mut Handle, line: &[u8]) -> u32
    ensures { OnOpen (Calls line.now result) result handle.old.slot.held handle.new.slot.held }
{
    let Some(mut held) = take(alloc, handle) else {
        return Status::Closed.number();
    };
    let outcome = held.call(alloc, line);
    put(handle, held);
    code_of(outcome)
}

/// Answers a question or a glance of a reader.
#[unsafe(no_mangle)]
pub extern "C" fn jdoc_ask(alloc: Global, reader: &mut Handle, line: &[u8]) -> u32
    ensures { OnOpen (Asks line.now result) result reader.old.slot.held reader.new.slot.held }
{
    let Some(mut held) = take(alloc, reader) else {
        return Status::Closed.number();
    };
    let outcome = held.ask(alloc, line);
    put(reader, held);
    code_of(outcome)
}

/// Writes the reply to the last request into the buffer for it.
#[unsafe(no_mangle)]
pub extern "C" fn jdoc_reply(
    alloc: Global,
    handle: &mut Handle,
    out: &mut [u8],
    length: &mut usize,
) -> u32
    ensures { OnOpen (GivesReply result length.new out.old out.new) result handle.old.slot.held handle.new.slot.held }
{
    let Some(held) = take(alloc, handle) else {
        return Status::Closed.number();
    };
    let outcome = hand_out(held.reply(), out, length);
    put(handle, held);
    code_of(outcome)
}

/// Writes the lines that the host has to store into the buffer for them.
#[unsafe(no_mangle)]
pub extern "C" fn jdoc_lines(
    alloc: Global,
    handle: &mut Handle,
    out: &mut [u8],
    length: &mut usize,
) -> u32
    ensures { OnOpen (GivesLines result length.old length.new out.old out.new) result handle.old.slot.held handle.new.slot.held }
{
    let Some(mut held) = take(alloc, handle) else {
        return Status::Closed.number();
    };
    let outcome = held.lines(alloc, out, length);
    put(handle, held);
    code_of(outcome)
}

/// Counts the lines that `jdoc_lines` gave last as stored.
#[unsafe(no_mangle)]
pub extern "C" fn jdoc_lines_stored(alloc: Global, handle: &mut Handle) -> u32
    ensures { OnOpen (Settles result) result handle.old.slot.held handle.new.slot.held }
{
    let Some(mut held) = take(alloc, handle) else {
        return Status::Closed.number();
    };
    let outcome = held.settle();
    put(handle, held);
    code_of(outcome)
}

/// Sends the readers of a document what they have room for.
#[unsafe(no_mangle)]
pub extern "C" fn jdoc_feed(alloc: Global, handle: &mut Handle) -> u32
    ensures { OnOpen (Feeds result) result handle.old.slot.held handle.new.slot.held }
{
    let Some(mut held) = take(alloc, handle) else {
        return Status::Closed.number();
    };
    let outcome = held.feed(alloc);
    put(handle, held);
    code_of(outcome)
}

/// Takes in what has come to a reader, and sets `*length` to the number of entries that it has taken in since it was opened.
#[unsafe(no_mangle)]
pub extern "C" fn jdoc_follow(alloc: Global, reader: &mut Handle, length: &mut usize) -> u32
    ensures { OnOpen (Follows result length.old length.new) result reader.old.slot.held reader.new.slot.held }
{
    let Some(mut held) = take(alloc, reader) else {
        return Status::Closed.number();
    };
    let outcome = held.follow(alloc, length);
    put(reader, held);
    code_of(outcome)
}

/// Moves what an open handle holds out of it, which closes it.
fn take(alloc: Global, handle: &mut Handle) -> Option<Box<Held>>
    ensures closed { (handle.new.slot.held ≡ None) × (handle.new.is_open ≡ false) }
    ensures held { handle.old.slot.held ≡ option_map (λ held. held.value) result }
{
    let taken = mem::replace(handle, closed(alloc));
    if taken.is_open {
        Some(sent(taken.slot.into_box()))
    } else {
        None
    }
}

/// Moves this into a closed handle, which opens it.
fn put(handle: &mut Handle, held: Box<Held>)
    ensures { handle.new.slot.held ≡ Some held.value }
{
    *handle = Handle {
        slot: Slot::of(held),
        is_open: true,
    };
}

/// Opens a closed handle on this.
///
/// # Errors
/// `NoMemory`. The handle is then unchanged.
fn keep(alloc: Global, handle: &mut Handle, held: Held) -> Result<(), Status>
    ensures kept { OnOk result (handle.new.slot.held ≡ Some held) }
    ensures same { IfErr result (λ why. (why ≡ NoMemory) × (handle.new.slot.held ≡ handle.old.slot.held)) }
{
    let held = Box::new(alloc, held)?;
    put(handle, held);
    Ok(())
}

fn closed(alloc: Global) -> Handle
    ensures { (result.slot.held ≡ None) × (result.is_open ≡ false) }
{
    Handle {
        slot: Slot::empty(alloc),
        is_open: false,
    }
}
