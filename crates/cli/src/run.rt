//! Runs a script.

ghost use Rattle.std.specs.Prelude.{◌≡◌, ◌⊎◌, IfErr, IfOk, IfSome, string_bytes};
ghost use Rattle.std.specs.Io.KnownBytes.{Appends};
ghost use Rattle.cli.specs.declared.fault.Fault.TheVariants as fault;
ghost use Rattle.cli.specs.declared.fault.Status.TheVariants.{Done, NotWritten};
ghost use Rattle.cli.specs.Faults.{line_of};
ghost use Rattle.cli.specs.Runs.{AppendsReplies, IsFaultOf, IsStatus, TellsBadScript};
ghost use Rattle.scripts.specs.Runs.{IsReplyText};

use crate::fault::{Fault, Status};
use scripts::{Replies, replies_to};
use std::alloc::Global;
use std::io::{Read, Write};
use std::mem;

/// Reads a whole script, checks each line, runs its steps, and then prints the replies. A line of `faults` names a script that can't be
/// read, or the first bad line. Returns the status with which the process exits. Never frees the script and its world.
pub fn run_script<R: Read, O: Write, F: Write>(
    alloc: Global,
    name: &str,
    reader: &mut R,
    out: &mut O,
    faults: &mut F,
) -> u8
    ensures status { IsStatus result }

    // This says something only if the bytes are known.
    ensures done { result ≡ 0 → AppendsReplies (R.remaining reader.old) (O.contents out.old) (O.contents out.new) }
    ensures silent { (result ≡ 2) ⊎ (result ≡ 4) → O.contents out.new ≡ O.contents out.old }
    ensures no_fault { result ≡ 0 → F.contents faults.new ≡ F.contents faults.old }
    ensures bad { result ≡ 2
        → TellsBadScript name.now (R.remaining reader.old) (F.contents faults.old) (F.contents faults.new) }
    ensures no_memory { result ≡ 4 → Appends (F.contents faults.old) (F.contents faults.new) (line_of fault.NoMemory) }
{
    match replies_of(alloc, name, reader) {
        Ok(Replies { lines, script }) => {
            let status = print(out, lines.as_bytes());
            // The process ends next, and its memory with it: to free that piece by piece takes an eighth of the time of a long script.
            mem::forget(script);
            status as u8
        }
        Err(fault) => fault.report(faults) as u8,
    }
}

/// Writes the text, and returns the status of a run that is done.
pub(crate) fn print<W: Write>(out: &mut W, text: &[u8]) -> Status
    ensures status { (result ≡ Done) ⊎ (result ≡ NotWritten) }
    ensures done { result ≡ Done → Appends (W.contents out.old) (W.contents out.new) text.now }
{
    if out.write_all(text).is_err() || out.flush().is_err() {
        return Status::NotWritten;
    }
    Status::Done
}

/// The replies to a script's steps, as lines of JSON, and the script.
fn replies_of<'a, R: Read>(
    alloc: Global,
    name: &'a str,
    reader: &mut R,
) -> Result<Replies, Fault<'a>>
    ensures ok { IfOk result (λ r. IfSome (R.remaining reader.old) (λ bytes. IsReplyText bytes (string_bytes r.lines))) }
    ensures err { IfErr result (IsFaultOf name.entry.now (R.remaining reader.old)) }
{
    let mut bytes = Vec::new(alloc);
    if let Err(error) = reader.read_to_end(&mut bytes) {
        return Err(Fault::of_read(name, &error));
    }
    match replies_to(alloc, bytes.as_slice()) {
        Ok(replies) => Ok(replies),
        Err(error) => Err(Fault::Script(error)),
    }
}
