//! Makes threads write into engines, and prints what came of it.

ghost use Rattle.std.specs.Prelude.{◌≡◌, ◌⊎◌, ◌*◌};
ghost use Rattle.std.specs.Io.KnownBytes.{Appends};
ghost use Rattle.cli.specs.Faults.{line_of};
ghost use Rattle.cli.specs.Plays.{IsBenchStatus, agreement, difference, limit};
ghost use Rattle.cli.specs.declared.fault.Fault.TheVariants as fault;
ghost use Rattle.cli.specs.declared.fault.Status.TheVariants.{Done, Differ, NoMemory, NotWritten, TurnLimit};

use crate::fault::{Fault, Status};
use crate::run::print;
use bench::{Plan, Stop, Verdict, play};
use ids::Refusal;
use std::alloc::Global;
use std::io::Write;
use std::sync::Wait;
use std::thread::Threads;

/// Plays the plan. Prints `agree N replicas M operations` if each thread read back what it wrote and all N engines show the same in
/// histories of M operations, as many as were submitted, else `differ`. A line of `faults` says that a thread waited for too long, or that
/// an allocation failed. Returns the status with which the process exits.
pub fn bench<R: Threads + Wait + Sync, O: Write, F: Write>(
    rt: &R,
    alloc: Global,
    plan: Plan,
    out: &mut O,
    faults: &mut F,
) -> u8
    ensures status { IsBenchStatus result }

    // This says something only if the bytes are known.
    ensures agree { result ≡ 0
        → Appends (O.contents out.old) (O.contents out.new) (agreement plan.replicas (plan.replicas * (plan.writers * plan.ops))) }
    ensures differ { result ≡ 1 → Appends (O.contents out.old) (O.contents out.new) difference }
    ensures silent { (result ≡ 3) ⊎ (result ≡ 4) → O.contents out.new ≡ O.contents out.old }
    ensures no_fault { (result ≡ 0) ⊎ (result ≡ 1) → F.contents faults.new ≡ F.contents faults.old }
    ensures limit { result ≡ 3 → Appends (F.contents faults.old) (F.contents faults.new) limit }
    ensures no_memory { result ≡ 4 → Appends (F.contents faults.old) (F.contents faults.new) (line_of fault.NoMemory) }
{
    match play(rt, alloc, plan) {
        Ok(Verdict::Agree(operations)) => agree(
            alloc,
            plan.replicas(),
            operations,
            out,
            faults,
        ) as u8,
        Ok(Verdict::Differ) => differ(out) as u8,
        Err(Stop::TurnLimit) => tell_limit(faults) as u8,
        Err(Stop::Refused(Refusal::NoMemory | Refusal::NoReaderPlace | Refusal::NoReading)) => {
            Fault::NoMemory.report(faults) as u8
        }
        Err(Stop::Refused(_)) => differ(out) as u8,
    }
}

/// Prints that all read back what they wrote, and that the engines show the same.
fn agree<O: Write, F: Write>(
    alloc: Global,
    replicas: u32,
    operations: u32,
    out: &mut O,
    faults: &mut F,
) -> Status
    ensures status { (result ≡ Done) ⊎ (result ≡ NoMemory) ⊎ (result ≡ NotWritten) }
    ensures done { result ≡ Done
        → Appends (O.contents out.old) (O.contents out.new) (agreement replicas operations)
        × (F.contents faults.new ≡ F.contents faults.old) }
    ensures silent { result ≡ NoMemory → O.contents out.new ≡ O.contents out.old }
    ensures no_memory { result ≡ NoMemory → Appends (F.contents faults.old) (F.contents faults.new) (line_of fault.NoMemory) }
{
    match format!(in alloc; "agree {replicas} replicas {operations} operations\n") {
        Ok(line) => print(out, line.as_bytes()),
        Err(_) => Fault::NoMemory.report(faults),
    }
}

/// Prints that one read back something else, or that the engines show different things.
fn differ<O: Write>(out: &mut O) -> Status
    ensures status { (result ≡ Differ) ⊎ (result ≡ NotWritten) }
    ensures done { result ≡ Differ → Appends (O.contents out.old) (O.contents out.new) difference }
{
    match print(out, b"differ\n") {
        Status::Done => Status::Differ,
        _ => Status::NotWritten,
    }
}

/// Reports that a thread waited for too long.
fn tell_limit<W: Write>(faults: &mut W) -> Status
    ensures status { (result ≡ TurnLimit) ⊎ (result ≡ NotWritten) }
    ensures told { result ≡ TurnLimit → Appends (W.contents faults.old) (W.contents faults.new) limit }
{
    match writeln!(faults, "turn limit") {
        Ok(()) => Status::TurnLimit,
        Err(_) => Status::NotWritten,
    }
}
