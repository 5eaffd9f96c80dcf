//! How many operations are written and read per second, in both profiles.

ghost use Rattle.std.specs.Prelude.{◌≡◌, ◌*◌, ◌/◌, ◌-◌, ◌^◌, max, min};

use crate::lines::samples::Sample;
use ids::Refusal;
use operation::{Op, Shared};
use std::alloc::{AllocError, Global};
use std::io;
use std::time::{Clock, Instant};
use wire::{BundleReader, BundleWriter, read_op, write_op};

/// How many times the operations of a sample are written and read.
const TURNS: u32 = 2_000;

/// How a line has its operation's vector.
#[derive(Clone, Copy, Debug)]
enum Profile {
    /// Whole, in profile 1.
    Whole,
    /// As its differences from the vector of the line before, in profile 2.
    Differences,
}

impl Profile {
    const ALL: [Profile; 2] = [Profile::Whole, Profile::Differences];

    /// Its number.
    fn number(self) -> u8 {
        match self {
            Profile::Whole => 1,
            Profile::Differences => 2,
        }
    }
}

/// Prints for each sample how many operations are written and read per second in each profile.
pub fn report<R: Print + Clock>(rt: &R, alloc: Global, samples: &[Sample]) -> io::Result<()> {
    for sample in samples {
        for profile in Profile::ALL {
            report_in(rt, alloc, sample, profile)?;
        }
    }
    Ok(())
}

/// Prints how many operations of the sample are written and read per second in this profile.
fn report_in<R: Print + Clock>(
    rt: &R,
    alloc: Global,
    sample: &Sample,
    profile: Profile,
) -> io::Result<()> {
    let Ok(lines) = lines_of(alloc, sample, profile) else {
        return println!(rt; "{}: no memory", sample.name);
    };
    let started = Instant::now(rt)?;
    let written = write_often(alloc, sample, profile);
    let writing = nanos_since(rt, started)?;
    let started = Instant::now(rt)?;
    let read = read_often(alloc, lines.as_slice(), profile);
    let reading = nanos_since(rt, started)?;
    let (Ok(bytes), Ok(count)) = (written, read) else {
        return println!(rt; "{}: no memory", sample.name);
    };
    println!(rt;
        "{} in profile {}: {} operations written a second, {} read, {} bytes each",
        sample.name,
        profile.number(),
        a_second(count, writing),
        a_second(count, reading),
        bytes / count.max(1)
    )
}

fn nanos_since<R: Clock>(rt: &R, started: Instant) -> io::Result<u64> {
    let elapsed = started.elapsed(rt)?.as_nanos();
    Ok(u64::try_from(elapsed).unwrap_or(u64::MAX))
}

/// Rate per second of this many in this many nanoseconds, rounded down.
fn a_second(count: u64, nanos: u64) -> u64
    ensures { result ≡ min (count * 1000000000 / max nanos 1) (2 ^ 64 - 1) }
{
    let in_a_second = u128::from(count) * 1_000_000_000 / u128::from(nanos.max(1));
    u64::try_from(in_a_second).unwrap_or(u64::MAX)
}

/// The line of the operation in this profile.
fn line_of(
    alloc: Global,
    writer: &mut BundleWriter,
    op: &Op,
    profile: Profile,
) -> Result<Vec<u8>, AllocError> {
    match profile {
        Profile::Whole => write_op(alloc, op),
        Profile::Differences => writer.write(alloc, op),
    }
}

/// The operation on the line, which is in this profile.
fn op_of(
    alloc: Global,
    reader: &mut BundleReader,
    line: &[u8],
    profile: Profile,
) -> Result<Shared<Op>, Refusal> {
    match profile {
        Profile::Whole => read_op(alloc, line),
        Profile::Differences => reader.read(alloc, line),
    }
}

/// A line for each operation of a sample.
fn lines_of(alloc: Global, sample: &Sample, profile: Profile) -> Result<Vec<Vec<u8>>, AllocError> {
    let mut lines = Vec::new(alloc);
    let mut writer = BundleWriter::new(alloc);
    for op in &sample.ops {
        lines.push(line_of(alloc, &mut writer, op, profile)?)?;
    }
    Ok(lines)
}

/// Writes the operations repeatedly, each time as a bundle of their own, and returns how many bytes that was in all.
fn write_often(alloc: Global, sample: &Sample, profile: Profile) -> Result<u64, AllocError> {
    let mut bytes = 0_u64;
    for _ in 0..TURNS {
        let mut writer = BundleWriter::new(alloc);
        for op in &sample.ops {
            let line = line_of(alloc, &mut writer, op, profile)?;
            bytes = bytes.saturating_add(line.len() as u64);
        }
    }
    Ok(bytes)
}

/// Reads the lines repeatedly, each time as a bundle of their own, and returns how many operations that was in all.
fn read_often(alloc: Global, lines: &[Vec<u8>], profile: Profile) -> Result<u64, Refusal> {
    let mut count = 0_u64;
    for _ in 0..TURNS {
        let mut reader = BundleReader::new();
        for line in lines {
            let _op = op_of(alloc, &mut reader, line.as_slice(), profile)?;
            count = count.saturating_add(1);
        }
    }
    Ok(count)
}
