//! Readers and writers that fail.

use cli::run_script;
use std::alloc::Global;
use std::io;
use std::io::{ErrorKind, Read, Write};
use std::process::Abort;

const SCRIPT: &[u8] = br#"["world",[[1,[1],1,1,4,4,10]]]
["step",0]
["step",0]
"#;

/// Gives the bytes a few at a time, and then fails with this error.
#[derive(Drop)]
struct Breaking<'a> {
    rest: &'a [u8],
    kind: ErrorKind,
}

impl Read for Breaking<'_> {
    fn read(&mut self, buf: &mut [u8]) -> io::Result<usize> {
        let count = self.rest.len().min(buf.len()).min(7);
        if count == 0 {
            return Err(io::Error::from(self.kind));
        }
        buf[..count].copy_from_slice(&self.rest[..count]);
        self.rest = &self.rest[count..];
        Ok(count)
    }
}

/// Takes this many bytes, a few at a time, and then fails.
#[derive(Drop)]
struct Full {
    taken: Vec<u8>,
    room: usize,
    flushes: bool,
}

impl Write for Full {
    fn write(&mut self, buf: &[u8]) -> io::Result<usize> {
        let count = self.room.min(buf.len()).min(5);
        if count == 0 {
            return Err(io::Error::from(ErrorKind::StorageFull));
        }
        self.taken.extend_from_slice(&buf[..count])?;
        self.room -= count;
        Ok(count)
    }

    fn flush(&mut self) -> io::Result<()> {
        if self.flushes {
            return Ok(());
        }
        Err(io::Error::from(ErrorKind::StorageFull))
    }
}

/// How many bytes are read before a read fails, the error, what is then reported, and the status.
type Broken<'a> = (usize, ErrorKind, &'a str, u8);

const BROKEN: &[Broken] = &[
    (
        0,
        ErrorKind::PermissionDenied,
        "jdoc: cannot read a b/c\n",
        2,
    ),
    (13, ErrorKind::IsADirectory, "jdoc: cannot read a b/c\n", 2),
    (31, ErrorKind::Other, "jdoc: cannot read a b/c\n", 2),
    (53, ErrorKind::UnexpectedEof, "jdoc: cannot read a b/c\n", 2),
    (31, ErrorKind::OutOfMemory, "jdoc: no memory\n", 4),
];

/// Asserts that a run whose reader fails like this prints nothing, and asserts what it reports and its status.
fn is_broken(rt: &impl Abort, alloc: Global, row: &Broken) {
    let (given, kind, told, wanted) = *row;
    let mut reader = Breaking {
        rest: &SCRIPT[..given.min(SCRIPT.len())],
        kind,
    };
    let (mut out, mut faults) = (Vec::new(alloc), Vec::new(alloc));
    let status = run_script(alloc, "a b/c", &mut reader, &mut out, &mut faults);
    assert_eq!(rt; (status, out.len()), (wanted, 0), "{told}");
    assert_eq!(rt; faults.as_slice(), told.as_bytes(), "{given} bytes");
}

#[test]
fn a_read_that_fails(rt: HostRuntime) {
    for row in BROKEN {
        is_broken(&rt, rt.alloc(), row);
    }
    assert_eq!(rt; SCRIPT.len(), 53);
}

/// What the script prints.
const REPLIES: &[u8] = b"[\"idle\"]\n[\"idle\"]\n";

/// A writer that takes everything gets all replies.
#[test]
fn replies_that_are_written(rt: HostRuntime) {
    let (mut out, mut faults) = (Vec::new(rt.alloc()), Vec::new(rt.alloc()));
    let mut reader = SCRIPT;
    let status = run_script(rt.alloc(), "s", &mut reader, &mut out, &mut faults);
    assert_eq!(rt; (status, faults.len()), (0, 0));
    assert_eq!(rt; out.as_slice(), REPLIES);
}

/// Runs the script on a writer with this room, and asserts that it ends as not written and reports nothing. Returns what was taken of the
/// replies.
fn not_written(rt: &impl Abort, alloc: Global, room: usize, flushes: bool) -> Vec<u8> {
    let mut out = Full {
        taken: Vec::new(alloc),
        room,
        flushes,
    };
    let mut faults = Vec::new(alloc);
    let mut reader = SCRIPT;
    let status = run_script(alloc, "s", &mut reader, &mut out, &mut faults);
    assert_eq!(rt; (status, faults.len()), (5, 0), "room {room}");
    out.taken
}

/// Asserts that what is taken is a prefix of the replies, as long as there is room for.
fn takes_a_part(rt: &impl Abort, alloc: Global, room: usize) {
    let taken = not_written(rt, alloc, room, true);
    assert_eq!(rt; taken.len(), room);
    assert!(rt; REPLIES.starts_with(taken.as_slice()), "room {room}");
}

#[test]
fn replies_that_are_not_written(rt: HostRuntime) {
    for room in [0, 1, 9, 17] {
        takes_a_part(&rt, rt.alloc(), room);
    }
}

#[test]
fn replies_that_are_not_flushed(rt: HostRuntime) {
    not_written(&rt, rt.alloc(), 1000, false);
}

/// Asserts that a run with this room for its faults prints nothing, reports as much as there is room for, and ends as not written.
fn is_not_told<R: Read>(rt: &impl Abort, alloc: Global, reader: &mut R, room: usize) {
    let mut faults = Full {
        taken: Vec::new(alloc),
        room,
        flushes: true,
    };
    let mut out = Vec::new(alloc);
    let status = run_script(alloc, "s", reader, &mut out, &mut faults);
    assert_eq!(rt; (status, out.len(), faults.taken.len()), (5, 0, room));
}

/// A first line that is cut.
const CUT: &[u8] = br#"["push"
"#;

#[test]
fn faults_that_are_not_told(rt: HostRuntime) {
    for room in [0, 1, 17] {
        let mut cut: &[u8] = CUT;
        is_not_told(&rt, rt.alloc(), &mut cut, room);
    }
}

#[test]
fn failed_reads_that_are_not_told(rt: HostRuntime) {
    for room in [0, 1, 17] {
        let mut reader = Breaking {
            rest: SCRIPT,
            kind: ErrorKind::Other,
        };
        is_not_told(&rt, rt.alloc(), &mut reader, room);
    }
}
