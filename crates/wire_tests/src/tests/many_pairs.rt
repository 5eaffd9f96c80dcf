//! Deltas that lead to vectors of 256 pairs, which is the most, and beyond.

use super::beside_lines::{DELTA, reads};
use super::{Around, with_part};
use ids::Refusal;
use std::alloc::Global;
use std::process::Abort;
use wire::BundleReader;

/// The first and the last of some consecutive replicas, and the counter of each.
type Run = (u32, u32, u64);

/// A delta, and the vector that is read there; `None` if the line is refused, and then the next one is relative to the same vector.
type Step<'a> = (&'a [Run], Option<&'a [Run]>);

/// What surrounds a whole vector, and a delta of the same operation.
const WHOLE: Around = (r#"["op",[9,2],"#, r#",[],0,["d"]]"#);

/// The line with these pairs.
fn line_of(rt: &impl Abort, alloc: Global, around: Around, runs: &[Run]) -> String {
    let mut pairs = String::new(alloc);
    for (first, last, counter) in runs {
        for replica in *first..=*last {
            let comma = if pairs.is_empty() { "" } else { "," };
            pairs
                .push_str(
                    format!(in alloc; "{comma}[{replica},{counter}]")
                        .expect(rt, "memory")
                        .as_str(),
                )
                .expect(rt, "memory");
        }
    }
    let vector = format!(in alloc; "[{pairs}]").expect(rt, "memory");
    with_part(rt, alloc, around, vector.as_str())
}

/// Asserts what the reader reads next.
fn is_next(rt: &impl Abort, alloc: Global, reader: &mut BundleReader, step: &Step) {
    let (delta, want) = *step;
    let line = line_of(rt, alloc, DELTA, delta);
    let Some(runs) = want else {
        return reads(rt, alloc, reader, &(line.as_str(), Err(Refusal::BadLine))).expect(
            rt,
            "not refused",
        );
    };
    let whole = line_of(rt, alloc, WHOLE, runs);
    reads(rt, alloc, reader, &(line.as_str(), Ok(whole.as_str()))).expect(rt, "not refused")
}

/// Asserts what one reader reads.
fn are_next(rt: &impl Abort, alloc: Global, steps: &[Step]) {
    let mut reader = BundleReader::new();
    for step in steps {
        is_next(rt, alloc, &mut reader, step);
    }
}

/// 257 pairs are refused, of the delta or of the vector, and so is a counter 0 for a replica that isn't named, also if there is no room for
/// it. One that is removed makes room for another.
#[test]
fn vectors_of_many_pairs(rt: HostRuntime) {
    const STEPS: &[Step] = &[
        (&[(1, 1, 0)], None),
        (&[(1, 257, 1)], None),
        (&[(1, 255, 1), (300, 300, 0)], None),
        (&[(1, 256, 1)], Some(&[(1, 256, 1)])),
        (&[(257, 257, 1)], None),
        (&[(257, 257, 0)], None),
        (&[(1, 1, 2), (257, 257, 1)], None),
        (
            &[(256, 256, 0), (257, 257, 1)],
            Some(&[(1, 255, 1), (257, 257, 1)]),
        ),
        (&[(256, 256, 1)], None),
        (&[(1, 1, 0)], Some(&[(2, 255, 1), (257, 257, 1)])),
        (&[(1, 1, 2), (256, 256, 3)], None),
        (
            &[(256, 256, 3)],
            Some(&[(2, 255, 1), (256, 256, 3), (257, 257, 1)]),
        ),
        (&[], Some(&[(2, 255, 1), (256, 256, 3), (257, 257, 1)])),
    ];
    are_next(&rt, rt.alloc(), STEPS);
}

/// A delta may have more pairs than a vector: each replica that is removed has one too.
#[test]
fn all_replicas_are_others(rt: HostRuntime) {
    const STEPS: &[Step] = &[
        (&[(1, 256, 1)], Some(&[(1, 256, 1)])),
        (&[(1, 256, 0), (257, 512, 1)], Some(&[(257, 512, 1)])),
        (&[(256, 256, 0)], None),
        (&[(257, 257, 0)], Some(&[(258, 512, 1)])),
        (
            &[(1, 1, 5), (258, 512, 0), (513, 513, 1)],
            Some(&[(1, 1, 5), (513, 513, 1)]),
        ),
        (&[(1, 255, 7)], Some(&[(1, 255, 7), (513, 513, 1)])),
        (&[(1, 256, 9)], None),
        (&[(1, 255, 9)], Some(&[(1, 255, 9), (513, 513, 1)])),
    ];
    are_next(&rt, rt.alloc(), STEPS);
}
