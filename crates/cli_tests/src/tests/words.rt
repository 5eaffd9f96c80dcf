//! The program's words as the program sees them; `words.session` of `tests/scripts` has what it says of them.

use bench::Plan;
use cli::{Job, Status, read_words};
use std::alloc::Global;
use std::process::Abort;

/// Asserts what the words ask for.
fn is_job<'a>(rt: &impl Abort, alloc: Global, words: &'a [&'a str], wanted: Job<'a>) {
    let job = read_words(alloc, words).ok();
    assert_eq!(rt; job, Some(wanted), "{words:?}");
}

/// A script, the greatest bench, and documents whose number is drawn or the file's, so that no session can say it.
#[test]
fn words_ask_for_a_job(rt: HostRuntime) {
    const RUN: &[&str] = &["run", "a b"];
    const BENCH: &[&str] = &[
        "bench",
        "--queue=65536",
        "--ops=4096",
        "--writers=16",
        "--replicas=16",
    ];
    const SERVE: &[&str] = &["serve"];
    const SERVE_FILE: &[&str] = &["serve", "a.jdoc"];
    let plan = Plan::new(16, 16, 4_096, 65_536).expect(&rt, "a plan");
    let run = Job::Run {
        script: Some("a b"),
    };
    let in_memory = Job::Serve {
        file: None,
        number: None,
    };
    let in_file = Job::Serve {
        file: Some("a.jdoc"),
        number: None,
    };
    is_job(&rt, rt.alloc(), RUN, run);
    is_job(&rt, rt.alloc(), BENCH, Job::Bench(plan));
    is_job(&rt, rt.alloc(), SERVE, in_memory);
    is_job(&rt, rt.alloc(), SERVE_FILE, in_file);
}

#[test]
fn words_that_are_no_job_are_told(rt: HostRuntime) {
    const WORDS: &[&str] = &["run", "--fast"];
    let mut told = Vec::new(rt.alloc());
    match read_words(rt.alloc(), WORDS) {
        Ok(_) => panic!(rt; "{WORDS:?} are a job"),
        Err(why) => assert_eq!(rt; why.report(&mut told), Status::BadInput),
    }
    assert!(rt; told.starts_with(b"error: "), "{told:?}");
}
