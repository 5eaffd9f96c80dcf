//! The program: it serves a document over lines, runs a script of engines and prints the reply to each step, or makes threads write into
//! engines.
#![tactic(auto)]

use cli::{Fault, Job, bench, read_words, run_script, serve};
use std::alloc::AllocError;
use std::fs::{File, Files};
use std::io::BufReader;
use std::process::ExitCode;
use std::random::RandomSource;
use std::sync::Wait;
use std::thread::Threads;
use std::{env, fs, io};

fn main(rt: HostRuntime) -> ExitCode {
    let status = match own_words(&rt) {
        Ok(owned) => start(&rt, &rt, owned.as_slice()),
        Err(error) => Fault::of_words(&error).report(&mut rt.stderr()) as u8,
    };
    ExitCode::from(status)
}

/// The words after the program's own name.
fn own_words(rt: &HostRuntime) -> io::Result<Vec<String>> {
    let mut words = Vec::new(rt.alloc());
    for word in env::args(rt)?.skip(1) {
        words.push(word)?;
    }
    Ok(words)
}

fn lent<'a>(rt: &HostRuntime, owned: &'a [String]) -> Result<Vec<&'a str>, AllocError> {
    owned.iter().map(|word| word.as_str()).collect(rt.alloc())
}

/// Does what the words ask for, and returns the status. The second handle is for what waits or starts threads.
fn start<R: Files<File = File> + RandomSource + Threads + Wait + Sync>(
    rt: &HostRuntime,
    waits: &R,
    owned: &[String],
) -> u8 {
    let mut faults = rt.stderr();
    let Ok(words) = lent(rt, owned) else {
        return Fault::NoMemory.report(&mut faults) as u8;
    };
    match read_words(rt.alloc(), words.as_slice()) {
        Ok(Job::Run { script: None }) => run_input(rt),
        Ok(Job::Run { script: Some(name) }) => run_file(rt, name),
        Ok(Job::Bench(plan)) => bench(waits, rt.alloc(), plan, &mut rt.stdout(), &mut faults),
        Ok(Job::Serve { file, number }) => serve_document(rt, waits, file, number),
        Err(why) => why.report(&mut faults) as u8,
    }
}

fn serve_document<R: Files<File = File> + RandomSource + Wait>(
    rt: &HostRuntime,
    waits: &R,
    file: Option<&str>,
    number: Option<u32>,
) -> u8 {
    let mut faults = rt.stderr();
    let Ok(mut input) = BufReader::new(rt.alloc(), rt.stdin()) else {
        return Fault::NoMemory.report(&mut faults) as u8;
    };
    serve(
        waits,
        rt.alloc(),
        file,
        number,
        &mut input,
        &mut rt.stdout(),
        &mut faults,
    )
}

fn run_input(rt: &HostRuntime) -> u8 {
    run_script(
        rt.alloc(),
        "standard input",
        &mut rt.stdin(),
        &mut rt.stdout(),
        &mut rt.stderr(),
    )
}

fn run_file(rt: &HostRuntime, name: &str) -> u8 {
    match fs::open(rt, name) {
        Ok(mut file) => run_script(
            rt.alloc(),
            name,
            &mut file,
            &mut rt.stdout(),
            &mut rt.stderr(),
        ),
        Err(error) => Fault::of_read(name, &error).report(&mut rt.stderr()) as u8,
    }
}
