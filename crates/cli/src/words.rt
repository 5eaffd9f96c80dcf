//! The program's words: its arguments.

ghost use Rattle.std.specs.Prelude.{◌≡◌, ◌≢◌, ◌⊎◌, ◌<◌, ℕ, true, false, None, IfOk, IfErr, IfSome, map};
ghost use Rattle.std.specs.Io.KnownBytes.{Appends};
ghost use Rattle.clap.specs.Words.{app_of, found_of, has_subcommand, kind_of, rows_of, rule_of, subcommand_of, subcommand_rows_of};
ghost use Rattle.clap.specs.Faults.{fault_of};
ghost use Rattle.clap.specs.declared.builder.command.Command.TheViews.{out-Command as fields_of};
ghost use Rattle.clap.specs.Kinds.{FailsBy};
ghost use Rattle.cli.specs.declared.fault.Status.TheVariants.{BadInput, NoMemory, NotWritten};

use crate::fault::{Fault, Status};
use bench::Plan;
use clap::builder::ValueParser;
use clap::error::ErrorKind;
use clap::{Arg, ArgMatches, Command, Error};
use ids::MOST_QUEUE;
use std::alloc::{AllocError, Global};
use std::io::Write;

/// What the program is asked to do.
#[derive(Clone, Copy, Debug, PartialEq, Eq)]
pub enum Job<'a> {
    /// Run the script in the file of this name, by default on standard input.
    Run {
        script: Option<&'a str>,
    },
    /// Make threads write into engines, as the plan says.
    Bench(Plan),
    /// Serve the document in the file of this name, by default one in memory, as the replica of this number.
    Serve {
        file: Option<&'a str>,
        number: Option<u32>,
    },
}

/// Why nothing is done for the words.
#[derive(Debug, Drop)]
pub enum BadWords {
    /// What `clap` answers to them, including help if they ask for it.
    Refused(Error),
    /// A number is outside its limits.
    OutOfRange,
}

ghost use Rattle.cli.specs.Faults.{line_of};
ghost use Rattle.cli.specs.Words.{IsJobOf, IsNumber, IsOutOfMemory, IsPlanOf, IsRefusedBy, bench_app, engines_app, jdoc_app};
ghost use Rattle.cli.specs.Words.{number_rule, own_number_rule, queue_rule, run_app, serve_app};
ghost use Rattle.cli.specs.declared.fault.Fault.TheVariants as fault;
ghost use Rattle.cli.specs.declared.words.BadWords.TheVariants.{Refused as RefusedBy};

impl From<Error> for BadWords {
    ghost from_gives = { λ e why. why ≡ RefusedBy e };

    fn from(error: Error) -> BadWords {
        BadWords::Refused(error)
    }
}

/// What the words after the program's own name ask for.
pub fn read_words<'a>(alloc: Global, words: &'a [&'a str]) -> Result<Job<'a>, BadWords>
    ensures job { IfOk result (IsJobOf (map (λ w. w.now) words.entry.now)) }
    ensures refused { IfErr result (IsRefusedBy (map (λ w. w.now) words.entry.now)) }
{
    let matches = parse(alloc, words)?;
    match matches.subcommand() {
        Some((name, found)) if name == "bench" => match plan_of(found) {
            Some(plan) => Ok(Job::Bench(plan)),
            None => Err(BadWords::OutOfRange),
        },
        Some((name, found)) if name == "serve" => Ok(Job::Serve {
            file: found.get_str("FILE"),
            number: number_of(found, "number"),
        }),
        Some((_, found)) => Ok(Job::Run {
            script: found.get_str("SCRIPT"),
        }),
        None => unreachable!(),
    }
}

/// What `clap` finds in the words.
fn parse<'a>(alloc: Global, words: &'a [&'a str]) -> Result<ArgMatches<'a>, Error>
    ensures found { IfOk result (λ m. subcommand_rows_of m ≡ subcommand_of jdoc_app (map (λ w. w.now) words.entry.now)) }
    ensures refused { FailsBy (fault_of jdoc_app (map (λ w. w.now) words.entry.now)) result }
    ensures subcommand { IfOk result (λ m. has_subcommand m ≡ true) }
{
    command(alloc)?.try_get_matches_from(words)
}

/// The plan in the options of `bench`. `clap` has tested their limits; they are tested again, since its contract says nothing of options
/// below a subcommand.
fn plan_of(found: &ArgMatches<'_>) -> Option<Plan>
    ensures plan { IfSome result (IsPlanOf (rows_of (found_of found.now))) }
    ensures none { result ≡ None → (plan : Plan) → IsPlanOf (rows_of (found_of found.now)) plan → ⊥ }
{
    Plan::new(
        number_of(found, "replicas")?,
        number_of(found, "writers")?,
        number_of(found, "ops")?,
        number_of(found, "queue")?,
    )
    .ok()
}

/// The number that an option has.
fn number_of(found: &ArgMatches<'_>, option: &str) -> Option<u32>
    ensures some { IfSome result (IsNumber option.now (rows_of (found_of found.now))) }
    ensures none { result ≡ None → (n : ℕ) → n < 4294967296 → IsNumber option.now (rows_of (found_of found.now)) n → ⊥ }
{
    found.get_one(option)
}

/// `jdoc run [SCRIPT]`, `jdoc bench --replicas N --writers W --ops K [--queue Q]`, and `jdoc serve [FILE] [--number N]`
fn command<'a>(alloc: Global) -> Result<Command<'a>, AllocError>
    ensures words { IfOk result (λ c. app_of c ≡ jdoc_app) }
    ensures local { IfOk result (λ c. (fields_of c).has_globals ≡ false) }
{
    engines_command(alloc)?.subcommand(serve_command(alloc)?)
}

/// The program with its subcommands for engines.
fn engines_command<'a>(alloc: Global) -> Result<Command<'a>, AllocError>
    ensures words { IfOk result (λ c. app_of c ≡ engines_app) }
    ensures local { IfOk result (λ c. (fields_of c).has_globals ≡ false) }
{
    Command::new(alloc, "jdoc")
        .bin_name("jdoc")?
        .about("Serves a shared document, and runs engines of one")
        .no_binary_name(true)
        .subcommand_required(true)
        .subcommand(run_command(alloc)?)?
        .subcommand(bench_command(alloc)?)
}

fn run_command<'a>(alloc: Global) -> Result<Command<'a>, AllocError>
    ensures words { IfOk result (λ c. app_of c ≡ run_app) }
    ensures local { IfOk result (λ c. (fields_of c).has_globals ≡ false) }
{
    let script = Arg::new(alloc, "SCRIPT").help(
        "The file with the script; default: standard input",
    );
    Command::new(alloc, "run")
        .about("Runs a script and prints what each step replies")
        .arg(script)
}

fn bench_command<'a>(alloc: Global) -> Result<Command<'a>, AllocError>
    ensures words { IfOk result (λ c. app_of c ≡ bench_app) }
    ensures local { IfOk result (λ c. (fields_of c).has_globals ≡ false) }
{
    Command::new(alloc, "bench")
        .about(
            "Runs concurrent writers against each engine, and checks that each reads back what it wrote and that all engines then agree",
        )
        .arg(number(alloc, "replicas", 16).help("How many engines, from 1 to 16"))?
        .arg(number(alloc, "writers", 16).help("How many threads write into each, from 1 to 16"))?
        .arg(number(alloc, "ops", 4_096).help(
            "How many commands each of them submits, from 1 to 4,096",
        ))?
        .arg(queue_option(alloc))
}

fn serve_command<'a>(alloc: Global) -> Result<Command<'a>, AllocError>
    ensures words { IfOk result (λ c. app_of c ≡ serve_app) }
    ensures local { IfOk result (λ c. (fields_of c).has_globals ≡ false) }
{
    let file = Arg::new(alloc, "FILE").help("The file that keeps the document; default: in memory");
    Command::new(alloc, "serve")
        .about(
            "Serves a document: a request a line on standard input, a reply a line on standard output",
        )
        .arg(file)?
        .arg(own_number(alloc))
}

/// The option for the number of the replica that is served.
fn own_number<'a>(alloc: Global) -> Arg<'a>
    ensures rule { rule_of result ≡ own_number_rule }
    ensures local { result.global ≡ false }
{
    Arg::new(alloc, "number")
        .long("number")
        .value_parser(ValueParser::unsigned(1, u64::from(u32::MAX)))
        .help(
            "The number of this device, which no other one has, from 1 to 4,294,967,295; else the file's, or one that is drawn",
        )
}

/// A required option whose value is a number from 1 on.
fn number<'a>(alloc: Global, name: &'a str, most: u64) -> Arg<'a>
    ensures rule { rule_of result ≡ number_rule name.entry.now most }
    ensures local { result.global ≡ false }
{
    Arg::new(alloc, name)
        .long(name)
        .required(true)
        .value_parser(ValueParser::unsigned(1, most))
}

/// The option for the capacity of each engine's queue.
fn queue_option<'a>(alloc: Global) -> Arg<'a>
    ensures rule { rule_of result ≡ queue_rule }
    ensures local { result.global ≡ false }
{
    Arg::new(alloc, "queue")
        .long("queue")
        .value_parser(ValueParser::unsigned(1, u64::from(MOST_QUEUE)))
        .default_value("65536")
        .help("How many items wait in the queue of each, from 1 to 65,536")
}

impl BadWords {
    /// Prints on standard error what `clap` answers, including help, or that an allocation failed. Returns the status of the run.
    pub fn report<W: Write>(&self, faults: &mut W) -> Status
        ensures memory { IsOutOfMemory self.now → (result ≡ NoMemory) ⊎ (result ≡ NotWritten) }
        ensures other { (IsOutOfMemory self.now → ⊥) → (result ≡ BadInput) ⊎ (result ≡ NotWritten) }
        ensures no_memory { result ≡ NoMemory → Appends (W.contents faults.old) (W.contents faults.new) (line_of fault.NoMemory) }
    {
        match self {
            BadWords::Refused(error) => report(error, faults),
            BadWords::OutOfRange => Fault::OutOfRange.report(faults),
        }
    }
}

/// Prints what `clap` answers, or that an allocation failed, and returns the status of the run.
fn report<W: Write>(error: &Error, faults: &mut W) -> Status
    ensures memory { kind_of error.now ≡ ErrorKind.OutOfMemory → (result ≡ NoMemory) ⊎ (result ≡ NotWritten) }
    ensures other { kind_of error.now ≢ ErrorKind.OutOfMemory → (result ≡ BadInput) ⊎ (result ≡ NotWritten) }
    ensures no_memory { result ≡ NoMemory → Appends (W.contents faults.old) (W.contents faults.new) (line_of fault.NoMemory) }
{
    match error.kind() {
        ErrorKind::OutOfMemory => Fault::NoMemory.report(faults),
        _ => tell(error, faults),
    }
}

/// Prints what `clap` answers. The status says that the words are bad, or that the text wasn't written.
fn tell<W: Write>(error: &Error, faults: &mut W) -> Status
    ensures { (result ≡ BadInput) ⊎ (result ≡ NotWritten) }
{
    if write!(faults, "{error}").is_err() || faults.flush().is_err() {
        return Status::NotWritten;
    }
    Status::BadInput
}
