//! What a test does with a notebook in a life, as a table of rows, and what plays them.

use super::*;
use disks::Disk;
use ids::Refusal;
use notebook::{EngineName, Expr, Fault, Notebook, Question, Reading, Receipt, Scalar};
use requests::{Edition, command_in};
use std::alloc::Global;
use std::process::Abort;
use std::sync::Wait;
use wire::json_of;

/// Something that writes.
#[derive(Clone, Copy)]
pub enum Act {
    /// The command of this JSON.
    Write(&'static str),
    /// This bundle is received.
    Receive(&'static str),
    Save,
}

/// The outcome of an act.
#[derive(Clone, Copy, Debug, PartialEq, Eq)]
pub enum Came {
    /// It is saved.
    Saved,
    /// It is in the document, but not saved.
    Store,
    /// A sync or a cut failed, now or before.
    MustStartAgain,
    /// It is refused.
    Refused(Refusal),
    /// Another fault.
    Other,
}

/// Something that is done with a notebook, and its answer.
#[derive(Clone, Copy)]
pub enum Row {
    /// This act, whatever its outcome.
    Tries(Act),
    /// This act, with this outcome.
    Does(Act, Came),
    /// This bundle is received, and this is its receipt.
    Receives(&'static str, Receipt),
    Hello(&'static str),
    /// The answer to this hello, and whether the hello is beyond.
    Answer(&'static str, &'static str, bool),
    /// The texts at the key `k`.
    Shows(&'static [&'static str]),
}

/// What a life was told.
#[derive(Clone, Copy, Debug, PartialEq, Eq)]
pub struct Told {
    /// How many of its acts are in the document.
    pub accepted: usize,
    /// How many of these were called saved.
    pub saved: usize,
    /// Whether it must start again.
    pub is_lost: bool,
}

/// Plays these rows in order.
pub fn play<N: EngineName, R: Wait + Abort>(
    rt: &R,
    alloc: Global,
    notebook: &mut Notebook<N, Disk>,
    rows: &[Row],
) -> Result<Told, Fail> {
    let mut told = Told {
        accepted: 0,
        saved: 0,
        is_lost: false,
    };
    for row in rows {
        play_row(rt, alloc, notebook, &mut told, *row)?;
    }
    Ok(told)
}

fn play_row<N: EngineName, R: Wait + Abort>(
    rt: &R,
    alloc: Global,
    notebook: &mut Notebook<N, Disk>,
    told: &mut Told,
    row: Row,
) -> Result<(), Fail> {
    match row {
        Row::Tries(act) => {
            let came = try_act(rt, alloc, notebook, act)?;
            told.count(act, came);
        }
        Row::Does(act, want) => {
            let came = try_act(rt, alloc, notebook, act)?;
            assert_eq!(rt; came, want);
        }
        Row::Receives(bundle, want) => match notebook.receive(rt, alloc, bundle.as_bytes()) {
            Ok(receipt) => assert_eq!(rt; receipt, want),
            Err(_) => return Err("not received".into()),
        },
        Row::Hello(want) => {
            let line = notebook.hello(alloc)?;
            assert_eq!(rt; line.as_slice(), want.as_bytes());
        }
        Row::Answer(hello, lines, is_beyond) => {
            let answered = notebook.answer(alloc, hello.as_bytes())?;
            assert_eq!(rt; answered.lines.as_slice(), lines.as_bytes());
            assert_eq!(rt; answered.is_beyond, is_beyond);
        }
        Row::Shows(texts) => show(rt, alloc, notebook, texts)?,
    }
    Ok(())
}

/// Does this, and returns the outcome.
fn try_act<N: EngineName>(
    rt: &impl Wait,
    alloc: Global,
    notebook: &mut Notebook<N, Disk>,
    act: Act,
) -> Result<Came, Refusal> {
    let result = match act {
        Act::Write(text) => {
            let command = command_in(alloc, Edition::Second, &json_of(alloc, text.as_bytes())?)?;
            notebook.write(rt, alloc, command).err()
        }
        Act::Receive(bundle) => notebook.receive(rt, alloc, bundle.as_bytes()).err(),
        Act::Save => notebook.save(rt, alloc).err(),
    };
    Ok(came_of(result))
}

fn came_of(fault: Option<Fault>) -> Came {
    match fault {
        None => Came::Saved,
        Some(Fault::Store(_)) => Came::Store,
        Some(Fault::MustStartAgain) => Came::MustStartAgain,
        Some(Fault::Refused(why)) => Came::Refused(why),
        Some(_) => Came::Other,
    }
}

impl Told {
    /// Counts the outcome of an act: while nothing is lost, each act is in the document, and once one is saved all are.
    fn count(&mut self, act: Act, came: Came) {
        if !self.is_lost && !matches!(act, Act::Save) {
            self.accepted = self.accepted.saturating_add(1);
        }
        match came {
            Came::Saved => self.saved = self.accepted,
            Came::MustStartAgain => self.is_lost = true,
            _ => {}
        }
    }
}

/// Asserts that these texts are at the key `k`.
fn show<N: EngineName, R: Wait + Abort>(
    rt: &R,
    alloc: Global,
    notebook: &mut Notebook<N, Disk>,
    texts: &[&str],
) -> Result<(), Fail> {
    let question = Question::Values(Expr::root(alloc).get(alloc, "k")?);
    let Reading::Values(values) = notebook.ask(alloc, &question)? else {
        return Err("other answer".into());
    };
    assert_eq!(rt; values.len(), texts.len());
    for ((_, value), want) in values.iter().zip(texts) {
        match value {
            Scalar::Text(text) => assert_eq!(rt; text.as_str(), *want),
            _ => return Err("no text".into()),
        }
    }
    Ok(())
}
