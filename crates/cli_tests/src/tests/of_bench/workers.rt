//! Workers whose engine has no thread for its writer, behind gates that open or don't.

ghost use Rattle.std.specs.Prelude.{◌≡◌};
ghost use Rattle.ids.specs.Members.{in_order};

use super::*;
use engine::{Client, EngineName, Final, Parts, close, open, prepare};
use ids::Config;
use std::alloc::Global;
use std::marker::Brand;
use std::process::Abort;
use std::sync::Wait;
use value::Key;

/// A gate that gives each number the same answer.
#[derive(Drop)]
struct Always {
    says: Result<bool, Refusal>,
}

impl Gate for Always {
    fn may<N: EngineName>(
        &mut self,
        _alloc: Global,
        _client: &mut Client<N>,
        _number: u32,
    ) -> Result<bool, Refusal> {
        self.says
    }
}

/// What a worker with two commands returns, and how many of them are then queued.
fn row<R: Wait + Abort>(
    rt: &R,
    alloc: Global,
    says: Result<bool, Refusal>,
) -> Result<(Result<bool, Stop>, u64), Fail> {
    let parts = prepare(
        alloc,
        Config {
            own: 1,
            members: vec![in alloc; 1]?,
            clients: 1,
            readers: 1,
            queue: 4,
            batch: 4,
            serials: 4,
        },
    )?;
    row_in::<Brand, R>(rt, alloc, parts, Always { says })
}

fn row_in<N: EngineName, R: Wait + Abort>(
    rt: &R,
    alloc: Global,
    parts: Parts,
    gate: Always,
) -> Result<(Result<bool, Stop>, u64), Fail>
    requires book { parts.opened.seen.book ≡ N.book }
    requires own { parts.config.own ≡ N.own }
    requires table { in_order parts.config.members ≡ N.table }
{
    let (writer, mut clients, _readers) = open::<N>(rt, alloc, parts)?;
    let ended = match clients.first_mut() {
        Some(client) => work(rt, alloc, gate, client),
        None => Err("no client".into()),
    };
    let Final { left, .. } = close(rt, writer, clients);
    Ok((ended?, left))
}

fn work<N: EngineName, R: Wait>(
    rt: &R,
    alloc: Global,
    gate: Always,
    client: &mut Client<N>,
) -> Result<Result<bool, Stop>, Fail> {
    let mut gate = gate;
    let key = Key::new(alloc, "w0")?;
    Ok(worker(rt, alloc, &mut gate, client, &key, 2))
}

#[test]
fn a_gate_stays_shut(rt: HostRuntime) -> Result<(), Fail> {
    assert_eq!(rt; row(&rt, rt.alloc(), Ok(false))?, (Err(Stop::TurnLimit), 0));
    Ok(())
}

#[test]
fn a_gate_refuses(rt: HostRuntime) -> Result<(), Fail> {
    let refused = Err(Stop::Refused(Refusal::NoReading));
    assert_eq!(rt;
        row(&rt, rt.alloc(), Err(Refusal::NoReading))?,
        (refused, 0)
    );
    Ok(())
}

#[test]
fn an_answer_stays_away(rt: HostRuntime) -> Result<(), Fail> {
    assert_eq!(rt; row(&rt, rt.alloc(), Ok(true))?, (Err(Stop::TurnLimit), 1));
    Ok(())
}
