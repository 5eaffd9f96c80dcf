//! Full inboxes and full tables.

ghost use Rattle.std.specs.Prelude.{ℕ, IfOk};
ghost use Rattle.semantics.specs.Entries.{IsAbove};

use super::playing::{expect_history, new_replica, play};
use super::*;

const FULL: Answer = Err(Refusal::InboxFull);

const NO_ROOM: Answer = Err(Refusal::UnknownReplica);

/// Delivers 2@2 to 4097@2, each of which waits for replica 3. Returns the client's next serial.
fn fill(rt: &impl Abort, alloc: Global, replica: &mut Replica, serial: u64) -> Result<u64, Refusal>
    requires { IsAbove 0 serial replica.old.document.entries }
    ensures { IfOk result (λ next. IsAbove 0 next replica.new.document.entries) }
{
    let mut serial = serial;
    for counter in 1..=4096 {
        let stuck = [
            Turn::Deliver((counter + 1, 2), &[0, 0, counter], Writes::Delete, KEPT),
            Turn::Drain(0, 0),
        ];
        serial = play(rt, alloc, replica, serial, &stuck)?;
    }
    Ok(serial)
}

/// Takes these turns once 4,096 operations wait.
fn fill_and_play(
    rt: &impl Abort,
    alloc: Global,
    replica: &mut Replica,
    turns: &[Turn<'_>],
) -> Result<(), Refusal>
    requires { IsAbove 0 1 replica.old.document.entries }
{
    let serial = fill(rt, alloc, replica, 1)?;
    play(rt, alloc, replica, serial, turns)?;
    Ok(())
}

/// Plays these turns on replica 1, once 4,096 operations wait there, none of which is ready. Asserts the ids that the history then has.
fn on_full(
    rt: &impl Abort,
    alloc: Global,
    turns: &[Turn<'_>],
    history: &[Pair],
) -> Result<(), Fail> {
    let mut replica = new_replica(alloc, 1, &[1, 2, 3])?;
    fill_and_play(rt, alloc, &mut replica, turns)?;
    expect_history(rt, replica, history);
    Ok(())
}

#[test]
fn one_slot_is_held_for_what_is_ready(rt: HostRuntime) -> Result<(), Fail> {
    const TURNS: &[Turn<'static>] = &[
        Turn::Deliver((4098, 2), &[0, 0, 4097], Writes::Delete, FULL),
        Turn::Drain(0, 0),
        Turn::Deliver((2, 2), &[0, 0, 1], Writes::Delete, KNOWN),
        Turn::Drain(0, 0),
        Turn::Deliver((1, 2), &[0, 0, 0], Writes::Delete, KEPT),
        Turn::Drain(1, 0),
        Turn::Deliver((1, 3), &[0, 0, 0], Writes::Delete, KEPT),
        Turn::Drain(2, 1),
        Turn::Deliver((4098, 2), &[0, 0, 4097], Writes::Delete, KEPT),
        Turn::Drain(2, 1),
    ];
    on_full(&rt, rt.alloc(), TURNS, &[(1, 2), (1, 3)])
}

/// Replica 5, of the members 4, 5 and 101 to 162.
fn of_many(alloc: Global) -> Result<Replica, Refusal>
    ensures { IfOk result (λ r. (serial : ℕ) → IsAbove 0 serial r.document.entries) }
{
    let mut members = vec![in alloc; 4, 5]?;
    for number in 101..=162 {
        members.push(number)?;
    }
    Replica::new(alloc, 5, &members)
}

/// Delivers 1@1001 to 1@1192, each of which is kept and applied. Returns the client's next serial.
fn fill_table(
    rt: &impl Abort,
    alloc: Global,
    replica: &mut Replica,
    serial: u64,
) -> Result<u64, Refusal>
    requires { IsAbove 0 serial replica.old.document.entries }
    ensures { IfOk result (λ next. IsAbove 0 next replica.new.document.entries) }
{
    let mut serial = serial;
    for number in 1001..=1192 {
        let joins = [
            Turn::Deliver((1, number), &[], Writes::Delete, KEPT),
            Turn::Drain(number as usize - 1000, 0),
        ];
        serial = play(rt, alloc, replica, serial, &joins)?;
    }
    Ok(serial)
}

/// Asserts that the table has 256 numbers.
fn expect_full(rt: &impl Abort, replica: &Replica) {
    assert_eq!(rt; replica.document().table().len(), 256);
}

/// Takes the first turns, lets 192 replicas join 64 members, and takes the last turns.
fn play_over_joins(
    rt: &impl Abort,
    alloc: Global,
    replica: &mut Replica,
    first: &[Turn<'_>],
    second: &[Turn<'_>],
) -> Result<(), Refusal>
    requires { IsAbove 0 1 replica.old.document.entries }
{
    let serial = play(rt, alloc, replica, 1, first)?;
    let serial = fill_table(rt, alloc, replica, serial)?;
    expect_full(rt, replica);
    play(rt, alloc, replica, serial, second)?;
    Ok(())
}

/// Plays the first turns on replica 5, one of 64 members, lets 192 others join there, and plays the last turns.
fn over_joins(
    rt: &impl Abort,
    alloc: Global,
    first: &[Turn<'_>],
    second: &[Turn<'_>],
) -> Result<(), Refusal> {
    let mut replica = of_many(alloc)?;
    play_over_joins(rt, alloc, &mut replica, first, second)
}

#[test]
fn a_full_table_takes_no_more_replicas(rt: HostRuntime) -> Result<(), Fail> {
    const TURNS: &[Turn<'static>] = &[
        Turn::Deliver((1, 2000), &[], Writes::Delete, NO_ROOM),
        Turn::Drain(192, 0),
        Turn::Deliver((1, 101), &[], Writes::Delete, KEPT),
        Turn::Drain(193, 0),
        Turn::Deliver((1, 2000), &[], Writes::Delete, NO_ROOM),
        Turn::Deliver((1, 1192), &[], Writes::Delete, KNOWN),
        Turn::Drain(193, 0),
    ];
    Ok(over_joins(&rt, rt.alloc(), &[], TURNS)?)
}

/// 2@3 waits before the table is full and 2@2 after, both for 1@4, as does 2@101 of a member; 2@6 waits for 1@2, which never finds room.
#[test]
fn what_waits_for_room_that_is_gone_is_dropped(rt: HostRuntime) -> Result<(), Fail> {
    const AFTER_4: &[u64] = &[0, 0, 0, 1];
    const WAITS: &[Turn<'static>] = &[
        Turn::Deliver((2, 3), AFTER_4, Writes::Delete, KEPT),
        Turn::Drain(0, 0),
    ];
    const TURNS: &[Turn<'static>] = &[
        Turn::Deliver((2, 2), AFTER_4, Writes::Delete, KEPT),
        Turn::Deliver((2, 6), &[0, 1], Writes::Delete, KEPT),
        Turn::Deliver((2, 101), AFTER_4, Writes::Delete, KEPT),
        Turn::Drain(192, 0),
        Turn::Deliver((1, 4), &[], Writes::Delete, KEPT),
        Turn::Next(Some((1, 4))),
        Turn::Next(Some((2, 101))),
        Turn::Lengths(194, 2),
        Turn::Deliver((2, 3), AFTER_4, Writes::Delete, NO_ROOM),
        Turn::Deliver((1, 2), &[], Writes::Delete, NO_ROOM),
        Turn::Deliver((2, 6), &[0, 1], Writes::Delete, KNOWN),
        Turn::Drain(194, 2),
    ];
    Ok(over_joins(&rt, rt.alloc(), WAITS, TURNS)?)
}

/// Takes these turns once 4,096 operations wait and the table is full.
fn fill_both(
    rt: &impl Abort,
    alloc: Global,
    replica: &mut Replica,
    turns: &[Turn<'_>],
) -> Result<(), Refusal>
    requires { IsAbove 0 1 replica.old.document.entries }
{
    let serial = fill(rt, alloc, replica, 1)?;
    let serial = fill_table(rt, alloc, replica, serial)?;
    play(rt, alloc, replica, serial, turns)?;
    Ok(())
}

/// Plays these turns on replica 5 once 4,096 operations wait there and the table is full.
fn over_both(rt: &impl Abort, alloc: Global, turns: &[Turn<'_>]) -> Result<(), Refusal> {
    let mut replica = of_many(alloc)?;
    fill_both(rt, alloc, &mut replica, turns)
}

#[test]
fn a_full_inbox_is_told_before_a_full_table(rt: HostRuntime) -> Result<(), Fail> {
    const TURNS: &[Turn<'static>] = &[
        Turn::Deliver((1, 2000), &[], Writes::Delete, NO_ROOM),
        Turn::Deliver((1, 101), &[], Writes::Delete, KEPT),
        Turn::Deliver((1, 2000), &[], Writes::Delete, FULL),
        Turn::Drain(193, 0),
        Turn::Deliver((1, 2000), &[], Writes::Delete, NO_ROOM),
        Turn::Drain(193, 0),
    ];
    Ok(over_both(&rt, rt.alloc(), TURNS)?)
}
