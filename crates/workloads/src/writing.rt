//! What is written into an engine: a note, a configuration, records, a list and a map that are saved as a whole, and entries that come
//! and go.

use crate::draws::Hands;
use crate::places::{deep_leaf, drawn_value, field, item, leaf, numbered};
use crate::showing::{count_items, show_fields, show_screen};
use crate::stage::Stage;
use engine::{Command, EngineName, Refusal, Val};
use std::alloc::Global;
use std::sync::Wait;

/// How many leaves a configuration has at most.
const LEAVES: u32 = 20_000;

/// What is written.
#[derive(Clone, Copy, PartialEq, Eq)]
pub enum Work {
    /// A note, a configuration and records, a third each.
    Mixed,
    /// The same, one command at a time, with a look at the screen after each.
    Typing,
    /// A list and a map that are assigned anew and filled, again and again.
    Saves,
    /// Fields of a configuration alone.
    Fields,
    /// Items of a list, each first.
    Heads,
    /// Items of a list, each last.
    Ends,
    /// Fields of one map, eight keys deep.
    Depths,
}

/// Writes some commands.
pub fn write<N: EngineName, R: Wait>(
    rt: &R,
    alloc: Global,
    stage: &mut Stage<N>,
    hands: &mut Hands,
    work: Work,
    count: u32,
) -> Result<(), Refusal> {
    match work {
        Work::Mixed => {
            write_note(rt, alloc, stage, hands, count / 2)?;
            write_fields(rt, alloc, stage, hands, count / 4)?;
            write_records(rt, alloc, stage, hands, count / 16)?;
        }
        Work::Typing => type_and_look(rt, alloc, stage, hands, count)?,
        Work::Saves => write_saves(rt, alloc, stage, hands, count)?,
        Work::Fields => write_fields(rt, alloc, stage, hands, count)?,
        Work::Heads => write_items(rt, alloc, stage, hands, count, false)?,
        Work::Ends => write_items(rt, alloc, stage, hands, count, true)?,
        Work::Depths => write_depths(rt, alloc, stage, hands, count)?,
    }
    stage.settle(rt, alloc, hands)
}

/// Lines of a note: most after the one before, some in the middle, and some deletes.
fn write_note<N: EngineName, R: Wait>(
    rt: &R,
    alloc: Global,
    stage: &mut Stage<N>,
    hands: &mut Hands,
    count: u32,
) -> Result<(), Refusal> {
    let mut length = count_items(alloc, stage, hands, field(alloc, "note")?)?;
    let mut cursor = length;
    for _ in 0..count {
        let drawn = hands.below(24);
        if drawn == 0 {
            cursor = hands.below(length.saturating_add(1));
        }
        if drawn < 4 && cursor > 0 {
            stage.submit(
                rt,
                alloc,
                hands,
                Command::Delete(item(alloc, "note", cursor)?),
            )?;
            cursor = cursor.saturating_sub(1);
            length = length.saturating_sub(1);
        } else {
            insert(rt, alloc, stage, hands, "note", cursor)?;
            cursor = cursor.saturating_add(1);
            length = length.saturating_add(1);
        }
    }
    stage.settle(rt, alloc, hands)
}

/// Items of a list, each first or each last.
fn write_items<N: EngineName, R: Wait>(
    rt: &R,
    alloc: Global,
    stage: &mut Stage<N>,
    hands: &mut Hands,
    count: u32,
    at_end: bool,
) -> Result<(), Refusal> {
    let length = count_items(alloc, stage, hands, field(alloc, "note")?)?;
    let mut cursor = if at_end { length } else { 0 };
    for _ in 0..count {
        insert(rt, alloc, stage, hands, "note", cursor)?;
        if at_end {
            cursor = cursor.saturating_add(1);
        }
    }
    Ok(())
}

/// Inserts a drawn value after an item, counted from 1, or first, after 0.
fn insert<N: EngineName, R: Wait>(
    rt: &R,
    alloc: Global,
    stage: &mut Stage<N>,
    hands: &mut Hands,
    name: &str,
    after: u32,
) -> Result<(), Refusal> {
    let value = drawn_value(alloc, hands)?;
    stage.submit(
        rt,
        alloc,
        hands,
        Command::InsertAfter(item(alloc, name, after)?, value),
    )
}

/// Leaves of a configuration: most are assigned, some deleted.
fn write_fields<N: EngineName, R: Wait>(
    rt: &R,
    alloc: Global,
    stage: &mut Stage<N>,
    hands: &mut Hands,
    count: u32,
) -> Result<(), Refusal> {
    for _ in 0..count {
        let place = leaf(alloc, hands.below(LEAVES))?;
        let command = if hands.below(10) == 0 {
            Command::Delete(place)
        } else {
            Command::Assign(place, drawn_value(alloc, hands)?)
        };
        stage.submit(rt, alloc, hands, command)?;
    }
    Ok(())
}

/// Fields of one map, eight keys deep: each write's id stands at every map on its way.
fn write_depths<N: EngineName, R: Wait>(
    rt: &R,
    alloc: Global,
    stage: &mut Stage<N>,
    hands: &mut Hands,
    count: u32,
) -> Result<(), Refusal> {
    for _ in 0..count {
        let place = deep_leaf(alloc, hands.below(1_000_000))?;
        let command = Command::Assign(place, drawn_value(alloc, hands)?);
        stage.submit(rt, alloc, hands, command)?;
    }
    Ok(())
}

/// New records, each a map in a list with three fields.
fn write_records<N: EngineName, R: Wait>(
    rt: &R,
    alloc: Global,
    stage: &mut Stage<N>,
    hands: &mut Hands,
    count: u32,
) -> Result<(), Refusal> {
    let length = count_items(alloc, stage, hands, field(alloc, "records")?)?;
    for index in 0..count {
        let after = length.saturating_add(index);
        let command = Command::InsertAfter(item(alloc, "records", after)?, Val::EmptyMap);
        stage.submit(rt, alloc, hands, command)?;
        fill_record(rt, alloc, stage, hands, after.saturating_add(1))?;
    }
    Ok(())
}

fn fill_record<N: EngineName, R: Wait>(
    rt: &R,
    alloc: Global,
    stage: &mut Stage<N>,
    hands: &mut Hands,
    index: u32,
) -> Result<(), Refusal> {
    for name in ["name", "amount", "done"] {
        let place = item(alloc, "records", index)?.get(alloc, name)?;
        let command = Command::Assign(place, drawn_value(alloc, hands)?);
        stage.submit(rt, alloc, hands, command)?;
    }
    Ok(())
}

/// A list of entries that come and go, a map of which the same is true, a note and a configuration: one command at a time, and after each
/// a look at what is on the screen.
fn type_and_look<N: EngineName, R: Wait>(
    rt: &R,
    alloc: Global,
    stage: &mut Stage<N>,
    hands: &mut Hands,
    count: u32,
) -> Result<(), Refusal> {
    let mut cursor = count_items(alloc, stage, hands, field(alloc, "note")?)?;
    for turn in 0..count {
        let length = show_screen(alloc, stage, hands, "board")?;
        match turn % 4 {
            0 => come_and_go(rt, alloc, stage, hands, length)?,
            1 => open_and_close(rt, alloc, stage, hands, turn)?,
            2 => {
                insert(rt, alloc, stage, hands, "note", cursor)?;
                cursor = cursor.saturating_add(1);
            }
            _ => write_fields(rt, alloc, stage, hands, 1)?,
        }
    }
    Ok(())
}

/// An entry comes to the list, or goes, so that some sixty stay.
fn come_and_go<N: EngineName, R: Wait>(
    rt: &R,
    alloc: Global,
    stage: &mut Stage<N>,
    hands: &mut Hands,
    length: u32,
) -> Result<(), Refusal> {
    if length > 60 {
        let place = item(alloc, "board", hands.below(length).saturating_add(1))?;
        stage.submit(rt, alloc, hands, Command::Delete(place))?;
    }
    let after = hands.below(length.saturating_add(1));
    insert(rt, alloc, stage, hands, "board", after.min(60))
}

/// A field comes to the map, and the one of a hundred turns before goes.
fn open_and_close<N: EngineName, R: Wait>(
    rt: &R,
    alloc: Global,
    stage: &mut Stage<N>,
    hands: &mut Hands,
    turn: u32,
) -> Result<(), Refusal> {
    let name = numbered(alloc, "tab-", turn)?;
    let place = field(alloc, "open")?.get(alloc, name.as_str())?;
    let value = drawn_value(alloc, hands)?;
    stage.submit(rt, alloc, hands, Command::Assign(place, value))?;
    let old = numbered(alloc, "tab-", turn.saturating_sub(100))?;
    let place = field(alloc, "open")?.get(alloc, old.as_str())?;
    stage.submit(rt, alloc, hands, Command::Delete(place))?;
    show_fields(alloc, stage, hands, "open")
}

/// Saves of a list of 200 items and a map of 40 fields.
fn write_saves<N: EngineName, R: Wait>(
    rt: &R,
    alloc: Global,
    stage: &mut Stage<N>,
    hands: &mut Hands,
    count: u32,
) -> Result<(), Refusal> {
    for _ in 0..count {
        let command = Command::Assign(field(alloc, "draft")?, Val::EmptyList);
        stage.submit(rt, alloc, hands, command)?;
        fill_draft(rt, alloc, stage, hands)?;
        let command = Command::Assign(field(alloc, "form")?, Val::EmptyMap);
        stage.submit(rt, alloc, hands, command)?;
        fill_form(rt, alloc, stage, hands)?;
        stage.settle(rt, alloc, hands)?;
        show_screen(alloc, stage, hands, "draft")?;
        show_fields(alloc, stage, hands, "form")?;
    }
    Ok(())
}

fn fill_draft<N: EngineName, R: Wait>(
    rt: &R,
    alloc: Global,
    stage: &mut Stage<N>,
    hands: &mut Hands,
) -> Result<(), Refusal> {
    for after in 0..200 {
        insert(rt, alloc, stage, hands, "draft", after)?;
    }
    Ok(())
}

fn fill_form<N: EngineName, R: Wait>(
    rt: &R,
    alloc: Global,
    stage: &mut Stage<N>,
    hands: &mut Hands,
) -> Result<(), Refusal> {
    for _ in 0..40 {
        let name = numbered(alloc, "field-", hands.below(400))?;
        let place = field(alloc, "form")?.get(alloc, name.as_str())?;
        let value = drawn_value(alloc, hands)?;
        stage.submit(rt, alloc, hands, Command::Assign(place, value))?;
    }
    Ok(())
}
