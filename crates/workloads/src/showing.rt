//! What an application shows: a place, a screen, or the whole document.

use crate::draws::Hands;
use crate::places::{field, item};
use crate::stage::Stage;
use engine::{EngineName, Expr, Key, Question, Reading, Refusal};
use std::alloc::Global;
use std::sync::Wait;

/// How many items are on a screen.
const SCREEN: u32 = 50;

/// Adds a reading to the digest, and returns it.
fn noted(alloc: Global, hands: &mut Hands, reading: Reading) -> Result<Reading, Refusal> {
    hands.digest.reading(alloc, &reading)?;
    Ok(reading)
}

/// Asks for the values at a place.
fn show_values<N: EngineName>(
    alloc: Global,
    stage: &mut Stage<N>,
    hands: &mut Hands,
    place: Expr,
) -> Result<(), Refusal> {
    let reading = stage.reader.ask(alloc, &Question::Values(place))?;
    match noted(alloc, hands, reading)? {
        Reading::Values(_) => Ok(()),
        _ => Err(Refusal::NoReading),
    }
}

/// How many items the list at the place has.
pub fn count_items<N: EngineName>(
    alloc: Global,
    stage: &mut Stage<N>,
    hands: &mut Hands,
    place: Expr,
) -> Result<u32, Refusal> {
    let reading = stage.reader.ask(alloc, &Question::Items(place))?;
    match noted(alloc, hands, reading)? {
        Reading::Items(items) => Ok(u32::try_from(items.len()).unwrap_or(u32::MAX)),
        _ => Err(Refusal::NoReading),
    }
}

/// The keys of the map at the place.
fn keys_at<N: EngineName>(
    alloc: Global,
    stage: &mut Stage<N>,
    hands: &mut Hands,
    place: Expr,
) -> Result<Vec<Key>, Refusal> {
    let reading = stage.reader.ask(alloc, &Question::Keys(place))?;
    match noted(alloc, hands, reading)? {
        Reading::Keys(keys) => Ok(keys),
        _ => Err(Refusal::NoReading),
    }
}

/// The items of a list at a field of the root that are on the screen, with their values.
pub fn show_screen<N: EngineName>(
    alloc: Global,
    stage: &mut Stage<N>,
    hands: &mut Hands,
    name: &str,
) -> Result<u32, Refusal> {
    let length = count_items(alloc, stage, hands, field(alloc, name)?)?;
    for index in 0..length.min(SCREEN) {
        show_values(
            alloc,
            stage,
            hands,
            item(alloc, name, index.saturating_add(1))?,
        )?;
    }
    Ok(length)
}

/// The fields of a map at a field of the root, with their values.
pub fn show_fields<N: EngineName>(
    alloc: Global,
    stage: &mut Stage<N>,
    hands: &mut Hands,
    name: &str,
) -> Result<(), Refusal> {
    let keys = keys_at(alloc, stage, hands, field(alloc, name)?)?;
    for key in &keys {
        show_values(
            alloc,
            stage,
            hands,
            field(alloc, name)?.get(alloc, key.as_str())?,
        )?;
    }
    Ok(())
}

/// Shows the whole document, place by place: at each its values, the items of its list, and the keys of its map.
pub fn show_all<N: EngineName, R: Wait>(
    rt: &R,
    alloc: Global,
    stage: &mut Stage<N>,
    hands: &mut Hands,
) -> Result<(), Refusal> {
    let mut places = Vec::new(alloc);
    places.push(Expr::root(alloc))?;
    for _ in rt.forever() {
        let Some(place) = places.pop() else {
            break;
        };
        show_at(alloc, stage, hands, &place, &mut places)?;
    }
    Ok(())
}

/// Shows what is at a place, and appends the places beneath it to the others.
fn show_at<N: EngineName>(
    alloc: Global,
    stage: &mut Stage<N>,
    hands: &mut Hands,
    place: &Expr,
    places: &mut Vec<Expr>,
) -> Result<(), Refusal> {
    let length = count_items(alloc, stage, hands, place.clone()?)?;
    push_items(places, place, length)?;
    let keys = keys_at(alloc, stage, hands, place.clone()?)?;
    push_fields(alloc, places, place, keys.as_slice())?;
    show_values(alloc, stage, hands, place.clone()?)
}

fn push_items(places: &mut Vec<Expr>, place: &Expr, length: u32) -> Result<(), Refusal> {
    for index in 0..length {
        let below = place.clone()?.idx(u64::from(index).saturating_add(1))?;
        places.push(below)?;
    }
    Ok(())
}

fn push_fields(
    alloc: Global,
    places: &mut Vec<Expr>,
    place: &Expr,
    keys: &[Key],
) -> Result<(), Refusal> {
    for key in keys {
        let below = place.clone()?.get(alloc, key.as_str())?;
        places.push(below)?;
    }
    Ok(())
}
