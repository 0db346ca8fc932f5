//! Modules, and what is said of them: each is checked, and where the answer is yes, its derivation
//! is replayed.

use crate::place::Place;
use std::alloc::{AllocError, Global};

/// More pieces than a tower has.
const MOST: u32 = 1000;

/// A place with the module of these definitions.
fn place_with(alloc: Global, defs: &str) -> Result<Place, AllocError> {
    let file = format!(in alloc; "M.ctt\nmodule M where\n{defs}\n")?;
    let mut place = Place::new(alloc)?;
    place.put(file.as_str())?;
    Ok(place)
}

/// What a replay says of the derivation of the module, without the number of its rows.
fn replayed(alloc: Global, place: &mut Place) -> Result<String, AllocError> {
    let said = place.printed(alloc, "replay M.drv --of M")?;
    let said = said.as_str().trim_end();
    let roots = said.split_once(", ").map_or(said, |(_rows, roots)| roots);
    String::from_str(alloc, roots)
}

/// What a check says of the module with these definitions, its lines as one, and, of a yes, how
/// many roots a replay finds.
pub(crate) fn checked(alloc: Global, defs: &str) -> Result<String, AllocError> {
    let mut place = place_with(alloc, defs)?;
    let said = place.printed(alloc, "check M")?;
    let said = said.as_str().trim_end();
    if !said.starts_with("yes") {
        return said.replace(alloc, "\n", "; ");
    }
    let roots = replayed(alloc, &mut place)?;
    format!(in alloc; "{said}, {roots}")
}

/// Appends a piece in which `$` is a number, and `%` the one before it.
fn push_numbered(
    alloc: Global,
    text: &mut String,
    piece: &str,
    number: u32,
) -> Result<(), AllocError> {
    let before = number.saturating_sub(1);
    for letter in piece.chars() {
        match letter {
            '$' => text.push_str(format!(in alloc; "{number}")?.as_str())?,
            '%' => text.push_str(format!(in alloc; "{before}")?.as_str())?,
            _ => text.push(letter)?,
        }
    }
    Ok(())
}

/// The text of an input `COUNT BEFORE|PIECE`: what comes before, and the piece for each number from
/// 1 on below the count.
pub(crate) fn tower(alloc: Global, input: &str) -> Result<String, AllocError> {
    let (count, pieces) = input.split_once(" ").unwrap_or((input, ""));
    let count = count.parse::<u32>().unwrap_or(0).min(MOST);
    let (before, piece) = pieces.split_once("|").unwrap_or((pieces, ""));
    let mut text = String::from_str(alloc, before)?;
    for number in 1..count {
        push_numbered(alloc, &mut text, piece, number)?;
    }
    Ok(text)
}
