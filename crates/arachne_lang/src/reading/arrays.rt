//! Parses the lines of a program's text that define its arrays.
ghost use Rattle.std.specs.Prelude.{[], map};
ghost use Rattle.arachne_lang.specs.Reading.{Gives, items_at, arrays_at};

use super::numbers::figures;
use super::stop::Stop;
use super::words::word;
use std::alloc::Global;

/// Parses the array lines at the front of `text`, and returns the text after them with the arrays.
pub fn array_lines(alloc: Global, text: &[u8]) -> Result<(Vec<Vec<u64>>, &[u8]), Stop<'_>>
    ensures { Gives (λ read. (map (λ array. array.items) read.0.items, read.1.now)) result (arrays_at [] text.now) }
{
    let mut arrays = Vec::new(alloc);
    let mut rest = text;
    while let [b'a', ..] = rest {
        let behind = word(rest, b"array")?;
        let (array, behind) = items(alloc, behind)?;
        arrays.push(array)?;
        rest = behind;
    }
    Ok((arrays, rest))
}

/// Parses one array's items up to the end of the line, and returns the text after it with them.
fn items(alloc: Global, text: &[u8]) -> Result<(Vec<u64>, &[u8]), Stop<'_>>
    ensures { Gives (λ read. (read.0.items, read.1.now)) result (items_at [] text.now) }
{
    let mut items = Vec::new(alloc);
    let mut rest = text;
    while let [b' ', behind @ ..] = rest {
        let (item, behind) = figures(u64::MAX, behind)?;
        items.push(item)?;
        rest = behind;
    }
    let rest = word(rest, b"\n")?;
    Ok((items, rest))
}
