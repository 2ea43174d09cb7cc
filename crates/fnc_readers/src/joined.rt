// Names and options as one text, and options of a row.

use fnc_journal::{NoMemory, Pair, Pairs, Text};
use fnc_rows::Row;
use std::alloc::Global;

/// Names with a stroke after each.
pub(crate) fn joined(alloc: Global, names: &[Text]) -> Result<String, NoMemory> {
    let mut text = String::new(alloc);
    for name in names {
        text.push_str(name.as_str())?;
        text.push_str("/")?;
    }
    Ok(text)
}

/// Names with their values, and a stroke after each.
pub(crate) fn joined_pairs(alloc: Global, pairs: &[Pair]) -> Result<String, NoMemory> {
    let mut text = String::new(alloc);
    for pair in pairs {
        text.push_str(pair.name.as_str())?;
        text.push_str("=")?;
        text.push_str(pair.value.as_str())?;
        text.push_str("/")?;
    }
    Ok(text)
}

/// The names and values of a row, in turn from a place on.
pub(crate) fn pairs(alloc: Global, row: &Row, from: usize) -> Result<Pairs, NoMemory> {
    let mut pairs = Pairs::new(alloc);
    for place in from..row.len() {
        if (place - from) % 2 == 0 {
            pairs.push(Pair {
                name: Text::new(alloc, row.text(place))?,
                value: Text::new(alloc, row.text(place + 1))?,
            })?;
        }
    }
    Ok(pairs)
}
