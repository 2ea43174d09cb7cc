// Bytes as they are shown.

use fnc_journal::NoMemory;
use std::alloc::Global;
use std::str;

/// The most bytes that are shown as they are.
const MOST: usize = 256;

/// The text of bytes, or how many they are where they are many.
pub(crate) fn shown(alloc: Global, bytes: &[u8]) -> Result<String, NoMemory> {
    if bytes.len() > MOST {
        return Ok(format!(in alloc; "{} bytes", bytes.len())?);
    }
    Ok(String::from_str(alloc, str::from_utf8(bytes).unwrap_or("no text"))?)
}
