// The bytes that a word of a row spells.

use std::alloc::{AllocError, Global};

/// The value of a hexadecimal digit, 0 for another byte.
fn digit(byte: u8) -> u8 {
    match byte {
        b'0'..=b'9' => byte - b'0',
        b'a'..=b'f' => byte - b'a' + 10,
        _ => 0,
    }
}

/// Adds a piece that is repeated, as `3*ab` says.
fn repeat(bytes: &mut Vec<u8>, repeated: &str) -> Result<(), AllocError> {
    let (count, piece) = repeated.split_once('*').unwrap_or(("0", ""));
    for _ in 0..count.parse::<u32>().unwrap_or(0) {
        bytes.extend_from_slice(piece.as_bytes())?;
    }
    Ok(())
}

/// Adds what stands behind a backslash: `n`, `r`, `t` or `x` with two digits for a byte, or `(3*ab)` for `ababab`; and
/// what follows it.
fn unescape(bytes: &mut Vec<u8>, escaped: &str) -> Result<(), AllocError> {
    let rest = match escaped.as_bytes() {
        [b'n', rest @ ..] => {
            bytes.push(b'\n')?;
            rest
        }
        [b'r', rest @ ..] => {
            bytes.push(b'\r')?;
            rest
        }
        [b't', rest @ ..] => {
            bytes.push(b'\t')?;
            rest
        }
        [b'x', high, low, rest @ ..] => {
            bytes.push((digit(*high) << 4) | digit(*low))?;
            rest
        }
        [b'(', ..] => {
            let (repeated, rest) = escaped.split_once(')').unwrap_or((escaped, ""));
            repeat(bytes, repeated.strip_prefix('(').unwrap_or(""))?;
            rest.as_bytes()
        }
        rest => rest,
    };
    bytes.extend_from_slice(rest)?;
    Ok(())
}

/// The bytes that a word spells: those of the word, but for what stands behind a backslash.
pub(crate) fn spelled(alloc: Global, word: &str) -> Result<Vec<u8>, AllocError> {
    let mut bytes = Vec::new(alloc);
    let (front, escaped) = word.split_once('\\').unwrap_or((word, ""));
    bytes.extend_from_slice(front.as_bytes())?;
    if !escaped.is_empty() {
        for part in escaped.split('\\') {
            unescape(&mut bytes, part)?;
        }
    }
    Ok(bytes)
}
