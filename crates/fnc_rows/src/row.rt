// A row of a table.

use crate::spelling::spelled;
use std::alloc::{AllocError, Global};
use std::str;

/// A row of a table. Its first word says what is looked at, and the others in what.
#[derive(Drop)]
pub struct Row {
    words: Vec<Vec<u8>>,
}

impl Row {
    /// The row that a line spells: words between bars, `|`, with the escapes `\n`, `\r`, `\t` and `\xff` for bytes
    /// and `\(3*ab)` for `ababab`.
    pub fn read(alloc: Global, line: &str) -> Result<Row, AllocError> {
        let mut words = Vec::new(alloc);
        for word in line.split('|') {
            words.push(spelled(alloc, word)?)?;
        }
        Ok(Row { words })
    }

    /// How many words it has.
    pub fn len(&self) -> usize {
        self.words.len()
    }

    /// The bytes of a word, none where the row has no such word.
    pub fn bytes(&self, place: usize) -> &[u8] {
        match self.words.get(place) {
            Some(word) => word.as_slice(),
            None => &[],
        }
    }

    /// The text of a word, empty where it is no text.
    pub fn text(&self, place: usize) -> &str {
        str::from_utf8(self.bytes(place)).unwrap_or("")
    }

    /// The number that a word spells, 0 where it spells none.
    pub fn number(&self, place: usize) -> u64 {
        self.text(place).parse::<u64>().unwrap_or(0)
    }

    /// The number of up to 32 bits that a word spells, 0 where it spells none.
    pub fn number32(&self, place: usize) -> u32 {
        self.text(place).parse::<u32>().unwrap_or(0)
    }

    /// The numbers that a word lists, with commas between.
    pub fn numbers(&self, alloc: Global, place: usize) -> Result<Vec<u32>, AllocError> {
        let mut numbers = Vec::new(alloc);
        for part in self.text(place).split(',') {
            if let Ok(number) = part.parse::<u32>() {
                numbers.push(number)?;
            }
        }
        Ok(numbers)
    }
}
