// What a table of the index keeps under a number that is past its room.

/// A number, and the index that stands under it.
#[derive(Clone, Copy, Debug)]
pub(crate) struct Stray {
    pub number: u32,
    pub index: u32,
}
