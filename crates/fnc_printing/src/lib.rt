// Texts in pieces: words, numbers and escaped texts, written to a sink one after another. One set says which bytes are
// escaped.
#![tactic(auto)]

mod piece;

pub use piece::{ESCAPED, Piece, print_piece, print_pieces};
