// A text in pieces: words, numbers and escaped texts, written one after another.

ghost use Rattle.std.specs.Prelude.{◌≤◌, OnOk, OnErr};
ghost use Rattle.fnc_outside.specs.Faults.{Rose};
ghost use Rattle.fnc_outside.specs.Told.{Gains};
ghost use Rattle.fnc_outside.specs.Writes.{AppendsPart};
ghost use Rattle.fnc_journal.specs.Line as Line;
ghost use Rattle.fnc_printing.specs.Printed.{piece_text, pieces_text};

use fnc_outside::{Sink, SinkFailed};
use itoa::Buffer;
use percent_encoding::{AsciiSet, NON_ALPHANUMERIC, ascii_set, percent_encode};

/// The ASCII bytes that do not stand for themselves in an escaped text: all but letters, digits and four marks,
/// which are the unreserved characters of RFC 3986.
pub const ESCAPED: AsciiSet = ascii_set!(
    NON_ALPHANUMERIC
        .remove(b'-')
        .remove(b'.')
        .remove(b'_')
        .remove(b'~')
);

/// A piece of a text: a word as it stands, a number in decimal digits, with a sign where it has one, or a text escaped.
#[derive(Clone, Copy)]
pub enum Piece<'a> {
    Word(&'a str),
    Number(u64),
    Signed(i32),
    Name(&'a str),
}

/// Writes a text escaped.
fn print_name<K: Sink>(name: &[u8], sink: &mut K) -> Result<(), SinkFailed>
    ensures ok { OnOk result (Gains (K.held sink.old) (K.held sink.new) (Line.escaped name.now)) }
    ensures err { OnErr result (AppendsPart (K.held sink.old) (K.held sink.new) (Line.escaped name.now)) }
    ensures count { K.faults sink.old ≤ K.faults sink.new }
    ensures cause { OnErr result (Rose (K.faults sink.old) (K.faults sink.new)) }
{
    for part in percent_encode(name, ESCAPED) {
        sink.write(part.as_bytes())?;
    }
    Ok(())
}

/// Writes a piece. Where a write fails a part from the front of what is printed of it was written.
pub fn print_piece<K: Sink>(piece: &Piece<'_>, sink: &mut K) -> Result<(), SinkFailed>
    ensures ok { OnOk result (Gains (K.held sink.old) (K.held sink.new) (piece_text piece.now)) }
    ensures err { OnErr result (AppendsPart (K.held sink.old) (K.held sink.new) (piece_text piece.now)) }
    ensures count { K.faults sink.old ≤ K.faults sink.new }
    ensures cause { OnErr result (Rose (K.faults sink.old) (K.faults sink.new)) }
{
    match piece {
        Piece::Word(word) => sink.write(word.as_bytes()),
        Piece::Number(number) => sink.write(Buffer::new().format(*number).as_bytes()),
        Piece::Signed(number) => sink.write(Buffer::new().format(*number).as_bytes()),
        Piece::Name(name) => print_name(name.as_bytes(), sink),
    }
}

/// Writes pieces one after another, and stops at a write that fails.
pub fn print_pieces<K: Sink>(pieces: &[Piece<'_>], sink: &mut K) -> Result<(), SinkFailed>
    ensures ok { OnOk result (Gains (K.held sink.old) (K.held sink.new) (pieces_text pieces.now)) }
    ensures err { OnErr result (AppendsPart (K.held sink.old) (K.held sink.new) (pieces_text pieces.now)) }
    ensures count { K.faults sink.old ≤ K.faults sink.new }
    ensures cause { OnErr result (Rose (K.faults sink.old) (K.faults sink.new)) }
{
    for piece in pieces {
        print_piece(piece, sink)?;
    }
    Ok(())
}
