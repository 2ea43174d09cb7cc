// Lines from a reader.

ghost use Rattle.std.specs.Prelude.{◌≡◌, ◌≢◌, ◌<◌, ◌↔◌, ◌==◌, ◌||◌, ℕ, [], length, position, nat_lt};
ghost use Rattle.std.specs.Prelude.{if◌then◌else◌, None, false, IfOk, IfSome, IsTrue};
ghost use Rattle.std.specs.Bool.{OnTrue, OnFalse};
ghost use Rattle.fnc_outside.specs.Faults.{NeverFalls, one_more};
ghost use Rattle.fnc_outside.specs.Polls.{IsPolled, given_by, Leaves, HasCause};
ghost use Rattle.fnc_outside.specs.Told.{Gains};

use fnc_journal::NoMemory;
use fnc_outside::{LineBuf, Polled, Source};
use std::alloc::Global;
use std::io::{ErrorKind, Read};
use std::marker::Model;

/// The longest line, in bytes, that is kept. A longer one is too long, whatever the buffer for it.
const LONGEST: usize = 65_536;

/// The most bytes that are read at a time.
const READ: usize = 65_536;

/// A source over a reader. Before each read, which may wait, it answers `Again`.
#[derive(Drop)]
pub struct StreamSource<R: Read + Drop> {
    reader: R,
    // what was read and not yet given lies from `start` to `end`
    bytes: Vec<u8>,
    start: usize,
    end: usize,
    // the front of the next line was given up, since it is too long
    is_cut: bool,
    // the reader has come to its end
    is_over: bool,
    // the last answer was `Again`
    reads_next: bool,
    faults: u64,
}

impl<R: Read + Drop> Model for StreamSource<R> {
    ghost use Rattle.std.specs.Prelude.{◌≤◌, ◌<◌, ◌^◌, vec_len};
    ghost use Rattle.fnc_streams.specs.Streamed.{Reading};

    ghost Value = { Reading };

    ghost view = { λ s. record {
      reads_next = s.reads_next;
      left_to_read = R.remaining s.reader;
      faults = s.faults;
    } };

    ghost invariant = { λ s. (s.start ≤ s.end) × (s.end ≤ vec_len s.bytes) × (s.faults < 2 ^ 64) };
}

/// The place of the first line feed.
fn line_feed(bytes: &[u8]) -> Option<usize>
    ensures first { result ≡ position (λ byte. byte == 10) bytes.now }
    ensures within { IfSome result (λ at. at < length bytes.now) }
{
    bytes.iter().position(|byte| *byte == b'\n')
}

/// Puts a line into the buffer, unless it is too long. Its front was given up where it is cut.
fn give(text: &[u8], is_cut: bool, line: &mut LineBuf) -> Polled
    requires empty { line.old.bytes ≡ [] }
    ensures answer { result
        ≡ (if is_cut || nat_lt line.old.size (length text.now) then Polled.TooLong else Polled.Line) }
    ensures line { result ≡ Polled.Line → line.new.bytes ≡ text.now }
    ensures size { line.new.size ≡ line.old.size }
    ensures buffer { IsPolled result line.new }
    // it never fails, so it needs no cause
    ensures cause { (before after : ℕ) → HasCause result before after }
{
    if !is_cut && line.append(text) {
        let _fits = line.bytes();
        Polled::Line
    } else {
        Polled::TooLong
    }
}

impl<R: Read + Drop> StreamSource<R> {
    /// A source over this reader, with the memory for the longest line and for what is read.
    pub fn new(alloc: Global, reader: R) -> Result<StreamSource<R>, NoMemory>
        ensures { IfOk result (λ s. s ≡ record { reads_next = false; left_to_read = R.remaining reader; faults = 0 }) }
    {
        Ok(StreamSource {
            reader,
            bytes: vec![in alloc; 0; LONGEST + READ]?,
            start: 0,
            end: 0,
            is_cut: false,
            is_over: false,
            reads_next: false,
            faults: 0,
        })
    }

    /// Moves what is not yet given to the front. Where that is the front of a line that is too long, it
    /// is given up.
    fn make_room(&mut self)
        ensures { self.new ≡ self.old }
    {
        if self.end - self.start > LONGEST {
            self.is_cut = true;
            self.end = 0;
        } else {
            self.bytes
                .as_mut_slice()
                .copy_within(self.start..self.end, 0);
            self.end -= self.start;
        }
        self.start = 0;
    }

    /// Reads once. False where the read failed.
    fn read_more(&mut self) -> bool
        ensures reads_next { self.new.reads_next ≡ self.old.reads_next }
        ensures works { OnTrue result (self.new.faults ≡ self.old.faults) }
        ensures fails { OnFalse result (self.new.faults ≡ one_more self.old.faults) }
    {
        self.make_room();
        let room = &mut self.bytes.as_mut_slice()[self.end..];
        let most = room.len().min(READ);
        match self.reader.read(&mut room[..most]) {
            Ok(0) => self.is_over = true,
            Ok(count) => self.end += count,
            Err(error) => {
                if error.kind() != ErrorKind::Interrupted {
                    self.faults = self.faults.saturating_add(1);
                    return false;
                }
            }
        }
        true
    }

    /// Gives the next line of what was read. Where there is none, the next poll reads, or all was read.
    fn next_line(&mut self, line: &mut LineBuf) -> Polled
        requires empty { line.old.bytes ≡ [] }
        requires first { self.old.reads_next ≡ false }
        ensures size { line.new.size ≡ line.old.size }
        ensures buffer { IsPolled result line.new }
        ensures works { result ≢ Polled.Failed }
        ensures again { IsTrue self.new.reads_next ↔ (result ≡ Polled.Again) }
        ensures unread { self.new.left_to_read ≡ self.old.left_to_read }
        ensures faults { self.new.faults ≡ self.old.faults }
    {
        let unread = &self.bytes.as_slice()[self.start..self.end];
        if let Some(length) = line_feed(unread) {
            let polled = give(&unread[..length], self.is_cut, line);
            self.start += length + 1;
            self.is_cut = false;
            return polled;
        }
        if !self.is_over {
            self.reads_next = true;
            return Polled::Again;
        }
        if unread.is_empty() && !self.is_cut {
            return Polled::End;
        }
        let polled = give(unread, self.is_cut, line);
        self.start = self.end;
        self.is_cut = false;
        polled
    }
}

impl<R: Read + Drop> Source for StreamSource<R> {
    ghost left = { λ _. None };

    ghost given = { λ _. None };

    ghost faults = { λ s. s.faults };

    fn poll(&mut self, line: &mut LineBuf) -> Polled
        requires empty { line.old.bytes ≡ [] }
        ensures size { line.new.size ≡ line.old.size }
        ensures buffer { IsPolled result line.new }
        ensures leaves { Leaves result line.new None None }
        ensures gives { Gains None None (given_by result line.new) }
        ensures count { NeverFalls self.old.faults self.new.faults }
        ensures cause { HasCause result self.old.faults self.new.faults }
        // a poll reads only where the answer before it was `Again`, and only then can it fail
        ensures again { IsTrue self.new.reads_next ↔ (result ≡ Polled.Again) }
        ensures unread { self.old.reads_next ≡ false → self.new.left_to_read ≡ self.old.left_to_read }
        ensures fails { result ≡ Polled.Failed → IsTrue self.old.reads_next }
    {
        if self.reads_next {
            self.reads_next = false;
            if !self.read_more() {
                return Polled::Failed;
            }
        }
        self.next_line(line)
    }
}
