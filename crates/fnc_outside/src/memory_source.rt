// A source that gives the lines of a text in memory, for tests.

ghost use Rattle.std.specs.Prelude.{◌≡◌, ◌≢◌, ◌≤◌, ◌↔◌, ◌==◌, ◌++◌, [], Some, IfOk, IsTrue, length, count_by};
ghost use Rattle.std.specs.Prelude.{if◌then◌else◌};
ghost use Rattle.fnc_outside.specs.Faults.{NeverFalls, one_more};
ghost use Rattle.fnc_outside.specs.Lines as Lines;
ghost use Rattle.fnc_outside.specs.Polls.{IsPolled, given_by, Leaves, HasCause, Takes};
ghost use Rattle.fnc_outside.specs.Remembered.{events_of, is_failing};
ghost use Rattle.fnc_outside.specs.Told.{Gains};

use crate::line_buf::LineBuf;
use crate::numbers::lists;
use crate::source::{Polled, Source};
use fnc_journal::NoMemory;
use std::alloc::Global;
use std::marker::Model;

/// What was taken from the text: a line, by its place, or a line that was too long for a buffer.
#[derive(Clone, Copy, Debug)]
enum Taken {
    Line { start: usize, length: usize },
    TooLong { size: u32 },
}

/// The lines of a text, one a poll. Of a line that was too long it keeps the size of the buffer.
#[derive(Debug, Drop)]
pub struct MemorySource {
    bytes: Vec<u8>,
    at: usize,
    taken: Vec<Taken>,
    polls: u64,
    failing: Vec<u32>,
    faults: u64,
}

impl Model for MemorySource {
    ghost use Rattle.std.specs.Prelude.{◌≤◌, ◌+◌, vec_len, vec_capacity, length, map, drop};
    ghost use Rattle.fnc_outside.specs.Lines.{lines_of};
    ghost use Rattle.fnc_outside.specs.Remembered.{Remembered, events_of, happening_of};

    ghost Value = { Remembered };

    ghost view = { λ s. record {
      given = map (happening_of s.bytes.items) s.taken.items;
      left = events_of (drop s.at s.bytes.items);
      polls = s.polls;
      failing = s.failing.items;
      faults = s.faults;
    } };

    ghost invariant = { λ s.
        (s.at ≤ vec_len s.bytes + 1)
        × (vec_len s.taken + length (lines_of (drop s.at s.bytes.items)) ≤ vec_capacity s.taken) };
}

/// How many bytes stand before the first line feed.
fn line_length(text: &[u8]) -> usize
    ensures length { result ≡ Lines.line_length text.now }
    ensures within { result ≤ length text.now }
{
    for (i, byte) in text.iter().enumerate() {
        if *byte == b'\n' {
            return i;
        }
    }
    text.len()
}

/// How many line feeds a text has.
fn line_feeds(text: &[u8]) -> usize
    ensures count { result ≡ count_by (λ byte. byte == 10) text.now }
    ensures within { result ≤ length text.now }
{
    text.iter().filter(|byte| **byte == b'\n').count()
}

impl MemorySource {
    /// The lines of these bytes. The polls whose numbers are listed, from 0, fail.
    pub fn new(alloc: Global, bytes: &[u8], failing: &[u32]) -> Result<MemorySource, NoMemory>
        ensures given { IfOk result (λ s. s.given ≡ []) }
        ensures left { IfOk result (λ s. s.left ≡ events_of bytes.now) }
        ensures polls { IfOk result (λ s. s.polls ≡ 0) }
        ensures failing { IfOk result (λ s. s.failing ≡ failing.now) }
        ensures faults { IfOk result (λ s. s.faults ≡ 0) }
    {
        Ok(MemorySource {
            bytes: Vec::from_slice(alloc, bytes)?,
            at: 0,
            taken: Vec::with_capacity(alloc, line_feeds(bytes) + 1)?,
            polls: 0,
            failing: Vec::from_slice(alloc, failing)?,
            faults: 0,
        })
    }

    /// Takes the next line, which goes into the buffer where it fits.
    fn take_line(&mut self, line: &mut LineBuf) -> Polled
        requires empty { line.old.bytes ≡ [] }
        ensures size { line.new.size ≡ line.old.size }
        ensures buffer { IsPolled result line.new }
        ensures takes { Takes result line.new self.old.left self.new.left }
        ensures gives { self.new.given ≡ self.old.given ++ given_by result line.new }
        ensures polls { self.new.polls ≡ self.old.polls }
        ensures failing { self.new.failing ≡ self.old.failing }
        ensures faults { self.new.faults ≡ self.old.faults }
        ensures works { result ≢ Polled.Failed }
    {
        if self.at >= self.bytes.len() {
            return Polled::End;
        }
        let rest = &self.bytes.as_slice()[self.at..];
        let length = line_length(rest);
        if line.append(&rest[..length]) {
            let start = self.at;
            let _ = self.taken.push(Taken::Line { start, length });
            self.at += length + 1;
            Polled::Line
        } else {
            let size = line.size();
            let _ = self.taken.push(Taken::TooLong { size });
            self.at += length + 1;
            Polled::TooLong
        }
    }
}

impl Source for MemorySource {
    ghost left = { λ s. Some s.left };

    ghost given = { λ s. Some s.given };

    ghost faults = { λ s. s.faults };

    fn poll(&mut self, line: &mut LineBuf) -> Polled
        requires empty { line.old.bytes ≡ [] }
        ensures size { line.new.size ≡ line.old.size }
        ensures buffer { IsPolled result line.new }
        ensures leaves { Leaves result line.new (Some self.old.left) (Some self.new.left) }
        ensures gives { Gains (Some self.old.given) (Some self.new.given) (given_by result line.new) }
        ensures count { NeverFalls self.old.faults self.new.faults }
        ensures cause { HasCause result self.old.faults self.new.faults }
        // a poll fails exactly where its number is listed
        ensures fails { (result ≡ Polled.Failed) ↔ IsTrue (is_failing self.old) }
        ensures faults { self.new.faults ≡ (if is_failing self.old then one_more self.old.faults else self.old.faults) }
        ensures polls { self.new.polls ≡ one_more self.old.polls }
        ensures failing { self.new.failing ≡ self.old.failing }
    {
        let fails = lists(self.failing.as_slice(), self.polls);
        self.polls = self.polls.saturating_add(1);
        if fails {
            self.faults = self.faults.saturating_add(1);
            return Polled::Failed;
        }
        self.take_line(line)
    }
}
