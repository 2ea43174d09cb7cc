// Lines of a journal's text, read as entries.

ghost use Rattle.std.specs.Prelude.{◌≡◌, ℕ, List, IfOk, IsTrue, Ok};
ghost use Rattle.fnc_journal.specs.declared.entry.Entry.{Entry};
ghost use Rattle.fnc_journal.specs.EntryBounds.{is_within};
ghost use Rattle.fnc_journal_reader.specs.Cuts.{words};
ghost use Rattle.fnc_journal_reader.specs.Entries as Entries;
ghost use Rattle.fnc_journal_reader.specs.Reads.{Gives};
ghost use Rattle.fnc_journal_reader.specs.Spells.{entry_in};
ghost use Rattle.fnc_journal_text.specs.Spelled.{line_of};
ghost use Rattle.fnc_journal_reader.specs.Typed.{IsTyped};

use crate::bounds::is_within;
use crate::cases::{
    read_answer, read_cause, read_check, read_exit, read_kind, read_phase, read_scope,
};
use crate::copied::is_spelled;
use crate::cuts::{rest, value, word};
use crate::fault::EntryFault;
use crate::read_lists::{read_base, read_map, read_names, read_owns, read_parameters};
use crate::values::{
    read_actions, read_allowed, read_cap, read_flag, read_optional, read_priority, read_target,
    read_text, read_u8, read_u32, read_u64,
};
use fnc_journal::{
    Boxed, Confirmation, Definition, Described, Description, Ended, Entry, Event, LevelCleared,
    LevelSet, Refusal, Reg, Registered, Registration, Reply, Req, Request, Run, Slot, Start,
};
use std::alloc::Global;

/// What the words of a line are read as.
fn read_words(alloc: Global, line: &[u8]) -> Result<Entry, EntryFault>
    ensures { Gives result (Entries.entry_of (words line.now)) }
{
    let moment = read_u64(word(line, 0))?;
    let event = read_event(alloc, word(line, 1), line)?;
    Ok(Entry { moment, event })
}

/// An event, by its verb.
fn read_event(alloc: Global, verb: &[u8], line: &[u8]) -> Result<Event, EntryFault>
    ensures { Gives result (Entries.event_of verb.now (words line.now)) }
{
    if verb == b"ask".as_slice() {
        read_ask(alloc, line)
    } else if verb == b"exit".as_slice() {
        read_exited(line)
    } else if verb == b"pass".as_slice() {
        Ok(Event::Pass)
    } else if verb == b"confirm".as_slice() {
        read_confirm(alloc, line)
    } else if verb == b"refused".as_slice() {
        read_refused(line)
    } else if verb == b"start".as_slice() {
        read_start(line)
    } else if verb == b"reply".as_slice() {
        read_reply(line)
    } else {
        read_configured(alloc, verb, line)
    }
}

/// An event that changes what is configured, by its verb.
fn read_configured(alloc: Global, verb: &[u8], line: &[u8]) -> Result<Event, EntryFault>
    ensures { Gives result (Entries.configured_of verb.now (words line.now)) }
{
    if verb == b"device".as_slice() {
        read_device(alloc, line)
    } else if verb == b"gone".as_slice() {
        read_gone(line)
    } else if verb == b"level".as_slice() {
        read_level(alloc, line)
    } else if verb == b"unlevel".as_slice() {
        read_level_gone(alloc, line)
    } else if verb == b"agent".as_slice() {
        read_agent(alloc, line)
    } else {
        Err(EntryFault::Malformed)
    }
}

fn read_device(alloc: Global, line: &[u8]) -> Result<Event, EntryFault>
    ensures { Gives result (Entries.device_of (words line.now)) }
{
    let reg = read_u32(word(line, 2))?;
    let name = read_text(alloc, word(line, 3))?;
    let agent = read_text(alloc, word(line, 4))?;
    let definition = read_definition(alloc, line)?;
    let registration = Registration {
        name,
        agent,
        definition,
    };
    Ok(Event::Device(Registered {
        reg: Reg(reg),
        registration: Boxed::new(alloc, registration)?,
    }))
}

fn read_definition(alloc: Global, line: &[u8]) -> Result<Definition, EntryFault>
    ensures { Gives result (Entries.definition_of (words line.now)) }
{
    let check = read_check(value(line, 6))?;
    let hosts = read_names(alloc, value(line, 7))?;
    let map = read_map(alloc, value(line, 8))?;
    let argument = read_optional(alloc, value(line, 9))?;
    let cap = read_cap(value(line, 10))?;
    let priority = read_priority(value(line, 11))?;
    let base = read_base(alloc, value(line, 12))?;
    let max = read_u64(value(line, 13))?;
    let keep = read_u64(value(line, 14))?;
    let on = read_allowed(alloc, value(line, 15))?;
    let off = read_allowed(alloc, value(line, 16))?;
    let reboot = read_allowed(alloc, value(line, 17))?;
    let list = read_allowed(alloc, value(line, 18))?;
    let status = read_allowed(alloc, value(line, 19))?;
    let own = read_owns(alloc, rest(line, 20))?;
    Ok(Definition {
        actions: read_actions(value(line, 5)),
        check,
        hosts,
        map,
        argument,
        cap,
        priority,
        base,
        max,
        keep,
        on,
        off,
        reboot,
        list,
        status,
        own,
    })
}

fn read_gone(line: &[u8]) -> Result<Event, EntryFault>
    ensures { Gives result (Entries.gone_of (words line.now)) }
{
    let reg = read_u32(word(line, 2))?;
    Ok(Event::Gone { reg: Reg(reg) })
}

fn read_level(alloc: Global, line: &[u8]) -> Result<Event, EntryFault>
    ensures { Gives result (Entries.level_of (words line.now)) }
{
    let index = read_u8(word(line, 2))?;
    let target = read_target(alloc, word(line, 3), word(line, 4))?;
    let devices = read_names(alloc, word(line, 5))?;
    Ok(Event::Level(LevelSet {
        target,
        index,
        devices,
    }))
}

fn read_level_gone(alloc: Global, line: &[u8]) -> Result<Event, EntryFault>
    ensures { Gives result (Entries.level_gone_of (words line.now)) }
{
    let index = read_u8(word(line, 2))?;
    let target = read_target(alloc, word(line, 3), word(line, 4))?;
    Ok(Event::LevelGone(LevelCleared { target, index }))
}

fn read_agent(alloc: Global, line: &[u8]) -> Result<Event, EntryFault>
    ensures { Gives result (Entries.agent_of (words line.now)) }
{
    let name = read_text(alloc, word(line, 2))?;
    let target = read_optional(alloc, value(line, 4))?;
    let parameters = read_parameters(alloc, rest(line, 5))?;
    let description = Description {
        actions: read_actions(value(line, 3)),
        parameters,
        target,
    };
    Ok(Event::Agent(Described {
        name,
        description: Boxed::new(alloc, description)?,
    }))
}

fn read_ask(alloc: Global, line: &[u8]) -> Result<Event, EntryFault>
    ensures { Gives result (Entries.ask_of (words line.now)) }
{
    let req = read_u32(word(line, 2))?;
    let lead = read_u32(word(line, 3))?;
    let client = read_text(alloc, word(line, 4))?;
    let kind = read_kind(word(line, 5))?;
    let target = read_text(alloc, word(line, 6))?;
    let total = read_u64(word(line, 7))?;
    let coin = read_u64(word(line, 8))?;
    let scope = read_scope(word(line, 9))?;
    let request = Request {
        req: Req(req),
        lead: Req(lead),
        client,
        kind,
        target,
        total,
        coin,
        scope,
    };
    Ok(Event::Ask(Boxed::new(alloc, request)?))
}

fn read_exited(line: &[u8]) -> Result<Event, EntryFault>
    ensures { Gives result (Entries.exited_of (words line.now)) }
{
    let run = read_u32(word(line, 2))?;
    let exit = read_exit(word(line, 3))?;
    Ok(Event::Exit(Ended {
        run: Run(run),
        exit,
        listed: read_flag(word(line, 4)),
    }))
}

fn read_confirm(alloc: Global, line: &[u8]) -> Result<Event, EntryFault>
    ensures { Gives result (Entries.confirm_of (words line.now)) }
{
    let client = read_text(alloc, word(line, 2))?;
    let target = read_text(alloc, word(line, 3))?;
    Ok(Event::Confirm(Confirmation { client, target }))
}

fn read_refused(line: &[u8]) -> Result<Event, EntryFault>
    ensures { Gives result (Entries.refused_of (words line.now)) }
{
    let number = read_u32(word(line, 2))?;
    let cause = read_cause(word(line, 3))?;
    Ok(Event::Refused(Refusal {
        line: number,
        cause,
    }))
}

fn read_start(line: &[u8]) -> Result<Event, EntryFault>
    ensures { Gives result (Entries.start_of (words line.now)) }
{
    let run = read_u32(word(line, 2))?;
    let req = read_u32(word(line, 3))?;
    let phase = read_phase(word(line, 4))?;
    let level = read_u8(word(line, 5))?;
    let place = read_u8(word(line, 6))?;
    let reg = read_u32(word(line, 7))?;
    let kind = read_kind(word(line, 8))?;
    let attempt = read_u8(word(line, 9))?;
    Ok(Event::Start(Start {
        run: Run(run),
        req: Req(req),
        slot: Slot {
            phase,
            level,
            place,
        },
        reg: Reg(reg),
        kind,
        attempt,
    }))
}

fn read_reply(line: &[u8]) -> Result<Event, EntryFault>
    ensures { Gives result (Entries.reply_of (words line.now)) }
{
    let req = read_u32(word(line, 2))?;
    let answer = read_answer(word(line, 3), word(line, 4))?;
    Ok(Event::Reply(Reply {
        req: Req(req),
        answer,
    }))
}

/// Reads a line of a journal's text. Each entry within the bounds is read from its line, and no other
/// line is read.
pub fn read_entry(alloc: Global, line: &[u8]) -> Result<Entry, EntryFault>
    ensures spelled { IfOk result (λ e. (line_of e ≡ line.now) × IsTrue (is_within e)) }
    ensures typed { IfOk result IsTyped }
    ensures back { (e : Entry) → IsTyped e → IsTrue (is_within e) → line_of e ≡ line.now → Gives result (Ok e) }
    ensures reads { Gives result (entry_in line.now) }
{
    let entry = read_words(alloc, line)?;
    if !is_within(&entry) {
        return Err(EntryFault::Malformed);
    }
    if !is_spelled(alloc, &entry, line)? {
        return Err(EntryFault::Malformed);
    }
    Ok(entry)
}

/// No two entries within the bounds have the same line.
pub fn spelled_once()
    ensures { (d e : Entry) → IsTyped d → IsTrue (is_within d) → IsTyped e → IsTrue (is_within e)
        → line_of d ≡ line_of e → d ≡ e }
{}

/// A line is read as an entry exactly where it is the line of that entry, within the bounds.
pub fn reads_spelling()
    ensures read { (e : Entry) → IsTyped e → IsTrue (is_within e) → entry_in (line_of e) ≡ Ok e }
    ensures spelled { (line : List ℕ) (e : Entry) → entry_in line ≡ Ok e
        → IsTyped e × IsTrue (is_within e) × (line_of e ≡ line) }
{}
