// Lines of input: what each says, or the cause why it says nothing.

use crate::joined::{joined, joined_pairs};
use fnc_command::{Command, ExitRead, Mode, Read, read_command, read_exit};
use fnc_journal::{Cause, LevelTarget, Names, NoMemory, Pairs};
use fnc_outside::LineBuf;
use fnc_rows::Row;
use std::alloc::Global;

/// What is said of a row: `timed|LINE` or `live|LINE` by its mode, `long|LINE` in the mode live of its length or its
/// cause, and `exit|LINE`, which is looked at for an exit alone.
pub(crate) fn say(alloc: Global, row: &Row) -> Result<String, NoMemory> {
    match row.text(0) {
        "timed" => said(alloc, row.bytes(1), Mode::Timed),
        "live" => said(alloc, row.bytes(1), Mode::Live),
        "long" => long(alloc, row.bytes(1)),
        _ => exit(alloc, row.bytes(1)),
    }
}

/// A target, with a mark before a pattern.
fn target(alloc: Global, target: &LevelTarget) -> Result<String, NoMemory> {
    Ok(match target {
        LevelTarget::Name(name) => String::from_str(alloc, name.as_str())?,
        LevelTarget::Pattern(text) => format!(in alloc; "~{}", text.as_str())?,
    })
}

/// What is said of a device.
fn device(
    alloc: Global,
    name: &str,
    agent: Option<&str>,
    options: &Pairs,
) -> Result<String, NoMemory> {
    let options = joined_pairs(alloc, options.as_slice())?;
    Ok(format!(in alloc; "device {name} {agent:?} {options}")?)
}

/// What is said of a level.
fn level(alloc: Global, index: u64, of: &LevelTarget, devices: &Names) -> Result<String, NoMemory> {
    let devices = joined(alloc, devices.as_slice())?;
    let target = target(alloc, of)?;
    Ok(format!(in alloc; "level {index} {target} {devices}")?)
}

/// What is said of a level that is taken away.
fn unlevel(alloc: Global, index: u64, of: &LevelTarget) -> Result<String, NoMemory> {
    let target = target(alloc, of)?;
    Ok(format!(in alloc; "unlevel {index} {target}")?)
}

fn remove(alloc: Global, name: &str) -> Result<String, NoMemory> {
    Ok(format!(in alloc; "remove {name}")?)
}

/// What a command says, word by word.
fn told(alloc: Global, command: &Command) -> Result<String, NoMemory> {
    match command {
        Command::Device {
            name,
            agent,
            options,
        } => device(
            alloc,
            name.as_str(),
            agent.as_ref().map(|a| a.as_str()),
            options,
        ),
        Command::Remove { name } => remove(alloc, name.as_str()),
        Command::Level {
            target,
            index,
            devices,
        } => level(alloc, *index, target, devices),
        Command::Unlevel { target, index } => unlevel(alloc, *index, target),
        _ => told_of_requests(alloc, command),
    }
}

/// What another command says, word by word.
fn told_of_requests(alloc: Global, command: &Command) -> Result<String, NoMemory> {
    Ok(match command {
        Command::Agent { name, json } => {
            format!(in alloc; "agent {} {:?}", name.as_str(), json.as_slice())?
        }
        Command::Ask {
            client,
            kind,
            target,
            total,
            coin,
        } => {
            let (client, target) = (client.as_str(), target.as_str());
            format!(in alloc; "ask {client} {kind:?} {target} {total} {coin:?}")?
        }
        Command::Exit { run, exit, output } => {
            format!(in alloc; "exit {} {exit:?} {:?}", run.0, output.as_slice())?
        }
        Command::Confirm { client, target } => {
            format!(in alloc; "confirm {} {}", client.as_str(), target.as_str())?
        }
        _ => String::from_str(alloc, "pass")?,
    })
}

/// What a line that was read says: its moment, and the words of its command.
fn told_at(alloc: Global, read: &Read) -> Result<String, NoMemory> {
    let command = told(alloc, &read.command)?;
    Ok(format!(in alloc; "{:?} {command}", read.moment)?)
}

/// Why a line says nothing.
fn refused(alloc: Global, cause: Cause) -> Result<String, NoMemory> {
    Ok(String::from_str(alloc, cause.word())?)
}

fn said(alloc: Global, line: &[u8], mode: Mode) -> Result<String, NoMemory> {
    match read_command(alloc, line, mode) {
        Ok(read) => told_at(alloc, &read),
        Err(cause) => refused(alloc, cause),
    }
}

fn length(alloc: Global, line: &[u8]) -> Result<String, NoMemory> {
    Ok(format!(in alloc; "{}", line.len())?)
}

/// The cause of a line, or how long it is.
fn long(alloc: Global, line: &[u8]) -> Result<String, NoMemory> {
    match read_command(alloc, line, Mode::Live) {
        Ok(_) => length(alloc, line),
        Err(cause) => refused(alloc, cause),
    }
}

/// The exit that a line was read as and the bytes of its output, or that it says none.
fn ended(alloc: Global, read: Option<ExitRead>, output: &[u8]) -> Result<String, NoMemory> {
    Ok(match read {
        Some(e) => { format!(in alloc; "{} {} {:?} {output:?}", e.moment, e.run.0, e.exit)? }
        None => format!(in alloc; "none {output:?}")?,
    })
}

/// What is said of a line that is looked at for an exit alone.
fn exit(alloc: Global, line: &[u8]) -> Result<String, NoMemory> {
    let mut out = LineBuf::with_size(alloc, 64)?;
    if line.len() > out.size() as usize {
        return Ok(String::from_str(alloc, "too long a row")?);
    }
    let read = read_exit(line, &mut out);
    ended(alloc, read, out.bytes())
}
