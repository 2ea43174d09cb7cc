// The jobs of the starts that lines, and exits that no line tells, let be made.

ghost use Rattle.std.specs.Prelude.{◌≡◌};
ghost use Rattle.fnc_command.specs.declared.command.Mode.{Mode};

use fnc_command::Mode;
use fnc_desk::Desk;
use fnc_jobs::Job;
use fnc_journal::limits::{GREATEST_MOMENT, LEAST_JOURNAL, LONGEST_LINE};
use fnc_journal::{Exit, NoMemory, Run};
use fnc_rows::Row;
use std::alloc::Global;
use std::str;

/// The most starts that are made after a line.
const MOST_STARTS: u32 = 16;

/// What an agent is run with: the run, the program, the device, the action, its word, the node, the time that is left,
/// and what it reads on its standard input.
fn shown(alloc: Global, job: &Job) -> Result<String, NoMemory> {
    let (run, kind, left) = (job.run.0, job.kind.word(), job.limit_ms);
    let (program, device) = (job.program.as_str(), job.device.as_str());
    let (word, target) = (job.word.as_str(), job.target.as_str());
    let input = str::from_utf8(job.input.as_slice()).unwrap_or("no text");
    Ok(format!(in alloc;
        "run {run} {program} {device} {kind} {word} {target} {left} ms {input:?} "
    )?)
}

/// The job of the next start that may be made now, and whether there was one.
fn say_start(alloc: Global, desk: &mut Desk, said: &mut String) -> Result<bool, NoMemory> {
    let Some(job) = desk.start()? else {
        return Ok(false);
    };
    said.push_str(shown(alloc, &job)?.as_str())?;
    Ok(true)
}

/// The jobs of the starts that may be made now.
fn started(alloc: Global, desk: &mut Desk) -> Result<String, NoMemory> {
    let mut said = String::new(alloc);
    for _ in 0..MOST_STARTS {
        if !say_start(alloc, desk, &mut said)? {
            break;
        }
    }
    Ok(said)
}

/// Enters the line of a row, `line|LINE|MOMENT|COIN`, and says the jobs of the starts that follow.
fn entered(alloc: Global, desk: &mut Desk, row: &Row) -> Result<String, NoMemory> {
    let line = row.bytes(1);
    let moment = row.number(2).min(GREATEST_MOMENT);
    if line.len() > LONGEST_LINE {
        return Ok(String::from_str(alloc, "too long")?);
    }
    match desk.enter(line, moment, row.number(3)) {
        Ok(()) => started(alloc, desk),
        Err(full) => Ok(format!(in alloc; "{full:?}")?),
    }
}

/// Enters a line at moment 0. It is passed over where it is too long.
fn take(desk: &mut Desk, line: &[u8])
    ensures { desk.new.mode ≡ desk.old.mode }
{
    if line.len() <= LONGEST_LINE {
        let _room = desk.enter(line, 0, 0);
    }
}

/// Starts the first try that may start.
fn start_one(desk: &mut Desk) -> Result<(), NoMemory>
    ensures { desk.new.mode ≡ desk.old.mode }
{
    desk.start()?;
    Ok(())
}

/// How many entries there are when the moment of a row has come, whether its run was alive, how many there are when
/// that has ended, and the jobs of the starts that follow.
fn ended(alloc: Global, desk: &mut Desk, row: &Row) -> Result<String, NoMemory>
    requires { desk.old.mode ≡ Mode.Live }
{
    let moment = row.number(4).clamp(desk.last(), GREATEST_MOMENT);
    desk.advance(moment);
    let before = desk.journal().len();
    let exit = Exit::Code(row.number(2).min(255) as u8);
    let ended = desk.finish(moment, Run(row.number32(1)), exit, row.bytes(3));
    let after = desk.journal().len();
    let jobs = started(alloc, desk)?;
    Ok(format!(in alloc; "{before} {ended:?} {after} {jobs}")?)
}

/// A run ends that no line ends, on a new desk: `finish|RUN|CODE|OUTPUT|MOMENT|LINE|LINE|LINE`.
fn finish_on(alloc: Global, desk: &mut Desk, row: &Row) -> Result<String, NoMemory>
    requires { desk.old.mode ≡ Mode.Live }
{
    take(desk, row.bytes(5));
    take(desk, row.bytes(6));
    take(desk, row.bytes(7));
    start_one(desk)?;
    ended(alloc, desk, row)
}

/// The same on a desk of its own in mode Live.
fn finished(alloc: Global, row: &Row) -> Result<String, NoMemory> {
    let mut desk = Desk::with_limit(alloc, LEAST_JOURNAL, Mode::Live)?;
    finish_on(alloc, &mut desk, row)
}

/// Begins a desk of a mode.
fn begin(alloc: Global, desk: &mut Desk, mode: Mode) -> Result<String, NoMemory> {
    *desk = Desk::with_limit(alloc, LEAST_JOURNAL, mode)?;
    Ok(String::new(alloc))
}

/// What is said of a row: `timed` and `live`, which begin a desk of that mode, `line|LINE|MOMENT|COIN` of a line that
/// is entered on it, and `finish|RUN|CODE|OUTPUT|MOMENT|LINE|LINE|LINE`.
pub(crate) fn say(alloc: Global, desk: &mut Desk, row: &Row) -> Result<String, NoMemory> {
    match row.text(0) {
        "timed" => begin(alloc, desk, Mode::Timed),
        "live" => begin(alloc, desk, Mode::Live),
        "line" => entered(alloc, desk, row),
        _ => finished(alloc, row),
    }
}
