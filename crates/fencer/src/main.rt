// The program: its own words, input and output around a command.
#![tactic(auto)]

use fnc_cli::run_tool;
use fnc_journal::{NoMemory, Outcome};
use fnc_outside::Source;
use fnc_streams::{StreamSink, StreamSource};
use std::io::ErrorKind;
use std::process::ExitCode;
use std::{env, io};

/// The words of the command line, without the program's own name.
fn words(rt: &HostRuntime) -> io::Result<Vec<String>> {
    Ok(env::args(rt)?.skip(1).collect(rt.alloc())?)
}

/// What a command line comes to that cannot be read.
fn unread(error: &io::Error) -> Outcome {
    match error.kind() {
        ErrorKind::OutOfMemory => Outcome::NoMemory,
        _ => Outcome::Usage,
    }
}

/// Runs the command of these words on a source, and standard output.
fn run_on<S: Source + Drop>(rt: &HostRuntime, words: &[String], source: S) -> Outcome {
    match StreamSink::new(rt.alloc(), io::writer(rt)) {
        Ok(sink) => run_tool(rt.alloc(), words, source, sink).outcome,
        Err(NoMemory) => Outcome::NoMemory,
    }
}

/// Runs the command of these words on standard input and standard output.
fn run_words(rt: &HostRuntime, words: &[String]) -> Outcome {
    match StreamSource::new(rt.alloc(), rt.reader()) {
        Ok(source) => run_on(rt, words, source),
        Err(NoMemory) => Outcome::NoMemory,
    }
}

/// Runs the command of the program's own words.
fn run(rt: &HostRuntime) -> Outcome {
    match words(rt) {
        Ok(words) => run_words(rt, words.as_slice()),
        Err(error) => unread(&error),
    }
}

/// Says on standard error how a command ended, unless it did all that it was to do.
fn tell(rt: &HostRuntime, outcome: &Outcome) -> io::Result<()> {
    match outcome {
        Outcome::Finished | Outcome::Unlawful { .. } => Ok(()),
        Outcome::Usage => eprintln!(rt; "fencer: bad command line"),
        Outcome::ReadFault => eprintln!(rt; "fencer: read fault"),
        Outcome::WriteFault => eprintln!(rt; "fencer: write fault"),
        Outcome::NoMemory => eprintln!(rt; "fencer: no memory"),
        Outcome::Budget => eprintln!(rt; "fencer: input too long"),
        Outcome::BadEntry { line } => eprintln!(rt; "fencer: bad entry at line {line}"),
        Outcome::JournalFull(_) => eprintln!(rt; "fencer: journal full"),
    }
}

fn main(rt: HostRuntime) -> ExitCode {
    let outcome = run(&rt);
    // where standard error cannot be written, the status alone says how the command ended
    let _ = tell(&rt, &outcome);
    ExitCode::from(outcome.status())
}
