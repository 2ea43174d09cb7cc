// The fence agent of a modelled power switch: it reads its options from standard input, and acts on the switch whose
// text is in the file that the option `state` names.
#![tactic(auto)]

mod stop;
mod switch_file;

use crate::stop::Stop;
use crate::switch_file::replace_file;
use fnc_agent_api::read_options;
use fnc_journal::limits::LONGEST_OPTIONS;
use fnc_switch::{AgentRun, run_agent};
use std::fs;
use std::io::{self, Read, Write};
use std::process::ExitCode;
use std::rt::Files;

/// The options as they are sent. Of a longer text than an agent reads only as much as shows that it is longer.
fn read_input(rt: &(impl Input + AllocGlobal)) -> io::Result<Vec<u8>> {
    let mut input = Vec::new(rt.alloc());
    rt.reader()
        .take(LONGEST_OPTIONS as u64 + 1)
        .read_to_end(&mut input)?;
    Ok(input)
}

/// Runs the agent on the file that the options name.
fn run_on_file(rt: &(impl Files + AllocGlobal), input: &[u8]) -> Result<AgentRun, Stop> {
    let options = read_options(rt.alloc(), input)?;
    let Some(path) = options.get("state") else {
        return Err(Stop::Fault);
    };
    let state = fs::read(rt, path.as_str())?;
    let run = run_agent(rt.alloc(), input, state.as_slice())?;
    replace_file(rt, path.as_str(), run.state.as_slice())?;
    Ok(run)
}

/// Prints what the agent prints, and answers its status.
fn print(rt: &impl Print, run: &AgentRun) -> Result<u8, Stop> {
    let mut writer = io::writer(rt);
    writer.write_all(run.output.as_slice())?;
    writer.flush()?;
    Ok(run.status)
}

/// Reads the options, runs the agent and prints what it prints.
fn run(rt: &HostRuntime) -> Result<u8, Stop> {
    let input = read_input(rt)?;
    let run = run_on_file(rt, input.as_slice())?;
    print(rt, &run)
}

fn main(rt: HostRuntime) -> ExitCode {
    match run(&rt) {
        Ok(status) => ExitCode::from(status),
        Err(stop) => ExitCode::from(stop.status()),
    }
}

#[cfg(test)]
mod tests {
    use super::*;
    use std::test::Fail;

    /// What the agent reads, the file before, the status and the file after.
    const ROWS: [(&str, &str, u8, &str); 6] = [
        (
            "action=off\nport=n1\nstate=switch\n",
            "1,n1,on,0\n2,n2,on,1\n",
            0,
            "1,n1,off,0\n2,n2,on,1\n",
        ),
        (
            "action=off\nport=2\nstate=switch\n",
            "1,n1,on,0\n2,n2,on,1",
            1,
            "1,n1,on,0\n2,n2,on,0\n",
        ),
        (
            "action=status\nport=1\nstate=switch\n",
            "1,n1,on,0\n",
            0,
            "1,n1,on,0\n",
        ),
        (
            "action=off\nport=1\nstate=switch\n",
            "1,n1,up,0",
            1,
            "1,n1,up,0",
        ),
        ("action=monitor\nstate=switch\n", "", 0, ""),
        ("action=off\nport=1\nstate=switch\n", "", 1, ""),
    ];

    #[test]
    fn writes_the_file(rt: HostRuntime) -> Result<(), Fail> {
        for (input, before, status, after) in ROWS {
            fs::write(&rt, "switch", before)?;
            let run = run_on_file(&rt, input.as_bytes())?;
            assert_eq!(rt; run.status, status, "{input}");
            let written = fs::read_to_string(&rt, "switch")?;
            assert_eq!(rt; written.as_str(), after, "{input}");
            assert!(rt; !fs::exists(&rt, "switch.new")?);
        }
        fs::remove_file(&rt, "switch")?;
        Ok(())
    }

    #[test]
    fn stops_without_a_file(rt: HostRuntime) -> Result<(), Fail> {
        for input in [
            "action=monitor\n",
            "action=monitor\nstate=no-such-file\n",
            "action=monitor\nstate=.\n",
            "state",
        ] {
            let stop = run_on_file(&rt, input.as_bytes()).err();
            assert_eq!(rt; stop, Some(Stop::Fault), "{input}");
        }
        Ok(())
    }
}
