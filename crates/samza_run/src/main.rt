//! The container's program: the top call over the machine's own words, folders and streams.
#![tactic(auto)]

use edge_io::{First, StdSink};
use file_host::FileHost;
use samza_container::samza_main;
use std::env;
use std::io::{ErrorKind, Result};
use std::process::ExitCode;
use std::rt::Env;

/// The status where memory was refused.
const NO_MEMORY: u8 = 8;

/// The words behind the program's name.
fn command_words(rt: &(impl Env + AllocGlobal)) -> Result<Vec<String>> {
    let mut words = Vec::new(rt.alloc());
    for word in env::args(rt)?.skip(1) {
        words.push(word)?;
    }
    Ok(words)
}

/// Whether the environment asks for the cause of a device's failure.
fn wants_cause(rt: &(impl Env + AllocGlobal)) -> bool {
    env::var(rt, "SAMZA_RUN_CAUSE").is_ok_and(|value| value.as_str() == "1")
}

/// Runs the command, and tells the cause of the first failure of a device where that is asked for.
fn run(rt: &HostRuntime, words: &[String]) -> Result<u8> {
    let mut host = FileHost::new(rt.clone()?);
    let mut out = StdSink::new(rt.stdout());
    let mut err = StdSink::new(rt.stderr());
    let status = samza_main(rt.alloc(), words, &mut host, &mut First, &mut out, &mut err);
    if let Some(cause) = host.cause() {
        if wants_cause(rt) {
            let _ = eprintln!(rt; "cause: {cause}");
        }
    }
    Ok(status)
}

fn main(rt: HostRuntime) -> Result<ExitCode> {
    match command_words(&rt) {
        Ok(words) => Ok(ExitCode::from(run(&rt, words.as_slice())?)),
        Err(error) if error.kind() == ErrorKind::OutOfMemory => {
            let _ = eprintln!(rt; "no memory");
            Ok(ExitCode::from(NO_MEMORY))
        }
        Err(error) => Err(error),
    }
}
