//! Shows what properties texts stand for, so that it can be held against what another reader makes of them.
//!
//! The words are `pairs` or `count`, and then the names of files. Before what is shown of a file comes a line with `# ` and
//! its name. `pairs` shows the written form, in which no two maps of pairs are the same, and `count` the number of pairs. Of
//! a text with a malformed escape both show its line.
#![tactic(auto)]

mod shown;
#[cfg(test)]
mod tests;

use samza_model::NoMemory;
pub use shown::{count_text, show_text};
use std::io::{ErrorKind, Write};
use std::process::ExitCode;
use std::rt::Env;
use std::{env, fs, io};

/// What is to be shown of a text.
#[derive(Clone, Copy, Debug, PartialEq, Eq)]
enum Wanted {
    Pairs,
    Count,
}

fn read_wanted(word: &str) -> Option<Wanted> {
    match word {
        "pairs" => Some(Wanted::Pairs),
        "count" => Some(Wanted::Count),
        _ => None,
    }
}

/// The words behind the program's name.
fn command_words(rt: &(impl Env + AllocGlobal)) -> io::Result<Vec<String>> {
    let mut words = Vec::new(rt.alloc());
    for word in env::args(rt)?.skip(1) {
        words.push(word)?;
    }
    Ok(words)
}

/// Shows what is wanted of a file.
fn show_file(rt: &HostRuntime, wanted: Wanted, name: &str) -> io::Result<()> {
    let text = fs::read(rt, name)?;
    let shown = match wanted {
        Wanted::Pairs => show_text(rt.alloc(), &text),
        Wanted::Count => count_text(rt.alloc(), &text),
    };
    match shown {
        Ok(shown) => {
            println!(rt; "# {name}")?;
            rt.stdout().write_all(&shown)
        }
        Err(NoMemory) => Err(io::Error::from(ErrorKind::OutOfMemory)),
    }
}

fn main(rt: HostRuntime) -> io::Result<ExitCode> {
    let words = command_words(&rt)?;
    let [first, names @ ..] = words.as_slice() else {
        return Ok(ExitCode::from(2));
    };
    let Some(wanted) = read_wanted(first.as_str()) else {
        return Ok(ExitCode::from(2));
    };
    for name in names {
        show_file(&rt, wanted, name.as_str())?;
    }
    Ok(ExitCode::SUCCESS)
}
