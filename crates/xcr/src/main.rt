//! The program: runs over the files that the words name, and ends with the status of the run.
#![tactic(auto)]

mod outside;

use outside::{FileSource, StdSink};
use std::io::ErrorKind;
use std::process::ExitCode;
use std::{env, io};
use xc_tool::{Status, run};

// The words after the program's name.
fn words(rt: &HostRuntime) -> io::Result<Vec<String>> {
    let mut words = Vec::new(rt.alloc());
    for word in env::args(rt)?.skip(1) {
        words.push(word)?;
    }
    Ok(words)
}

// The file that a word names. It is opened once it is read, so none is where the words form no command.
fn source<'a>(rt: &'a HostRuntime, word: Option<&'a String>) -> FileSource<'a> {
    FileSource::new(rt, word.map(|word| word.as_str()))
}

// The word for the source of the script, which `make` has as its only one.
fn script_word(words: &[String]) -> Option<&String> {
    match words.get(0) {
        Some(word) if word.as_str() == "make" => words.get(1),
        _ => words.get(2),
    }
}

fn main(rt: HostRuntime) -> ExitCode {
    let words = match words(&rt) {
        Ok(words) => words,
        Err(error) if error.kind() == ErrorKind::OutOfMemory => {
            return ExitCode::from(Status::NoMemory.code());
        }
        // A word that is not UTF-8 is in no command.
        Err(_) => Vec::new(rt.alloc()),
    };
    let mut logs = source(&rt, words.get(1));
    let mut script = source(&rt, script_word(&words));
    let mut out = StdSink::new(io::writer(&rt));
    let status = run(rt.alloc(), &words, &mut logs, &mut script, &mut out);
    ExitCode::from(status.code())
}
