//! The program `code_tables`.
#![tactic(auto)]

use ct_io::{StdSink, StdSource};
use ct_run::{Status, after_name, first_unknown_word, run};
use std::alloc::AllocError;
use std::io::Read;
use std::process::ExitCode;
use std::{env, io};

/// The system's number of the error that a descriptor is not open for what is asked.
const NOT_OPEN: i32 = 9;

/// The words of the command line, the program's name among them. They are none where one is not UTF-8: no command has such a word.
fn command_line(rt: &HostRuntime) -> Result<Vec<String>, AllocError> {
    let mut words = Vec::new(rt.alloc());
    match env::args(rt) {
        Ok(all) => {
            for word in all {
                words.push(word)?;
            }
            Ok(words)
        }
        Err(e) if e.kind() == io::ErrorKind::OutOfMemory => Err(AllocError),
        Err(_) => Ok(words),
    }
}

/// Runs the program on these words of its command line, the program's name among them, standard input and standard output.
fn run_on_devices(rt: &HostRuntime, words: &[String]) -> Status {
    let mut source = StdSource {
        inner: rt.stdin(),
        faults: 0,
    };
    let mut sink = StdSink {
        inner: rt.stdout(),
        faults: 0,
    };
    run(rt.alloc(), after_name(words), &mut source, &mut sink)
}

/// What standard input is, where it is nothing that can be read. It is asked for no bytes, which waits for none and takes none.
fn unreadable_input(rt: &HostRuntime) -> Option<&'static str> {
    match rt.stdin().read(&mut []) {
        Err(e) if e.kind() == io::ErrorKind::IsADirectory => Some("a directory"),
        Err(e) if e.raw_os_error() == Some(NOT_OPEN) => Some("not open for reading"),
        _ => None,
    }
}

/// Says on standard error that the words after the program's name are no command, and names the first that none has; nothing of no words.
fn say_words(rt: &HostRuntime, words: &[String]) -> io::Result<()> {
    match first_unknown_word(words) {
        Some(word) => eprintln!(rt; "code_tables: no command has the word {word}"),
        None if words.is_empty() => Ok(()),
        None => eprintln!(rt; "code_tables: these words together are no command"),
    }
}

/// Says on standard error why the run ended so, where that has a reason.
fn say(rt: &HostRuntime, words: &[String], status: Status) -> io::Result<()> {
    match (status, status.reason()) {
        (Status::Usage, _) => say_words(rt, after_name(words)),
        (_, None) => Ok(()),
        (Status::ReadFault, Some(reason)) => match unreadable_input(rt) {
            Some(input) => eprintln!(rt; "code_tables: {reason}: standard input is {input}"),
            None => eprintln!(rt; "code_tables: {reason}"),
        },
        (_, Some(reason)) => eprintln!(rt; "code_tables: {reason}"),
    }
}

fn main(rt: HostRuntime) -> ExitCode {
    let (words, status) = match command_line(&rt) {
        Ok(words) => {
            let status = run_on_devices(&rt, &words);
            (words, status)
        }
        Err(AllocError) => (Vec::new(rt.alloc()), Status::Memory),
    };
    // Where standard error fails too, the status alone tells.
    let _ = say(&rt, &words, status);
    ExitCode::from(status.number())
}
