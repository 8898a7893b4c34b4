//! The reading of a command line.

ghost use Rattle.std.specs.Prelude.{◌≡◌, ◌≢◌, IfOk, None, option_map};
ghost use Rattle.clap.specs.Words.{app_of, kind_of};
ghost use Rattle.ct_command_line.specs.CommandLine.{command_line, mode_from, mode_of, bytes_of, sample_number};

use crate::mode::{MAX_SAMPLE, Mode};
use clap::error::ErrorKind;
use clap::{Arg, ArgAction, Command, Error};
use ct_text::parse_number;
use std::alloc::{AllocError, Global};

/// The command line as `clap` takes it: a word, the mode, which has to be there, and an option `--number` with a value. The
/// words are those after the program's name. `Err` is want of memory.
fn command_line<'a>(alloc: Global) -> Result<Command<'a>, AllocError>
    ensures { IfOk result (λ command. app_of command ≡ command_line) }
{
    let mode = Arg::new(alloc, "mode")
        .required(true)
        .action(ArgAction::Set);
    let number = Arg::new(alloc, "number")
        .long("number")
        .action(ArgAction::Set);
    Command::new(alloc, "code_tables")
        .no_binary_name(true)
        .arg(mode)?
        .arg(number)
}

/// The number of commands that the text asks for, where it is one from 1 to `MAX_SAMPLE`, written as commands write numbers.
#[tactic(auto, unfolding(crate::specs::CommandLine::sample_number))]
fn sample_number(text: &str) -> Option<u32>
    ensures { result ≡ sample_number text.now }
{
    let number = parse_number(text.as_bytes())?;
    if 1 <= number && number <= u64::from(MAX_SAMPLE) {
        Some(number as u32)
    } else {
        None
    }
}

/// The mode of these values of the word and the option.
fn mode_from(mode: Option<&str>, number: Option<&str>) -> Option<Mode>
    ensures { result ≡ mode_from (option_map (λ text. text.now) mode.entry) (option_map (λ text. text.now) number.entry) }
{
    match (mode, number) {
        (Some("session"), None) => Some(Mode::Session),
        (Some("verify"), None) => Some(Mode::Verify),
        (Some("find"), None) => Some(Mode::Find),
        (Some("sample"), Some(number)) => Some(Mode::Sample(sample_number(number)?)),
        _ => None,
    }
}

/// No mode, but for want of memory.
fn no_mode(e: Error) -> Result<Option<Mode>, AllocError>
    ensures { IfOk result (λ mode. (mode ≡ None) × (kind_of e ≢ ErrorKind.OutOfMemory)) }
{
    match e.kind() {
        ErrorKind::OutOfMemory => Err(AllocError),
        _ => Ok(None),
    }
}

/// The mode that the words of the command line name, the program's name not among them. `None` comes exactly where they are
/// no command: where `clap` finds a fault in them, asks for help or a version among these, or they name no mode. `Err` is want
/// of memory.
pub fn named_mode(alloc: Global, words: &[String]) -> Result<Option<Mode>, AllocError>
    ensures { IfOk result (λ mode. mode ≡ mode_of (bytes_of words.now)) }
{
    match command_line(alloc)?.try_get_matches_from(words) {
        Ok(matches) => Ok(mode_from(matches.get_str("mode"), matches.get_str("number"))),
        Err(e) => no_mode(e),
    }
}
