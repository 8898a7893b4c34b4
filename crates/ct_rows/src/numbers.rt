//! The numbers with which the program ends, and the words that it takes for its command.

use crate::tally::Tally;
use ct_run::{Status, after_name};
use std::alloc::{AllocError, Global};
use std::io;

/// The statuses of the program's ends, and their numbers.
const NUMBERS: [(Status, u8); 7] = [
    (Status::Done, 0),
    (Status::Refused, 1),
    (Status::Usage, 2),
    (Status::ReadFault, 3),
    (Status::WriteFault, 4),
    (Status::TooLong, 5),
    (Status::Memory, 6),
];

/// Whether the words after the name are the others, and none where there is no name.
fn words_are_after_the_name(alloc: Global) -> Result<bool, AllocError> {
    let mut words = Vec::new(alloc);
    let is_empty = after_name(&words).is_empty();
    for word in ["code_tables", "session", "x"] {
        words.push(word.to_string(alloc)?)?;
    }
    match after_name(&words) {
        [first, second] => Ok(is_empty && first.as_str() == "session" && second.as_str() == "x"),
        _ => Ok(false),
    }
}

/// Counts a row for each status, and one for the words of a command line.
pub fn run_all(rt: &(impl Print + AllocGlobal), tally: &mut Tally) -> io::Result<()> {
    for (status, number) in NUMBERS {
        let came = format!(in rt.alloc(); "{status:?} is {}", status.number())?;
        tally.count(rt, "a number", status.number() == number, &came)?;
    }
    let is_met = words_are_after_the_name(rt.alloc())?;
    tally.count(rt, "the words after the name", is_met, "other words")
}
