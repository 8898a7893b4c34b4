//! What the program does with an input.

use ct_io::{MemSink, MemSource};
use ct_run::{Status, answer, run};
use std::alloc::{AllocError, Global};

/// What the program did with an input.
#[derive(Drop)]
pub struct Outcome {
    /// How it ended.
    pub status: Status,
    /// What it wrote.
    pub output: Vec<u8>,
    /// How often it read, where that was counted.
    pub read_calls: Option<u32>,
}

impl Outcome {
    /// What it does with what the source gives, where these words follow its name on the command line.
    pub fn of_run(
        alloc: Global,
        words: &[String],
        mut source: MemSource,
        mut sink: MemSink,
    ) -> Result<Outcome, AllocError> {
        let status = run(alloc, words, &mut source, &mut sink);
        Ok(Outcome {
            status,
            output: sink.bytes.to_vec(alloc)?,
            read_calls: Some(source.calls),
        })
    }

    /// What a mode of it does with these bytes as its input.
    pub fn of_mode(alloc: Global, mode: &str, input: Vec<u8>) -> Result<Outcome, AllocError> {
        let words = [String::from_str(alloc, mode)?];
        let run = answer(alloc, &words, input)?;
        Ok(Outcome {
            status: run.status,
            output: run.output,
            read_calls: None,
        })
    }

    /// What it wrote, as a text.
    pub fn text(&self) -> &str {
        str::from_utf8(&self.output).unwrap_or("no text")
    }
}
