//! A row: an input, and what the program is known to do with it. The head of `rows.toml` says what stands at the keys of its table.

use crate::fields::{list, number, numbers, text, texts};
use crate::outcome::Outcome;
use ct_io::{MemSink, MemSource};
use std::alloc::{AllocError, Global};
use std::rt::Files;
use std::{fs, io};
use toml::Value;

/// An input and the output that is known of it.
#[derive(Drop)]
pub struct Known {
    /// The input. Each U+FFFD in it stands for the byte 255, which is no UTF-8.
    pub input: String,
    /// The output.
    pub output: String,
}

/// Puts the text at the key, and that of the file that the other key names, to the end of what is known.
fn put_text(
    rt: &(impl Files + AllocGlobal),
    end: &mut String,
    table: &Value,
    key: &str,
    file_key: &str,
) -> io::Result<()> {
    end.push_str(text(table, key))?;
    let file = text(table, file_key);
    if !file.is_empty() {
        end.push_str(&fs::read_to_string(rt, file)?)?;
    }
    Ok(())
}

impl Known {
    /// Nothing yet.
    fn nothing(alloc: Global) -> Known {
        Known {
            input: String::new(alloc),
            output: String::new(alloc),
        }
    }

    /// Puts the input and the output of a part or a row to its end, the input as often as it says.
    fn put(&mut self, rt: &(impl Files + AllocGlobal), table: &Value) -> io::Result<()> {
        for _ in 0..number(table, "times").unwrap_or(1) {
            put_text(rt, &mut self.input, table, "input", "input_file")?;
        }
        put_text(rt, &mut self.output, table, "output", "output_file")
    }

    /// Puts those of the parts of this name to its end.
    fn put_parts(
        &mut self,
        rt: &(impl Files + AllocGlobal),
        parts: &[Value],
        name: &str,
    ) -> io::Result<()> {
        for part in parts {
            if text(part, "name") == name {
                self.put(rt, part)?;
            }
        }
        Ok(())
    }
}

/// The input and the output of the row, those of the parts that it comes after before its own.
pub fn what_is_known(
    rt: &(impl Files + AllocGlobal),
    parts: &[Value],
    row: &Value,
) -> io::Result<Known> {
    let mut known = Known::nothing(rt.alloc());
    for name in list(row, "after") {
        if let Value::String(name) = name {
            known.put_parts(rt, parts, name.as_str())?;
        }
    }
    known.put(rt, row)?;
    Ok(known)
}

/// The most bytes that a read gives, for each run.
pub fn sizes(alloc: Global, row: &Value) -> Result<Vec<u32>, AllocError> {
    let sizes = numbers(alloc, row, "reads")?;
    if sizes.is_empty() {
        return Ok(vec![in alloc; 1, 7, 4096]?);
    }
    Ok(sizes)
}

/// The words of the command line after the program's name.
fn command_line(alloc: Global, row: &Value) -> Result<Vec<String>, AllocError> {
    if row.get("words").is_some() {
        return texts(alloc, row, "words");
    }
    let mut words = Vec::new(alloc);
    words.push("session".to_string(alloc)?)?;
    Ok(words)
}

/// A source of the input, which gives at most so many bytes at a read.
fn source(alloc: Global, row: &Value, input: &str, read: u32) -> Result<MemSource, AllocError> {
    let failing = numbers(alloc, row, "failing_reads")?;
    let read = (read as usize).max(1);
    Ok(MemSource::new(bytes_of(alloc, input)?, failing, read))
}

/// A sink for the output.
fn sink(alloc: Global, row: &Value) -> Result<MemSink, AllocError> {
    let failing = numbers(alloc, row, "failing_writes")?;
    let write = number(row, "writes").unwrap_or(65_536).max(1);
    MemSink::new(alloc, 262_144, failing, write)
}

/// What the program does with the input, where a read gives at most so many bytes.
fn run_on(alloc: Global, row: &Value, input: &str, read: u32) -> Result<Outcome, AllocError> {
    let words = command_line(alloc, row)?;
    let source = source(alloc, row, input, read)?;
    let sink = sink(alloc, row)?;
    Outcome::of_run(alloc, &words, source, sink)
}

/// What the program does with the input, where a read gives at most so many bytes, if that is not what is known.
pub fn difference(
    alloc: Global,
    row: &Value,
    known: &Known,
    read: u32,
) -> Result<Option<String>, AllocError> {
    let outcome = run_on(alloc, row, &known.input, read)?;
    let status = format!(in alloc; "{:?}", outcome.status)?;
    let calls = outcome.read_calls.unwrap_or(0);
    let is_read_as_known = number(row, "read_calls").unwrap_or(calls as usize) == calls as usize;
    if is_read_as_known
        && status.as_str() == text(row, "status")
        && outcome.output.as_slice() == known.output.as_bytes()
    {
        return Ok(None);
    }
    let output = outcome.text();
    let came = format!(in alloc; "{status} after {calls} reads of {read}, and\n{output}")?;
    Ok(Some(came))
}

/// The bytes of the text, and the byte 255 for each U+FFFD in it.
pub fn bytes_of(alloc: Global, text: &str) -> Result<Vec<u8>, AllocError> {
    let mut bytes = Vec::new(alloc);
    for (number, part) in text.split('\u{fffd}').enumerate() {
        if number > 0 {
            bytes.push(255)?;
        }
        bytes.extend_from_slice(part.as_bytes())?;
    }
    Ok(bytes)
}
