//! The order of reads and writes.

ghost use Rattle.std.specs.Prelude.{None};

use crate::tally::Tally;
use ct_io::{Failed, Sink, Source};
use ct_run::run;
use std::cell::Cell;
use std::io;

/// A source of five bytes at a time, which notes at each read how many bytes had been written before it.
#[derive(Drop)]
struct NotingSource<'a> {
    bytes: &'a [u8],
    written: &'a Cell<usize>,
    notes: Vec<usize>,
    faults: u64,
}

impl Source for NotingSource<'_> {
    ghost left = { λ _. None };

    ghost faults = { λ s. s.faults };

    fn read(&mut self, into: &mut [u8]) -> Result<usize, Failed> {
        if self.notes.push(self.written.get()).is_err() {
            self.faults = self.faults.saturating_add(1);
            return Err(Failed);
        }
        let count = into.len().min(self.bytes.len()).min(5);
        let (taken, left) = self.bytes.split_at(count);
        into[..count].copy_from_slice(taken);
        self.bytes = left;
        Ok(count)
    }
}

/// A sink that counts its bytes.
#[derive(Drop)]
struct CountingSink<'a> {
    written: &'a Cell<usize>,
}

impl Sink for CountingSink<'_> {
    ghost holds = { λ _. None };

    ghost faults = { λ _. 0 };

    fn write(&mut self, piece: &[u8]) -> Result<usize, Failed> {
        self.written
            .set(self.written.get().saturating_add(piece.len()));
        Ok(piece.len())
    }
}

/// Each reply is written before the read after the one that ends its command's line.
pub fn run_all(rt: &(impl Print + AllocGlobal), tally: &mut Tally) -> io::Result<()> {
    let alloc = rt.alloc();
    let written = Cell::new(0);
    let mut source = NotingSource {
        bytes: b"show 3 3\nshow 4 3\nshow 5",
        written: &written,
        notes: Vec::new(alloc),
        faults: 0,
    };
    let mut sink = CountingSink { written: &written };
    let words = [String::from_str(alloc, "session")?];
    run(alloc, &words, &mut source, &mut sink);
    let notes = source.notes.as_slice();
    let is_met = notes == [0, 0, 11, 11, 22, 22].as_slice();
    let came = format!(in alloc; "{notes:?}")?;
    tally.count(rt, "replies come before the next read", is_met, &came)
}
