//! The lines of an input, as a reader gives them.

ghost use Rattle.std.specs.Prelude.{◌≤◌, IfOk};

use ct_io::{LineFault, LineReader, MAX_INPUT, MAX_READ, MemSource};
use ct_text::LINE_FEED;
use std::alloc::{AllocError, Global};
use std::test::Fail;

fn source_of(rt: &HostRuntime, failing: &[u32], cap: usize) -> Result<MemSource, AllocError>
    requires { 1 ≤ cap }
    ensures { IfOk result (λ s. 1 ≤ s.cap) }
{
    let bytes = b"first\n\nthird line\nlast".to_vec(rt.alloc())?;
    Ok(MemSource::new(bytes, failing.to_vec(rt.alloc())?, cap))
}

#[test]
fn the_limits_are_those_of_the_documents(rt: HostRuntime) {
    assert!(rt; (LINE_FEED, MAX_INPUT, MAX_READ) == (10, 67_108_864, 65_536));
}

// The next lines, so many of them, a bar after each; and a full stop for each line that there is not.
fn barred_lines(
    alloc: Global,
    reader: &mut LineReader,
    source: &mut MemSource,
    count: usize,
) -> Result<Vec<u8>, Fail> {
    let mut barred = Vec::new(alloc);
    for _ in 0..count {
        match reader.next_line(source)? {
            Some(line) => {
                barred.extend_from_slice(&line)?;
                barred.push(b'|')?;
            }
            None => barred.push(b'.')?,
        }
    }
    Ok(barred)
}

// Whether the lines come in pieces of so many bytes, and then none.
fn come_in_pieces(rt: &HostRuntime, cap: usize) -> Result<bool, Fail>
    requires { 1 ≤ cap }
{
    let mut source = source_of(rt, &[], cap)?;
    let mut reader = LineReader::new(rt.alloc())?;
    let lines = barred_lines(rt.alloc(), &mut reader, &mut source, 6)?;
    Ok(lines.as_slice() == b"first||third line|last|..".as_slice() && reader.taken() == 22)
}

#[test]
fn pieces_of_any_size_give_the_same_lines(rt: HostRuntime) -> Result<(), Fail> {
    for cap in [1, 7, 4096] {
        assert!(rt; come_in_pieces(&rt, cap)?, "with pieces of {cap}");
    }
    Ok(())
}

// Whether a line is held before a line is asked for, as often as one asks, and so many reads were made after.
fn is_held(
    reader: &mut LineReader,
    source: &mut MemSource,
    held: bool,
    calls: u32,
) -> Result<bool, LineFault> {
    let is_told = reader.holds_line() == held && reader.holds_line() == held;
    let _ = reader.next_line(source)?;
    Ok(is_told && source.calls == calls)
}

#[test]
fn a_line_is_held_where_no_read_is_needed(rt: HostRuntime) -> Result<(), Fail> {
    // Eight bytes a read: `first`, two line feeds and `t`; `hird lin`; `e`, a line feed and `last`; the end.
    let mut source = source_of(&rt, &[], 8)?;
    let mut reader = LineReader::new(rt.alloc())?;
    for (held, calls) in &[(false, 1), (true, 1), (false, 3), (false, 4), (true, 4)] {
        let is_met = is_held(&mut reader, &mut source, *held, *calls)?;
        assert!(rt; is_met, "before call {calls}");
    }
    assert!(rt; reader.holds_line());
    Ok(())
}

// Of a line of so many letters, one a read: how long it is given, and after how many reads.
fn long_line(alloc: Global, length: usize) -> Result<Option<(usize, u32)>, Fail> {
    let bytes = vec![in alloc; b'a'; length]?;
    let mut source = MemSource::new(bytes, Vec::new(alloc), 1);
    let mut reader = LineReader::new(alloc)?;
    match reader.next_line(&mut source)? {
        Some(line) => Ok(Some((line.len(), source.calls))),
        None => Ok(None),
    }
}

#[test]
fn no_byte_of_a_long_line_is_searched_again(rt: HostRuntime) -> Result<(), Fail> {
    // Searching from the front after each of these reads would take minutes.
    assert!(rt; long_line(rt.alloc(), 1_000_000)? == Some((1_000_000, 1_000_001)));
    Ok(())
}

// Whether the read fault is answered again and again.
fn is_answered_again(reader: &mut LineReader, source: &mut MemSource) -> bool {
    for _ in 0..3 {
        if !matches!(reader.next_line(source), Err(LineFault::ReadFault)) {
            return false;
        }
    }
    (source.calls, source.faults, reader.taken()) == (2, 1, 8)
}

#[test]
fn a_failed_read_is_answered_again(rt: HostRuntime) -> Result<(), Fail> {
    let mut source = source_of(&rt, &[1], 8)?;
    let mut reader = LineReader::new(rt.alloc())?;
    let lines = barred_lines(rt.alloc(), &mut reader, &mut source, 2)?;
    assert!(rt; lines.as_slice() == b"first||".as_slice());
    assert!(rt; is_answered_again(&mut reader, &mut source));
    Ok(())
}
