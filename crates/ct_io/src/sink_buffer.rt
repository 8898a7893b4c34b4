//! A sink whose bytes are gathered before they are written.

ghost use Rattle.std.specs.Prelude.{◌≡◌, ◌≤◌, [], IfOk, OnOk, OnErr, length, vec_capacity};
ghost use Rattle.std.specs.List.{flat_map};
ghost use Rattle.std.specs.Io.KnownBytes.{Appends};
ghost use Rattle.ct_io.specs.Buffered.{buffered, IsPut};
ghost use Rattle.ct_io.specs.Faults.{Rose};
ghost use Rattle.ct_io.specs.Told.{AppendsProperPrefix};
ghost use Rattle.ct_io.specs.Inside.Room.{HasRoom};

use crate::MAX_GATHERED;
use crate::failed::Failed;
use crate::sink::{Sink, write_all};
use std::alloc::{AllocError, Global};
use std::marker::Model;

/// Bytes on their way to a sink: they are gathered, `MAX_GATHERED` of them at most, and written where there is no room for more. One buffer
/// serves one sink. Contracts see what is gathered, and with the sink they see both as one (`buffered`).
pub struct SinkBuffer {
    bytes: Vec<u8>,
}

impl Drop for SinkBuffer {
    fn drop(self) {
        let SinkBuffer { bytes: _ } = self;
    }
}

impl Model for SinkBuffer {
    ghost use Rattle.std.specs.Prelude.{ℕ, List};

    ghost Value = { List ℕ };

    ghost use Rattle.ct_io.specs.Inside.Room.{HasRoom};

    ghost view = { λ b. b.bytes.items };

    ghost invariant = { λ b. HasRoom b.bytes };
}

/// Writes the bytes that are gathered. After an `Err` they are gathered still, and a part of them was written.
fn write_gathered<K: Sink>(sink: &mut K, gathered: &mut Vec<u8>) -> Result<(), Failed>
    ensures written { OnOk result (Appends (K.holds sink.old) (K.holds sink.new) gathered.old.items) }
    ensures emptied { OnOk result (gathered.new.items ≡ []) }
    ensures room { vec_capacity gathered.new ≡ vec_capacity gathered.old }
    ensures kept { OnErr result (gathered.new.items ≡ gathered.old.items) }
    ensures prefix { OnErr result (AppendsProperPrefix (K.holds sink.old) (K.holds sink.new) gathered.old.items) }
    ensures failed { OnErr result (Rose (K.faults sink.old) (K.faults sink.new)) }
    ensures counted { K.faults sink.old ≤ K.faults sink.new }
{
    write_all(sink, gathered)?;
    gathered.clear();
    Ok(())
}

/// Puts a text after the bytes that are gathered, as `put` does.
fn put_bytes<K: Sink>(sink: &mut K, gathered: &mut Vec<u8>, text: &[u8]) -> Result<(), Failed>
    requires { HasRoom gathered.old }
    ensures put { IsPut (buffered K.holds K.faults sink.old gathered.old.items)
        (buffered K.holds K.faults sink.new gathered.new.items) text.now result }
    ensures room { HasRoom gathered.new }
{
    if gathered.len() + text.len() <= MAX_GATHERED {
        gathered.extend_from_slice(text).unwrap();
        return Ok(());
    }
    write_gathered(sink, gathered)?;
    if text.len() <= MAX_GATHERED {
        gathered.extend_from_slice(text).unwrap();
        return Ok(());
    }
    write_all(sink, text)
}

/// Writes the bytes that are gathered, as `flush` does.
fn flush_bytes<K: Sink>(sink: &mut K, gathered: &mut Vec<u8>) -> Result<(), Failed>
    requires { HasRoom gathered.old }
    ensures put { IsPut (buffered K.holds K.faults sink.old gathered.old.items)
        (buffered K.holds K.faults sink.new gathered.new.items) [] result }
    ensures emptied { OnOk result (gathered.new.items ≡ []) }
    ensures room { HasRoom gathered.new }
{
    write_gathered(sink, gathered)
}

impl SinkBuffer {
    /// Nothing is gathered yet. Space for all that can be gathered is taken here: `Err` is want of memory.
    pub fn new(alloc: Global) -> Result<SinkBuffer, AllocError>
        ensures { IfOk result (λ buffer. buffer ≡ []) }
    {
        Ok(SinkBuffer {
            bytes: Vec::with_capacity(alloc, MAX_GATHERED)?,
        })
    }

    /// Puts a text after what is gathered. Where there is no room for it, what is gathered is written first, and a text that is too long to
    /// be gathered is written too. It takes no memory. `Failed` comes only where the sink's count of faults rose in this call or stands at
    /// its last value, and then a part of what was gathered and the text was written.
    pub fn put<K: Sink>(&mut self, sink: &mut K, text: &[u8]) -> Result<(), Failed>
        ensures put { IsPut (buffered K.holds K.faults sink.old self.old)
            (buffered K.holds K.faults sink.new self.new) text.now result }
        ensures few { length self.new ≤ MAX_GATHERED }
    {
        put_bytes(sink, &mut self.bytes, text)
    }

    /// Puts parts of a text, one after the other, as `put` does.
    pub fn put_parts<K: Sink>(&mut self, sink: &mut K, parts: &[&[u8]]) -> Result<(), Failed>
        ensures { IsPut (buffered K.holds K.faults sink.old self.old)
            (buffered K.holds K.faults sink.new self.new) (flat_map (λ part. part.now) parts.now) result }
    {
        for part in parts {
            self.put(sink, part)?;
        }
        Ok(())
    }

    /// Writes what is gathered, so that nothing is.
    pub fn flush<K: Sink>(&mut self, sink: &mut K) -> Result<(), Failed>
        ensures put { IsPut (buffered K.holds K.faults sink.old self.old)
            (buffered K.holds K.faults sink.new self.new) [] result }
        ensures emptied { OnOk result (self.new ≡ []) }
        ensures few { length self.new ≤ MAX_GATHERED }
    {
        flush_bytes(sink, &mut self.bytes)
    }
}
