ghost use Rattle.std.specs.Prelude.{◌≡◌, ◌+◌, ◌-◌, ◌^◌, ◌<◌, ◌≤◌, ◌↔◌, ◌⊎◌, [], min, length, Contains, IfOk, OnErr, IsErr, vec_len, vec_capacity, Some, if◌then◌else◌, is_ok};
ghost use Rattle.std.specs.Io.KnownBytes.{WriteAppends};
ghost use Rattle.ct_io.specs.Faults.{Rose};

use crate::failed::Failed;
use crate::sink::Sink;
use std::alloc::{AllocError, Global};

/// A sink over memory, which tells its bytes. Space for all that it can hold is there from the
/// start, so a write takes no memory.
#[derive(Drop)]
pub struct MemSink {
    /// The bytes that were written.
    pub bytes: Vec<u8>,
    /// The most bytes that it holds.
    pub room: usize,
    /// The numbers of the calls that fail. The first call has the number 0.
    pub failing: Vec<u32>,
    /// The most bytes that one call takes, at least 1.
    pub cap: usize,
    /// How many calls there were, up to `u32::MAX`.
    pub calls: u32,
    /// How many calls failed, up to `u64::MAX`.
    pub faults: u64,
    pub ghost in_room: { vec_len bytes ≤ room },
    pub ghost reserved: { room ≤ vec_capacity bytes },
    pub ghost takes: { 1 ≤ cap },
}

impl MemSink {
    /// A sink that holds no bytes and has room for `room`, where the calls whose numbers stand in
    /// `failing` fail, those with a piece that isn't empty fail once no room is left, and each other
    /// takes at most `cap` bytes. The room is reserved here: `Err` is want of memory.
    pub fn new(
        alloc: Global,
        room: usize,
        failing: Vec<u32>,
        cap: usize,
    ) -> Result<MemSink, AllocError>
        requires { 1 ≤ cap }
        ensures bytes { IfOk result (λ s. s.bytes.items ≡ []) }
        ensures room { IfOk result (λ s. s.room ≡ room) }
        ensures failing { IfOk result (λ s. s.failing ≡ failing) }
        ensures cap { IfOk result (λ s. s.cap ≡ cap) }
        ensures calls { IfOk result (λ s. s.calls ≡ 0) }
        ensures faults { IfOk result (λ s. s.faults ≡ 0) }
    {
        Ok(MemSink {
            bytes: Vec::with_capacity(alloc, room)?,
            room,
            failing,
            cap,
            calls: 0,
            faults: 0,
        })
    }
}

impl Sink for MemSink {
    ghost holds = { λ s. Some s.bytes.items };

    ghost faults = { λ s. s.faults };

    fn write(&mut self, piece: &[u8]) -> Result<usize, Failed>
        ensures within { IfOk result (λ n. n ≤ length piece.now) }
        ensures some { IfOk result (λ n. 0 < length piece.now → 0 < n) }
        ensures bytes { WriteAppends (Some self.old.bytes.items) (Some self.new.bytes.items)
            result piece.now }
        ensures counted { self.old.faults ≤ self.new.faults }
        ensures failed { OnErr result (Rose self.old.faults self.new.faults) }

        // Which calls fail, and how many bytes the others take.
        ensures fails { IsErr result ↔ (Contains self.old.failing.items self.old.calls
            ⊎ ((self.old.room ≤ vec_len self.old.bytes) × (0 < length piece.now))) }
        ensures moves { IfOk result (λ n. n ≡ min self.old.cap
            (min (length piece.now) (self.old.room - vec_len self.old.bytes))) }

        // The counts, and the others.
        ensures calls { self.new.calls ≡ min (self.old.calls + 1) (2 ^ 32 - 1) }
        ensures faults { self.new.faults
            ≡ (if is_ok result then self.old.faults else min (self.old.faults + 1) (2 ^ 64 - 1)) }
        ensures others { (self.new.room ≡ self.old.room) × (self.new.failing ≡ self.old.failing)
            × (self.new.cap ≡ self.old.cap) }
    {
        let left = self.room - self.bytes.len();
        let fails = self.failing.contains(&self.calls) || (left == 0 && !piece.is_empty());
        self.calls = self.calls.saturating_add(1);
        if fails {
            self.faults = self.faults.saturating_add(1);
            return Err(Failed);
        }
        let count = self.cap.min(piece.len()).min(left);
        self.bytes.extend_from_slice(&piece[..count]).unwrap();
        Ok(count)
    }
}
