ghost use Rattle.std.specs.Prelude.{◌≡◌, ◌+◌, ◌-◌, ◌^◌, ◌≤◌, ◌↔◌, min, drop, length, Contains, IfOk, OnErr, IsErr, vec_len, Some, if◌then◌else◌, is_ok};
ghost use Rattle.std.specs.Io.KnownBytes.{ReadConsumes};
ghost use Rattle.ct_io.specs.Faults.{Rose};

use crate::failed::Failed;
use crate::source::Source;

/// A source over memory, which tells its bytes.
#[derive(Drop)]
pub struct MemSource {
    /// All bytes, also those that were read.
    pub bytes: Vec<u8>,
    /// How many bytes were read.
    pub at: usize,
    /// The numbers of the calls that fail. The first call has the number 0.
    pub failing: Vec<u32>,
    /// The most bytes that one call gives, at least 1.
    pub cap: usize,
    /// How many calls there were, up to `u32::MAX`.
    pub calls: u32,
    /// How many calls failed, up to `u64::MAX`.
    pub faults: u64,
    pub ghost in_bytes: { at ≤ vec_len bytes },
    pub ghost gives: { 1 ≤ cap },
}

impl MemSource {
    /// A source of `bytes` from their front, where the calls whose numbers stand in `failing` fail
    /// and each other gives at most `cap` bytes.
    pub fn new(bytes: Vec<u8>, failing: Vec<u32>, cap: usize) -> MemSource
        requires { 1 ≤ cap }
        ensures bytes { result.bytes ≡ bytes }
        ensures at { result.at ≡ 0 }
        ensures failing { result.failing ≡ failing }
        ensures cap { result.cap ≡ cap }
        ensures calls { result.calls ≡ 0 }
        ensures faults { result.faults ≡ 0 }
    {
        MemSource {
            bytes,
            at: 0,
            failing,
            cap,
            calls: 0,
            faults: 0,
        }
    }
}

impl Source for MemSource {
    ghost left = { λ s. Some (drop s.at s.bytes.items) };

    ghost faults = { λ s. s.faults };

    fn read(&mut self, into: &mut [u8]) -> Result<usize, Failed>
        ensures within { IfOk result (λ n. n ≤ length into.new) }
        ensures bytes { ReadConsumes (Some (drop self.old.at self.old.bytes.items))
            (Some (drop self.new.at self.new.bytes.items)) result into.new }
        ensures counted { self.old.faults ≤ self.new.faults }
        ensures failed { OnErr result (Rose self.old.faults self.new.faults) }

        // Which calls fail, and how many bytes the others give.
        ensures fails { IsErr result ↔ Contains self.old.failing.items self.old.calls }
        ensures moves { IfOk result (λ n. n ≡ min self.old.cap
            (min (length into.new) (vec_len self.old.bytes - self.old.at))) }

        // The four that change, and the others.
        ensures at { IfOk result (λ n. self.new.at ≡ self.old.at + n) }
        ensures at_failure { OnErr result (self.new.at ≡ self.old.at) }
        ensures calls { self.new.calls ≡ min (self.old.calls + 1) (2 ^ 32 - 1) }
        ensures faults { self.new.faults
            ≡ (if is_ok result then self.old.faults else min (self.old.faults + 1) (2 ^ 64 - 1)) }
        ensures others { (self.new.bytes ≡ self.old.bytes) × (self.new.failing ≡ self.old.failing)
            × (self.new.cap ≡ self.old.cap) }
    {
        let fails = self.failing.contains(&self.calls);
        self.calls = self.calls.saturating_add(1);
        if fails {
            self.faults = self.faults.saturating_add(1);
            return Err(Failed);
        }
        let left = self.bytes.len() - self.at;
        let count = self.cap.min(into.len()).min(left);
        into[..count].copy_from_slice(&self.bytes[self.at..self.at + count]);
        self.at += count;
        Ok(count)
    }
}
