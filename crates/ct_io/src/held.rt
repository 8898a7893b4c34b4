ghost use Rattle.std.specs.Prelude.{◌≡◌, ◌≢◌, ℕ, replicate, ◌+◌, ◌<◌, ◌≤◌, [], ◌∷◌, ◌++◌, IfOk, IfSome, IfNone, OnErr, MatchOption, length, take, drop, position, slice_get, vec_len, ◌==◌, Some};
ghost use Rattle.ct_io.specs.Inside.Buffer.{Buffer, empty_buffer};
ghost use Rattle.ct_io.specs.Lines.{IsLine};
ghost use Rattle.ct_io.specs.Inside.Filling.{Fills};

use crate::line_fault::LineFault;
use crate::source::Source;
use ct_text::LINE_FEED;
use std::alloc::{AllocError, Global};
use std::marker::Model;

/// Bytes that were read and not yet given out.
#[derive(Drop)]
pub(crate) struct Held {
    bytes: Vec<u8>,
    // The bytes before this index were given out.
    start: usize,
    // So many bytes from `start` on are known to be no line feeds.
    searched: usize,
}

impl Model for Held {
    ghost Value = { Buffer };

    ghost view = { λ h. record { bytes = drop h.start h.bytes.items; kept = vec_len h.bytes } };

    ghost invariant = { λ h. (h.start + h.searched ≤ vec_len h.bytes)
        × IsLine (take h.searched (drop h.start h.bytes.items)) };
}

// Where the first line feed is.
fn feed_place(bytes: &[u8]) -> Option<usize>
    ensures { result ≡ position (λ b. b == LINE_FEED) bytes.now }
{
    bytes.iter().position(|b| *b == LINE_FEED)
}

// How many line feeds come first.
fn feeds_first(bytes: &[u8]) -> usize
    ensures within { result ≤ length bytes.now }
    ensures feeds { take result bytes.now ≡ replicate result LINE_FEED }
    ensures all { slice_get bytes.now result ≢ Some LINE_FEED }
{
    for (count, b) in bytes.iter().enumerate() {
        if *b != LINE_FEED {
            return count;
        }
    }
    bytes.len()
}

// These bytes in a vector of their own. Of no bytes nothing is copied, so that an empty line costs little.
fn copy_of(alloc: Global, bytes: &[u8]) -> Result<Vec<u8>, AllocError>
    ensures { IfOk result (λ copy. copy.items ≡ bytes.now) }
{
    if bytes.is_empty() {
        return Ok(Vec::new(alloc));
    }
    Vec::from_slice(alloc, bytes)
}

// Drops the first bytes.
fn drop_front(bytes: &mut Vec<u8>, count: usize)
    requires { count ≤ vec_len bytes.old }
    ensures { bytes.new.items ≡ drop count bytes.old.items }
{
    let rest = bytes.len() - count;
    bytes.rotate_left(count);
    bytes.truncate(rest);
}

impl Held {
    /// No bytes. It takes no memory.
    pub(crate) fn new(alloc: Global) -> Held
        ensures { result ≡ empty_buffer }
    {
        Held {
            bytes: Vec::new(alloc),
            start: 0,
            searched: 0,
        }
    }

    /// Drops the line feeds that come first.
    pub(crate) fn pass_feeds(&mut self)
        ensures passed { (count : ℕ) × (self.old.bytes ≡ replicate count LINE_FEED ++ self.new.bytes) }
        ensures all { slice_get self.new.bytes 0 ≢ Some LINE_FEED }
        ensures kept { self.new.kept ≡ self.old.kept }
        ensures all_kept { length self.new.bytes ≤ self.new.kept }
    {
        if self.searched == 0 {
            self.start += feeds_first(&self.bytes[self.start..]);
        }
    }

    /// How long the first line is, where a line feed ends it. Bytes that were searched in an
    /// earlier call are not searched again.
    pub(crate) fn line_length(&mut self) -> Option<usize>
        ensures same { self.new ≡ self.old }
        ensures line { IfSome result (λ n. IsLine (take n self.old.bytes)) }
        ensures feed { IfSome result (λ n. slice_get self.old.bytes n ≡ Some LINE_FEED) }
        ensures none { IfNone result (IsLine self.old.bytes) }
        ensures all_kept { length self.new.bytes ≤ self.new.kept }
    {
        let from = self.start + self.searched;
        match feed_place(&self.bytes[from..]) {
            Some(more) => {
                self.searched += more;
                Some(self.searched)
            }
            None => {
                self.searched = self.bytes.len() - self.start;
                None
            }
        }
    }

    /// Gives out the first line, of this length, and drops its line feed.
    pub(crate) fn take_line(&mut self, count: usize) -> Result<Vec<u8>, AllocError>
        requires { slice_get self.old.bytes count ≡ Some LINE_FEED }
        ensures line { IfOk result (λ line. line.items ≡ take count self.old.bytes) }
        ensures rest { IfOk result (λ line. self.old.bytes ≡ line.items ++ LINE_FEED ∷ self.new.bytes) }
        ensures kept { self.new.kept ≡ self.old.kept }
        ensures all_kept { length self.new.bytes ≤ self.new.kept }
        ensures err { OnErr result (self.new ≡ self.old) }
    {
        let end = self.start + count;
        let line = copy_of(*self.bytes.allocator(), &self.bytes[self.start..end])?;
        self.start = end + 1;
        self.searched = 0;
        Ok(line)
    }

    /// Gives out all bytes, where there are any.
    pub(crate) fn take_rest(&mut self) -> Result<Option<Vec<u8>>, AllocError>
        ensures all { IfOk result (λ rest. MatchOption rest (self.old.bytes ≡ [])
            (λ line. (self.old.bytes ≡ line.items) × (0 < length line.items))) }
        ensures none_left { IfOk result (λ _. self.new.bytes ≡ []) }
        ensures kept { self.new.kept ≡ self.old.kept }
        ensures all_kept { length self.new.bytes ≤ self.new.kept }
        ensures err { OnErr result (self.new ≡ self.old) }
    {
        if self.start == self.bytes.len() {
            return Ok(None);
        }
        let rest = Vec::from_slice(*self.bytes.allocator(), &self.bytes[self.start..])?;
        self.start = self.bytes.len();
        self.searched = 0;
        Ok(Some(rest))
    }

    /// All bytes that are held.
    pub(crate) fn into_bytes(mut self) -> Vec<u8>
        ensures { result.items ≡ self.bytes }
    {
        self.drop_given_out();
        self.bytes
    }

    // Moves the bytes that are held to the front of the vector.
    fn drop_given_out(&mut self)
        ensures same { self.new.bytes ≡ self.old.bytes }
        ensures kept { self.new.kept ≡ length self.old.bytes }
        ensures no_more { self.new.kept ≤ self.old.kept }
    {
        if self.start > 0 {
            drop_front(&mut self.bytes, self.start);
            self.start = 0;
        }
    }

    /// Reads at most a piece more. Zero is the end of the input. Space comes before the bytes, so
    /// that none is lost. It is not inlined, so that a line that is held pays nothing for a read.
    #[inline(never)]
    pub(crate) fn fill<S: Source>(
        &mut self,
        piece: &mut Vec<u8>,
        source: &mut S,
    ) -> Result<usize, LineFault>
        requires { 0 < vec_len piece.old }
        ensures piece { vec_len piece.new ≡ vec_len piece.old }
        ensures fills { Fills self.old self.new (vec_len piece.old) (S.left source.old) (S.left source.new)
            (S.faults source.old) (S.faults source.new) result }
    {
        self.drop_given_out();
        self.bytes.reserve(piece.len())?;
        let Ok(count) = source.read(piece) else {
            return Err(LineFault::ReadFault);
        };
        self.bytes.extend_from_slice(&piece[..count]).unwrap();
        Ok(count)
    }
}
