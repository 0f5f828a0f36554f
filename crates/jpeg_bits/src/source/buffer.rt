//! Bytes that are read ahead of what is taken.
ghost use Rattle.std.specs.Prelude.{◌≡◌, ◌+◌, ◌≤◌, ℕ, List, ◌++◌, ◌∷◌, length, drop, take, true};
ghost use Rattle.std.specs.Prelude.{false, None};
ghost use Rattle.std.specs.Int.{to_be_bytes, w64};
ghost use Rattle.jpeg_bits.specs.BytesAhead.{HasNoFf};
ghost use Rattle.jpeg_bits.specs.Marker.{marker_at, next_marker};

use crate::error::Result;
use crate::source::turns::Asked;
use crate::source::unbuffered::Unbuffered;
use std::alloc::Global;
use std::marker::Model;

/// Bytes that were read and not taken yet: those of `bytes` from `start` to `end`.
#[derive(Drop)]
pub(crate) struct Buffer {
    bytes: Vec<u8>,
    start: usize,
    end: usize,
}

impl Model for Buffer {
    ghost use Rattle.std.specs.Prelude.{◌≤◌, ◌<◌, ℕ, List, length, slice_range};

    ghost Value = { List ℕ };

    ghost view = { λ b. slice_range b.bytes.items b.start b.end };

    ghost invariant = { λ b. (b.start ≤ b.end) × (b.end ≤ length b.bytes.items)
        × (0 < length b.bytes.items) };
}

impl Buffer {
    ghost use Rattle.std.specs.Prelude.{◌≡◌, ◌≤◌, ◌<◌, ◌++◌, [], ◌∷◌, length, take, drop, min};
    ghost use Rattle.std.specs.Prelude.{ℕ, List, Ok};
    ghost use Rattle.std.specs.Prelude.{◌↔◌, true, false, IfOk, IfErr, IfSome, IfNone};
    ghost use Rattle.jpeg_bits.specs.BytesAhead.{FillsFrom, TakesPlain};
    ghost use Rattle.jpeg_bits.specs.Marker.{next_marker};
    ghost use Rattle.jpeg_bits.specs.Reading.{skip_at};
    ghost use Rattle.jpeg_bits.specs.Turns.{IsByTurns, read_fails};
    ghost use Rattle.jpeg_bits.specs.declared.error.Error.TheVariants.{OutOfMemory};

    /// Makes room for some bytes. The only error is `OutOfMemory`.
    pub(super) fn with_capacity(alloc: Global, capacity: usize) -> Result<Buffer>
        requires { 0 < capacity }
        ensures empty { IfOk result (λ b. b ≡ []) }
        ensures room { IfErr result (λ e. e ≡ OutOfMemory) }
    {
        let bytes = vec![in alloc; 0; capacity]?;
        Ok(Buffer {
            bytes,
            start: 0,
            end: 0,
        })
    }

    /// Returns how many bytes are read at once.
    pub(super) fn capacity(&self) -> usize
        ensures { 0 < result }
    {
        self.bytes.len()
    }

    /// Returns the bytes.
    pub(super) fn as_slice(&self) -> &[u8]
        ensures { result.now ≡ self.now }
    {
        let (start, end) = (self.start, self.end);
        let all = self.bytes.as_slice();
        &all[start..end]
    }

    /// Returns whether no bytes are left.
    #[inline(always)]
    pub(super) fn is_empty(&self) -> bool
        ensures { result ≡ true ↔ self.now ≡ [] }
    {
        self.start == self.end
    }

    /// Takes the next byte, if there is one.
    #[inline(always)]
    pub(super) fn take(&mut self) -> Option<u8>
        ensures some { IfSome result (λ byte. self.old ≡ byte ∷ self.new) }
        ensures none { IfNone result ((self.old ≡ []) × (self.new ≡ [])) }
    {
        if self.start == self.end {
            return None;
        }
        let byte = self.bytes[self.start];
        self.start += 1;
        Some(byte)
    }

    /// Takes the next two bytes, if there are two, or else none.
    #[inline(always)]
    pub(super) fn take_two(&mut self) -> Option<(u8, u8)>
        ensures some { IfSome result (λ pair. self.old ≡ pair.0 ∷ (pair.1 ∷ self.new)) }
        ensures none { IfNone result (self.new ≡ self.old) }
    {
        if self.end - self.start < 2 {
            return None;
        }
        let first = self.bytes[self.start];
        let second = self.bytes[self.start + 1];
        self.start += 2;
        Some((first, second))
    }

    /// Passes over the next `count` bytes, if there are as many, or else over none.
    #[inline(always)]
    pub(super) fn pass(&mut self, count: usize) -> bool
        ensures passed { result ≡ true → (rest : List ℕ) → skip_at count (self.old ++ rest)
            ≡ Ok (tt, self.new ++ rest) }
        ensures left { length self.new ≤ length self.old }
        ensures none { result ≡ false → self.new ≡ self.old }
    {
        if self.end - self.start < count {
            return false;
        }
        self.start += count;
        true
    }

    /// Passes over bytes that no marker ends with, where `previous` stands before them. Returns the
    /// byte that stands before those that are left.
    pub(super) fn pass_unmarked(&mut self, previous: u8) -> u8
        ensures same { (rest : List ℕ) → next_marker (previous ∷ (self.old ++ rest))
            ≡ next_marker (result ∷ (self.new ++ rest)) }
        ensures left { length self.new ≤ length self.old }
    {
        let (count, last) = unmarked(self.as_slice(), previous);
        self.start += count;
        last
    }

    /// Takes as many bytes as there are and as the buffer has room for, and returns their number.
    #[inline(always)]
    pub(super) fn take_into(&mut self, buffer: &mut [u8]) -> usize
        ensures len { length buffer.new ≡ length buffer.old }
        ensures count { result ≡ min (length self.old) (length buffer.old) }
        ensures taken { self.old ≡ take result buffer.new ++ self.new }
    {
        // Segments are mostly read byte by byte.
        if buffer.len() != 1 {
            return self.take_several(buffer);
        }
        match self.take() {
            Some(byte) => {
                buffer[0] = byte;
                1
            }
            None => 0,
        }
    }

    /// Takes as many bytes as there are and as the buffer has room for, and returns their number.
    #[inline(never)]
    fn take_several(&mut self, buffer: &mut [u8]) -> usize
        ensures len { length buffer.new ≡ length buffer.old }
        ensures count { result ≡ min (length self.old) (length buffer.old) }
        ensures taken { self.old ≡ take result buffer.new ++ self.new }
    {
        let ahead = self.as_slice();
        let count = ahead.len().min(buffer.len());
        buffer[..count].copy_from_slice(&ahead[..count]);
        self.start += count;
        count
    }

    /// Takes the first `count` of the next eight bytes, and returns all eight as a number, the
    /// first the highest, if there are eight and none of them is FF. Or else takes none.
    #[inline(always)]
    pub(super) fn take_plain(&mut self, count: usize) -> Option<u64>
        requires { count ≤ 8 }
        ensures some { IfSome result (λ word. TakesPlain word count self.old self.new) }
        ensures none { IfNone result (self.new ≡ self.old) }
    {
        if self.end - self.start < 8 {
            return None;
        }
        let word = word_at(&self.bytes, self.start);
        if !has_no_ff(word) {
            return None;
        }
        self.start += count;
        Some(word)
    }

    /// Reads once, where no bytes are left, and again as long as the read is interrupted.
    pub(super) fn fill<R: Asked + Drop>(
        &mut self,
        alloc: Global,
        reader: &mut Unbuffered<R>,
    ) -> Result<()>
        requires { self.old ≡ [] }
        ensures fills { FillsFrom reader.old result self.new reader.new }
        ensures turns { IfErr result (IsByTurns (read_fails R.answers)) }
    {
        self.start = 0;
        self.end = 0;
        let count = reader.read(alloc, &mut self.bytes)?;
        self.end = count;
        Ok(())
    }
}

/// Returns how many bytes stand before the first that makes a marker with a byte FF before it, where
/// `first` stands before all of them, and the last of these.
#[inline(always)]
fn unmarked(bytes: &[u8], first: u8) -> (usize, u8)
    ensures count { result.0 ≤ length bytes.now }
    ensures same { (rest : List ℕ) → next_marker (first ∷ (bytes.now ++ rest))
        ≡ next_marker (result.1 ∷ (drop result.0 bytes.now ++ rest)) }
{
    let mut previous = first;
    for i in 0..bytes.len() {
        let byte = bytes[i];
        if is_marked(previous, byte) {
            return (i, previous);
        }
        previous = byte;
    }
    (bytes.len(), previous)
}

/// Returns whether two bytes may make a marker.
#[inline(always)]
#[tactic(auto, unfolding(crate::specs::Marker::marker_of))]
fn is_marked(first: u8, second: u8) -> bool
    ensures { result ≡ false → marker_at first second ≡ None }
{
    first == 0xff && second != 0 && second != 0xff
}

/// Returns eight bytes as a number, the first the highest.
#[inline]
fn word_at(bytes: &[u8], at: usize) -> u64
    requires { at + 8 ≤ length bytes.now }
    ensures { to_be_bytes w64 result ≡ take 8 (drop at bytes.now) }
{
    u64::from_be_bytes([
        bytes[at],
        bytes[at + 1],
        bytes[at + 2],
        bytes[at + 3],
        bytes[at + 4],
        bytes[at + 5],
        bytes[at + 6],
        bytes[at + 7],
    ])
}

/// Returns whether none of the eight bytes of a number is FF. Where 1 is taken from each byte of
/// its complement, the lowest FF, whose complement is 0, sets its highest bit.
#[inline(always)]
fn has_no_ff(word: u64) -> bool
    ensures { result ≡ true → HasNoFf word }
{
    (!word).wrapping_sub(0x0101_0101_0101_0101) & word & 0x8080_8080_8080_8080 == 0
}
