//! How far a decoder that is fed has read its bytes, once and for all.
ghost use Rattle.std.specs.Prelude.{◌≡◌, ◌≤◌, ◌<◌, ◌++◌, ℕ, List, Option, None, [], Ok};
ghost use Rattle.std.specs.Prelude.{IfErr, IfOk, IfSome, OnOk, length, true};
ghost use Rattle.jpeg_bits.specs.declared.error.Error.TheVariants.{OutOfMemory};
ghost use Rattle.jpeg_meaning.specs.Sound.{IsSound};
ghost use Rattle.jpeg_decoder.specs.Fed.{IsAt, IsCheckpoint};
ghost use Rattle.jpeg_decoder.specs.Walks.{IsGoing};

use crate::fed::lookahead::whole_length;
use crate::fed::sources::{source_of, unread};
use crate::scan::work::{Budget, Walk};
use crate::stream::state::{ONWARD, State, Step};
use crate::stream::turns::read_turn;
use jpeg_bits::beyond::Beyond;
use jpeg_bits::error::{Error, Result, end_of_bytes, format_error};
use jpeg_bits::source::Source;
use jpeg_bits::source::slice_reader::SliceReader;
use std::alloc::Global;

/// What was found in the first bytes of a stream, and where to go on: between two segments, or
/// after a scan and the marker that ends it.
#[derive(Drop)]
pub struct Checkpoint {
    /// What was found.
    pub state: State,
    /// What stands before the next marker.
    pub step: Step,
    /// How many blocks the scans after it may code, if there is a limit.
    pub left: Option<u64>,
    /// How many bytes were read.
    pub offset: usize,
}

impl Checkpoint {
    ghost use Rattle.std.specs.Prelude.{◌≡◌, IfErr, OnErr, OnOk, true};
    ghost use Rattle.jpeg_bits.specs.declared.error.Error.TheVariants.{OutOfMemory};

    /// Sets a source to the bytes after the checkpoint, and a state to what was found before them.
    /// The only error is `OutOfMemory`, in which case the state stays.
    pub fn resume<'a>(
        &self,
        alloc: Global,
        rest: &'a [u8],
        source: &mut Source<SliceReader<'a>>,
        state: &mut State,
    ) -> Result<()>
        ensures bytes { OnOk result (source.new.bytes ≡ rest.now) }
        ensures known { OnOk result (source.new.known ≡ true) }
        ensures found { OnOk result (state.new ≡ self.now.state) }
        ensures kept { OnErr result (state.new ≡ state.old) }
        ensures err { IfErr result (λ e. e ≡ OutOfMemory) }
    {
        *source = source_of(alloc, rest)?;
        *state = self.state.copied(alloc)?;
        Ok(())
    }
}

/// Reads segments and scans after a step until no bytes are left, and returns the step after them.
/// After an error as many bytes were `left` before the segment or the scan that has the fault.
fn read_all(
    alloc: Global,
    source: &mut Source<SliceReader<'_>>,
    state: &mut State,
    first: Step,
    walk: &mut Walk,
    left: &mut usize,
) -> Result<Step>
    requires sound { IsSound state.old }
    requires going { IsGoing walk.old }
    requires known { source.old.known ≡ true }
    ensures reads { IfOk result (λ step. (limit : Option ℕ) (bytes : List ℕ)
        → IsCheckpoint limit bytes walk.old.budget.left first state.old source.old.bytes
        → IsCheckpoint limit bytes walk.new.budget.left step state.new []) }
    ensures sound { OnOk result (IsSound state.new) }
{
    let mut last = first;
    for _ in 0..=u64::MAX {
        *left = unread(source);
        if *left == 0 {
            return Ok(last);
        }
        last = read_turn(alloc, source, state, last, Beyond::Nothing, walk)?;
        if last.ended {
            return Err(end_of_bytes());
        }
    }
    Err(format_error(alloc, "found 2^64 markers, expected EOI"))
}

/// Moves a checkpoint over bytes that are whole segments and scans, or returns how many of them
/// stand before the one with a fault: the checkpoint is then none. The only error is `OutOfMemory`.
fn pass(alloc: Global, checkpoint: &mut Checkpoint, piece: &[u8]) -> Result<Option<usize>>
    requires sound { IsSound checkpoint.old.state }
    ensures reads { result ≡ Ok None → (limit : Option ℕ) (bytes : List ℕ)
        → IsCheckpoint limit bytes checkpoint.old.left checkpoint.old.step checkpoint.old.state []
        → IsCheckpoint limit (bytes ++ piece.now) checkpoint.new.left checkpoint.new.step
        checkpoint.new.state [] }
    ensures sound { result ≡ Ok None → IsSound checkpoint.new.state }
    ensures offset { checkpoint.new.offset ≡ checkpoint.old.offset }
    ensures err { IfErr result (λ e. e ≡ OutOfMemory) }
{
    let mut source = source_of(alloc, piece)?;
    let mut walk = Walk {
        budget: Budget {
            left: checkpoint.left,
            exceeded: false,
        },
        rows: None,
    };
    let mut left = piece.len();
    let state = &mut checkpoint.state;
    match read_all(
        alloc,
        &mut source,
        state,
        checkpoint.step,
        &mut walk,
        &mut left,
    ) {
        Ok(step) => {
            checkpoint.step = step;
            checkpoint.left = walk.budget.left;
            Ok(None)
        }
        Err(Error::OutOfMemory) => Err(Error::OutOfMemory),
        Err(_) => Ok(Some(piece.len().saturating_sub(left))),
    }
}

/// Returns the checkpoint after the start of a stream, if these bytes begin with one.
fn start(alloc: Global, bytes: &[u8], max_blocks: Option<u64>) -> Option<Checkpoint>
    ensures { IfSome result (λ c. IsAt max_blocks bytes.now c) }
{
    if bytes.len() < 2 || bytes[0] != 0xff || bytes[1] != 0xd8 {
        return None;
    }
    Some(Checkpoint {
        state: State::new(alloc),
        step: ONWARD,
        left: max_blocks,
        offset: 2,
    })
}

/// Returns a checkpoint of these bytes: this one, or else the one after their start.
fn or_start(
    alloc: Global,
    bytes: &[u8],
    max_blocks: Option<u64>,
    from: Option<Checkpoint>,
) -> Option<Checkpoint>
    requires { IfSome from (λ c. IsAt max_blocks bytes.now c) }
    ensures { IfSome result (λ c. IsAt max_blocks bytes.now c) }
{
    match from {
        Some(checkpoint) => Some(checkpoint),
        None => start(alloc, bytes, max_blocks),
    }
}

/// Moves a checkpoint of these bytes on over all whole segments and scans that stand before
/// `stop`. If one of them has a fault, `stop` is from then on where it stands, and there is no
/// checkpoint; nor is there one if the bytes don't begin with the start of a stream. The only error
/// is `OutOfMemory`.
pub fn move_on(
    alloc: Global,
    bytes: &[u8],
    max_blocks: Option<u64>,
    from: Option<Checkpoint>,
    stop: &mut usize,
) -> Result<Option<Checkpoint>>
    requires { IfSome from (λ c. IsAt max_blocks bytes.now c) }
    ensures at { IfOk result (λ o. IfSome o (λ c. IsAt max_blocks bytes.now c)) }
    ensures err { IfErr result (λ e. e ≡ OutOfMemory) }
{
    let Some(mut checkpoint) = or_start(alloc, bytes, max_blocks, from) else {
        return Ok(None);
    };
    let rest = &bytes[checkpoint.offset..];
    let room = stop.saturating_sub(checkpoint.offset);
    let length = whole_length(alloc, rest, checkpoint.step.met)?;
    let whole = length.min(room);
    if let Some(before) = pass(alloc, &mut checkpoint, &rest[..whole])? {
        *stop = checkpoint.offset.saturating_add(before);
        return Ok(None);
    }
    checkpoint.offset += whole;
    Ok(Some(checkpoint))
}
