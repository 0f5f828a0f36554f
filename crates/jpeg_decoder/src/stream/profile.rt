//! The ICC profile of a stream, by its parts (ICC.1, Annex B.4).
ghost use Rattle.std.specs.Prelude.{◌≡◌, ◌==◌, Some, None, MatchResult, filter_map, flat_map};
ghost use Rattle.std.specs.Prelude.{if◌then◌else◌, length, map, option_map};
ghost use Rattle.std.specs.Option.{option_copied};
ghost use Rattle.std.specs.List.{find, list_all, range_with_len};
ghost use Rattle.jpeg_bits.specs.declared.error.Error.TheVariants.{OutOfMemory};
ghost use Rattle.jpeg_segments.specs.FrameView.{chunk_in};
ghost use Rattle.jpeg_meaning.specs.Profile.{profile_of};

use jpeg_bits::error::Result;
use jpeg_segments::parser::IccChunk;
use std::alloc::Global;

/// Returns the first part of this number.
fn part_of(chunks: &[IccChunk], number: usize) -> Option<&IccChunk>
    ensures { option_copied result ≡ find (λ c. c.seq_no == number) chunks.now }
{
    chunks
        .iter()
        .find(|chunk| usize::from(chunk.seq_no) == number)
}

/// Returns the bytes of the first part of this number.
fn part(chunks: &[IccChunk], number: usize) -> Option<&[u8]>
    ensures { option_copied result ≡ option_map (λ c. c.bytes)
        (find (λ c. c.number == number) (map chunk_in chunks.now)) }
{
    match part_of(chunks, number) {
        Some(chunk) => Some(chunk.bytes.as_slice()),
        None => None,
    }
}

fn all_name(chunks: &[IccChunk], count: usize) -> bool
    ensures { result ≡ list_all (λ c. c.num_markers == count) chunks.now }
{
    chunks
        .iter()
        .all(|chunk| usize::from(chunk.num_markers) == count)
}

/// Returns whether each part names this number of parts.
#[tactic(auto, using(crate::proofs::Rules::parts))]
fn have_count(chunks: &[IccChunk], count: usize) -> bool
    ensures { result ≡ list_all (λ c. c.count == count) (map chunk_in chunks.now) }
{
    all_name(chunks, count)
}

/// Returns the bytes of this many parts, numbered from 1, in turn.
fn joined(alloc: Global, chunks: &[IccChunk], count: usize) -> Result<Option<Vec<u8>>>
    ensures { let parts = filter_map (λ k. find (λ c. c.number == k) (map chunk_in chunks.now))
        (range_with_len 1 count) in
        MatchResult result (λ o. option_map (λ v. v.items) o
        ≡ (if length parts == count then Some (flat_map (λ c. c.bytes) parts) else None))
        (λ e. e ≡ OutOfMemory) }
{
    let mut bytes = Vec::new(alloc);
    for index in 0..count {
        match part(chunks, index + 1) {
            Some(more) => bytes.extend_from_slice(more)?,
            None => return Ok(None),
        }
    }
    Ok(Some(bytes))
}

/// Joins the parts of an ICC profile (ICC.1, Annex B.4): returns it if there are 1 to 254 parts,
/// each names their number, and they are numbered 1, 2 and so on, in any order. The only error is
/// `OutOfMemory`.
#[tactic(auto, unfolding(jpeg_meaning::specs::Profile::profile_of))]
pub fn join_profile(alloc: Global, chunks: &[IccChunk]) -> Result<Option<Vec<u8>>>
    ensures { MatchResult result (λ o. option_map (λ v. v.items) o
        ≡ profile_of (map chunk_in chunks.now)) (λ e. e ≡ OutOfMemory) }
{
    let count = chunks.len();
    if count == 0 || count > 254 || !have_count(chunks, count) {
        return Ok(None);
    }
    joined(alloc, chunks, count)
}
