//! Judges whether a stream is exactly what T.81 (ITU-T Rec. T.81, the JPEG standard) defines.
//!
//! This is no decoder, and shares no line of code with one: it reads a stream by the standard's
//! clauses, takes nothing that they don't define, and makes no picture. What is read of markers, of
//! tables, of bits and of blocks was written by the definitions of a writer, which the contracts
//! cite; and so was a whole stream, if its frame is sequential or progressive and has a picture, no
//! quantization table is defined after a scan, and no scan has a level Al above 7: it means the
//! picture of its coefficients ([`laws`]). A whole lossless stream was written so for its samples,
//! if no scan has a point transform.
#![tactic(auto)]

ghost use Rattle.std.specs.Prelude.{◌≡◌, IfOk, length};
ghost use Rattle.zaxbriar_strict.specs.Exact.{IsExact};
ghost use Rattle.zaxbriar_strict.specs.Verdicts.{IsWithin};
ghost use Rattle.zaxbriar_strict.specs.declared.verdict.Verdict.TheVariants.{Strict};

mod bits;
mod blocks;
mod cursor;
mod frame;
mod huffman;
mod intervals;
pub mod laws;
mod lossless;
mod quantization;
mod rule;
mod scan;
mod tables;
mod transform;
mod verdict;
mod walk;

use crate::rule::Stop;
pub use crate::verdict::{Departure, Refusal, Verdict};
use crate::walk::read_stream;
use std::alloc::Global;

/// Judges whether a stream is exactly what T.81 defines, in the interchange format: one image from
/// SOI to EOI, with all its tables, all blocks or samples of all components and all their bits.
///
/// Baseline, extended and progressive frames of 8 and 12 bits and lossless ones of 2 to 16 bits are
/// read, with Huffman coding. Of each segment, header and code it is checked what the clauses of
/// T.81 demand of it: which tables there are and what they hold, which scans may follow each other,
/// where markers stand, that no bits lack and none are left, that what fills a byte is ones, and
/// that samples can have the coefficients. What applications put into their segments is not asked.
///
/// Beside the stream at most `most_bytes` are used, 0 for no limit: 160 KiB, and of a progressive
/// frame 128 bytes for each block. It is checked before memory is taken. The time follows the bytes
/// of the stream and the blocks that scans have data for, and not the size that a header claims.
pub fn judge(alloc: Global, stream: &[u8], most_bytes: u64) -> Result<Verdict, Refusal>
    ensures within { IfOk result (IsWithin (length stream.now)) }
    // A stream that is strict is one that a writer emits for some coefficients, if its frame is
    // sequential or progressive and has a picture, no quantization table is defined after a scan,
    // no scan has a level Al above 7, and no Adobe segment gives an unknown transform; or for some
    // samples, if its frame is lossless and has samples, no scan has a point transform, and no such
    // Adobe segment is there.
    ensures exact { IfOk result (λ v. v ≡ Strict → IsExact stream.now) }
{
    match read_stream(alloc, stream, most_bytes) {
        Ok(()) => Ok(Verdict::Strict),
        Err(Stop::Departs(rule, offset)) => {
            let (section, rule) = rule.words();
            Ok(Verdict::Departs(Departure {
                section,
                rule,
                offset: offset.min(stream.len()) as u64,
            }))
        }
        Err(Stop::Unread(feature)) => Ok(Verdict::Unread(feature)),
        Err(Stop::Refused(refusal)) => Err(refusal),
    }
}
