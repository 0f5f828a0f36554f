//! How many bytes of a stream are whole segments and whole scans, by their lengths and markers.
ghost use Rattle.std.specs.Prelude.{◌≡◌, ◌≤◌, IfErr, IfOk, length};
ghost use Rattle.jpeg_bits.specs.declared.error.Error.TheVariants.{OutOfMemory};

use crate::fed::sources::{source_of, unread};
use jpeg_bits::error::{Error, Result, end_of_bytes, format_error};
use jpeg_bits::marker::{Marker, read_marker};
use jpeg_bits::source::Source;
use jpeg_bits::source::reads::{read_length, skip};
use jpeg_bits::source::slice_reader::SliceReader;
use std::alloc::Global;

/// Passes over the data of a scan, and returns the marker after them.
fn pass_data(alloc: Global, source: &mut Source<SliceReader<'_>>) -> Result<Marker> {
    for _ in 0..=u64::MAX {
        let marker = read_marker(alloc, source)?;
        if !matches!(marker, Marker::RST(_)) {
            return Ok(marker);
        }
    }
    Err(format_error(alloc, "found 2^64 restart markers, expected another"))
}

/// Passes over a segment from its marker on, which may have been met, and over the data of a scan
/// with the marker after them, which is returned. The error may be any: the segment or the scan
/// isn't whole, or the image doesn't go on after it.
fn pass_turn(
    alloc: Global,
    source: &mut Source<SliceReader<'_>>,
    met: Option<Marker>,
) -> Result<Option<Marker>> {
    let marker = match met {
        Some(marker) => marker,
        None => read_marker(alloc, source)?,
    };
    if !marker.has_length() {
        return Err(end_of_bytes());
    }
    let length = read_length(alloc, source)?;
    skip(alloc, source, length)?;
    if marker == Marker::SOS {
        return Ok(Some(pass_data(alloc, source)?));
    }
    Ok(None)
}

/// Returns how many of the bytes after a step, with this marker if one was met, are whole segments
/// and whole scans, each with its data and the marker after them. It reads no data: it goes by
/// lengths and markers alone, so that a segment or a scan may have a fault all the same. The only
/// error is `OutOfMemory`.
pub fn whole_length(alloc: Global, bytes: &[u8], met: Option<Marker>) -> Result<usize>
    ensures within { IfOk result (λ n. n ≤ length bytes.now) }
    ensures err { IfErr result (λ e. e ≡ OutOfMemory) }
{
    let mut source = source_of(alloc, bytes)?;
    let mut whole = 0;
    let mut met = met;
    for _ in 0..=u64::MAX {
        match pass_turn(alloc, &mut source, met) {
            Ok(next) => met = next,
            Err(Error::OutOfMemory) => return Err(Error::OutOfMemory),
            Err(_) => return Ok(whole),
        }
        whole = bytes.len().saturating_sub(unread(&source));
    }
    Ok(whole)
}
