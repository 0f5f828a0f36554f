//! Callers of `jpeg_segments`.
ghost use Rattle.std.specs.Prelude.{◌≡◌, ℕ, IsErrAnd};
ghost use Rattle.jpeg_bits.specs.Reading.{Answers, NamesFormat};
ghost use Rattle.jpeg_bits.specs.declared.marker.Marker.TheVariants.{APP, SOF};
ghost use Rattle.jpeg_segments.specs.Application.{com_at};

use jpeg_bits::error::Result;
use jpeg_bits::marker::Marker;
use jpeg_bits::source::Source;
use jpeg_segments::parser::{AppData, FrameInfo, parse_app, parse_com, parse_sof};
use std::alloc::Global;
use std::io::Read;

/// Calls `parse_com`.
pub fn comment<R: Read + Drop>(alloc: Global, source: &mut Source<R>) -> Result<Vec<u8>>
    ensures { Answers (λ v. v.items) com_at source.old result source.new }
{
    parse_com(alloc, source)
}

/// Calls `parse_app`, for a marker that is none of an application.
pub fn application<R: Read + Drop>(
    alloc: Global,
    source: &mut Source<R>,
    marker: Marker,
) -> Result<Option<AppData>>
    ensures { ((number : ℕ) → marker ≡ APP number → ⊥) → IsErrAnd result NamesFormat
        × (source.new ≡ source.old) }
{
    parse_app(alloc, source, marker)
}

/// Calls `parse_sof`, for a marker that is none of a frame.
pub fn frame<R: Read + Drop>(
    alloc: Global,
    source: &mut Source<R>,
    marker: Marker,
) -> Result<FrameInfo>
    ensures { ((number : ℕ) → marker ≡ SOF number → ⊥) → IsErrAnd result NamesFormat
        × (source.new ≡ source.old) }
{
    parse_sof(alloc, source, marker)
}
