//! Callers of `jpeg_lossless`.
ghost use Rattle.std.specs.Prelude.{◌≡◌, ◌≤◌, ◌<◌, ◌≤ℤ◌, map, pos};
ghost use Rattle.std.specs.List.{AllByRecursion};
ghost use Rattle.jpeg_bits.specs.Reading.{Answers};
ghost use Rattle.jpeg_lossless.specs.Codings.{IsCovered, part_in, way_by};
ghost use Rattle.jpeg_lossless.specs.Prediction.{prediction, start_of};
ghost use Rattle.jpeg_lossless.specs.Scans.{scan_at};

use jpeg_bits::error::Result;
use jpeg_bits::marker::Marker;
use jpeg_bits::scan::Predictor;
use jpeg_bits::source::Source;
use jpeg_lossless::lossless::predict;
use jpeg_lossless::scan::{Coding, Part, read_scan};
use std::alloc::Global;
use std::io::Read;

/// Calls `predict` for samples of 8 bits.
pub fn predicted(ra: i32, rb: i32, rc: i32, predictor: Predictor, ix: usize, iy: usize) -> i32
    requires left { (pos 0 ≤ℤ ra) × (ra ≤ℤ pos 65535) }
    requires above { (pos 0 ≤ℤ rb) × (rb ≤ℤ pos 65535) }
    requires corner { (pos 0 ≤ℤ rc) × (rc ≤ℤ pos 65535) }
    ensures { result ≡ prediction predictor (start_of 8 0) ix iy ra rb rc }
{
    predict(ra, rb, rc, predictor, 0, 8, ix, iy)
}

/// Calls `read_scan`.
pub fn planes<R: Read + Drop>(
    alloc: Global,
    source: &mut Source<R>,
    coding: Coding,
    parts: &[Part<'_>],
) -> Result<(Vec<Vec<u16>>, Option<Marker>)>
    requires wide { 0 < coding.wide }
    requires high { 0 < coding.high }
    requires point { coding.point_transform < coding.precision }
    requires precision { coding.precision ≤ 16 }
    requires covered { AllByRecursion (IsCovered coding.wide coding.high) (map part_in parts.now) }
    ensures { Answers (λ r. (map (λ v. v.items) r.0.items, r.1))
        (scan_at (way_by coding (map part_in parts.now))
        coding.high coding.restart_interval coding.point_transform)
        source.old result source.new }
{
    read_scan(alloc, source, coding, parts)
}
