//! The rules of headers, which writer and reader share, are those of T.81's tables, and a scan
//! codes what its header says.
ghost use Rattle.std.specs.Prelude.{◌≡◌, ℕ, ◌<◌, ◌==◌, false, map, zip};
ghost use Rattle.jpeg_bits.specs.Passes.{Pass};
ghost use Rattle.jpeg_segments.specs.Frame.{Frame};
ghost use Rattle.jpeg_segments.specs.ScanHeader.{Scan};
ghost use Rattle.jpeg_segments.specs.ScanHeaders.{IsScan, ScanHeader, scan_written, selectors_in};
ghost use Rattle.jpeg_segments.specs.WrittenSegments.{FrameHeader, IsFrameHeader};
ghost use Rattle.jpeg_meaning.specs.Found.{Said};
ghost use Rattle.jpeg_meaning.specs.ScanSegments.{pass_of, tables_of};
ghost use Rattle.jpeg_meaning.specs.Scripts.{last_in};
ghost use Rattle.jpeg_evidence.specs.HeaderRules.{KeepsFrameRules, KeepsScanRules, pass_by};

/// A frame header of SOF0 to SOF3 keeps the rules of the definitions where it keeps those of T.81,
/// Table B.2, and nowhere else. (Own to the decoder: Y is not 0, and P of a lossless frame is
/// bounded above alone, since `HasSamples` asks for 2 at least.)
pub fn frame_headers_keep_the_table()
    ensures kept { (number : ℕ) (h : FrameHeader) →
        IsFrameHeader number h → KeepsFrameRules number h }
    ensures enough { (number : ℕ) (h : FrameHeader) →
        KeepsFrameRules number h → IsFrameHeader number h }
{}

/// A scan header keeps the rules of the definitions where it keeps those of T.81, Table B.3 and
/// A.2.3, and nowhere else.
pub fn scan_headers_keep_the_table()
    ensures kept { (frame : Frame) (h : ScanHeader) → IsScan frame h → KeepsScanRules frame h }
    ensures enough { (frame : Frame) (h : ScanHeader) → KeepsScanRules frame h → IsScan frame h }
{}

/// A scan codes the coefficients Ss to Se at level Al, for the first time where Ah is 0, and each
/// of its components by the tables at its own destinations; where no MJPEG frame is named, these
/// are the tables in force.
pub fn scans_code_what_headers_say()
    ensures pass { (frame : Frame) (h : ScanHeader) → h.low < 16 →
        pass_of (scan_written frame h) ≡ pass_by (last_in frame.process h) h }
    ensures slots { (frame : Frame) (h : ScanHeader) →
        zip (scan_written frame h).components
        (zip (scan_written frame h).dc_destinations (scan_written frame h).ac_destinations)
        ≡ map (λ s. (s.component, (s.dc, s.ac))) (selectors_in h) }
    ensures tables { (said : Said) (scan : Scan) → said.metadata.avi1 ≡ false →
        tables_of said scan ≡ said.huffman }
{}
