//! The definitions of segments accept exactly what a writer emits by its parameters. Each law is a
//! theorem on a function without a body.
ghost use Rattle.std.specs.Prelude.{◌≡◌, ℕ, ◌<◌, ◌≤◌, ◌++◌, List, length, flat_map, Bool, Option};
ghost use Rattle.std.specs.Prelude.{Ok};
ghost use Rattle.std.specs.List.{AllByRecursion};
ghost use Rattle.jpeg_segments.specs.Quantization.{dqt_at};
ghost use Rattle.jpeg_segments.specs.HuffmanTables.{Tables, DefinedTable, greatest_destination};
ghost use Rattle.jpeg_segments.specs.HuffmanTables.{dht_at};
ghost use Rattle.jpeg_segments.specs.Application.{Application, app_at, dri_at};
ghost use Rattle.jpeg_segments.specs.Frame.{Frame, sof_at};
ghost use Rattle.jpeg_segments.specs.ScanHeader.{Scan, sos_at};
ghost use Rattle.jpeg_segments.specs.WrittenSegments.{u16_bytes, with_length, QuantizationTable};
ghost use Rattle.jpeg_segments.specs.WrittenSegments.{IsQuantizationTable, quantization_bytes};
ghost use Rattle.jpeg_segments.specs.WrittenSegments.{quantization_tables, IsHuffmanTable};
ghost use Rattle.jpeg_segments.specs.WrittenSegments.{huffman_bytes, huffman_tables};
ghost use Rattle.jpeg_segments.specs.WrittenSegments.{ApplicationData, IsApplicationData};
ghost use Rattle.jpeg_segments.specs.WrittenSegments.{application_parts, FrameHeader};
ghost use Rattle.jpeg_segments.specs.WrittenSegments.{frame_payload, IsFrameHeader, frame_written};
ghost use Rattle.jpeg_segments.specs.ScanHeaders.{ScanHeader, scan_payload, IsScan, scan_written};

/// A segment that is written by its parameters is accepted, with the meaning that they have,
/// whatever follows it.
pub fn written_segments_are_read()
    ensures quantization { (ts : List QuantizationTable) (rest : List ℕ) →
        AllByRecursion IsQuantizationTable ts →
        dqt_at (with_length (flat_map quantization_bytes ts) ++ rest)
        ≡ Ok (quantization_tables ts, rest) }
    ensures huffman { (is_baseline : Option Bool) (ts : List DefinedTable) (rest : List ℕ) →
        AllByRecursion (IsHuffmanTable (greatest_destination is_baseline)) ts →
        dht_at is_baseline (with_length (flat_map huffman_bytes ts) ++ rest)
        ≡ Ok (huffman_tables ts, rest) }
    ensures interval { (n : ℕ) (rest : List ℕ) →
        dri_at (with_length (u16_bytes n) ++ rest) ≡ Ok (n, rest) }
    ensures application { (d : ApplicationData) (rest : List ℕ) → IsApplicationData d →
        app_at (application_parts d).0 (with_length (application_parts d).1 ++ rest)
        ≡ Ok ((application_parts d).2, rest) }
    ensures frame { (number : ℕ) (h : FrameHeader) (rest : List ℕ) → IsFrameHeader number h →
        sof_at number (with_length (frame_payload h) ++ rest) ≡ Ok (frame_written number h, rest) }
    ensures scan { (frame : Frame) (h : ScanHeader) (rest : List ℕ) → IsScan frame h →
        sos_at frame (with_length (scan_payload h) ++ rest) ≡ Ok (scan_written frame h, rest) }
{}

/// Bytes of which a segment is accepted begin with one that is written by its parameters, with the
/// meaning that they have.
pub fn accepted_segments_are_written()
    ensures quantization { (bytes rest : List ℕ) (tables : List (Option (List ℕ))) →
        AllByRecursion (λ b. b < 256) bytes → dqt_at bytes ≡ Ok (tables, rest) →
        (ts : List QuantizationTable) × AllByRecursion IsQuantizationTable ts
        × (tables ≡ quantization_tables ts)
        × (bytes ≡ with_length (flat_map quantization_bytes ts) ++ rest) }
    ensures huffman { (is_baseline : Option Bool) (bytes rest : List ℕ) (tables : Tables) →
        AllByRecursion (λ b. b < 256) bytes → dht_at is_baseline bytes ≡ Ok (tables, rest) →
        (ts : List DefinedTable)
        × AllByRecursion (IsHuffmanTable (greatest_destination is_baseline)) ts
        × (tables ≡ huffman_tables ts)
        × (bytes ≡ with_length (flat_map huffman_bytes ts) ++ rest) }
    ensures interval { (bytes rest : List ℕ) (n : ℕ) →
        AllByRecursion (λ b. b < 256) bytes → dri_at bytes ≡ Ok (n, rest) →
        bytes ≡ with_length (u16_bytes n) ++ rest }
    ensures application { (number : ℕ) (bytes rest : List ℕ) (said : Option Application) →
        number ≤ 15 → AllByRecursion (λ b. b < 256) bytes → app_at number bytes ≡ Ok (said, rest) →
        (d : ApplicationData) × IsApplicationData d × ((application_parts d).0 ≡ number)
        × (said ≡ (application_parts d).2)
        × (bytes ≡ with_length (application_parts d).1 ++ rest) }
    ensures frame { (number : ℕ) (bytes rest : List ℕ) (frame : Frame) → number ≤ 3 →
        AllByRecursion (λ b. b < 256) bytes → sof_at number bytes ≡ Ok (frame, rest) →
        (h : FrameHeader) × IsFrameHeader number h
        × (frame ≡ frame_written number h)
        × (bytes ≡ with_length (frame_payload h) ++ rest) }
    ensures scan { (frame : Frame) (bytes rest : List ℕ) (scan : Scan) →
        AllByRecursion (λ b. b < 256) bytes → sos_at frame bytes ≡ Ok (scan, rest) →
        (h : ScanHeader) × IsScan frame h
        × (scan ≡ scan_written frame h)
        × (bytes ≡ with_length (scan_payload h) ++ rest) }
{}
