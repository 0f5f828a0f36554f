//! What is brought of a writer's stream that is cut: what was said and sent up to the cut.
ghost use Rattle.std.specs.Prelude.{◌≡◌, ◌*◌, ◌≤◌, ℕ, List, [], ◌∷◌, ◌++◌, length, Some};
ghost use Rattle.std.specs.Prelude.{None, Ok};
ghost use Rattle.jpeg_bits.specs.Passes.{Pass, whole_pass};
ghost use Rattle.jpeg_bits.specs.Reading.{End};
ghost use Rattle.jpeg_bits.specs.Written.{marker};
ghost use Rattle.jpeg_segments.specs.Frame.{Frame};
ghost use Rattle.jpeg_segments.specs.ScanHeaders.{IsScan, ScanHeader, scan_payload, scan_written};
ghost use Rattle.jpeg_segments.specs.WrittenSegments.{Segment, marker_code, payload_of};
ghost use Rattle.jpeg_segments.specs.WrittenSegments.{with_length};
ghost use Rattle.jpeg_meaning.specs.ArrayPictures.{TakesPicture, picture_of_array};
ghost use Rattle.jpeg_meaning.specs.Found.{Said, nothing_found};
ghost use Rattle.jpeg_meaning.specs.Levels.{Is8Bit, Levels};
ghost use Rattle.jpeg_meaning.specs.Order.{spots_of};
ghost use Rattle.jpeg_meaning.specs.SaidSegments.{Stands};
ghost use Rattle.jpeg_meaning.specs.ScanSegments.{Coding, components_of, pass_of};
ghost use Rattle.jpeg_meaning.specs.Shown.{Shown, shown, whole_rows};
ghost use Rattle.jpeg_meaning.specs.Stream.{all_brought, told_of};
ghost use Rattle.jpeg_meaning.specs.WrittenImages.{WritesImage, WritesImageScan};
ghost use Rattle.jpeg_meaning.specs.WrittenScans.{Coefficients, WritesScan};
ghost use Rattle.jpeg_meaning.specs.declared.settings.Settings.{Settings};
ghost use Rattle.jpeg_evidence.specs.CutImages.{BringsCut, BringsFront, HoldsCut, WritesFront};
ghost use Rattle.jpeg_evidence.specs.CutImages.{picture_held};
ghost use Rattle.jpeg_evidence.specs.CutStreams.{codings_of_two, blocks_of_two, frame_of_two};
ghost use Rattle.jpeg_evidence.specs.FirstBlocks.{StandWhole};
ghost use Rattle.jpeg_meaning.specs.LongerStreams.{IsMost};

/// A stream that a writer emits for the coefficients of an image, cut anywhere within the data of a
/// scan or right after them, brings what segments in front of the scan have said, and of this scan
/// the first blocks as they were sent, exactly those whose data stand whole in front of the cut;
/// the others are as before it. A progressive frame has kept the blocks that earlier scans have
/// sent. Planes that were decided before the scan aren't spoken of.
pub fn cut_images_bring_what_was_sent()
    ensures { (array : Coefficients) (said : Said) (levels next : ℕ → Levels) (frame : Frame)
        (first front more : List ℕ) (fill : ℕ) (h : ScanHeader)
        → ((index row column : ℕ) → Is8Bit (array index row column))
        → WritesFront array said levels first → said.frame ≡ Some frame → IsScan frame h
        → (sends : WritesImageScan array said levels frame h (front ++ more) next)
        → (has : BringsCut array said levels frame (scan_written frame h) sends.codings
        (all_brought None nothing_found (first ++ marker fill 218 (with_length (scan_payload h)
        ++ front))).found)
        × IsMost (λ count. StandWhole frame said.restart (pass_of (scan_written frame h))
        sends.codings sends.written.sent count front) (length has.done) }
{}

/// A stream that is cut within a segment or the header of a scan, or right after the marker, brings
/// what segments in front of it have said, and nothing that this one says. A progressive frame has
/// kept the blocks that scans in front have sent. Planes that were decided aren't spoken of.
pub fn cut_segments_add_nothing()
    ensures segment { (array : Coefficients) (said : Said) (levels : ℕ → Levels)
        (first part more : List ℕ) (fill : ℕ) (s : Segment)
        → ((index row column : ℕ) → Is8Bit (array index row column))
        → WritesFront array said levels first → Stands said s
        → with_length (payload_of s) ≡ part ++ more → (more ≡ [] → ⊥)
        → BringsFront array said levels
        (all_brought None nothing_found (first ++ marker fill (marker_code s) part)).found }
    ensures header { (array : Coefficients) (said : Said) (levels : ℕ → Levels) (frame : Frame)
        (first part more : List ℕ) (fill : ℕ) (h : ScanHeader)
        → ((index row column : ℕ) → Is8Bit (array index row column))
        → WritesFront array said levels first → said.frame ≡ Some frame → IsScan frame h
        → with_length (scan_payload h) ≡ part ++ more → (more ≡ [] → ⊥)
        → BringsFront array said levels
        (all_brought None nothing_found (first ++ marker fill 218 part)).found }
{}

/// The data of a scan that a writer emits have its first blocks whole, however many, also where
/// other bytes come after the data: `StandWhole`, by which `HoldsCut` says what is there of a scan
/// that is cut, is no narrower than that.
pub fn whole_data_have_all_blocks()
    ensures { (frame : Frame) (restart : ℕ) (p : Pass) (codings : List Coding)
        (array : Coefficients) (bytes more : List ℕ) (count : ℕ)
        (w : WritesScan frame restart p codings array bytes)
        → count ≤ length (spots_of frame (components_of codings))
        → StandWhole frame restart p codings w.sent count (bytes ++ more) }
{}

/// The first byte of the data of `two_blocks`, of six bits each, has the first block whole.
pub fn first_byte_has_a_block()
    ensures { StandWhole frame_of_two 0 whole_pass codings_of_two blocks_of_two 1 (65 ∷ []) }
{}

/// Each beginning of a stream that a writer emits for the coefficients of an image, wherever it is
/// cut, shows the picture of the blocks that it holds, if it shows one. These are the coefficients
/// at the levels that the whole scans in it have sent; and of a scan that is cut inside its data,
/// the first blocks at the levels after this scan, exactly those whose data stand whole in front of
/// the cut. A component of which nothing has come is zeros. The number of complete rows is that of
/// the rows above the row of MCUs of the first block that this scan lacks, or of all rows; and 0 if
/// a component lacks what its picture is made of, so that the image couldn't be closed there. Where
/// anything was cut off, even the last byte of EOI, the fault that is named is that the bytes end.
pub fn cut_images_show_what_was_sent()
    ensures { (settings : Settings) (array : Coefficients) (image front more : List ℕ)
        (final : Said) (last : ℕ → Levels)
        → ((index row column : ℕ) → Is8Bit (array index row column))
        → WritesImage array image final last → image ≡ front ++ more
        → (s : Shown) → shown settings front ≡ Ok s
        → (part : List ℕ) × (front ≡ 255 ∷ 216 ∷ part) × (said : Said) × (blocks : Coefficients)
        × HoldsCut array blocks part said (whole_rows front) × (s.told ≡ told_of said)
        × (picture_held settings said blocks ≡ Ok s.picture)
        × ((more ≡ [] → ⊥) → s.fault ≡ Some End) }
{}

/// Each beginning of such a stream that has its SOI holds blocks of the image, and the picture of
/// these is shown, if the settings take the picture of what its whole segments say: there is a
/// frame, its picture is within the limit, and its components can have the colour transform. Where
/// anything was cut off, the fault that is named is that the bytes end.
pub fn cut_images_are_shown()
    ensures { (settings : Settings) (array : Coefficients) (image part more : List ℕ)
        (final : Said) (last : ℕ → Levels)
        → ((index row column : ℕ) → Is8Bit (array index row column))
        → WritesImage array image final last → image ≡ (255 ∷ 216 ∷ part) ++ more
        → (said : Said) × (blocks : Coefficients)
        × HoldsCut array blocks part said (whole_rows (255 ∷ 216 ∷ part))
        × (TakesPicture settings said → (s : Shown) × (shown settings (255 ∷ 216 ∷ part) ≡ Ok s)
        × (s.told ≡ told_of said) × (picture_held settings said blocks ≡ Ok s.picture)
        × ((more ≡ [] → ⊥) → s.fault ≡ Some End)) }
{}

/// A stream that a writer emits whole for the coefficients of an image is never taken for one that
/// is cut, whatever bytes follow it. If the settings allow the picture of these coefficients, as
/// far as they were sent, it is shown, as `decode` gives it; what is told is what the segments say;
/// and no fault is named.
pub fn whole_images_are_shown_whole()
    ensures { (settings : Settings) (array : Coefficients) (image rest picture : List ℕ)
        (final : Said) (last : ℕ → Levels)
        → ((index row column : ℕ) → Is8Bit (array index row column))
        → WritesImage array image final last
        → picture_of_array settings final array last ≡ Ok picture
        → shown settings (image ++ rest)
        ≡ Ok (record { told = told_of final; picture = picture; fault = None }) }
{}
