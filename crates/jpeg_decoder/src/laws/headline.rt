//! The main theorem: a stream that is written for coefficients means the picture of those
//! coefficients. Theorems, each on a function without a body.
#![tactic(auto, using(crate::proofs::Rules::images))]

ghost use Rattle.std.specs.Prelude.{◌≡◌, ℕ, ◌≤◌, [], ◌∷◌, ◌++◌, length, List, Some, Ok, false};
ghost use Rattle.std.specs.Prelude.{true, map, option_map};
ghost use Rattle.std.specs.List.{AllByRecursion};
ghost use Rattle.jpeg_bits.specs.Passes.{Block};
ghost use Rattle.jpeg_segments.specs.Frame.{Frame};
ghost use Rattle.jpeg_segments.specs.ScanHeaders.{ScanHeader, scan_written};
ghost use Rattle.jpeg_segments.specs.declared.scale.Scale.{Scale};
ghost use Rattle.jpeg_segments.specs.WrittenSegments.{FrameHeader, IsFrameHeader, frame_written};
ghost use Rattle.jpeg_meaning.specs.Output.{default_settings, header_line_of, output_of};
ghost use Rattle.jpeg_meaning.specs.AcceptedFrames.{HasPicture};
ghost use Rattle.jpeg_meaning.specs.Segments.{accepted};
ghost use Rattle.jpeg_meaning.specs.Pixels.{info_of};
ghost use Rattle.jpeg_meaning.specs.ArrayPictures.{meaning_of_array, picture_of_array};
ghost use Rattle.jpeg_meaning.specs.ArrayPictures.{TakesPicture};
ghost use Rattle.jpeg_meaning.specs.DecodedImages.{Size, at_size};
ghost use Rattle.jpeg_meaning.specs.Levels.{Is8Bit, Levels, cut, nothing_sent};
ghost use Rattle.jpeg_meaning.specs.Stream.{meaning, scaled_meaning, scaled_to, sized_meaning};
ghost use Rattle.jpeg_meaning.specs.Stream.{sized_to, told_of};
ghost use Rattle.jpeg_meaning.specs.FrameSamples.{AreBytes};
ghost use Rattle.jpeg_meaning.specs.ScanSegments.{Coding, is_progressive, pass_of};
ghost use Rattle.jpeg_meaning.specs.Scripts.{IsScript, IsWrittenUnder, ScriptedScan, Suffices};
ghost use Rattle.jpeg_meaning.specs.Scripts.{scans_in};
ghost use Rattle.jpeg_meaning.specs.Found.{nothing_said, Said};
ghost use Rattle.jpeg_meaning.specs.WholeImages.{AllComplete, whole_meaning};
ghost use Rattle.jpeg_meaning.specs.WorkedImages.{IsWhollyWritten, grey_array, grey_bytes};
ghost use Rattle.jpeg_meaning.specs.WorkedImages.{colour_array, colour_bytes};
ghost use Rattle.jpeg_meaning.specs.WrittenImages.{ClosesImage, WritesImage, WritesImageScan};
ghost use Rattle.jpeg_meaning.specs.WrittenImages.{WritesPart};
ghost use Rattle.jpeg_meaning.specs.WrittenParts.{AgreeOnOwn, HaveSamePicture, WritesFront};
ghost use Rattle.jpeg_meaning.specs.WrittenParts.{picture_meant_by};
ghost use Rattle.jpeg_meaning.specs.WrittenScans.{Coefficients, HasTable, IsComplete};
ghost use Rattle.jpeg_meaning.specs.WrittenScans.{IsLegalScan, levels_after};
ghost use Rattle.jpeg_meaning.specs.declared.settings.Settings.{Settings};

/// A stream that is written for the coefficients of 8-bit samples means the picture of those
/// coefficients, cut at the bits that were sent. The stream may be sequential or progressive, under
/// any legal script, and a progressive one may end after any scan. What follows the image is left.
pub fn images_are_read()
    ensures { (settings : Settings) (array : Coefficients) (bytes rest : List ℕ) (final : Said)
        (last : ℕ → Levels) →
        ((index row column : ℕ) → Is8Bit (array index row column)) →
        WritesImage array bytes final last →
        meaning settings (bytes ++ rest) ≡ meaning_of_array settings final array last rest }
{}

/// Read at a scale, it means the picture of those coefficients at that scale: the least that
/// reaches a size, or one that is named.
pub fn images_are_read_at_scales()
    ensures sized { (width height : ℕ) (settings : Settings) (array : Coefficients)
        (bytes rest : List ℕ) (final : Said) (last : ℕ → Levels) →
        ((index row column : ℕ) → Is8Bit (array index row column)) →
        WritesImage array bytes final last →
        sized_meaning width height settings (bytes ++ rest)
        ≡ meaning_of_array settings (sized_to width height final) array last rest }
    ensures scaled { (scale : Scale) (settings : Settings) (array : Coefficients)
        (bytes rest : List ℕ) (final : Said) (last : ℕ → Levels) →
        ((index row column : ℕ) → Is8Bit (array index row column)) →
        WritesImage array bytes final last →
        scaled_meaning scale settings (bytes ++ rest)
        ≡ meaning_of_array settings (scaled_to scale final) array last rest }
{}

/// If every bit of each coefficient was sent, it means the picture of the coefficients themselves,
/// at every scale.
pub fn complete_images_are_whole()
    ensures whole { (settings : Settings) (array : Coefficients) (bytes rest : List ℕ)
        (final : Said) (last : ℕ → Levels) (frame : Frame) →
        ((index row column : ℕ) → Is8Bit (array index row column)) →
        WritesImage array bytes final last →
        final.frame ≡ Some frame → AllComplete frame last →
        meaning settings (bytes ++ rest) ≡ whole_meaning settings final array rest }
    ensures sized { (width height : ℕ) (settings : Settings) (array : Coefficients)
        (bytes rest : List ℕ) (final : Said) (last : ℕ → Levels) (frame : Frame) →
        ((index row column : ℕ) → Is8Bit (array index row column)) →
        WritesImage array bytes final last →
        final.frame ≡ Some frame → AllComplete frame last →
        sized_meaning width height settings (bytes ++ rest)
        ≡ whole_meaning settings (sized_to width height final) array rest }
    ensures scaled { (scale : Scale) (settings : Settings) (array : Coefficients)
        (bytes rest : List ℕ) (final : Said) (last : ℕ → Levels) (frame : Frame) →
        ((index row column : ℕ) → Is8Bit (array index row column)) →
        WritesImage array bytes final last →
        final.frame ≡ Some frame → AllComplete frame last →
        scaled_meaning scale settings (bytes ++ rest)
        ≡ whole_meaning settings (scaled_to scale final) array rest }
{}

/// A sequential stream that is written for the coefficients of 8-bit samples means the picture of
/// those coefficients themselves, at every scale.
pub fn sequential_images_are_read()
    ensures whole { (settings : Settings) (array : Coefficients) (bytes rest : List ℕ)
        (final : Said) (last : ℕ → Levels) (frame : Frame) →
        ((index row column : ℕ) → Is8Bit (array index row column)) →
        WritesImage array bytes final last →
        final.frame ≡ Some frame → is_progressive frame.process ≡ false →
        meaning settings (bytes ++ rest) ≡ whole_meaning settings final array rest }
    ensures sized { (width height : ℕ) (settings : Settings) (array : Coefficients)
        (bytes rest : List ℕ) (final : Said) (last : ℕ → Levels) (frame : Frame) →
        ((index row column : ℕ) → Is8Bit (array index row column)) →
        WritesImage array bytes final last →
        final.frame ≡ Some frame → is_progressive frame.process ≡ false →
        sized_meaning width height settings (bytes ++ rest)
        ≡ whole_meaning settings (sized_to width height final) array rest }
    ensures scaled { (scale : Scale) (settings : Settings) (array : Coefficients)
        (bytes rest : List ℕ) (final : Said) (last : ℕ → Levels) (frame : Frame) →
        ((index row column : ℕ) → Is8Bit (array index row column)) →
        WritesImage array bytes final last →
        final.frame ≡ Some frame → is_progressive frame.process ≡ false →
        scaled_meaning scale settings (bytes ++ rest)
        ≡ whole_meaning settings (scaled_to scale final) array rest }
{}

/// A stream of first scans alone, each with Ah = 0 in its header, means the picture of the
/// coefficients, cut at the levels of its scans, at every scale. Nothing is refined in it.
pub fn first_scans_are_read()
    ensures whole { (settings : Settings) (array : Coefficients) (bytes rest : List ℕ)
        (final : Said) (last : ℕ → Levels) →
        ((index row column : ℕ) → Is8Bit (array index row column)) →
        (written : WritesImage array bytes final last) →
        AllByRecursion (λ s. s.header.high ≡ 0) (scans_in written.written) →
        meaning settings (bytes ++ rest) ≡ meaning_of_array settings final array last rest }
    ensures sized { (width height : ℕ) (settings : Settings) (array : Coefficients)
        (bytes rest : List ℕ) (final : Said) (last : ℕ → Levels) →
        ((index row column : ℕ) → Is8Bit (array index row column)) →
        (written : WritesImage array bytes final last) →
        AllByRecursion (λ s. s.header.high ≡ 0) (scans_in written.written) →
        sized_meaning width height settings (bytes ++ rest)
        ≡ meaning_of_array settings (sized_to width height final) array last rest }
    ensures scaled { (scale : Scale) (settings : Settings) (array : Coefficients)
        (bytes rest : List ℕ) (final : Said) (last : ℕ → Levels) →
        ((index row column : ℕ) → Is8Bit (array index row column)) →
        (written : WritesImage array bytes final last) →
        AllByRecursion (λ s. s.header.high ≡ 0) (scans_in written.written) →
        scaled_meaning scale settings (bytes ++ rest)
        ≡ meaning_of_array settings (scaled_to scale final) array last rest }
{}

/// A sequential stream sends every bit of each coefficient.
pub fn sequential_images_are_complete()
    ensures { (array : Coefficients) (bytes : List ℕ) (final : Said) (last : ℕ → Levels)
        (frame : Frame) →
        WritesImage array bytes final last →
        final.frame ≡ Some frame → is_progressive frame.process ≡ false →
        AllComplete frame last }
{}

/// If the settings accept the picture, there is one, and the stream means it, at full size and at
/// every scale.
pub fn images_have_pictures()
    ensures plain { (settings : Settings) (array : Coefficients) (bytes rest : List ℕ)
        (final : Said) (last : ℕ → Levels) →
        ((index row column : ℕ) → Is8Bit (array index row column)) →
        WritesImage array bytes final last → TakesPicture settings final →
        (picture : List ℕ) × (picture_of_array settings final array last ≡ Ok picture)
        × (meaning settings (bytes ++ rest)
        ≡ Ok (record { 0 = record { 0 = told_of final; 1 = picture }; 1 = rest })) }
    ensures sized { (width height : ℕ) (settings : Settings) (array : Coefficients)
        (bytes rest : List ℕ) (final : Said) (last : ℕ → Levels) →
        ((index row column : ℕ) → Is8Bit (array index row column)) →
        WritesImage array bytes final last → TakesPicture settings (sized_to width height final) →
        (picture : List ℕ)
        × (picture_of_array settings (sized_to width height final) array last ≡ Ok picture)
        × (sized_meaning width height settings (bytes ++ rest)
        ≡ Ok (record {
          0 = record { 0 = told_of (sized_to width height final); 1 = picture };
          1 = rest;
        })) }
    ensures scaled { (scale : Scale) (settings : Settings) (array : Coefficients)
        (bytes rest : List ℕ) (final : Said) (last : ℕ → Levels) →
        ((index row column : ℕ) → Is8Bit (array index row column)) →
        WritesImage array bytes final last → TakesPicture settings (scaled_to scale final) →
        (picture : List ℕ)
        × (picture_of_array settings (scaled_to scale final) array last ≡ Ok picture)
        × (scaled_meaning scale settings (bytes ++ rest)
        ≡ Ok (record {
          0 = record { 0 = told_of (scaled_to scale final); 1 = picture };
          1 = rest;
        })) }
{}

/// If the default settings accept the picture, the program prints it after its size and format.
pub fn images_are_printed()
    ensures { (array : Coefficients) (image rest picture : List ℕ) (final : Said)
        (last : ℕ → Levels) →
        ((index row column : ℕ) → Is8Bit (array index row column)) →
        WritesImage array image final last →
        picture_of_array default_settings final array last ≡ Ok picture →
        output_of (image ++ rest)
        ≡ Some (header_line_of (option_map info_of final.frame) ++ picture) }
{}

/// A block of which every bit was sent is itself.
pub fn complete_blocks_are_whole()
    ensures { (levels : Levels) (c : Block) →
        IsComplete levels → length c.acs ≡ length levels.acs → cut levels c ≡ c }
{}

/// Streams that send every bit of the same coefficients mean the same picture, whatever their
/// processes, Huffman tables, restart intervals and scripts, if their headers give the picture the
/// same size, components, quantization tables and choice of colours.
pub fn pictures_are_of_coefficients()
    ensures { (settings : Settings) (array : Coefficients) (first second rest others : List ℕ)
        (a b : Said) (last_a last_b : ℕ → Levels) →
        ((index row column : ℕ) → Is8Bit (array index row column)) →
        WritesImage array first a last_a → WritesImage array second b last_b →
        (same : HaveSamePicture a b) →
        AllComplete same.frame_a last_a → AllComplete same.frame_b last_b →
        picture_meant_by settings (first ++ rest) ≡ picture_meant_by settings (second ++ others) }
{}

/// A stream for an array is one for each array that has the same blocks without padding, and their
/// pictures are the same, at full size and at every scale: no sample comes of padding.
pub fn padding_is_not_seen()
    ensures written { (a b : Coefficients) (bytes : List ℕ) (final : Said) (last : ℕ → Levels)
        (frame : Frame) →
        WritesImage a bytes final last → final.frame ≡ Some frame → AgreeOnOwn frame a b →
        WritesImage b bytes final last }
    ensures pictured { (size : Size) (settings : Settings) (a b : Coefficients) (bytes : List ℕ)
        (final : Said) (last : ℕ → Levels) (frame : Frame) →
        ((index row column : ℕ) → Is8Bit (a index row column)) →
        ((index row column : ℕ) → Is8Bit (b index row column)) →
        WritesImage a bytes final last → final.frame ≡ Some frame → AgreeOnOwn frame a b →
        picture_of_array settings (at_size size final) a last
        ≡ picture_of_array settings (at_size size final) b last }
{}

/// A progressive stream may be cut after any of its scans and closed: it then means the picture of
/// the coefficients, cut at the bits that were sent so far.
pub fn progressive_images_may_end_early()
    ensures written { (array : Coefficients) (front more : List ℕ) (said final : Said)
        (levels last : ℕ → Levels) →
        WritesFront array nothing_said (λ k. nothing_sent) front said levels →
        WritesPart array ClosesImage said levels more final last →
        WritesImage array (255 ∷ 216 ∷ (front ++ more)) final last }
    ensures closed { (array : Coefficients) (front : List ℕ) (said : Said) (levels : ℕ → Levels)
        (frame : Frame) →
        WritesFront array nothing_said (λ k. nothing_sent) front said levels →
        said.scanned ≡ true → said.frame ≡ Some frame → is_progressive frame.process ≡ true →
        AllByRecursion (HasTable said) frame.components →
        WritesImage array (255 ∷ 216 ∷ (front ++ (255 ∷ 217 ∷ []))) said levels }
    ensures pictured { (settings : Settings) (array : Coefficients) (front rest : List ℕ)
        (said : Said) (levels : ℕ → Levels) (frame : Frame) →
        ((index row column : ℕ) → Is8Bit (array index row column)) →
        WritesFront array nothing_said (λ k. nothing_sent) front said levels →
        said.scanned ≡ true → said.frame ≡ Some frame → is_progressive frame.process ≡ true →
        AllByRecursion (HasTable said) frame.components →
        meaning settings ((255 ∷ 216 ∷ (front ++ (255 ∷ 217 ∷ []))) ++ rest)
        ≡ meaning_of_array settings said array levels rest }
{}

/// The relation holds for two streams worked by hand: a progressive one of three blocks, with DC
/// and AC each in a first scan and a refinement and with runs of blocks; and a sequential one of
/// three components, with padding and a restart.
pub fn worked_images_are_written()
    ensures grey { IsWhollyWritten grey_array grey_bytes }
    ensures colour { IsWhollyWritten colour_array colour_bytes }
{}

/// A frame of SOF0, SOF1 or SOF2 is accepted if and only if it has 8 bits and one, three or four
/// components that can be upsampled.
pub fn frames_are_accepted()
    ensures written { (number : ℕ) (h : FrameHeader) → number ≤ 2 → HasPicture h →
        accepted (frame_written number h) ≡ Ok (frame_written number h) }
    ensures read { (number : ℕ) (h : FrameHeader) → number ≤ 2 →
        accepted (frame_written number h) ≡ Ok (frame_written number h) → HasPicture h }
{}

/// There is a stream for every image: the coefficients of 8-bit samples have one that sends every
/// bit, in each frame of SOF0, SOF1 or SOF2 that has a picture.
pub fn every_image_has_a_stream()
    ensures { (number : ℕ) (h : FrameHeader) (array : Coefficients) →
        number ≤ 2 → IsFrameHeader number h → HasPicture h →
        ((index row column : ℕ) → Is8Bit (array index row column)) →
        (bytes : List ℕ) × IsWhollyWritten array bytes }
{}

/// Each script has a stream. Scans of one or several components, of any bands, levels and
/// destinations of tables, and under any restart intervals, in any order in which each component
/// allows each of its scans (`IsScript` says so coefficient by coefficient), are those of some
/// stream, for all coefficients of 8-bit samples and in each frame of SOF0, SOF1 or SOF2 that has a
/// picture. It consists of bytes if the header's parameters fit their fields.
pub fn every_script_has_a_stream()
    ensures { (number : ℕ) (h : FrameHeader) (script : List ScriptedScan) (array : Coefficients) →
        number ≤ 2 → IsFrameHeader number h → HasPicture h →
        IsScript (frame_written number h) script →
        ((index row column : ℕ) → Is8Bit (array index row column)) →
        (bytes : List ℕ) × IsWrittenUnder number h script array bytes }
{}

/// Each legal scan has data with any tables that suffice, wherever it stands in a stream and under
/// any restart interval: with tables that have a code for each symbol that 8-bit samples may need.
pub fn legal_scans_have_data()
    ensures { (said : Said) (frame : Frame) (levels : ℕ → Levels) (h : ScanHeader)
        (codings : List Coding) (array : Coefficients) →
        ((index row column : ℕ) → Is8Bit (array index row column)) →
        IsLegalScan said frame levels (scan_written frame h) codings →
        AllByRecursion (Suffices (pass_of (scan_written frame h))) codings →
        (bytes : List ℕ) × WritesImageScan array said levels frame h bytes
        (levels_after (pass_of (scan_written frame h)) (map (λ c. c.index) codings) levels)
        × AreBytes bytes }
{}
