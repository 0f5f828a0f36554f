//! Theorems on lossless streams, each on a function without a body. docs/THEOREMS.md states them in
//! plain words.
#![tactic(auto, using(crate::proofs::Rules::samples, crate::proofs::Rules::written_samples))]

ghost use Rattle.std.specs.Prelude.{◌≡◌, ℕ, ◌*◌, ◌/◌, ◌<◌, List, [], ◌∷◌, ◌++◌, slice_get, Some};
ghost use Rattle.std.specs.Prelude.{Ok};
ghost use Rattle.std.specs.List.{AllByRecursion};
ghost use Rattle.jpeg_bits.specs.declared.scan.Predictor.{Predictor};
ghost use Rattle.jpeg_segments.specs.declared.scale.Scale.{Scale};
ghost use Rattle.jpeg_segments.specs.Frame.{Component, Frame, most_across, most_down};
ghost use Rattle.jpeg_segments.specs.WrittenSegments.{FrameHeader, IsFrameHeader, frame_written};
ghost use Rattle.jpeg_lossless.specs.Differences.{Part};
ghost use Rattle.jpeg_lossless.specs.Prediction.{predicted_lines};
ghost use Rattle.jpeg_lossless.specs.Scans.{Way, lines_by_component, planes_of};
ghost use Rattle.jpeg_meaning.specs.declared.settings.Settings.{Settings};
ghost use Rattle.jpeg_meaning.specs.InTurn.{IsIn};
ghost use Rattle.jpeg_meaning.specs.LosslessScans.{LosslessCoding, mcus_down, way_of};
ghost use Rattle.jpeg_meaning.specs.AcceptedFrames.{HasSamples};
ghost use Rattle.jpeg_meaning.specs.Segments.{accepted};
ghost use Rattle.jpeg_meaning.specs.Stream.{meaning, scaled_meaning, sized_meaning, told_of};
ghost use Rattle.jpeg_meaning.specs.Found.{Said};
ghost use Rattle.jpeg_meaning.specs.FrameSamples.{AgreeInside, AreSamplesOf, AreWrittenIn};
ghost use Rattle.jpeg_meaning.specs.FrameSamples.{DifferInPadding, ShowAlike};
ghost use Rattle.jpeg_meaning.specs.LosslessScripts.{AreWrittenUnder, IsLosslessScript};
ghost use Rattle.jpeg_meaning.specs.Scripts.{ScriptedScan};
ghost use Rattle.jpeg_meaning.specs.PlainSamples.{HasEqualFactors, plain_picture, plain_way};
ghost use Rattle.jpeg_meaning.specs.Worked.{picture_meant};
ghost use Rattle.jpeg_meaning.specs.WorkedSamples.{AreWritten, padded_bytes, padded_picture};
ghost use Rattle.jpeg_meaning.specs.WorkedSamples.{padded_samples, three_bytes, three_picture};
ghost use Rattle.jpeg_meaning.specs.WorkedSamples.{three_samples};
ghost use Rattle.jpeg_meaning.specs.WrittenLossless.{IsWithinLimit, own_lines, Samples};
ghost use Rattle.jpeg_meaning.specs.WrittenLossless.{WritesSamples, picture_of_samples};
ghost use Rattle.jpeg_meaning.specs.WrittenParts.{picture_meant_by};

/// A lossless stream that is written for samples means the picture of those samples, with any
/// segments and fill bytes, sampling factors, scans of any components in any order, selections,
/// codes and padding, and restart intervals of whole rows of MCUs. What follows the image is left.
pub fn lossless_streams_are_read()
    ensures { (settings : Settings) (samples : Samples) (image rest : List ℕ) (final : Said)
        (frame : Frame) →
        WritesSamples samples image final → IsWithinLimit settings.limit final frame →
        meaning settings (image ++ rest)
        ≡ Ok ((told_of final, picture_of_samples frame samples), rest) }
{}

/// It keeps its size, whatever size or scale is requested.
pub fn lossless_streams_keep_their_size()
    ensures sized { (width height : ℕ) (settings : Settings) (samples : Samples)
        (image rest : List ℕ) (final : Said) (frame : Frame) →
        WritesSamples samples image final → IsWithinLimit settings.limit final frame →
        sized_meaning width height settings (image ++ rest)
        ≡ Ok ((told_of final, picture_of_samples frame samples), rest) }
    ensures scaled { (scale : Scale) (settings : Settings) (samples : Samples)
        (image rest : List ℕ) (final : Said) (frame : Frame) →
        WritesSamples samples image final → IsWithinLimit settings.limit final frame →
        scaled_meaning scale settings (image ++ rest)
        ≡ Ok ((told_of final, picture_of_samples frame samples), rest) }
{}

/// Lossless streams that are written for the same samples mean the same picture, whatever their
/// padding, scripts, selections, Huffman tables, restart intervals and other segments, if their
/// headers give the same precision, size and sampling factors.
pub fn lossless_pictures_are_of_samples()
    ensures { (settings : Settings) (samples : Samples) (first second rest others : List ℕ)
        (a b : Said) →
        WritesSamples samples first a → WritesSamples samples second b → ShowAlike a b →
        picture_meant_by settings (first ++ rest) ≡ picture_meant_by settings (second ++ others) }
{}

/// No sample outside a component's size reaches one inside, nor a picture.
pub fn lossless_padding_is_not_seen()
    // Samples inside are predicted from differences inside alone.
    ensures predicted { (p : Part) (selection : Predictor) (start : ℕ)
        (differences : List (List ℕ)) →
        own_lines p (predicted_lines selection start differences)
        ≡ predicted_lines selection start (own_lines p differences) }

    // So an interval whose differences are others in padding alone has the same planes.
    ensures scanned { (w : Way) (point : ℕ) (a b : List (List ℕ)) →
        DifferInPadding w 0 w.parts a b →
        planes_of point w.parts (lines_by_component w 0 w.parts (a ∷ []))
        ≡ planes_of point w.parts (lines_by_component w 0 w.parts (b ∷ [])) }

    // A pixel takes a sample inside.
    ensures taken { (h : FrameHeader) (index x y : ℕ) (c : Component) →
        IsFrameHeader 3 h → slice_get (frame_written 3 h).components index ≡ Some c →
        x < h.width → y < h.height →
        (x * c.factors.horizontal / most_across (frame_written 3 h).components < c.width)
        × (y * c.factors.vertical / most_down (frame_written 3 h).components < c.height) }

    // So samples that agree inside have the same picture.
    ensures pictured { (h : FrameHeader) (a b : Samples) →
        IsFrameHeader 3 h → AgreeInside (frame_written 3 h) a b →
        picture_of_samples (frame_written 3 h) a ≡ picture_of_samples (frame_written 3 h) b }
{}

/// If all components have the same factors, the picture has their samples pixel by pixel, and a
/// component alone in a scan has a sample of each pixel. If all factors are 1, an MCU of several
/// components is a pixel.
pub fn equal_factors_mean_nothing()
    ensures pictured { (frame : Frame) (samples : Samples) → HasEqualFactors frame →
        picture_of_samples frame samples ≡ plain_picture frame samples }
    ensures alone { (h : FrameHeader) (selection : Predictor) (point : ℕ) (k : LosslessCoding) →
        IsFrameHeader 3 h → HasEqualFactors (frame_written 3 h) →
        IsIn k.component (frame_written 3 h).components →
        (way_of (frame_written 3 h) selection point (k ∷ [])
        ≡ plain_way (frame_written 3 h) selection point (k ∷ []))
        × (mcus_down (frame_written 3 h) (k ∷ []) ≡ (frame_written 3 h).height) }
    ensures together { (h : FrameHeader) (selection : Predictor) (point : ℕ)
        (codings : List LosslessCoding) →
        IsFrameHeader 3 h → HasEqualFactors (frame_written 3 h) →
        most_across (frame_written 3 h).components ≡ 1 →
        most_down (frame_written 3 h).components ≡ 1 →
        AllByRecursion (λ k. IsIn k.component (frame_written 3 h).components) codings →
        (way_of (frame_written 3 h) selection point codings
        ≡ plain_way (frame_written 3 h) selection point codings)
        × (mcus_down (frame_written 3 h) codings ≡ (frame_written 3 h).height) }
{}

/// A lossless frame is accepted if and only if samples may be written in it.
pub fn lossless_frames_are_accepted()
    ensures written { (h : FrameHeader) → IsFrameHeader 3 h → HasSamples 3 h →
        accepted (frame_written 3 h) ≡ Ok (frame_written 3 h) }
    ensures read { (h : FrameHeader) →
        accepted (frame_written 3 h) ≡ Ok (frame_written 3 h) → HasSamples 3 h }
{}

/// There is a stream for every picture of samples: in each lossless frame that may have samples, of
/// 2 to 16 bits and of any factors, samples of the components' sizes and of that precision have
/// one.
pub fn every_picture_of_samples_has_a_stream()
    ensures { (h : FrameHeader) (samples : Samples) →
        IsFrameHeader 3 h → HasSamples 3 h → AreSamplesOf (frame_written 3 h) samples →
        (bytes : List ℕ) × AreWrittenIn h samples bytes }
{}

/// Each script has a stream. Scans of one or several components, in the order of the script, by any
/// selections and destinations of tables and under any restart intervals of whole rows of MCUs, are
/// the scans of some stream for these samples, if each component is in one of them.
pub fn every_lossless_script_has_a_stream()
    ensures { (h : FrameHeader) (script : List ScriptedScan) (samples : Samples) →
        IsFrameHeader 3 h → HasSamples 3 h → IsLosslessScript (frame_written 3 h) script →
        AreSamplesOf (frame_written 3 h) samples →
        (bytes : List ℕ) × AreWrittenUnder h script samples bytes }
{}

/// The relation holds for two streams worked by hand, each of three components in two scans with
/// restarts, one of them interleaved: one with factors of 1 and a fill byte, and one in which the
/// first component has factors of 2, and a column and a line of padding.
pub fn worked_samples_are_written()
    ensures plain { AreWritten three_samples three_bytes }
    ensures padded { AreWritten padded_samples padded_bytes }
{}

/// What the two mean, computed from their bytes as it is checked.
#[tactic(auto, unfolding(crate::proofs::OnLiterals::all_on_literals))]
pub fn known_samples()
    ensures plain { picture_meant three_bytes ≡ Ok three_picture }
    ensures padded { picture_meant padded_bytes ≡ Ok padded_picture }
{}
