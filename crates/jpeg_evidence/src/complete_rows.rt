//! What the first rows of a picture need of its components, and that complete rows stay where a
//! scan goes on.
ghost use Rattle.std.specs.Prelude.{◌≡◌, ◌*◌, ◌≤◌, ℕ, ◌++◌, List, Some, None};
ghost use Rattle.std.specs.Prelude.{Ok, Err, Option, false, take};
ghost use Rattle.jpeg_bits.specs.Passes.{Block};
ghost use Rattle.jpeg_bits.specs.Reading.{Fault};
ghost use Rattle.jpeg_bits.specs.declared.marker.Marker.{Marker};
ghost use Rattle.jpeg_segments.specs.Frame.{Component, Frame, IsFrame};
ghost use Rattle.jpeg_segments.specs.Scales.{IsSizedFrame};
ghost use Rattle.jpeg_segments.specs.declared.frame.CodingProcess.TheVariants.{DctSequential};
ghost use Rattle.jpeg_segments.specs.declared.frame.CodingProcess.TheVariants.{Lossless};
ghost use Rattle.jpeg_lossless.specs.Pictures.{lossless_picture};
ghost use Rattle.jpeg_meaning.specs.Found.{Found, Metadata};
ghost use Rattle.jpeg_meaning.specs.FoundPictures.{picture_by};
ghost use Rattle.jpeg_meaning.specs.Rasters.{plane_by};
ghost use Rattle.jpeg_meaning.specs.ScanSegments.{codings_of, components_of};
ghost use Rattle.jpeg_meaning.specs.Shown.{Shown, picture_shown, shown, shown_rest};
ghost use Rattle.jpeg_meaning.specs.Shown.{whole_rows, whole_rows_rest};
ghost use Rattle.jpeg_meaning.specs.Stream.{all_brought};
ghost use Rattle.jpeg_meaning.specs.declared.before.Before.{Before};
ghost use Rattle.jpeg_meaning.specs.declared.settings.Settings.{Settings};
ghost use Rattle.jpeg_evidence.specs.CompleteRows.{BeginAlike, HasFaultAt, HasSizedFrame};
ghost use Rattle.jpeg_evidence.specs.CompleteRows.{KeepsRows, SamplesBegin, first_lines};
ghost use Rattle.jpeg_evidence.specs.CompleteRows.{first_rows, first_sample_rows};
ghost use Rattle.jpeg_evidence.specs.CutImages.{rows_before};
ghost use Rattle.jpeg_meaning.specs.LongerStreams.{ScanGoesOn};

/// The first rows of a picture depend only on the first lines of its components: as many as the
/// rows have, or by the sampling factors fewer, and one more where lines are blended with those
/// below them (`lines_needed`). It holds of each frame that a header gives, at every scale, also
/// where the luma is asked for, unless the frame is lossless, whose picture has no luma.
#[tactic(auto, using(crate::proofs::Rows::FirstRows::rows_of_first_lines))]
pub fn first_rows_are_of_first_lines()
    ensures { (settings : Settings) (m : Metadata) (frame : Frame) (rows : ℕ)
        (ps qs : List (List ℕ)) (x y : List ℕ) → IsSizedFrame frame
        → (frame.process ≡ Lossless → settings.luma ≡ false) → rows ≤ frame.output_height
        → BeginAlike frame rows frame.components ps qs
        → picture_by settings m frame frame.components ps ≡ Ok x
        → picture_by settings m frame frame.components qs ≡ Ok y
        → first_rows settings frame rows x ≡ first_rows settings frame rows y }
{}

/// The first rows of a lossless picture depend only on the first lines of its components' samples,
/// by the sampling factors (`sample_lines`).
#[tactic(auto, using(crate::proofs::Rows::LosslessRows::rows_of_first_samples))]
pub fn first_rows_are_of_first_samples()
    ensures { (frame : Frame) (rows : ℕ) (ps qs : List (List ℕ)) → IsFrame frame
        → rows ≤ frame.height → SamplesBegin frame rows frame.components ps qs
        → first_sample_rows frame rows (lossless_picture frame ps)
        ≡ first_sample_rows frame rows (lossless_picture frame qs) }
{}

/// The first lines of a component's plane depend only on its first rows of blocks: a row of blocks
/// has as many lines as a block has at the scale.
#[tactic(auto, using(crate::proofs::Rows::FirstBlockRows::lines_of_first_blocks))]
pub fn first_lines_are_of_first_blocks()
    ensures { (c : Component) (table : List ℕ) (rows : ℕ) (xs ys : List Block)
        → take (rows * c.blocks_wide) xs ≡ take (rows * c.blocks_wide) ys
        → first_lines c (rows * c.scale) (plane_by c table xs)
        ≡ first_lines c (rows * c.scale) (plane_by c table ys) }
{}

/// In a scan of which longer data bring the blocks that shorter ones bring, and more, the complete
/// rows stay: the rows of the picture above the first block that the shorter data lack, or all rows
/// where they lack none, are the same in both pictures that are shown. It holds for all sampling
/// factors, at every scale, in sequential and in progressive frames.
#[tactic(auto, using(crate::proofs::Rows::ScanRows::rows_of_scans_stay))]
pub fn rows_above_an_unread_block_stay()
    ensures { (settings : Settings) (before shorter longer : Found)
        (g : ScanGoesOn before shorter longer) (x y : List ℕ) → IsSizedFrame g.frame
        → (g.frame.process ≡ Lossless → ⊥) → before.said.frame ≡ Some g.frame
        → codings_of before.said g.frame g.scan ≡ Ok g.codings
        → picture_shown settings shorter ≡ Ok x → picture_shown settings longer ≡ Ok y
        → (let rows = rows_before g.frame (components_of g.codings) g.reads_on.others in
        first_rows settings g.frame rows x ≡ first_rows settings g.frame rows y) }
{}

/// A longer stream keeps the complete rows that `whole_rows` counts of a shorter one. Where the
/// shorter one stops in the data of a scan, the longer one reads this scan on, and in the picture
/// of what it has found when it has come to the end of this scan, or to a fault in it, the complete
/// rows are as the shorter one shows them. It holds of any bytes, from any marker on, for all
/// sampling factors, at every scale, in sequential and in progressive frames. What later segments
/// and scans do isn't said, nor which rows of a lossless frame stay.
pub fn complete_rows_stay()
    ensures { (settings : Settings) (found : Found) (bytes more : List ℕ) (fault : Fault)
        → HasSizedFrame found → (all_brought None found bytes).rest ≡ Err fault
        → KeepsRows settings (whole_rows_rest None found bytes) more
        (all_brought None found bytes).found (all_brought None found (bytes ++ more)) }
{}

/// Where a stream and a longer one, which goes on from it, have their first faults in the data of
/// the same scan, with no segment in between, the complete rows that `whole_rows` counts of the
/// shorter one are the same in both pictures. By `rows` the scan lacks blocks in the shorter one.
/// It holds for all sampling factors, at every scale, in sequential and in progressive frames.
pub fn complete_rows_of_one_scan_stay()
    ensures { (settings : Settings) (found : Found) (bytes more left : List ℕ) (before : Before)
        (last : Found) (met : Option Marker) (s t : Shown) (frame : Frame) (rows : ℕ)
        → HasSizedFrame found → HasFaultAt found bytes before last met left
        → HasFaultAt found (bytes ++ more) before last met (left ++ more)
        → (all_brought None found bytes).rows ≡ Some rows
        → shown_rest settings found bytes ≡ Ok s
        → shown_rest settings found (bytes ++ more) ≡ Ok t → s.told.frame ≡ Some frame
        → (frame.process ≡ Lossless → ⊥)
        → first_rows settings frame (whole_rows_rest None found bytes) s.picture
        ≡ first_rows settings frame (whole_rows_rest None found bytes) t.picture }
{}

/// Complete rows of a sequential stream are final: the picture of each longer stream has them, too,
/// whatever segments and scans come, and whether they are read or have a fault. Only JFIF's and
/// Adobe's segments count, by which colours are chosen: they have to say the same in both. It
/// holds at every scale, where the header was read before (`rest`), and of whole streams.
pub fn complete_rows_of_sequential_streams_are_final()
    ensures rest { (settings : Settings) (found : Found) (bytes more : List ℕ) (s t : Shown)
        (frame : Frame) → HasSizedFrame found → shown_rest settings found bytes ≡ Ok s
        → shown_rest settings found (bytes ++ more) ≡ Ok t → s.told.frame ≡ Some frame
        → frame.process ≡ DctSequential → s.told.metadata.jfif ≡ t.told.metadata.jfif
        → s.told.metadata.adobe ≡ t.told.metadata.adobe
        → first_rows settings frame (whole_rows_rest None found bytes) s.picture
        ≡ first_rows settings frame (whole_rows_rest None found bytes) t.picture }
    ensures streams { (settings : Settings) (bytes more : List ℕ) (s t : Shown) (frame : Frame)
        → shown settings bytes ≡ Ok s → shown settings (bytes ++ more) ≡ Ok t
        → s.told.frame ≡ Some frame → frame.process ≡ DctSequential
        → s.told.metadata.jfif ≡ t.told.metadata.jfif
        → s.told.metadata.adobe ≡ t.told.metadata.adobe
        → first_rows settings frame (whole_rows bytes) s.picture
        ≡ first_rows settings frame (whole_rows bytes) t.picture }
{}
