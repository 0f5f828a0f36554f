//! Theorems about streams, and about the order and the storage of the blocks of a scan (T.81, A.2).
//! Each stands on a function without a body.
#![tactic(auto, using(crate::proofs::Rules::streams))]

ghost use Rattle.std.specs.Prelude.{◌≡◌, ◌+◌, ◌*◌, ◌<◌, ◌≤◌, ℕ, List, ◌∷◌, ◌++◌, [], length, map};
ghost use Rattle.std.specs.Prelude.{get_or, Ok, Err, false, Option};
ghost use Rattle.std.specs.List.{AllByRecursion};
ghost use Rattle.jpeg_bits.specs.Reading.{Fault};
ghost use Rattle.jpeg_bits.specs.Passes.{Pass, Via, Block};
ghost use Rattle.jpeg_bits.specs.Intervals.{first_group, other_groups};
ghost use Rattle.jpeg_segments.specs.Frame.{Frame, Component, Factors, IsInRange, frame_of};
ghost use Rattle.jpeg_segments.specs.ScanHeader.{Scan};
ghost use Rattle.jpeg_segments.specs.Scales.{frame_at};
ghost use Rattle.jpeg_segments.specs.declared.scale.Scale.{Scale};
ghost use Rattle.jpeg_pixels.specs.Pictures.{Source, sources_of, HasSources};
ghost use Rattle.jpeg_pixels.specs.Planes.{plane_of, strip_of};
ghost use Rattle.jpeg_meaning.specs.Order.{all_spots, own_spots, spots_of, mcu_size};
ghost use Rattle.jpeg_meaning.specs.declared.grids.Grid.{Grid};
ghost use Rattle.jpeg_meaning.specs.Scans.{Arrays, arrays_at, zero_arrays};
ghost use Rattle.jpeg_meaning.specs.InTurn.{AreApart, AreArrays, Fits, intervals_from};
ghost use Rattle.jpeg_meaning.specs.InTurn.{scan_from};
ghost use Rattle.jpeg_meaning.specs.McuRows.{scan_by_rows};
ghost use Rattle.jpeg_meaning.specs.Rasters.{ordered, in_raster};
ghost use Rattle.jpeg_meaning.specs.Stream.{header_at, meaning_within, rest_within, scaled_to};
ghost use Rattle.jpeg_meaning.specs.Stream.{sized_to};
ghost use Rattle.jpeg_meaning.specs.DecodedImages.{Size, at_size};
ghost use Rattle.jpeg_meaning.specs.ScanSegments.{Coding, vias_from, codings_of, pass_of};
ghost use Rattle.jpeg_meaning.specs.ScanSegments.{is_progressive, scan_arrays, arrays_before};
ghost use Rattle.jpeg_meaning.specs.Found.{Found, Said};
ghost use Rattle.jpeg_meaning.specs.declared.settings.Settings.{Settings};
ghost use Rattle.jpeg_decoder.specs.Walk.{members_from, own_member, raster, spots_at};

/// A header and then the rest of its stream are the whole stream, within any limit of blocks, and a
/// refused header is a refused stream.
pub fn header_begins_stream()
    ensures ok { (limit : Option ℕ) (settings : Settings) (found : Found) (bytes rest : List ℕ) →
        header_at bytes ≡ Ok (found, rest) →
        meaning_within limit settings bytes ≡ rest_within limit settings found rest }
    ensures err { (limit : Option ℕ) (settings : Settings) (fault : Fault) (bytes : List ℕ) →
        header_at bytes ≡ Err fault →
        meaning_within limit settings bytes ≡ Err fault }
{}

/// A scan codes no block twice.
pub fn spots_are_apart()
    ensures { (frame : Frame) (components : List Component) →
        AllByRecursion (Fits frame) components →
        AreApart (spots_of frame components) }
{}

/// A scan decodes its blocks one after the other: each is read on top of the block at its index,
/// which it replaces.
pub fn scans_go_in_turn()
    ensures { (frame : Frame) (components : List Component) (p : Pass) (n : ℕ)
        (vias : List Via) (arrays : Arrays) (bytes : List ℕ) →
        AllByRecursion (Fits frame) components → AreArrays components arrays →
        arrays_at p n vias (spots_of frame components) arrays bytes
        ≡ intervals_from p vias 0 (first_group n (spots_of frame components))
        (other_groups n (spots_of frame components)) arrays bytes }
{}

/// The code walks over the MCUs of a scan, and of each over its members: for several components
/// these are all blocks of the scan in order, and for a component alone its own blocks.
#[tactic(auto, using(crate::proofs::Orders::OrderedWalks::order_rules))]
pub fn walks_are_in_order()
    ensures several { (wide high : ℕ) (components : List Component) →
        spots_at (members_from 0 components) (raster wide high) ≡ all_spots wide high components }
    ensures alone { (grid : Grid) →
        spots_at (own_member grid ∷ []) (raster grid.own_wide grid.own_high) ≡ own_spots grid }
{}

/// A scan decodes its blocks one after the other; when no block is left of a restart interval of n,
/// a restart comes before the next.
pub fn scans_go_by_blocks()
    ensures { (frame : Frame) (components : List Component) (p : Pass) (vias : List Via) (n : ℕ)
        (arrays : Arrays) (bytes : List ℕ) →
        AllByRecursion (Fits frame) components → AreArrays components arrays →
        arrays_at p n vias (spots_of frame components) arrays bytes
        ≡ scan_from p vias n (spots_of frame components) arrays bytes }
{}

/// A scan that starts from zeros decodes its rows of MCUs one after the other, each into blocks of
/// its own.
pub fn scans_go_by_rows()
    ensures { (frame : Frame) (c : Component) (more : List Component) (p : Pass)
        (vias : List Via) (n : ℕ) (bytes : List ℕ) →
        AllByRecursion (Fits frame) (c ∷ more) →
        arrays_at p (n * mcu_size (c ∷ more)) vias (spots_of frame (c ∷ more))
        (zero_arrays (c ∷ more)) bytes
        ≡ scan_by_rows p vias n frame (c ∷ more) bytes }
{}

/// The components of a frame that is read fit the frame, at every scale, and the scale of 8 changes
/// nothing.
pub fn frames_fit_at_each_scale()
    ensures read { (number precision width height : ℕ) (factors : List Factors) →
        AllByRecursion IsInRange factors →
        AllByRecursion (Fits (frame_of number precision width height factors))
        (frame_of number precision width height factors).components }
    ensures scaled { (scale number precision width height : ℕ) (factors : List Factors) →
        0 < scale → AllByRecursion IsInRange factors →
        AllByRecursion (Fits (frame_at scale (frame_of number precision width height factors)))
        (frame_at scale (frame_of number precision width height factors)).components }
    ensures whole { (number precision width height : ℕ) (factors : List Factors) →
        frame_at 8 (frame_of number precision width height factors)
        ≡ frame_of number precision width height factors }
{}

/// A frame whose components can be upsampled can be upsampled at every scale, and planes of all its
/// blocks cover the picture.
pub fn frames_are_covered_at_each_scale()
    ensures { (scale number precision width height : ℕ) (factors : List Factors)
        (sources : List Source) →
        AllByRecursion IsInRange factors → 0 < scale → scale ≤ 8 → 0 < width → 0 < height →
        sources_of (frame_of number precision width height factors).components width height
        ≡ Ok sources →
        HasSources (frame_at scale (frame_of number precision width height factors)) }
{}

/// A scan of a sequential frame decodes its rows of MCUs from zeros, and one of a progressive frame
/// decodes its blocks on top of those that are kept.
pub fn scans_of_frames()
    ensures sequential { (found : Found) (frame : Frame) (scan : Scan) (c : Coding)
        (codings : List Coding) (bytes : List ℕ) →
        is_progressive frame.process ≡ false → AllByRecursion (Fits frame) frame.components →
        codings_of found.said frame scan ≡ Ok (c ∷ codings) →
        scan_arrays found frame scan (c ∷ codings) bytes
        ≡ scan_by_rows (pass_of scan) (vias_from 0 (c ∷ codings)) found.said.restart frame
        (map (λ c. c.component) (c ∷ codings)) bytes }
    ensures progressive { (found : Found) (frame : Frame) (scan : Scan) (c : Coding)
        (codings : List Coding) (bytes : List ℕ) →
        AreArrays frame.components (arrays_before found frame) →
        AllByRecursion (Fits frame) frame.components →
        codings_of found.said frame scan ≡ Ok (c ∷ codings) →
        scan_arrays found frame scan (c ∷ codings) bytes
        ≡ scan_from (pass_of scan) (vias_from 0 (c ∷ codings))
        (found.said.restart * mcu_size (map (λ c. c.component) (c ∷ codings)))
        (spots_of frame (map (λ c. c.component) (c ∷ codings)))
        (map (λ c. get_or (arrays_before found frame) c.index []) (c ∷ codings)) bytes }
{}

/// One more row of blocks adds its strip of samples below a plane, at every scale.
pub fn planes_grow_by_strips()
    ensures { (scale : ℕ) (table : List ℕ) (wide n : ℕ) (blocks row : List Block) →
        length blocks ≡ n * wide → length row ≡ wide →
        plane_of scale table wide (n + 1) (in_raster wide (blocks ++ row))
        ≡ plane_of scale table wide n (in_raster wide blocks)
        ++ strip_of scale table (map ordered row) }
{}

/// Of two requested sizes the last counts: a frame at a scale, brought to another, is the frame at
/// that one.
pub fn last_sizes_count()
    ensures sized { (width height : ℕ) (other : Size) (said : Said) →
        sized_to width height (at_size other said) ≡ sized_to width height said }
    ensures scaled { (scale : Scale) (other : Size) (said : Said) →
        scaled_to scale (at_size other said) ≡ scaled_to scale said }
{}
