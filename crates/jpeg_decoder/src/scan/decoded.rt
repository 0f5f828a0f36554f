//! What the scans of a frame have given so far: blocks, and planes (T.81, A.2 and G.1).
ghost use Rattle.std.specs.Prelude.{◌≡◌, ◌<◌, ◌*◌, [], All, IfOk};
ghost use Rattle.std.specs.Prelude.{None, OnErr, OnOk, false, length, map, replicate};
ghost use Rattle.std.specs.Prelude.{slice_index_or};
ghost use Rattle.std.specs.Prelude.{slice_set, true};
ghost use Rattle.std.specs.List.{list_all};
ghost use Rattle.jpeg_bits.specs.BlockView.{pass_in, IsPass};
ghost use Rattle.jpeg_pixels.specs.Scaled.{IsScale};
ghost use Rattle.jpeg_segments.specs.FrameView.{component_in, frame_in};
ghost use Rattle.jpeg_meaning.specs.InTurn.{AreApart};
ghost use Rattle.jpeg_decoder.specs.Scanning.{arrays_in, blocks_in};
ghost use Rattle.jpeg_meaning.specs.Scans.{zero_arrays, zero_of};
ghost use Rattle.jpeg_decoder.specs.PlanesView.{planes_in};
ghost use Rattle.jpeg_meaning.specs.Rasters.{plane_by};
ghost use Rattle.jpeg_meaning.specs.ScanSegments.{put_arrays, finished_by};
ghost use Rattle.jpeg_meaning.specs.Found.{none_finished};
ghost use Rattle.jpeg_decoder.specs.Steps.{blocks_at, coding_in, without_blocks, IsInOrder};
ghost use Rattle.jpeg_bits.specs.Passes.{whole_pass};

use crate::copies::copied_lists;
use crate::scan::block_array::{BlockArray, copied_arrays};
use crate::scan::coded::{Coded, Scan, is_progressive, is_whole};
use crate::scan::kept::read_blocks;
use crate::scan::planes::Planes;
use crate::scan::restarts::is_lost;
use crate::scan::rows::read_planes;
use crate::scan::strips::{GrowingPlanes, append_stored, empty_planes, plane_size, sample_table};
use crate::scan::whole_rows::rows_above_unread;
use jpeg_bits::blocks::Pass;
use jpeg_bits::error::Result;
use jpeg_bits::marker::Marker;
use jpeg_bits::source::Source;
use jpeg_pixels::joint_planes::{JointPlanes, joint_shape};
use jpeg_segments::parser::{Component, FrameInfo};
use std::alloc::{AllocError, Global};
use std::io::Read;

/// What the scans so far have given, by the components' indices in the frame.
#[derive(Drop)]
pub struct Decoded {
    /// The blocks that are kept between the scans of a progressive frame. Empty before its first
    /// scan.
    pub kept: Vec<BlockArray>,
    /// Which coefficients of a block are finished, in zigzag order.
    pub finished: [[bool; 64]; 4],
    /// The planes that are decided.
    pub planes: Planes,
    /// The samples of a lossless frame's components, line by line.
    pub samples: [Option<Vec<u16>>; 4],
    /// Where the last scan was read up to its first fault, and has one: how many rows of the
    /// picture lie above the first block that wasn't read, or are of whole lines of samples.
    pub rows: Option<u16>,
}

/// Marks the coefficients that a pass finishes: those that it codes at level 0.
fn finish(pass: Pass, marks: &mut [bool; 64])
    requires { IsPass (pass_in pass) }
    ensures marked { marks.new ≡ finished_by (pass_in pass) marks.old }
    ensures all { pass_in pass ≡ whole_pass → list_all (λ mark. mark) marks.new ≡ true }
{
    if pass.al == 0 {
        let after = usize::from(pass.se) + 1;
        marks[usize::from(pass.ss)..after].fill(true);
    }
}

/// Returns whether a scan has this many components, those of the frame in their order.
fn are_in_order(codings: &[Coded<'_>], count: usize) -> bool
    ensures { result ≡ true → (length codings.now ≡ count)
        × IsInOrder (map coding_in codings.now) }
{
    for slot in 0..codings.len() {
        if codings[slot].index != slot {
            return false;
        }
    }
    codings.len() == count
}

/// Returns whether all coefficients are marked.
pub fn are_all(marks: &[bool; 64]) -> bool
    ensures { result ≡ list_all (λ mark. mark) marks.now }
{
    marks.iter().all(|mark| *mark)
}

/// Returns how many blocks a component has.
fn count_of(component: &Component) -> usize
    ensures { let c = component_in component.now in result ≡ c.blocks_high * c.blocks_wide }
{
    usize::from(component.block_size.height) * usize::from(component.block_size.width)
}

/// Returns the blocks of a component that no scan has brought, which take no memory.
pub fn zero_blocks(alloc: Global, component: &Component) -> BlockArray
    ensures { blocks_in result ≡ zero_of (component_in component.now) }
{
    BlockArray::unstored(alloc, count_of(component))
}

/// Returns the blocks of a component in which nothing was read yet, with room for them.
fn empty_blocks(alloc: Global, component: &Component) -> std::result::Result<BlockArray, AllocError>
    ensures { IfOk result (λ v. blocks_in v ≡ zero_of (component_in component.now)) }
{
    BlockArray::zeros(alloc, count_of(component))
}

/// Returns the blocks of all components of a frame in which nothing was read yet.
#[tactic(auto, using(crate::proofs::Scans::BlocksBefore::zeros_all))]
fn zero_frame(alloc: Global, frame: &FrameInfo) -> std::result::Result<Vec<BlockArray>, AllocError>
    ensures { IfOk result
        (λ v. arrays_in v.items ≡ zero_arrays (frame_in frame.now).components) }
{
    let mut arrays = Vec::with_capacity(alloc, frame.components.len())?;
    for component in &frame.components {
        arrays.push(empty_blocks(alloc, component)?)?;
    }
    Ok(arrays)
}

/// Returns the plane of a component's blocks, which stand in raster order, at the component's
/// scale, by its quantization table in zigzag order. Blocks that aren't stored take no memory of
/// their own.
#[tactic(auto, using(crate::proofs::Rules::stored), unfolding(crate::proofs::Rules::block_planes))]
pub fn render(
    alloc: Global,
    component: &Component,
    quantization: &[u16; 64],
    array: &BlockArray,
) -> std::result::Result<Vec<u8>, AllocError>
    requires scale { IsScale component.now.dct_scale }
    requires blocks { length (blocks_in array.now) ≡ component.now.block_size.height *
        component.now.block_size.width }
    ensures { IfOk result (λ v. v.items
        ≡ plane_by (component_in component.now) quantization.now (blocks_in array.now)) }
{
    let size = component.block_size;
    let samples = plane_size(size.width, size.height, component.dct_scale);
    let mut plane = Vec::with_capacity(alloc, samples)?;
    let table = sample_table(quantization);
    append_stored(alloc, &mut plane, component, &table, &array.blocks)?;
    Ok(plane)
}

/// Takes the blocks of a scan's components out of those that are kept, and leaves none there.
fn take_blocks(
    alloc: Global,
    codings: &[Coded<'_>],
    kept: &mut Vec<BlockArray>,
) -> std::result::Result<Vec<BlockArray>, AllocError>
    requires within { All (λ c. c.index < length kept.old.items) codings.now }
    requires apart { AreApart (map (λ c. c.index) codings.now) }
    ensures taken { let codings = map coding_in codings.now in
        IfOk result (λ v. arrays_in v.items ≡ blocks_at codings (arrays_in kept.old.items)) }
    ensures left { let codings = map coding_in codings.now in
        OnOk result
        (arrays_in kept.new.items ≡ without_blocks codings (arrays_in kept.old.items)) }
    ensures length { length kept.new.items ≡ length kept.old.items }
{
    let mut taken = Vec::with_capacity(alloc, codings.len())?;
    for coded in codings {
        let blocks = std::mem::replace(&mut kept[coded.index], BlockArray::none(alloc));
        taken.push(blocks)?;
    }
    Ok(taken)
}

/// Stores blocks at the indices of a scan's components in the frame.
#[tactic(auto, using(crate::proofs::PutLoops::put_rules), unfolding(crate::proofs::Rules::puts))]
fn put_blocks(
    alloc: Global,
    codings: &[Coded<'_>],
    arrays: &mut Vec<BlockArray>,
    kept: &mut Vec<BlockArray>,
)
    requires count { length arrays.old.items ≡ length codings.now }
    requires indices { All (λ c. c.index < length kept.old.items) codings.now }
    ensures { arrays_in kept.new.items ≡ put_arrays (map coding_in codings.now)
        (arrays_in arrays.old.items) (arrays_in kept.old.items) }
{
    let mut slot = 0;
    while slot < codings.len() {
        kept[codings[slot].index] = std::mem::replace(&mut arrays[slot], BlockArray::none(alloc));
        slot += 1;
    }
}

impl Decoded {
    ghost use Rattle.jpeg_decoder.specs.Reaching.{ReadsData};
    ghost use Rattle.jpeg_decoder.specs.Walks.{AfterWalk};
    ghost use Rattle.std.specs.Prelude.{◌≡◌, ◌<◌, [], All, IfOk, OnOk, None, Some};
    ghost use Rattle.std.specs.Prelude.{◌≤◌, ◌*◌, true, false, drop, length, map, replicate, take};
    ghost use Rattle.std.specs.Prelude.{slice_index_or, slice_set};
    ghost use Rattle.jpeg_bits.specs.BlockView.{pass_in, IsPass};
    ghost use Rattle.jpeg_pixels.specs.Scaled.{IsScale};
    ghost use Rattle.jpeg_segments.specs.FrameView.{component_in, frame_in};
    ghost use Rattle.jpeg_meaning.specs.InTurn.{AreArrays};
    ghost use Rattle.jpeg_meaning.specs.LosslessScans.{with_samples};
    ghost use Rattle.jpeg_meaning.specs.Sound.{ArePlanes};
    ghost use Rattle.jpeg_decoder.specs.Scanning.{arrays_in, blocks_in, scan_components};
    ghost use Rattle.jpeg_decoder.specs.PlanesView.{planes_in};
    ghost use Rattle.jpeg_decoder.specs.Steps.{blocks_before, coding_in, IsBefore};
    ghost use Rattle.jpeg_decoder.specs.Steps.{IsReadable, is_wanted};
    ghost use Rattle.jpeg_decoder.specs.Steps.{marks_after, scan_data, with_decoded};
    ghost use Rattle.jpeg_decoder.specs.Steps.{with_its_plane, with_first_planes, with_planes};
    ghost use Rattle.jpeg_meaning.specs.ScanSegments.{is_progressive, once_scanned};
    ghost use Rattle.jpeg_meaning.specs.ScanSegments.{with_arrays};
    ghost use Rattle.jpeg_meaning.specs.Rasters.{plane_by};
    ghost use Rattle.jpeg_meaning.specs.Found.{Found, none_finished};
    ghost use Rattle.jpeg_pixels.specs.JointPlanes.{joint_planes};
    ghost use Rattle.jpeg_decoder.specs.GrowingView.{GrowsFor, growing_in, is_joint};
    ghost use Rattle.jpeg_decoder.specs.PlanesView.{IsFullJoint};
    ghost use Rattle.jpeg_decoder.specs.Steps.{IsCodingOf, IsFirst, AreDecidedFrom};
    ghost use Rattle.jpeg_segments.specs.Frame.{AllHaveSampling};
    ghost use Rattle.jpeg_meaning.specs.InTurn.{Fits};
    ghost use Rattle.std.specs.List.{AllByRecursion};
    ghost use Rattle.jpeg_decoder.specs.Strips.{no_samples};
    ghost use Rattle.jpeg_decoder.specs.ByRows.{without_planes};
    ghost use Rattle.jpeg_meaning.specs.Scans.{Arrays};

    /// Makes the state in which nothing was read.
    pub fn new(alloc: Global) -> Decoded
        ensures kept { arrays_in result.kept.items ≡ [] }
        ensures finished { result.finished ≡ replicate 4 none_finished }
        ensures planes { result.planes ≡ replicate 4 None }
        ensures samples { planes_in result.samples ≡ replicate 4 None }
    {
        Decoded {
            kept: Vec::new(alloc),
            finished: [[false; 64]; 4],
            planes: Planes::none(),
            samples: [None, None, None, None],
            rows: None,
        }
    }

    /// Copies all of it. The only error is a refused allocation.
    pub fn copied(&self, alloc: Global) -> std::result::Result<Decoded, AllocError>
        ensures kept { IfOk result (λ d. arrays_in d.kept.items ≡ arrays_in self.now.kept.items) }
        ensures finished { IfOk result (λ d. d.finished ≡ self.now.finished) }
        ensures planes { IfOk result (λ d. d.planes ≡ self.now.planes) }
        ensures samples { IfOk result (λ d. planes_in d.samples ≡ planes_in self.now.samples) }
        ensures rows { IfOk result (λ d. d.rows ≡ self.now.rows) }
    {
        Ok(Decoded {
            kept: copied_arrays(alloc, &self.kept)?,
            finished: self.finished,
            planes: self.planes.copied(alloc)?,
            samples: copied_lists(alloc, &self.samples)?,
            rows: self.rows,
        })
    }

    /// Stores the samples of a lossless scan at the indices of its components, where they replace
    /// those of earlier scans.
    pub fn put_samples(&mut self, alloc: Global, indices: &[usize], planes: &mut Vec<Vec<u16>>)
        requires count { length planes.old.items ≡ length indices.now }
        requires indices { All (λ index. index < 4) indices.now }
        ensures kept { self.new.kept ≡ self.old.kept }
        ensures finished { self.new.finished ≡ self.old.finished }
        ensures planes { self.new.planes ≡ self.old.planes }
        ensures samples { planes_in self.new.samples
            ≡ with_samples indices.now (map (λ v. v.items) planes.old.items)
            (planes_in self.old.samples) }
    {
        let mut slot = 0;
        while slot < indices.len() {
            let plane = std::mem::replace(&mut planes[slot], Vec::new(alloc));
            self.samples[indices[slot]] = Some(plane);
            slot += 1;
        }
    }

    /// Marks the coefficients of a component that a pass finishes, and returns whether its plane is
    /// to be decided now: all coefficients are finished, and it has none yet.
    fn is_wanted(&mut self, pass: Pass, index: usize) -> bool
        requires pass { IsPass (pass_in pass) }
        requires index { index < 4 }
        ensures kept { self.new.kept ≡ self.old.kept }
        ensures samples { self.new.samples ≡ self.old.samples }
        ensures planes { self.new.planes ≡ self.old.planes }
        ensures finished { self.new.finished ≡ slice_set self.old.finished index
            (marks_after (pass_in pass) self.old.finished index) }
        ensures wanted { result ≡ is_wanted (marks_after (pass_in pass) self.old.finished index)
            (slice_index_or self.old.planes index None) }
    {
        let marks = &mut self.finished[index];
        finish(pass, marks);
        are_all(marks) && !self.planes.has(index)
    }

    /// Adds the plane of a component after a scan of a sequential frame.
    #[tactic(auto, using(crate::proofs::Scans::DecidedPlanes::plane_rules))]
    fn add_plane(&mut self, pass: Pass, index: usize, plane: Vec<u8>)
        requires pass { IsPass (pass_in pass) }
        requires index { index < 4 }
        ensures kept { self.new.kept ≡ self.old.kept }
        ensures samples { self.new.samples ≡ self.old.samples }
        ensures plane { (base : Found) →
            with_decoded base self.new ≡ with_its_plane (pass_in pass) index plane.items
            (with_decoded base self.old) }
    {
        if self.is_wanted(pass, index) {
            self.planes.put(index, plane);
        }
    }

    /// Adds the blocks of a component after a scan of a progressive frame.
    #[tactic(auto, using(crate::proofs::Scans::DecidedPlanes::plane_rules))]
    fn add_blocks(
        &mut self,
        alloc: Global,
        pass: Pass,
        coded: &Coded<'_>,
        array: &BlockArray,
    ) -> std::result::Result<(), AllocError>
        requires pass { IsPass (pass_in pass) }
        requires blocks { let c = component_in coded.now.component.now in
            length (blocks_in array.now) ≡ c.blocks_high * c.blocks_wide }
        ensures kept { OnOk result (self.new.kept ≡ self.old.kept) }
        ensures samples { OnOk result (self.new.samples ≡ self.old.samples) }
        ensures plane { OnOk result ((base : Found) →
            with_decoded base self.new
            ≡ with_its_plane (pass_in pass) coded.now.index
            (plane_by (component_in coded.now.component.now) coded.now.quantization.now
            (blocks_in array.now)) (with_decoded base self.old)) }
    {
        if self.is_wanted(pass, coded.index) {
            let plane = render(alloc, coded.component, coded.quantization, array)?;
            self.planes.put(coded.index, plane);
        }
        Ok(())
    }

    /// Adds the planes of a scan's first components.
    fn add_planes(&mut self, scan: &Scan<'_>, planes: &mut Vec<Vec<u8>>, alloc: Global)
        requires count { length planes.old.items ≤ length scan.now.codings }
        ensures kept { self.new.kept ≡ self.old.kept }
        ensures samples { self.new.samples ≡ self.old.samples }
        ensures planes { (base : Found) → with_decoded base self.new
            ≡ with_planes scan.now.pass scan.now.codings
            (map (λ v. v.items) planes.old.items) (with_decoded base self.old) }
    {
        let codings = scan.components();
        let mut slot = 0;
        while slot < planes.len() {
            let plane = std::mem::replace(&mut planes[slot], Vec::new(alloc));
            let coded = &codings[slot];
            self.add_plane(scan.pass(), coded.index, plane);
            slot += 1;
        }
    }

    /// Marks the coefficients that a scan finishes of its components from a slot on, whose planes
    /// are decided.
    fn mark_rest(&mut self, scan: &Scan<'_>, from: usize)
        requires within { from ≤ length scan.now.codings }
        requires decided { AreDecidedFrom from self.old.planes scan.now.codings }
        ensures kept { self.new.kept ≡ self.old.kept }
        ensures samples { self.new.samples ≡ self.old.samples }
        ensures planes { (base : Found) → with_decoded base self.new
            ≡ with_planes scan.now.pass (drop from scan.now.codings)
            (no_samples (drop from scan.now.codings)) (with_decoded base self.old) }
    {
        let rest = &scan.components()[from..];
        for coded in rest {
            finish(scan.pass(), &mut self.finished[coded.index]);
        }
    }

    /// Marks the coefficients that a scan finishes of its components. No plane is stored.
    pub fn mark_all(&mut self, scan: &Scan<'_>)
        requires pass { IsPass scan.now.pass }
        ensures kept { self.new.kept ≡ self.old.kept }
        ensures samples { self.new.samples ≡ self.old.samples }
        ensures planes { self.new.planes ≡ self.old.planes }
        ensures marked { (base : Found) (arrays : Arrays) → length arrays ≡ length scan.now.codings
            → without_planes (with_decoded base self.new)
            ≡ without_planes (with_arrays scan.now.pass scan.now.codings arrays
            (with_decoded base self.old)) }
        ensures four { length self.old.finished ≡ 4 }
        ensures all { scan.now.pass ≡ whole_pass → All (λ c. list_all (λ mark. mark)
            (slice_index_or self.new.finished c.index none_finished) ≡ true) scan.now.codings }
    {
        let codings = scan.components();
        for coded in codings {
            finish(scan.pass(), &mut self.finished[coded.index]);
        }
    }

    /// Returns how many components a scan has up to the last whose plane isn't decided.
    fn count_wanted(&self, codings: &[Coded<'_>]) -> usize
        ensures within { result ≤ length codings.now }
        ensures decided { AreDecidedFrom result self.now.planes (map coding_in codings.now) }
    {
        let mut count = 0;
        for slot in 0..codings.len() {
            if !self.planes.has(codings[slot].index) {
                count = slot + 1;
            }
        }
        count
    }

    /// Returns planes without samples for a scan of a sequential frame: those of its components up
    /// to the last whose plane isn't decided, or all in one buffer where it is the first scan, has
    /// all components of the frame, and they are alike.
    fn start_planes(
        &self,
        alloc: Global,
        frame: &FrameInfo,
        scan: &Scan<'_>,
    ) -> std::result::Result<GrowingPlanes, AllocError>
        requires fits { AllByRecursion (Fits (frame_in frame.now)) (scan_components scan.now) }
        requires of_frame { AllByRecursion (IsCodingOf (frame_in frame.now)) scan.now.codings }
        requires sampling { AllHaveSampling (frame_in frame.now).components }
        ensures none { IfOk result (λ planes. growing_in planes
            ≡ take (length (growing_in planes)) (no_samples scan.now.codings)) }
        ensures decided { IfOk result (λ planes. AreDecidedFrom (length (growing_in planes))
            self.now.planes scan.now.codings) }
        ensures growing { IfOk result (GrowsFor scan.now.codings) }
        ensures first { IfOk result
            (λ planes. is_joint planes ≡ true → IsFirst self.now.planes scan.now) }
    {
        let components = frame.components.as_slice();
        let is_first = self.planes.are_none() && is_whole(scan.pass());
        if is_first && are_in_order(scan.components(), components.len()) {
            let rows = frame.mcu_size.height;
            if let Some(shape) = joint_shape(components, frame.output_size, rows) {
                return Ok(GrowingPlanes::Joint(JointPlanes::new(alloc, shape)?));
            }
        }
        let codings = scan.components();
        let count = self.count_wanted(codings);
        let planes = empty_planes(alloc, &codings[..count])?;
        Ok(GrowingPlanes::Own(planes))
    }

    /// Adds the planes of a scan of all components of a frame, which are in one buffer.
    fn add_joint(&mut self, scan: &Scan<'_>, joint: JointPlanes)
        requires first { IsFirst self.old.planes scan.now }
        requires full { IsFullJoint joint }
        requires count { joint.shape.count ≡ length scan.now.codings }
        ensures kept { self.new.kept ≡ self.old.kept }
        ensures samples { self.new.samples ≡ self.old.samples }
        ensures planes { (base : Found) → with_decoded base self.new
            ≡ with_planes scan.now.pass scan.now.codings
            (joint_planes joint.shape joint.samples.items) (with_decoded base self.old) }
    {
        let codings = scan.components();
        for coded in codings {
            finish(scan.pass(), &mut self.finished[coded.index]);
        }
        self.planes.put_joint(joint);
    }

    /// Adds the planes of the first components of a scan of a sequential frame, where those of the
    /// others are decided.
    #[tactic(auto, using(crate::proofs::Strips::JointStrips::full_rules))]
    fn add_grown(&mut self, scan: &Scan<'_>, planes: GrowingPlanes, alloc: Global)
        requires grown { GrowsFor scan.now.codings planes }
        requires sizes { map length (growing_in planes) ≡ take (length (growing_in planes))
            (map (λ c. c.blocks_high * c.scale * (c.blocks_wide * c.scale))
            (scan_components scan.now)) }
        requires decided { AreDecidedFrom (length (growing_in planes)) self.old.planes
            scan.now.codings }
        requires first { is_joint planes ≡ true → IsFirst self.old.planes scan.now }
        ensures kept { self.new.kept ≡ self.old.kept }
        ensures samples { self.new.samples ≡ self.old.samples }
        ensures planes { (base : Found) → with_decoded base self.new
            ≡ with_first_planes scan.now.pass scan.now.codings (growing_in planes)
            (with_decoded base self.old) }
    {
        match planes {
            GrowingPlanes::Own(mut planes) => {
                let count = planes.len();
                self.add_planes(scan, &mut planes, alloc);
                self.mark_rest(scan, count);
            }
            GrowingPlanes::Joint(joint) => self.add_joint(scan, joint),
        }
    }

    /// Adds the blocks of a scan's components.
    fn add_arrays(
        &mut self,
        alloc: Global,
        scan: &Scan<'_>,
        arrays: &Vec<BlockArray>,
    ) -> std::result::Result<(), AllocError>
        requires blocks { AreArrays (scan_components scan.now) (arrays_in arrays.now.items) }
        ensures kept { OnOk result (self.new.kept ≡ self.old.kept) }
        ensures samples { OnOk result (self.new.samples ≡ self.old.samples) }
        ensures planes { OnOk result ((base : Found) → with_decoded base self.new
            ≡ with_arrays scan.now.pass scan.now.codings
            (arrays_in arrays.now.items) (with_decoded base self.old)) }
    {
        let codings = scan.components();
        let mut slot = 0;
        while slot < codings.len() {
            self.add_blocks(alloc, scan.pass(), &codings[slot], &arrays[slot])?;
            slot += 1;
        }
        Ok(())
    }

    /// Holds the blocks of a frame's components before a scan: zeros in a sequential frame, and
    /// before the first scan of a progressive one.
    fn keep(
        &mut self,
        alloc: Global,
        scanned: bool,
        frame: &FrameInfo,
    ) -> std::result::Result<(), AllocError>
        ensures kept { OnOk result (arrays_in self.new.kept.items
            ≡ blocks_before scanned self.old (frame_in frame.now)) }
        ensures finished { self.new.finished ≡ self.old.finished }
        ensures planes { self.new.planes ≡ self.old.planes }
        ensures samples { self.new.samples ≡ self.old.samples }
    {
        if !scanned || !is_progressive(frame.coding_process) {
            self.kept = zero_frame(alloc, frame)?;
        }
        Ok(())
    }

    /// Reads a scan of a progressive frame on the blocks that are kept, and returns the marker
    /// after its data, if it was reached.
    #[inline(never)]
    fn read_kept<R: Read + Drop>(
        &mut self,
        alloc: Global,
        source: &mut Source<R>,
        scanned: bool,
        frame: &FrameInfo,
        scan: &Scan<'_>,
    ) -> Result<Option<Marker>>
        requires process { is_progressive (frame_in frame.now).process ≡ true }
        requires keeps { scan.now.keeps_ac ≡ true }
        requires ready { IsReadable (frame_in frame.now) scan.now }
        requires kept { AreArrays (frame_in frame.now).components
            (blocks_before scanned self.old (frame_in frame.now)) }
        ensures data { (base : Found) → IsBefore scanned scan.now base
            → ReadsData scan.now (frame_in frame.now) base self.old source.old result self.new
            source.new }
        ensures kept { AfterWalk scan.now.beyond result (AreArrays (frame_in frame.now).components
            (arrays_in self.new.kept.items)) }
        ensures planes { ArePlanes (frame_in frame.now).components self.old.planes
            → AfterWalk scan.now.beyond result (ArePlanes (frame_in frame.now).components
            self.new.planes) }
        ensures samples { AfterWalk scan.now.beyond result (self.new.samples ≡ self.old.samples) }
    {
        let codings = scan.components();
        self.keep(alloc, scanned, frame)?;
        let mut arrays = take_blocks(alloc, codings, &mut self.kept)?;
        let mut unread = None;
        let met = read_blocks(alloc, source, scan, &mut arrays, frame, &mut unread);
        if is_lost(scan.beyond(), &met) {
            return met;
        }
        self.add_arrays(alloc, scan, &arrays)?;
        put_blocks(alloc, codings, &mut arrays, &mut self.kept);
        self.rows = rows_above_unread(frame, scan, unread);
        met
    }

    /// Reads a scan of a sequential frame, which decides the planes of components that have none,
    /// and returns the marker after its data, if one was reached.
    ///
    /// No blocks are kept, and none are transformed of components after the last that has no plane.
    #[inline(never)]
    fn read_sequential<R: Read + Drop>(
        &mut self,
        alloc: Global,
        source: &mut Source<R>,
        scanned: bool,
        frame: &FrameInfo,
        scan: &Scan<'_>,
    ) -> Result<Option<Marker>>
        requires process { is_progressive (frame_in frame.now).process ≡ false }
        requires ready { IsReadable (frame_in frame.now) scan.now }
        ensures data { (base : Found) → IsBefore scanned scan.now base
            → ReadsData scan.now (frame_in frame.now) base self.old source.old result self.new
            source.new }
        ensures planes { ArePlanes (frame_in frame.now).components self.old.planes
            → AfterWalk scan.now.beyond result (ArePlanes (frame_in frame.now).components
            self.new.planes) }
        ensures samples { AfterWalk scan.now.beyond result (self.new.samples ≡ self.old.samples) }
    {
        let mut planes = self.start_planes(alloc, frame, scan)?;
        let mut unread = None;
        let met = read_planes(alloc, source, scan, frame, &mut planes, &mut unread);
        if is_lost(scan.beyond(), &met) {
            return met;
        }
        self.kept = Vec::new(alloc);
        self.add_grown(scan, planes, alloc);
        self.rows = rows_above_unread(frame, scan, unread);
        met
    }

    /// Reads the entropy-coded data of a scan, and returns the marker after them, if one was
    /// reached.
    ///
    /// Where nothing follows the markers that end them, the blocks count that were read before an
    /// error other than out of memory, and what lacks is blocks of zeros, or as before in a
    /// progressive frame.
    pub fn read<R: Read + Drop>(
        &mut self,
        alloc: Global,
        source: &mut Source<R>,
        scanned: bool,
        frame: &FrameInfo,
        scan: &Scan<'_>,
    ) -> Result<Option<Marker>>
        requires keeps { is_progressive (frame_in frame.now).process ≡ true
            → scan.now.keeps_ac ≡ true }
        requires ready { IsReadable (frame_in frame.now) scan.now }
        requires kept { AreArrays (frame_in frame.now).components
            (blocks_before scanned self.old (frame_in frame.now)) }
        ensures data { (base : Found) → IsBefore scanned scan.now base
            → ReadsData scan.now (frame_in frame.now) base self.old source.old result self.new
            source.new }
        ensures kept { AfterWalk scan.now.beyond result (AreArrays (frame_in frame.now).components
            (blocks_before true self.new (frame_in frame.now))) }
        ensures planes { ArePlanes (frame_in frame.now).components self.old.planes
            → AfterWalk scan.now.beyond result (ArePlanes (frame_in frame.now).components
            self.new.planes) }
        ensures samples { AfterWalk scan.now.beyond result (self.new.samples ≡ self.old.samples) }
    {
        if is_progressive(frame.coding_process) {
            return self.read_kept(alloc, source, scanned, frame, scan);
        }
        self.read_sequential(alloc, source, scanned, frame, scan)
    }
}
