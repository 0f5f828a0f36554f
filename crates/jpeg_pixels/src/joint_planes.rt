//! Planes of like components in one buffer: for each row of MCUs (T.81, A.2.3) one strip per
//! component.
ghost use Rattle.std.specs.Prelude.{◌≡◌, ◌*◌, All, IfSome, map, true};
ghost use Rattle.std.specs.List.{AllByRecursion};
ghost use Rattle.jpeg_segments.specs.Frame.{AllHaveSampling};
ghost use Rattle.jpeg_segments.specs.FrameView.{component_in};
ghost use Rattle.jpeg_pixels.specs.JointPlanes.{IsLike, IsShapeOf};

use jpeg_segments::parser::{Component, Dimensions};
use std::alloc::{AllocError, Global};

/// The layout of planes in one buffer: for each row of MCUs one strip per component, of some lines
/// each.
#[derive(Clone, Copy, Debug, PartialEq)]
pub struct JointShape {
    /// How many components there are: 3 or 4.
    pub count: usize,
    /// How many samples a line of a plane has.
    pub stride: usize,
    /// How many lines a strip has.
    pub lines: usize,
    /// How many rows of MCUs there are.
    pub rows: usize,
}

impl JointShape {
    ghost use Rattle.std.specs.Prelude.{◌≡◌};
    ghost use Rattle.jpeg_pixels.specs.JointPlanes.{HasFrameSizes, joint_row_size, strip_size};

    // Returns the number of samples of a component in a row of MCUs.
    pub(crate) fn strip_size(&self) -> usize
        requires { HasFrameSizes self.now }
        ensures { result ≡ strip_size self.now }
    {
        self.lines * self.stride
    }

    // Returns the number of samples of all components in a row of MCUs.
    pub(crate) fn row_size(&self) -> usize
        requires { HasFrameSizes self.now }
        ensures { result ≡ joint_row_size self.now }
    {
        self.count * self.strip_size()
    }
}

// Returns whether a component has the factors, the columns of blocks and the scale of another.
fn is_like(component: &Component, first: &Component) -> bool
    ensures { result ≡ true → IsLike first.now component.now }
{
    component.horizontal_sampling_factor == first.horizontal_sampling_factor
        && component.vertical_sampling_factor == first.vertical_sampling_factor
        && component.block_size.width == first.block_size.width
        && component.dct_scale == first.dct_scale
}

// Returns whether all components are like the first one.
#[tactic(auto, using(crate::proofs::Rules::alike))]
fn are_alike(components: &[Component], first: &Component) -> bool
    ensures { result ≡ true → All (IsLike first.now) components.now }
{
    for component in components {
        if !is_like(component, first) {
            return false;
        }
    }
    true
}

/// Returns the layout of a frame's planes in one buffer, where its three or four components have
/// the same factors and the samples of a picture of this size, in `rows` rows of MCUs.
pub fn joint_shape(components: &[Component], size: Dimensions, rows: u16) -> Option<JointShape>
    requires { AllHaveSampling (map component_in components.now) }
    ensures shape { IfSome result
        (IsShapeOf (map component_in components.now) size.width size.height) }
    ensures rows { IfSome result (λ shape. shape.rows ≡ rows) }
    ensures lines { IfSome result (λ shape. AllByRecursion
        (λ c. c.factors.vertical * c.scale ≡ shape.lines) (map component_in components.now)) }
{
    let first = components.first()?;
    if components.len() < 3 || components.len() > 4 || !are_alike(components, first) {
        return None;
    }
    let shape = JointShape {
        count: components.len(),
        stride: usize::from(first.block_size.width) * first.dct_scale,
        lines: usize::from(first.vertical_sampling_factor) * first.dct_scale,
        rows: usize::from(rows),
    };
    let is_wide = usize::from(size.width) <= shape.stride;
    let is_high = usize::from(size.height) <= shape.rows * shape.lines;
    if is_wide && is_high {
        Some(shape)
    } else {
        None
    }
}

/// Planes of like components in one buffer.
#[derive(Drop)]
pub struct JointPlanes {
    /// Their layout.
    pub shape: JointShape,
    /// The strips of the rows of MCUs that were read.
    pub samples: Vec<u8>,
}

impl JointPlanes {
    ghost use Rattle.std.specs.Prelude.{◌≡◌, ◌*◌, ◌<◌, [], IfOk, length, map};
    ghost use Rattle.jpeg_pixels.specs.JointPlanes.{HasFrameSizes, joint_plane, joint_row_size};

    /// Makes planes without samples, and reserves memory for all of them. The only error is a
    /// refused allocation.
    pub fn new(alloc: Global, shape: JointShape) -> std::result::Result<JointPlanes, AllocError>
        requires { HasFrameSizes shape }
        ensures shape { IfOk result (λ p. p.shape ≡ shape) }
        ensures none { IfOk result (λ p. p.samples.items ≡ []) }
    {
        let samples = Vec::with_capacity(alloc, shape.rows * shape.row_size())?;
        Ok(JointPlanes { shape, samples })
    }

    /// Copies the planes. The only error is a refused allocation.
    pub fn copied(&self, alloc: Global) -> std::result::Result<JointPlanes, AllocError>
        ensures shape { IfOk result (λ p. p.shape ≡ self.now.shape) }
        ensures samples { IfOk result (λ p. p.samples.items ≡ self.now.samples.items) }
    {
        let samples = Vec::from_slice(alloc, &self.samples)?;
        Ok(JointPlanes {
            shape: self.shape,
            samples,
        })
    }

    /// Copies the plane of the component in a slot, once all rows were read. The only error is a
    /// refused allocation.
    #[tactic(auto, using(crate::proofs::JointPictures::strips))]
    pub fn plane(&self, alloc: Global, slot: usize) -> std::result::Result<Vec<u8>, AllocError>
        requires small { HasFrameSizes self.now.shape }
        requires slot { slot < self.now.shape.count }
        requires full { length self.now.samples.items
            ≡ self.now.shape.rows * joint_row_size self.now.shape }
        ensures { IfOk result
            (λ v. v.items ≡ joint_plane self.now.shape self.now.samples.items slot) }
    {
        let size = self.shape.strip_size();
        let mut plane = Vec::with_capacity(alloc, self.shape.rows * size)?;
        for row in 0..self.shape.rows {
            let start = row * self.shape.row_size() + slot * size;
            plane.extend_from_slice(&self.samples[start..start + size])?;
        }
        Ok(plane)
    }
}
