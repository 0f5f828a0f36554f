//! The settings of a decoder.

use jpeg_bits::color_transform::ColorTransform;

/// What a caller sets.
#[derive(Clone, Copy, Debug, PartialEq)]
pub struct Settings {
    /// The greatest number of samples of a picture, all components together.
    pub limit: usize,
    /// The colour transform of pictures of several components, if it overrides that of the
    /// segments.
    pub color_transform: Option<ColorTransform>,
    /// The greatest number of blocks that the scans of a stream may code, all together, if there is
    /// a limit. Eight samples of a lossless scan count as a block.
    pub max_blocks: Option<u64>,
    /// Whether the picture is the luma of a picture in colour, without its colours. Pictures of one
    /// component and lossless pictures are not affected.
    pub luma: bool,
}
