//! What a scan header says (T.81, B.2.3).

use std::ops::Range;

/// The greatest number of components of a frame.
pub const MAX_COMPONENTS: usize = 4;

/// How a lossless sample is predicted (T.81, Table H.1).
#[derive(Clone, Copy, Debug, PartialEq)]
pub enum Predictor {
    /// Selection 0, of differential frames: the difference is the sample.
    NoPrediction,
    /// Selection 1: the sample to the left.
    Ra,
    /// Selection 2: the sample above.
    Rb,
    /// Selection 3: the sample above and to the left.
    Rc,
    /// Selection 4: Ra + Rb - Rc.
    RaRbRc1,
    /// Selection 5: Ra + ((Rb - Rc) >> 1).
    RaRbRc2,
    /// Selection 6: Rb + ((Ra - Rc) >> 1).
    RaRbRc3,
    /// Selection 7: (Ra + Rb) / 2.
    RaRb,
}

/// A scan header. The lists have an entry for each component of the scan, in its order.
#[derive(Debug, Drop)]
pub struct ScanInfo {
    /// The components' indices in the frame.
    pub component_indices: Vec<usize>,
    /// The destinations of their DC tables.
    pub dc_table_indices: Vec<usize>,
    /// The destinations of their AC tables.
    pub ac_table_indices: Vec<usize>,
    /// The coefficients that the scan codes, by their indices in zigzag order.
    pub spectral_selection: Range<u8>,
    /// The predictor of a lossless scan.
    pub predictor_selection: Predictor,
    /// The level at which the scan finds its coefficients, or 0 in a first scan.
    pub successive_approximation_high: u8,
    /// The level at which the scan leaves its coefficients.
    pub successive_approximation_low: u8,
    /// The point transform of a lossless scan.
    pub point_transform: u8,
}
