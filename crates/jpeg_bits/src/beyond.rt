//! What follows the marker that ends entropy-coded data.

/// What is read where a marker ends entropy-coded data and more bits are wanted (T.81, F.2.2.5).
#[derive(Clone, Copy, Debug, PartialEq)]
pub enum Beyond {
    /// Zeros without end, so that the blocks of a stream that ends early are read whole.
    Zeros,
    /// Nothing: a block that needs one bit more isn't read.
    Nothing,
}
