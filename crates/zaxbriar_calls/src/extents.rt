//! How much of a picture is asked for.

/// How much of a picture is asked for.
#[derive(Clone, Copy)]
pub enum Extent {
    /// All of it, which a stream with a fault doesn't have.
    Whole,
    /// What the stream brings of it up to its first fault.
    Partial,
    /// The planes of its components in place of its lines: all of them, as of a whole picture.
    Planes,
}
