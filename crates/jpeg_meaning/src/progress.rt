//! How far a decoder has come.

/// How far a decoder has come with its stream.
#[derive(Clone, Copy, Debug, PartialEq)]
pub enum Progress {
    /// Nothing was read.
    Fresh,
    /// The header was read.
    HeaderRead,
    /// The image was decoded.
    Finished,
    /// A call has failed.
    Failed,
}
