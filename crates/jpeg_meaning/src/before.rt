//! Where a marker stands in a stream.

/// What is read just before a marker. A scan before it may have left a stray restart marker, and
/// the line count of DNL may come only after the first scan (T.81, B.2.5).
#[derive(Clone, Copy, Debug, PartialEq)]
pub enum Before {
    /// The data of the first scan.
    FirstScan,
    /// The data of a later scan.
    LaterScan,
    /// A segment without entropy-coded data, or nothing yet.
    Elsewhere,
}
