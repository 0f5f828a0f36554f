//! What phones and editors write beside a picture: Exif data of several segments and their
//! thumbnail, extended XMP, and IPTC data. Nothing here reads a stream: a caller gives the segments
//! of its applications in the order of the stream, to `collected` with their names, or their data
//! without the names to the functions of the other modules.
#![tactic(auto)]

pub mod collected;
pub mod exif;
pub mod laws;
pub mod photoshop;
pub mod xmp;
