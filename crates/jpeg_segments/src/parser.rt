//! The segments of a stream (T.81, B.2).

pub use crate::application::{
    AdobeColorTransform, AppData, IccChunk, parse_app, parse_com, parse_dri,
};
pub use crate::frame::{CodingProcess, Component, Dimensions, EntropyCoding, FrameInfo};
pub use crate::frame_header::parse_sof;
pub use crate::huffman_tables::{DefinedTables, parse_dht, read_huffman_tables};
pub use crate::quantization::parse_dqt;
pub use crate::scan_header::{ScanHeader, parse_sos, read_scan_header};
pub use jpeg_bits::scan::{Predictor, ScanInfo};
