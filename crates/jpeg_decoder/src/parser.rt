//! Marker segments and what they say (T.81, B.2).

pub use jpeg_segments::parser::{
    AdobeColorTransform, AppData, CodingProcess, Component, Dimensions, EntropyCoding, FrameInfo,
    IccChunk, Predictor, ScanInfo, parse_app, parse_com, parse_dht, parse_dqt, parse_dri,
    parse_sof, parse_sos,
};
