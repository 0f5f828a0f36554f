//! Huffman tables, and the bits of entropy-coded data (T.81, Annex C and F.2.2).

pub use jpeg_bits::huffman::{
    HuffmanDecoder, HuffmanTable, HuffmanTableClass, fill_default_mjpeg_tables,
};
