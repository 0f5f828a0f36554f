//! A decoder of JPEG streams (ITU-T T.81) whose calls are proved: baseline, extended sequential and
//! progressive streams of 8 bits, and lossless ones of 2 to 16 bits, with Huffman coding.
//!
//! [`Decoder`] takes the bytes from any reader; [`SliceReader`] is one for bytes in memory. It is
//! fastest where it may read ahead. Where the reader is used after the picture, [`Decoder::new`]
//! reads no byte too many, and a [`ByteReader`] over a buffered reader is the fastest for it:
//!
//!     let mut decoder = Decoder::with_capacity(alloc, 65536, file)?;
//!     let pixels = decoder.decode()?;     // a Vec<u8>, line by line from the top
//!     let info = decoder.info();          // width, height, pixel format and coding process
//!     let bits = decoder.precision();     // bits per sample: one byte up to 8, two above
//!     let exif = decoder.exif_data();     // also xmp_data and icc_profile
//!
//! The bytes of a picture are its samples, line by line from the top and pixel by pixel, one of
//! each component. [`PixelFormat`] says what they are, and `precision` how many bytes each takes: a
//! lossless picture of three or four components above 8 bits has two, the lower byte first, beside
//! `RGB24` or `CMYK32`.
//!
//! `decode_into` writes the picture into the caller's memory, and `decode_lines` returns its
//! [`Lines`], each of which can be written anywhere, with no picture in memory besides the planes.
//! [`Rows`] gives the lines while the scan that has them is read, so that memory doesn't grow with
//! the height of the picture; whether they were right it says at the end.
//! `decode_planes` returns the samples of each component at its own size, neither upsampled nor
//! converted, as video, graphics processors and programs that look at pictures take them.
//! `decode_partial` shows the part before the first fault of a stream that may be truncated or
//! damaged, and names that fault. [`FedDecoder`] shows the same at any time of a stream that arrives
//! in pieces, and [`FedRows`] gives its lines from the top as their bytes come.
//!
//! `read_info` reads only the header. `info` then gives the size of the picture, and
//! `decoding_bytes` all the memory that decoding it takes, so that a service can refuse it before
//! any of that is allocated; `set_max_decoding_buffer_size` counts samples, and refuses at the end
//! of the image. `set_max_blocks` limits the blocks that all scans code, and so the time that
//! decoding takes. `set_scale` requests the picture at 1/8, 1/4, 1/2 or full size, and `scale` at
//! the least of these that reaches a size. `set_luma` requests the luma of a picture in colour
//! alone, one sample per pixel. [`run::run`] is a whole program: from a reader to a line of text
//! and the pixels on a writer, and [`run::write_lines`] its end.
//!
//! Every call returns, whatever the reader gives, with a value or an [`Error`] that says what was
//! wrong; after an error the frame and the metadata that were read before it are still there. What
//! `decode` returns is the meaning of the bytes (clause `reads`), and for a stream that was written
//! for the coefficients of an image it is their picture, however they were coded (clause `images`);
//! a lossless stream gives back its samples (clause `samples`). [`laws::headline`] and
//! [`laws::lossless`] have these theorems as laws of their own. A caller with contracts of its own
//! finds the lemmas that it needs in `proofs/Callers.antt`.
//!
//! A caller that reads scans itself, as an MJPEG reader does, finds the parts in [`marker`],
//! [`huffman`], [`parser`], [`idct`], [`arch`], [`upsampler`], [`worker`] and [`lossless`]. Calls
//! that read take a [`Source`](error::Source), which remembers whether a read has failed.
#![tactic(auto)]

pub mod arch;
mod by_rows;
mod copies;
pub mod decoder;
pub mod error;
pub mod fed;
pub mod fed_rows;
pub mod huffman;
pub mod idct;
pub mod laws;
pub mod lossless;
pub mod marker;
pub mod parser;
mod picture;
pub mod rows;
pub mod run;
mod scan;
mod sizes;
mod stream;
pub mod upsampler;
pub mod worker;

pub use decoder::{Decoder, ImageInfo, PartialPicture, PixelFormat};
pub use fed::FedDecoder;
pub use fed_rows::{FedRows, Given};
pub use jpeg_bits::color_transform::ColorTransform;
pub use jpeg_bits::error::{Error, UnsupportedFeature};
pub use jpeg_bits::source::byte_reader::ByteReader;
pub use jpeg_bits::source::slice_reader::SliceReader;
pub use jpeg_meaning::settings::Settings;
pub use jpeg_segments::parser::CodingProcess;
pub use jpeg_segments::scale::Scale;
pub use picture::lines::Lines;
pub use picture::partial::PartialLines;
pub use rows::Rows;
pub use sizes::DecodingBytes;
pub use stream::profile::join_profile;
