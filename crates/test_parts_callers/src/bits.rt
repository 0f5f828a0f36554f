//! Callers of `jpeg_bits`.
ghost use Rattle.std.specs.Prelude.{◌≡◌, ◌≤◌, ◌↔◌, IfOk, IsTrue, Ok, Some, length, min, sum};
ghost use Rattle.std.specs.Io.Buffered.{reader_remaining};
ghost use Rattle.std.specs.Io.KnownBytes.{ReadConsumes};
ghost use Rattle.jpeg_bits.specs.BlockView.{to_block, pass_in, predictor_at};
ghost use Rattle.jpeg_bits.specs.Codes.{fast_from, symbol_from};
ghost use Rattle.jpeg_bits.specs.Entropy.{Takes, bits_from, fresh_before, marker_from, upcoming};
ghost use Rattle.jpeg_bits.specs.Marker.{HasLength};
ghost use Rattle.jpeg_bits.specs.Passes.{block_from, predictors_at_start};
ghost use Rattle.jpeg_bits.specs.Readers.{signed_from};
ghost use Rattle.jpeg_bits.specs.Reading.{Answers, next_byte};
ghost use Rattle.jpeg_bits.specs.declared.error.Error.TheVariants.{Io};
ghost use Rattle.jpeg_bits.specs.Skips.{kept, kept_from};

use jpeg_bits::beyond::Beyond;
use jpeg_bits::blocks::{BlockCoding, Carried, read_block};
use jpeg_bits::error::{Error, Result};
use jpeg_bits::huffman::{HuffmanDecoder, HuffmanTable, HuffmanTableClass};
use jpeg_bits::marker::Marker;
use jpeg_bits::source::Source;
use jpeg_bits::source::byte_reader::ByteReader;
use jpeg_bits::source::reads::read_u8;
use jpeg_bits::source::slice_reader::SliceReader;
use std::alloc::Global;
use std::io;
use std::io::{BufReader, Read};

/// Calls `read_u8`.
pub fn byte<R: Read + Drop>(alloc: Global, source: &mut Source<R>) -> Result<u8>
    ensures { Answers (λ b. b) next_byte source.old result source.new }
{
    read_u8(alloc, source)
}

/// Calls `Marker::has_length`.
pub fn has_length(marker: Marker) -> bool
    ensures { IsTrue result ↔ HasLength marker }
{
    marker.has_length()
}

/// Calls `SliceReader::new`.
pub fn slice_reader<'a>(bytes: &'a [u8]) -> SliceReader<'a>
    ensures { result.bytes.now ≡ bytes.now }
{
    SliceReader::new(bytes)
}

/// Calls `ByteReader::new`.
pub fn byte_reader<R: Read + Drop>(inner: BufReader<R>) -> ByteReader<R>
    ensures { result ≡ record { inner = inner } }
{
    ByteReader::new(inner)
}

/// Calls `SliceReader::read`.
pub fn read_slice(reader: &mut SliceReader<'_>, buf: &mut [u8]) -> io::Result<usize>
    ensures bytes { ReadConsumes (Some reader.old.bytes.now) (Some reader.new.bytes.now) result
        buf.new }
    ensures count { result ≡ Ok (min (length reader.old.bytes.now) (length buf.old)) }
{
    reader.read(buf)
}

/// Calls `ByteReader::read`.
pub fn read_buffered<R: Read + Drop>(
    reader: &mut ByteReader<R>,
    into: &mut [u8],
) -> io::Result<usize>
    ensures { ReadConsumes (reader_remaining R.remaining reader.old.inner)
        (reader_remaining R.remaining reader.new.inner) result into.new }
{
    reader.read(into)
}

/// Calls `Error::from`.
pub fn error_of(error: io::Error) -> Error
    ensures { result ≡ Io error }
{
    Error::from(error)
}

/// Calls `HuffmanTable::new`.
pub fn table(
    alloc: Global,
    bits: &[u8; 16],
    values: &[u8],
    class: HuffmanTableClass,
) -> Result<HuffmanTable>
    requires count { sum bits.now ≡ length values.now }
    requires some { 1 ≤ length values.now }
    requires most { length values.now ≤ 256 }
    ensures { IfOk result (λ t. t ≡ record
        { class = class; counts = bits.now; symbols = values.now }) }
{
    HuffmanTable::new(alloc, bits, values, class)
}

/// Calls `HuffmanDecoder::with_beyond`.
pub fn bits_before(alloc: Global, beyond: Beyond) -> HuffmanDecoder
    ensures { result ≡ fresh_before beyond }
{
    HuffmanDecoder::with_beyond(alloc, beyond)
}

/// Calls `HuffmanDecoder::get_bits`.
pub fn number<R: Read + Drop>(
    decoder: &mut HuffmanDecoder,
    source: &mut Source<R>,
    count: u8,
) -> Result<u16>
    requires some { 1 ≤ count }
    requires most { count ≤ 16 }
    ensures { Takes (λ n. n) (bits_from count) decoder.old source.old result decoder.new
        source.new }
{
    decoder.get_bits(source, count)
}

/// Calls `HuffmanDecoder::receive_extend`.
pub fn signed_number<R: Read + Drop>(
    decoder: &mut HuffmanDecoder,
    source: &mut Source<R>,
    count: u8,
) -> Result<i16>
    requires some { 1 ≤ count }
    requires most { count ≤ 15 }
    ensures { Takes (λ v. v) (signed_from count) decoder.old source.old result decoder.new
        source.new }
{
    decoder.receive_extend(source, count)
}

/// Calls `HuffmanDecoder::decode`.
pub fn symbol<R: Read + Drop>(
    decoder: &mut HuffmanDecoder,
    source: &mut Source<R>,
    table: &HuffmanTable,
) -> Result<u8>
    ensures { Takes (λ n. n) (symbol_from table.now) decoder.old source.old result decoder.new
        source.new }
{
    decoder.decode(source, table)
}

/// Calls `HuffmanDecoder::decode_fast_ac`.
pub fn short_value<R: Read + Drop>(
    decoder: &mut HuffmanDecoder,
    source: &mut Source<R>,
    table: &HuffmanTable,
) -> Result<Option<(i16, u8)>>
    ensures { Takes (λ v. v) (fast_from table.now) decoder.old source.old result decoder.new
        source.new }
{
    decoder.decode_fast_ac(source, table)
}

/// Calls `HuffmanDecoder::take_marker`.
pub fn marker<R: Read + Drop>(
    decoder: &mut HuffmanDecoder,
    source: &mut Source<R>,
) -> Result<Option<Marker>>
    ensures { Answers (λ m. m) (λ bytes. marker_from (upcoming decoder.old bytes)) source.old
        result source.new }
{
    decoder.take_marker(source)
}

/// Calls `Carried::at_start`, as at a restart.
pub fn restart(carried: &mut Carried)
    ensures { carried.new ≡ record { predictors = predictors_at_start; run = 0 } }
{
    *carried = Carried::at_start();
}

/// Calls `read_block`.
pub fn block<R: Read + Drop>(
    decoder: &mut HuffmanDecoder,
    source: &mut Source<R>,
    coding: &BlockCoding<'_>,
    carried: &mut Carried,
    block: &mut [i16; 64],
) -> Result<()>
    ensures { Takes (λ _. (
      kept coding.now.keeps_ac (to_block block.new),
      predictor_at coding.now.slot carried.new,
      carried.new.run,
    ))
        (kept_from coding.now.keeps_ac
        (block_from (pass_in coding.now.pass) coding.now.dc_table.now coding.now.ac_table.now
        (predictor_at coding.now.slot carried.old) carried.old.run (to_block block.old)))
        decoder.old source.old result decoder.new source.new }
{
    read_block(decoder, source, coding, carried, block)
}
