//! The chunks of an AVI file, which is a RIFF file: each is named by four characters, and has its
//! size in four bytes, the lowest first, and then that many bytes, and one more if their number is
//! odd.
//!
//! Lists are chunks whose bytes are a name and chunks again. Frames are the chunks `00dc` and
//! `00db` of the list `movi`, where 00 is the number of the stream.

use std::io;
use std::io::{Read, Result};

/// The name and the size of a chunk.
#[derive(Clone, Copy)]
struct Chunk {
    /// Its four characters as a number, the first of them the highest.
    name: u32,
    /// How many bytes it has.
    size: u32,
}

/// `RIFF`, the chunk that is the file, or a part of it.
const RIFF: u32 = 0x5249_4646;

/// `LIST`, a list of chunks.
const LIST: u32 = 0x4c49_5354;

/// `AVIX`, the further parts of a large file.
const PART: u32 = 0x4156_4958;

/// `movi`, the list of frames.
const MOVI: u32 = 0x6d6f_7669;

/// `rec `, a list of frames and sound within that list.
const REC: u32 = 0x7265_6320;

/// `dc` after the number of a stream: a frame.
const FRAME: u32 = 0x6463;

/// `db` after the number of a stream: a frame too.
const BITMAP: u32 = 0x6462;

/// How many bytes the name of a list takes.
const NAME_BYTES: u32 = 4;

/// Returns whether the reader gives an AVI file, whose first byte has been read.
pub fn is_avi<R: Read>(reader: &mut R) -> Result<bool> {
    let mut rest = [0u8; 11];
    reader.read_exact(&mut rest)?;
    Ok(matches!(rest, [b'I', b'F', b'F', _, _, _, _, b'A', b'V', b'I', b' ']))
}

/// Reads four bytes.
fn read_four<R: Read>(reader: &mut R) -> Result<[u8; 4]> {
    let mut bytes = [0u8; 4];
    reader.read_exact(&mut bytes)?;
    Ok(bytes)
}

/// Reads the name and the size of the next chunk, or returns none if the bytes end.
fn read_chunk<R: Read>(reader: &mut R) -> Result<Option<Chunk>> {
    let mut first = [0u8];
    if reader.read(&mut first)? == 0 {
        return Ok(None);
    }
    let mut others = [0u8; 7];
    reader.read_exact(&mut others)?;
    let name = u32::from_be_bytes([first[0], others[0], others[1], others[2]]);
    let size = u32::from_le_bytes([others[3], others[4], others[5], others[6]]);
    Ok(Some(Chunk { name, size }))
}

/// Reads this many bytes, or as many as are left.
fn skip<R: Read>(reader: &mut R, count: u64) -> Result<()> {
    io::copy(&mut reader.take(count), &mut io::sink())?;
    Ok(())
}

/// Returns how many bytes a chunk of this size takes, with its padding.
fn padded(size: u32) -> u64 {
    u64::from(size) + u64::from(size % 2)
}

/// Reads the name of a list, and the rest of it unless it has chunks among which there are frames.
fn enter_list<R: Read>(reader: &mut R, size: u32) -> Result<()> {
    let name = u32::from_be_bytes(read_four(reader)?);
    if matches!(name, MOVI | REC | PART) {
        return Ok(());
    }
    skip(reader, padded(size.saturating_sub(NAME_BYTES)))
}

/// Reads the name of a list, or the bytes of another chunk.
fn pass<R: Read>(reader: &mut R, chunk: Chunk) -> Result<()> {
    if matches!(chunk.name, RIFF | LIST) {
        enter_list(reader, chunk.size)
    } else {
        skip(reader, padded(chunk.size))
    }
}

/// The video of an AVI file: the frames of its first stream that has any.
#[derive(Clone, Copy)]
pub struct Video {
    /// The two characters of its number.
    stream: Option<u32>,
}

impl Video {
    /// Returns the video of a file whose frames are still to be read.
    pub fn new() -> Video {
        Video { stream: None }
    }

    /// Returns whether a chunk is a frame of the video. One without bytes stands for the frame
    /// before it, and is not a frame.
    fn has_frame(&mut self, chunk: Chunk) -> bool {
        if chunk.size == 0 || !matches!(chunk.name % 65536, FRAME | BITMAP) {
            return false;
        }
        let stream = chunk.name / 65536;
        match self.stream {
            Some(own) => own == stream,
            None => {
                self.stream = Some(stream);
                true
            }
        }
    }

    /// Reads the chunks as far as the next frame, and returns its size.
    pub fn find_frame<R: Read>(&mut self, reader: &mut R) -> Result<Option<u32>> {
        for _ in 0..u64::MAX {
            let Some(chunk) = read_chunk(reader)? else {
                break;
            };
            if self.has_frame(chunk) {
                return Ok(Some(chunk.size));
            }
            pass(reader, chunk)?;
        }
        Ok(None)
    }
}

/// Skips the rest of a frame's chunk of this size, of which this many bytes are left, and its
/// padding.
pub fn skip_rest<R: Read>(reader: &mut R, size: u32, left: u64) -> Result<()> {
    skip(reader, left.saturating_add(u64::from(size % 2)))
}
