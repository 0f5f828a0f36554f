//! The lines of the picture of a stream in memory, one by one, as the stream is read.
ghost use Rattle.std.specs.Prelude.{◌≡◌, ◌+◌, ◌<◌, ◌≤◌, ℕ, IfOk, List, Ok, false};
ghost use Rattle.std.specs.Prelude.{length, true};
ghost use Rattle.jpeg_decoder.specs.Rows.{calls_left, lines_in};
ghost use Rattle.jpeg_meaning.specs.States.{Decoding};
ghost use Rattle.zaxbriar_calls.specs.Outcomes.{DescribesStream};
ghost use Rattle.zaxbriar_calls.specs.TakenLines.{AreTaken, BeginsRows, PutsLine, ReachesLine};
ghost use Rattle.zaxbriar_calls.specs.TakenLines.{SaysWhy, TakesLine, are_for_rows, is_plain};
ghost use Rattle.zaxbriar_calls.specs.TakenLines.{telling};

use crate::answers::{END, NO_ROOM, OK, Refusal, TEXT_BYTES, answer, refusal_of, with_passes};
use crate::counts::bytes_read;
use crate::decoders::decoder_of;
use crate::density::density_of;
use crate::description::describe;
use crate::features::{Feature, outcome_feature};
use crate::options::{Options, are_known, is_cropped, is_fitted};
use crate::picture::Picture;
use jpeg_decoder::error::{Error, Result};
use jpeg_decoder::{Rows, SliceReader};
use std::alloc::Global;

/// What a caller is told of the refusal of a stream.
#[derive(Clone, Copy)]
pub struct Reason {
    /// The feature that the stream lacks here, or none.
    pub feature: Feature,
    /// The text, ended by a zero.
    pub text: [u8; TEXT_BYTES],
}

impl Reason {
    /// Writes it into a picture.
    pub fn tell(&self, picture: &mut Picture)
        ensures { picture.new ≡ telling self.now picture.old }
    {
        picture.feature = self.feature.number;
        picture.feature_argument = self.feature.argument;
        picture.text = self.text;
    }
}

/// Nothing was refused.
pub(crate) const NO_REASON: Reason = Reason {
    feature: Feature {
        number: 0,
        argument: 0,
    },
    text: [0; TEXT_BYTES],
};

/// Gives the lines of a picture one by one.
#[derive(Drop)]
pub struct RowReader {
    rows: Rows<SliceReader<'static>>,
    /// How many bytes were taken of the lines that were read last.
    taken: usize,
    /// The bytes of a line.
    line_bytes: usize,
    /// What each call returns from now on: the number of the end or of a refusal, or OK while lines
    /// may be left.
    answer: u32,
    /// Why the stream was refused, if it was.
    reason: Reason,
}

/// Returns whether no option asks for another arrangement of samples than the decoder's.
fn is_plain(options: &Options) -> bool
    ensures { result ≡ is_plain options.now }
{
    options.stride == 0
        && (options.layout == 0
            && (options.bottom_up == 0
                && (options.upright == 0
                    && (options.luma == 0 && (!is_cropped(options) && !is_fitted(options))))))
}

/// Returns whether all options exist for lines as they come.
pub fn are_for_rows(options: &Options) -> bool
    ensures { result ≡ are_for_rows options.now }
{
    are_known(options) && is_plain(options)
}

/// Reads the header of a stream, and describes its picture, whose lines lie ahead then.
pub fn begin(
    alloc: Global,
    jpeg: &'static [u8],
    options: &Options,
    picture: &mut Picture,
) -> std::result::Result<RowReader, Refusal>
    requires known { are_for_rows options.now ≡ true }
    ensures described { DescribesStream options.now jpeg.now picture.old picture.new result }
    ensures begins { IfOk result (BeginsRows options.now jpeg.now picture.new) }
{
    let mut decoder = decoder_of(alloc, jpeg)?;
    let density = density_of(jpeg);
    let described = describe(&mut decoder, options, density, picture);
    picture.stream_bytes = bytes_read(jpeg, &decoder);
    match described {
        Ok((_, lines)) => Ok(RowReader {
            rows: Rows::new(decoder),
            taken: 0,
            line_bytes: lines.row_bytes as usize,
            answer: OK,
            reason: NO_REASON,
        }),
        Err(refusal) => Err(refusal),
    }
}

impl RowReader {
    /// Returns whether a line is there that wasn't taken.
    fn has_line(&self) -> bool
        ensures there { result ≡ true
            → self.now.taken + self.now.line_bytes ≤ length (lines_in self.now.rows.ahead) }
        ensures none { result ≡ false
            → length (lines_in self.now.rows.ahead) < self.now.taken + self.now.line_bytes }
    {
        let bytes = self.rows.lines().len();
        self.taken <= bytes && self.line_bytes <= bytes - self.taken
    }

    /// Reads on, after all lines were taken that are there, and returns whether there may be more.
    fn read(&mut self) -> Result<bool>
        requires none { length (lines_in self.old.rows.ahead)
            < self.old.taken + self.old.line_bytes }
        ensures reaches { (start : Decoding) (bytes : List ℕ) → AreTaken start bytes self.old
            → ReachesLine start bytes result self.new }
        ensures fewer { result ≡ Ok true
            → calls_left self.new.rows.ahead < calls_left self.old.rows.ahead }
        ensures line_bytes { self.new.line_bytes ≡ self.old.line_bytes }
        ensures answer { self.new.answer ≡ self.old.answer }
        ensures reason { self.new.reason ≡ self.old.reason }
    {
        // Lines are whole, and of one length: with no line, nothing is left.
        self.taken = 0;
        self.rows.read()
    }

    /// Reads on until a line is there, and returns true, or to the end of the image.
    fn reach_line(&mut self) -> Result<bool>
        ensures reaches { (start : Decoding) (bytes : List ℕ) → AreTaken start bytes self.old
            → ReachesLine start bytes result self.new }
        ensures there { result ≡ Ok true → self.new.taken + self.new.line_bytes
            ≤ length (lines_in self.new.rows.ahead) }
        ensures line_bytes { self.new.line_bytes ≡ self.old.line_bytes }
        ensures answer { self.new.answer ≡ self.old.answer }
        ensures reason { self.new.reason ≡ self.old.reason }
    {
        while !self.has_line() {
            if !self.read()? {
                return Ok(false);
            }
        }
        Ok(true)
    }

    /// Writes the next line, which is there.
    fn put_line(&mut self, line: &mut [u8])
        requires there { self.old.taken + self.old.line_bytes
            ≤ length (lines_in self.old.rows.ahead) }
        requires room { self.old.line_bytes ≤ length line.old }
        ensures { PutsLine self.old self.new line.old line.new }
    {
        let size = self.line_bytes;
        let lines = self.rows.lines();
        let end = self.taken + size;
        line[..size].copy_from_slice(&lines[self.taken..end]);
        self.taken = end;
    }

    /// Ends with the refusal for an error, which the reader can tell from now on, and returns its
    /// number.
    fn refuse(&mut self, alloc: Global, error: Error) -> u32
        ensures why { SaysWhy error result self.new }
        ensures rows { self.new.rows ≡ self.old.rows }
    {
        let decoder = self.rows.decoder();
        let exceeded = decoder.has_exceeded_max_blocks();
        let refused: std::result::Result<(), Refusal> = Err(refusal_of(decoder, error));
        let feature = outcome_feature(&refused);
        let mut text = [0; TEXT_BYTES];
        let code = with_passes(exceeded, answer(alloc, refused, &mut text));
        self.reason = Reason { feature, text };
        self.answer = code;
        code
    }

    /// Writes the next line, and returns OK; or returns END after the last, the number of a refusal
    /// of the stream, or NO_ROOM for too short a line, after which it is there still.
    pub fn next_line(&mut self, alloc: Global, line: &mut [u8]) -> u32
        ensures { TakesLine self.old self.new line.old line.new result }
    {
        if self.answer != OK {
            return self.answer;
        }
        if line.len() < self.line_bytes {
            return NO_ROOM;
        }
        match self.reach_line() {
            Ok(true) => {
                self.put_line(line);
                OK
            }
            Ok(false) => {
                self.answer = END;
                END
            }
            Err(error) => self.refuse(alloc, error),
        }
    }

    /// Writes why the stream was refused into a picture, or nothing unless it was, and returns what
    /// each call returns from now on, or OK while lines may be left.
    pub fn tell_refusal(&self, picture: &mut Picture) -> u32
        ensures told { picture.new ≡ telling self.now.reason picture.old }
        ensures answer { result ≡ self.now.answer }
    {
        self.reason.tell(picture);
        self.answer
    }
}
