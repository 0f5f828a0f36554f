//! The lines of the picture of a stream that arrives in pieces, one by one, as soon as their bytes
//! are there.
ghost use Rattle.std.specs.Prelude.{◌≡◌, ◌+◌, ◌++◌, ◌<◌, ◌≤◌, ℕ, IfErr, IfOk, List, [], Ok};
ghost use Rattle.std.specs.Prelude.{OnErr, OnOk, false, length, slice_index, true};
ghost use Rattle.jpeg_bits.specs.declared.error.Error.TheVariants.{OutOfMemory};
ghost use Rattle.jpeg_decoder.specs.FedRows.{line_size, lines_in};
ghost use Rattle.jpeg_decoder.specs.declared.fed_rows.Given.TheVariants as gives;
ghost use Rattle.zaxbriar_calls.specs.ArrivedLines.{AreSettingsAt, AreTakenFed, EndsBytes};
ghost use Rattle.zaxbriar_calls.specs.ArrivedLines.{PutsFedLine};
ghost use Rattle.zaxbriar_calls.specs.ArrivedLines.{ReachesFed, TakesFedLine, are_for_fed_rows};
ghost use Rattle.zaxbriar_calls.specs.Faults.{fault_code, with_passes};
ghost use Rattle.zaxbriar_calls.specs.Features.{feature_of};
ghost use Rattle.zaxbriar_calls.specs.Outcomes.{DescribesStream};
ghost use Rattle.zaxbriar_calls.specs.TakenLines.{no_reason, telling};
ghost use Rattle.zaxbriar_calls.specs.declared.answers.Refusal.TheVariants.{Stream};

use crate::answers::{END, NO_ROOM, OK, Refusal, TEXT_BYTES, WAITING, answer, with_passes};
use crate::counts::bytes_read;
use crate::decoders::decoder_of;
use crate::density::density_of;
use crate::description::describe;
use crate::features::outcome_feature;
use crate::options::{Options, is_full_size};
use crate::picture::Picture;
use crate::rows::{NO_REASON, Reason, are_for_rows};
use jpeg_decoder::error::{Error, Result};
use jpeg_decoder::{FedRows, Given, Settings};
use std::alloc::Global;

/// Gives the lines of a picture one by one, while the bytes of its stream arrive.
#[derive(Drop)]
pub struct FedRowReader {
    rows: FedRows,
    /// How many bytes were taken of the lines that were read last.
    taken: usize,
    /// What each call returns from now on: the number of the end or of a refusal, or OK while lines
    /// may be left.
    answer: u32,
    /// Why the stream was refused, if it was.
    reason: Reason,
}

/// Returns whether all options exist for lines that come while their bytes arrive.
pub fn are_for_fed_rows(options: &Options) -> bool
    ensures { result ≡ are_for_fed_rows options.now }
{
    are_for_rows(options) && is_full_size(options)
}

/// Describes the picture of a stream, by the header in the bytes that have arrived, and returns the
/// settings by which it is decoded.
pub fn describe_settings(
    alloc: Global,
    jpeg: &[u8],
    options: &Options,
    picture: &mut Picture,
) -> std::result::Result<Settings, Refusal>
    requires known { are_for_fed_rows options.now ≡ true }
    ensures described { DescribesStream options.now jpeg.now picture.old picture.new result }
    ensures settings { IfOk result (AreSettingsAt options.now jpeg.now) }
{
    let mut decoder = decoder_of(alloc, jpeg)?;
    let described = describe(&mut decoder, options, density_of(jpeg), picture);
    picture.stream_bytes = bytes_read(jpeg, &decoder);
    match described {
        Ok(_) => Ok(decoder.settings()),
        Err(refusal) => Err(refusal),
    }
}

impl FedRowReader {
    /// Begins with the bytes that have arrived, of a picture that is decoded as the settings say.
    /// The only error is `OutOfMemory`.
    pub fn new(alloc: Global, settings: Settings, jpeg: &[u8]) -> Result<FedRowReader>
        ensures taken { IfOk result (AreTakenFed jpeg.now []) }
        ensures settings { IfOk result (λ r. r.rows.settings ≡ settings) }
        ensures open { IfOk result (λ r. r.rows.has_ended ≡ false) }
        ensures answer { IfOk result (λ r. r.answer ≡ 0) }
        ensures reason { IfOk result (λ r. r.reason ≡ no_reason) }
        ensures memory { IfErr result (λ e. e ≡ OutOfMemory) }
    {
        let mut rows = FedRows::with_settings(alloc, settings);
        rows.feed(jpeg)?;
        // Nothing was read, so that no line is there yet.
        let taken = rows.lines().len();
        Ok(FedRowReader {
            rows,
            taken,
            answer: OK,
            reason: NO_REASON,
        })
    }

    /// Returns whether the end of the bytes was said.
    pub fn has_ended(&self) -> bool
        ensures { result ≡ self.now.rows.has_ended }
    {
        self.rows.has_ended()
    }

    /// Takes the next bytes. The only error is `OutOfMemory`, in which case none of them were
    /// taken.
    pub fn feed(&mut self, piece: &[u8]) -> Result<()>
        requires open { self.old.rows.has_ended ≡ false }
        ensures fed { OnOk result ((fed bytes : List ℕ) → AreTakenFed fed bytes self.old
            → AreTakenFed (fed ++ piece.now) bytes self.new) }
        ensures unfed { OnErr result (self.new ≡ self.old) }
        ensures open { self.new.rows.has_ended ≡ false }
        ensures settings { self.new.rows.settings ≡ self.old.rows.settings }
        ensures answer { self.new.answer ≡ self.old.answer }
        ensures reason { self.new.reason ≡ self.old.reason }
    {
        self.rows.feed(piece)
    }

    /// Says that no more bytes come.
    pub fn end(&mut self)
        ensures { EndsBytes self.old self.new }
    {
        self.rows.end();
    }

    /// Returns whether a line is there that wasn't taken.
    fn has_line(&self) -> bool
        ensures there { result ≡ true → self.now.taken + line_size self.now.rows
            ≤ length (lines_in self.now.rows.ahead) }
        ensures some { result ≡ true → 0 < line_size self.now.rows }
        ensures none { result ≡ false → (fed bytes : List ℕ) → AreTakenFed fed bytes self.now
            → length (lines_in self.now.rows.ahead) ≤ self.now.taken }
    {
        let size = self.rows.line_bytes();
        let bytes = self.rows.lines().len();
        size > 0 && (self.taken <= bytes && size <= bytes - self.taken)
    }

    /// Reads on until a line is there, or more bytes are needed, or to the end of the image.
    fn reach_line(&mut self) -> Result<Given>
        ensures reaches { (fed bytes : List ℕ) → AreTakenFed fed bytes self.old
            → ReachesFed fed bytes result self.new }
        ensures there { result ≡ Ok gives.Lines → self.new.taken + line_size self.new.rows
            ≤ length (lines_in self.new.rows.ahead) }
        ensures ended { self.new.rows.has_ended ≡ self.old.rows.has_ended }
        ensures settings { self.new.rows.settings ≡ self.old.rows.settings }
        ensures answer { self.new.answer ≡ self.old.answer }
        ensures reason { self.new.reason ≡ self.old.reason }
    {
        while !self.has_line() {
            // Lines are whole: with no line, nothing is left.
            let given = self.rows.read()?;
            if given != Given::Lines {
                // Those that were given before are there still.
                self.taken = self.rows.lines().len();
                return Ok(given);
            }
            self.taken = 0;
        }
        Ok(Given::Lines)
    }

    /// Writes the next line, which is there, if the caller's memory has room for it.
    fn put_line(&mut self, line: &mut [u8]) -> u32
        requires there { self.old.taken + line_size self.old.rows
            ≤ length (lines_in self.old.rows.ahead) }
        ensures puts { PutsFedLine self.old self.new line.old line.new result }
        ensures rows { self.new.rows ≡ self.old.rows }
    {
        let size = self.rows.line_bytes();
        if line.len() < size {
            return NO_ROOM;
        }
        let lines = self.rows.lines();
        let end = self.taken + size;
        line[..size].copy_from_slice(&lines[self.taken..end]);
        self.taken = end;
        OK
    }

    /// Ends with the refusal for an error, which the reader can tell from now on, and returns its
    /// number.
    fn refuse(&mut self, alloc: Global, error: Error) -> u32
        ensures code { result ≡ with_passes self.old.rows.exceeded (fault_code (Stream error)) }
        ensures answer { self.new.answer ≡ result }
        ensures feature { self.new.reason.feature ≡ feature_of (Stream error) }
        ensures text { slice_index self.new.reason.text 111 ≡ 0 }
        ensures rows { self.new.rows ≡ self.old.rows }
    {
        let exceeded = self.rows.has_exceeded_max_blocks();
        let refused: std::result::Result<(), Refusal> = Err(Refusal::Stream(error));
        let feature = outcome_feature(&refused);
        let mut text = [0; TEXT_BYTES];
        let code = with_passes(exceeded, answer(alloc, refused, &mut text));
        self.reason = Reason { feature, text };
        self.answer = code;
        code
    }

    /// Writes the next line, and returns OK; or WAITING until more bytes are fed or their end is
    /// said, END after the last line, the number of a refusal of the stream, or NO_ROOM for too
    /// short a line, after which it is there still.
    pub fn next_line(&mut self, alloc: Global, line: &mut [u8]) -> u32
        ensures { TakesFedLine self.old self.new line.old line.new result }
    {
        if self.answer != OK {
            return self.answer;
        }
        match self.reach_line() {
            Ok(Given::Lines) => self.put_line(line),
            Ok(Given::Waiting) => WAITING,
            Ok(Given::End) => {
                self.answer = END;
                END
            }
            Err(error) => self.refuse(alloc, error),
        }
    }

    /// Writes why the stream was refused into a picture, or nothing unless it was, and returns what
    /// each call returns from now on, or OK while lines may be left.
    pub fn tell_refusal(&self, picture: &mut Picture) -> u32
        ensures told { picture.new ≡ telling self.now.reason picture.old }
        ensures answer { result ≡ self.now.answer }
    {
        self.reason.tell(picture);
        self.answer
    }
}
