//! The lines of a picture, from the top, as the stream that codes them is read.
ghost use Rattle.std.specs.Prelude.{◌++◌, ◌<◌, List, Ok, length, ℕ};
ghost use Rattle.std.specs.List.{concat};
ghost use Rattle.jpeg_meaning.specs.States.{Decoding};
ghost use Rattle.jpeg_decoder.specs.DecodesRows.{DecodesRows};
ghost use Rattle.jpeg_decoder.specs.RowScans.{IsGiving, IsGivingScan, rows_left};
ghost use Rattle.jpeg_decoder.specs.Rows.{AreGiven, GivesNext, calls_left, lines_in};

use crate::by_rows::first_scan::RowScan;
use crate::by_rows::rest::Begun;
use crate::by_rows::shown::Shown;
use crate::decoder::Decoder;
use jpeg_bits::error::Result;
use std::io::Read;
use std::marker::Model;

/// What lies ahead.
#[derive(Drop)]
enum Ahead {
    /// What the decoder has left.
    Start,
    /// The rest of a scan whose lines are given as it is read.
    Scan(RowScan),
    /// Lines of a picture that was decoded.
    Lines(Shown),
    /// Nothing.
    End,
}

/// Gives the lines of a picture from the top, as the stream that codes them is read.
///
///     decoder.read_info()?;
///     let mut rows = Rows::new(decoder);
///     while rows.read()? {
///         output.write_all(rows.lines())?;    // some lines, one after the other, or none yet
///     }
///     // All lines were given, and they are right.
///
/// Where the first scan has all components of a sequential frame, as in most files, no picture is
/// made in memory, and of the planes there are two rows of MCUs at most. Of other files
/// (progressive, lossless, or a scan for each component), with `set_luma`, and where no picture can
/// be made, the first call reads to the end of the image, memory is that of `decode_lines`, and the
/// lines come one by one.
///
/// Whether a stream is right is only known at its end. Lines that were given before an error are
/// those that the rows of MCUs before the fault decide, as the stream codes them. A caller that may
/// show no part of a damaged picture holds them back until `read` returns false.
#[derive(Drop)]
pub struct Rows<R: Read + Drop> {
    decoder: Decoder<R>,
    ahead: Ahead,
}

impl<R: Read + Drop> Model for Rows<R> {
    ghost use Rattle.jpeg_decoder.specs.Rows.{IsReadyAhead, RowsState};

    ghost Value = { RowsState };

    ghost view = { λ r. record { decoder = r.decoder; ahead = r.ahead } };

    // The state of a scan is one that its decoder has come to.
    ghost invariant = { λ r. IsReadyAhead r.decoder r.ahead };
}

impl<R: Read + Drop> Rows<R> {
    ghost use Rattle.std.specs.Prelude.{◌≡◌, [], IfOk, false, true};
    ghost use Rattle.jpeg_decoder.specs.Bytes.{AreWholeLines, HaveLines, shape_in};
    ghost use Rattle.jpeg_decoder.specs.declared.rows.Ahead.TheVariants.{End, Start};

    /// Takes a decoder, which gives the lines of the image that it has left to decode: of a whole
    /// stream, or of the rest after `read_info`. Nothing is read yet.
    pub fn new(decoder: Decoder<R>) -> Rows<R>
        ensures { result ≡ record { decoder = decoder; ahead = Start } }
    {
        Rows {
            decoder,
            ahead: Ahead::Start,
        }
    }

    /// Returns the decoder, to ask what the segments have said that were read. It decodes nothing
    /// itself from the first call of `read` on.
    pub fn decoder(&self) -> &Decoder<R>
        ensures { result.now ≡ self.now.decoder }
    {
        &self.decoder
    }

    /// Returns the decoder: after `read` has returned false one that has decoded its image, so that
    /// its `rest` is what follows that. While lines lie ahead it has failed.
    pub fn into_decoder(self) -> Decoder<R>
        ensures { result ≡ self.decoder }
    {
        self.decoder
    }

    /// Returns the lines that the last call of `read` has made, one after the other from the top:
    /// each is the samples of a row of pixels, as `decode` returns them. There may be none.
    pub fn lines(&self) -> &[u8]
        ensures { result.now ≡ lines_in self.now.ahead }
    {
        match &self.ahead {
            Ahead::Scan(rows) => &rows.giver.lines,
            Ahead::Lines(shown) => shown.line(),
            Ahead::Start | Ahead::End => &[],
        }
    }

    /// Reads on until some lines more are there, and returns true; or, where all were given, reads
    /// to the end of the image, and returns false.
    ///
    /// The first call reads the segments up to the first scan, and makes no lines: the limit and the
    /// transform are known then. The errors are those of `decode`, and so is the decoder after each;
    /// but it is a `Format`, too, if a segment after the first scan asks for another colour
    /// transform than the one by which lines were given. After an error, or false, nothing lies
    /// ahead: it returns false.
    pub fn read(&mut self) -> Result<bool>
        // Together the lines are the picture that the bytes mean, or an error names their fault.
        ensures gives { (start : Decoding) (bytes : List ℕ)
            → AreGiven start bytes self.old.decoder self.old.ahead
            → GivesNext start bytes result self.new }

        // The lines are whole, as many as there are.
        ensures whole { IfOk result (λ _. AreWholeLines (shape_in self.new.decoder)
            (lines_in self.new.ahead)) }

        // A loop that calls it while it returns true comes to an end.
        ensures fewer { result ≡ Ok true
            → calls_left self.new.ahead < calls_left self.old.ahead }

        // After an error or false nothing lies ahead, and then it is false.
        ensures end { (result ≡ Ok true → ⊥) → self.new.ahead ≡ End }
        ensures ended { self.old.ahead ≡ End → (result ≡ Ok false) × (self.new ≡ self.old) }

        // The settings stay.
        ensures settings { self.new.decoder.settings ≡ self.old.decoder.settings }
    {
        let ahead = std::mem::replace(&mut self.ahead, Ahead::End);
        match ahead {
            Ahead::Start => self.begin(),
            Ahead::Scan(rows) => self.read_scan(rows),
            Ahead::Lines(shown) => Ok(self.take_line(shown)),
            Ahead::End => Ok(false),
        }
    }

    /// Begins to give the lines of what the decoder has left.
    fn begin(&mut self) -> Result<bool>
        ensures gives { GivesNext self.old.decoder [] result self.new }
        ensures whole { IfOk result (λ _. AreWholeLines (shape_in self.new.decoder)
            (lines_in self.new.ahead)) }
        ensures fewer { result ≡ Ok true → calls_left self.new.ahead < 65536 }
        ensures end { (result ≡ Ok true → ⊥) → self.new.ahead ≡ End }
        ensures settings { self.new.decoder.settings ≡ self.old.decoder.settings }
    {
        self.ahead = Ahead::End;
        match self.decoder.begin_lines()? {
            Begun::Scan(rows) => {
                self.ahead = Ahead::Scan(rows);
                Ok(true)
            }
            Begun::Lines(shown) => {
                self.ahead = Ahead::Lines(shown);
                Ok(true)
            }
        }
    }

    /// Reads the next row of MCUs of a scan, or to the end of the image.
    fn read_scan(&mut self, mut rows: RowScan) -> Result<bool>
        requires giving { IsGiving self.old.decoder rows }
        ensures gives { (start : Decoding) (bytes : List ℕ)
            → IsGivingScan start self.old.decoder rows bytes
            → GivesNext start bytes result self.new }
        ensures whole { IfOk result (λ _. AreWholeLines (shape_in self.new.decoder)
            (lines_in self.new.ahead)) }
        ensures fewer { result ≡ Ok true → calls_left self.new.ahead < rows_left rows }
        ensures end { (result ≡ Ok true → ⊥) → self.new.ahead ≡ End }
        ensures settings { self.new.decoder.settings ≡ self.old.decoder.settings }
    {
        self.ahead = Ahead::End;
        if !self.decoder.read_lines(&mut rows)? {
            return Ok(false);
        }
        self.ahead = Ahead::Scan(rows);
        Ok(true)
    }

    /// Takes the next line of a picture that was decoded, if one is left.
    fn take_line(&mut self, mut shown: Shown) -> bool
        requires lines { HaveLines (shape_in self.old.decoder) shown.left }
        ensures gives { (start : Decoding) (bytes : List ℕ)
            → DecodesRows start (Ok tt) self.old.decoder (bytes ++ concat shown.left)
            → GivesNext start bytes (Ok result) self.new }
        ensures whole { AreWholeLines (shape_in self.new.decoder) (lines_in self.new.ahead) }
        ensures fewer { result ≡ true → calls_left self.new.ahead < length shown.left }
        ensures end { result ≡ false → self.new.ahead ≡ End }
        ensures decoder { self.new.decoder ≡ self.old.decoder }
    {
        self.ahead = Ahead::End;
        if !shown.next() {
            return false;
        }
        self.ahead = Ahead::Lines(shown);
        true
    }
}
