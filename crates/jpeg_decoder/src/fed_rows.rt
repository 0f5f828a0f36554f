//! The lines of a picture, from the top, as the bytes of its stream arrive in pieces.
ghost use Rattle.std.specs.Prelude.{◌≡◌, ◌+◌, ◌<◌, ◌≤◌, ◌++◌, [], IfErr, IfOk, IfSome, List, OnErr};
ghost use Rattle.std.specs.Prelude.{IsErrAnd, Ok, OnOk, false, length, option_map, true, ℕ};
ghost use Rattle.jpeg_bits.specs.declared.error.Error.TheVariants.{OutOfMemory};
ghost use Rattle.jpeg_meaning.specs.Found.{nothing_found};
ghost use Rattle.jpeg_meaning.specs.Pixels.{info_by};
ghost use Rattle.jpeg_meaning.specs.States.{Decoding, IsInternal};
ghost use Rattle.jpeg_meaning.specs.Output.{default_settings};
ghost use Rattle.jpeg_decoder.specs.FedRows.{AreFed, AreFedTo, AreOfLines, AreReadyLines, BeginsScan};
ghost use Rattle.jpeg_decoder.specs.FedRows.{GivesFed, GoesOnFed, HasScan, IsReadyBegun, IsRefused};
ghost use Rattle.jpeg_decoder.specs.FedRows.{StartsLines, ahead_begun, all_unread, calls_left};
ghost use Rattle.jpeg_decoder.specs.FedRows.{fed_now, fed_start, has_lines, line_size, lines_in};
ghost use Rattle.jpeg_decoder.specs.RowScans.{IsGivingScan, rows_left};
ghost use Rattle.jpeg_decoder.specs.declared.fed_rows.Ahead.TheVariants as ahead;
ghost use Rattle.jpeg_decoder.specs.declared.fed_rows.Given.TheVariants.{End, Lines};

mod unread;

use crate::by_rows::arriving::{bytes_left, memory_source, try_lines};
use crate::by_rows::first_scan::RowScan;
use crate::by_rows::rest::{Begun, begin_stream, has_more, read_more};
use crate::by_rows::shown::Shown;
use crate::decoder::{Decoder, info_by};
use crate::fed::error_of_bytes;
use crate::fed::sources::READ_AHEAD;
use crate::fed_rows::unread::Unread;
use crate::scan::decoded::Decoded;
use crate::sizes::line_bytes;
use crate::stream::state::State;
use jpeg_bits::error::{Error, Result};
use jpeg_meaning::images::ImageInfo;
use jpeg_meaning::settings::Settings;
use std::alloc::Global;
use std::marker::Model;

/// How many bytes a row of MCUs is tried with at first, at least.
const LEAST_WINDOW: usize = 4096;

/// What lies ahead.
#[derive(Drop)]
enum Ahead {
    /// The header, or what follows it up to the first scan; or a picture that can't be given as it
    /// is read, and is decoded once its bytes have ended.
    Start,
    /// The rest of a scan whose lines are given as it is read.
    Scan(RowScan),
    /// Lines of a picture that was decoded.
    Lines(Shown),
    /// Nothing.
    End,
    /// Nothing, after an error.
    Failed,
}

/// What a call of [`FedRows::read`] has given.
#[derive(Clone, Copy, Debug, PartialEq)]
pub enum Given {
    /// Some lines more, or none yet.
    Lines,
    /// Nothing, until more bytes are fed, or have ended.
    Waiting,
    /// Nothing: all lines were given, and the stream is right.
    End,
}

/// A scan whose lines are given as it is read, and the bytes after its header.
#[derive(Drop)]
struct ScanStart {
    rows: RowScan,
    left: Vec<u8>,
}

/// What is there once all bytes were fed: what was found of them, how their lines are given, and the
/// bytes that are left.
#[derive(Drop)]
struct WholeStart {
    state: State,
    begun: Begun,
    left: Vec<u8>,
}

/// Returns how many bytes are tried next where this many weren't enough: half as many more, so that
/// all tries together cost a few times one.
fn more_than(count: usize) -> usize {
    count.saturating_add(count / 2).saturating_add(1)
}

/// Returns whether some bytes end with an EOI marker (T.81, B.1.1.3).
fn ends_image(bytes: &[u8]) -> bool {
    let count = bytes.len();
    count >= 2 && (bytes[count - 2] == 0xFF && bytes[count - 1] == 0xD9)
}

/// Begins to give the lines of a stream that begins with these bytes and may go on, if they reach
/// the data of its first scan, and its lines are given as it is read. Otherwise `wanted` says how
/// many bytes are tried next. The only error is `OutOfMemory`.
fn begin_scan(
    alloc: Global,
    bytes: &[u8],
    state: &mut State,
    settings: Settings,
    wanted: &mut usize,
) -> Result<Option<ScanStart>>
    requires { state.old ≡ nothing_found }
    ensures begins { IfOk result (λ o. IfSome o (λ s.
        BeginsScan settings bytes.now state.new s.left.items s.rows)) }
    ensures most { IfOk result (λ o. IfSome o (λ s. length s.left.items ≤ length bytes.now)) }
    ensures err { IfErr result (λ e. e ≡ OutOfMemory) }
{
    let mut source = memory_source(alloc, bytes)?;
    match begin_stream(alloc, &mut source, state, settings) {
        Ok(Some(rows)) => {
            let left = bytes_left(alloc, &source, bytes.len())?;
            Ok(Some(ScanStart { rows, left }))
        }
        Ok(None) => {
            *wanted = usize::MAX;
            Ok(None)
        }
        Err(Error::OutOfMemory) => Err(Error::OutOfMemory),
        Err(_) => {
            *wanted = more_than(bytes.len());
            Ok(None)
        }
    }
}

/// Begins to give the lines of all bytes of a stream, as `Rows` does. `exceeded` says whether a scan
/// was refused since it codes more blocks than the limit leaves.
fn begin_whole(
    alloc: Global,
    bytes: &[u8],
    settings: Settings,
    exceeded: &mut bool,
) -> Result<WholeStart>
    ensures starts { IfOk result (λ w.
        StartsLines (fed_start settings bytes.now) settings w.state w.left.items w.begun) }
    ensures ready { IfOk result (λ w. IsReadyBegun settings w.state w.begun) }
    ensures most { IfOk result (λ w. length w.left.items ≤ length bytes.now) }
    ensures refused { IfErr result
        (λ e. IsRefused (fed_start settings bytes.now) e [] exceeded.new) }
    ensures exceeded { OnOk result (exceeded.new ≡ exceeded.old) }
{
    let mut decoder = Decoder::with_capacity(alloc, bytes.len().min(READ_AHEAD), bytes)?;
    decoder.set_all(settings);
    let begun = match decoder.begin_lines() {
        Ok(begun) => begun,
        Err(error) => {
            *exceeded = decoder.has_exceeded_max_blocks();
            return Err(error_of_bytes(decoder.has_read_failed(), error));
        }
    };
    let (state, source) = decoder.into_parts();
    let left = bytes_left(alloc, &source, bytes.len())?;
    Ok(WholeStart { state, begun, left })
}

/// Reads the next row of MCUs of a scan of which all bytes are there, or after the last one to the
/// end of the image. Returns the bytes that are left after a row.
fn read_on(
    alloc: Global,
    bytes: &[u8],
    state: &mut State,
    settings: Settings,
    rows: &mut RowScan,
) -> Result<Option<Vec<u8>>>
    requires scan { HasScan settings state.old rows.old bytes.now }
    ensures goes { (start : Decoding) (given : List ℕ)
        → IsGivingScan start (fed_now settings state.old bytes.now) rows.old given
        → GoesOnFed start settings given result state.new rows.new }
    ensures scan { IfOk result (λ o. IfSome o (λ left.
        HasScan settings state.new rows.new left.items)) }
    ensures fewer { IfOk result (λ o. IfSome o (λ _. rows_left rows.new < rows_left rows.old)) }
{
    let mut source = memory_source(alloc, bytes)?;
    let has_row = match read_more(alloc, &mut source, state, settings, rows) {
        Ok(has_row) => has_row,
        Err(error) => return Err(error_of_bytes(source.has_failed(), error)),
    };
    if !has_row {
        state.decoded = Decoded::new(alloc);
        return Ok(None);
    }
    let left = bytes_left(alloc, &source, bytes.len())?;
    Ok(Some(left))
}

/// Returns what lies ahead after lines were begun to be given of all bytes.
fn ahead_of(begun: Begun) -> Ahead
    ensures { result ≡ ahead_begun begun }
{
    match begun {
        Begun::Scan(rows) => Ahead::Scan(rows),
        Begun::Lines(shown) => Ahead::Lines(shown),
    }
}

/// Returns whether lines lie ahead or were given last.
fn has_lines(ahead: &Ahead) -> bool
    ensures { result ≡ has_lines ahead.now }
{
    match ahead {
        Ahead::Scan(_) | Ahead::Lines(_) => true,
        Ahead::Start | Ahead::End | Ahead::Failed => false,
    }
}

/// Returns the lines that were given last.
fn lines_of(ahead: &Ahead) -> &[u8]
    ensures { result.now ≡ lines_in ahead.now }
{
    match ahead {
        Ahead::Scan(rows) => &rows.giver.lines,
        Ahead::Lines(shown) => shown.line(),
        Ahead::Start | Ahead::End | Ahead::Failed => &[],
    }
}

/// Replaces what lies ahead. What lay there is dropped in this one place.
fn put_ahead(place: &mut Ahead, ahead: Ahead)
    ensures { place.new ≡ ahead }
{
    *place = ahead;
}

/// Takes the bytes of a stream in pieces, as they arrive, and gives the lines of its picture from
/// the top, soon after their bytes are there. Each row of MCUs is decoded once, and its bytes are
/// dropped then; a row of which too few bytes have come is tried again once there are more.
///
///     let mut rows = FedRows::new(alloc);
///     loop {
///         match rows.read()? {
///             Given::Lines => output.write_all(rows.lines())?,
///             Given::Waiting => match connection.receive()? {
///                 Some(piece) => rows.feed(&piece)?,
///                 None => rows.end(),
///             },
///             Given::End => break,     // All lines were given, and they are right.
///         }
///     }
///
/// Which lines are given as they are read, and when they are right, is as for
/// [`Rows`](crate::rows::Rows); those of other files come once the bytes have ended. Bytes after the
/// image are kept.
#[derive(Drop)]
pub struct FedRows {
    alloc: Global,
    settings: Settings,
    has_ended: bool,
    exceeded: bool,
    state: State,
    unread: Unread,
    ahead: Ahead,
    /// How many bytes the next row of MCUs is tried with.
    window: usize,
    /// How many bytes have to be there before the next try.
    wanted: usize,
    /// Whether the last piece ended as an image does, so that no more may come.
    may_end: bool,
}

impl Model for FedRows {
    ghost use Rattle.jpeg_decoder.specs.FedRows.{FedRowsState, IsReadyAhead};

    ghost Value = { FedRowsState };

    ghost view = { λ r. record {
      settings = r.settings;
      has_ended = r.has_ended;
      exceeded = r.exceeded;
      found = r.state;
      unread = r.unread;
      ahead = r.ahead;
    } };

    // The state of a scan is one that some stream has.
    ghost invariant = { λ r. IsReadyAhead r.settings r.state r.ahead };
}

impl FedRows {
    /// Makes what gives the lines of a stream that has no bytes yet, by settings of which each has a
    /// call of [`Decoder`].
    pub fn with_settings(alloc: Global, settings: Settings) -> FedRows
        ensures settings { result.settings ≡ settings }
        ensures fed { AreFedTo [] [] result }
        ensures open { result.has_ended ≡ false }
        ensures exceeded { result.exceeded ≡ false }
    {
        FedRows {
            alloc,
            settings,
            has_ended: false,
            exceeded: false,
            state: State::new(alloc),
            unread: Unread::new(alloc),
            ahead: Ahead::Start,
            window: LEAST_WINDOW,
            wanted: 0,
            may_end: false,
        }
    }

    /// Makes what gives the lines of a stream that has no bytes yet.
    pub fn new(alloc: Global) -> FedRows
        ensures settings { result.settings ≡ default_settings }
        ensures fed { AreFedTo [] [] result }
        ensures open { result.has_ended ≡ false }
        ensures exceeded { result.exceeded ≡ false }
    {
        FedRows::with_settings(
            alloc,
            Settings {
                limit: usize::MAX,
                color_transform: None,
                max_blocks: None,
                luma: false,
            },
        )
    }

    /// Takes the next bytes of the stream. The only error is `OutOfMemory`, in which case none of
    /// them were taken, so that they can be fed again. After `end` they are ignored.
    pub fn feed(&mut self, piece: &[u8]) -> Result<()>
        // They come after those that were fed before, and what was given of those stays given.
        ensures fed { self.old.has_ended ≡ false → OnOk result ((fed given : List ℕ)
            → AreFedTo fed given self.old → AreFedTo (fed ++ piece.now) given self.new) }

        // The settings stay, and what lies ahead, and the bytes haven't ended.
        ensures ahead { self.new.ahead ≡ self.old.ahead }
        ensures found { self.new.found ≡ self.old.found }
        ensures exceeded { self.new.exceeded ≡ self.old.exceeded }
        ensures open { self.new.has_ended ≡ self.old.has_ended }
        ensures settings { self.new.settings ≡ self.old.settings }

        // After an error nothing has changed, nor after the end.
        ensures unfed { OnErr result (self.new ≡ self.old) }
        ensures ended { self.old.has_ended ≡ true
            → (result ≡ Ok tt) × (self.new ≡ self.old) }
        ensures err { IfErr result (λ e. e ≡ OutOfMemory) }
    {
        if self.has_ended {
            return Ok(());
        }
        self.unread.feed(piece)?;
        self.may_end = ends_image(piece);
        if self.may_end {
            self.wanted = 0;
        }
        Ok(())
    }

    /// Says that no more bytes come.
    pub fn end(&mut self)
        // What was given of the bytes that were fed stays given.
        ensures fed { (fed given : List ℕ) → AreFedTo fed given self.old
            → AreFedTo fed given self.new }
        ensures ended { self.new.has_ended ≡ true }
        ensures ahead { self.new.ahead ≡ self.old.ahead }
        ensures found { self.new.found ≡ self.old.found }
        ensures exceeded { self.new.exceeded ≡ self.old.exceeded }
        ensures settings { self.new.settings ≡ self.old.settings }
    {
        self.has_ended = true;
    }

    /// Returns the size and the format of the picture by the settings, once `read` has returned
    /// `Lines`; before that it may be none.
    pub fn info(&self) -> Option<ImageInfo>
        ensures { result ≡ option_map (info_by self.now.settings) self.now.found.said.frame }
    {
        let frame = self.state.said.frame.as_ref()?;
        Some(info_by(frame, self.settings))
    }

    /// Returns how many bytes each line has that `lines` returns, once `read` has returned `Lines`;
    /// before that and after the last line 0.
    pub fn line_bytes(&self) -> usize
        ensures { result ≡ line_size self.now }
    {
        if !has_lines(&self.ahead) {
            return 0;
        }
        match &self.state.said.frame {
            Some(frame) => line_bytes(frame, self.settings),
            None => 0,
        }
    }

    /// Returns whether the end of the bytes was said.
    pub fn has_ended(&self) -> bool
        ensures { result ≡ self.now.has_ended }
    {
        self.has_ended
    }

    /// Returns whether `read` has refused a scan since it codes more blocks than the settings allow.
    pub fn has_exceeded_max_blocks(&self) -> bool
        ensures { result ≡ self.now.exceeded }
    {
        self.exceeded
    }

    /// Returns the lines that the last call of `read` has made, one after the other from the top: each
    /// is the samples of a row of pixels, as `decode` returns them. After `Lines` there may be none,
    /// too, and after anything else there are none.
    pub fn lines(&self) -> &[u8]
        ensures lines { result.now ≡ lines_in self.now.ahead }
        ensures whole { AreOfLines (line_size self.now) result.now }
    {
        lines_of(&self.ahead)
    }

    /// Reads on until some lines more are there, or more bytes are needed; or, once the bytes have
    /// ended and all lines were given, to the end of the image.
    ///
    /// Before the end of the bytes the only error is `OutOfMemory`. After it the errors are those of
    /// [`Rows::read`](crate::rows::Rows::read). After an error it is `Internal`.
    pub fn read(&mut self) -> Result<Given>
        // Of the bytes that were fed the lines are those that `Rows` gives, and the error is that
        // of `Rows`.
        ensures gives { (fed given : List ℕ) → AreFedTo fed given self.old
            → GivesFed fed given result self.new }

        // A loop that calls it while it returns `Lines` comes to an end.
        ensures fewer { result ≡ Ok Lines → calls_left self.new < calls_left self.old }

        // After all lines it is `End` again, and after an error an error.
        ensures end { result ≡ Ok End → self.new.ahead ≡ ahead.End }
        ensures again { self.old.ahead ≡ ahead.End → (result ≡ Ok End) × (self.new ≡ self.old) }
        ensures failed { OnErr result (self.new.ahead ≡ ahead.Failed) }
        ensures stays { self.old.ahead ≡ ahead.Failed
            → IsErrAnd result IsInternal × (self.new ≡ self.old) }

        // Only a refusal says that a scan was refused for its blocks.
        ensures exceeded { OnOk result (self.new.exceeded ≡ self.old.exceeded) }

        // The settings stay, and no byte is fed by it.
        ensures ended { self.new.has_ended ≡ self.old.has_ended }
        ensures settings { self.new.settings ≡ self.old.settings }
    {
        match std::mem::replace(&mut self.ahead, Ahead::Failed) {
            Ahead::Start => self.begin(),
            Ahead::Scan(rows) => self.read_scan(rows),
            Ahead::Lines(shown) => Ok(self.take_line(shown)),
            Ahead::End => {
                put_ahead(&mut self.ahead, Ahead::End);
                Ok(Given::End)
            }
            Ahead::Failed => Err(Error::Internal("decoder has failed")),
        }
    }

    /// Begins to give the lines of the bytes that were fed, if they reach the data of the first
    /// scan, or if they have ended.
    fn begin(&mut self) -> Result<Given>
        ensures gives { (fed given : List ℕ) → AreFed self.old.settings self.old.has_ended
            self.old.found (all_unread self.old.unread) fed given ahead.Start
            → GivesFed fed given result self.new }
        ensures fewer { result ≡ Ok Lines
            → calls_left self.new < 65536 + length (all_unread self.old.unread) }
        ensures end { result ≡ Ok End → self.new.ahead ≡ ahead.End }
        ensures failed { OnErr result (self.new.ahead ≡ ahead.Failed) }
        ensures exceeded { OnOk result (self.new.exceeded ≡ self.old.exceeded) }
        ensures ended { self.new.has_ended ≡ self.old.has_ended }
        ensures settings { self.new.settings ≡ self.old.settings }
    {
        put_ahead(&mut self.ahead, Ahead::Failed);
        if self.has_ended {
            return self.begin_whole();
        }
        if self.unread.len() < self.wanted {
            put_ahead(&mut self.ahead, Ahead::Start);
            return Ok(Given::Waiting);
        }
        self.unread.widen_to_all()?;
        self.state = State::new(self.alloc);
        let Some(start) = begin_scan(
            self.alloc,
            self.unread.tried(),
            &mut self.state,
            self.settings,
            &mut self.wanted,
        )?
        else {
            put_ahead(&mut self.ahead, Ahead::Start);
            return Ok(Given::Waiting);
        };
        self.unread.put_back(start.left);
        self.wanted = 0;
        put_ahead(&mut self.ahead, Ahead::Scan(start.rows));
        Ok(Given::Lines)
    }

    /// Begins to give the lines of all bytes, which have ended.
    fn begin_whole(&mut self) -> Result<Given>
        requires { self.old.has_ended ≡ true }
        ensures gives { (fed given : List ℕ) → AreFed self.old.settings self.old.has_ended
            self.old.found (all_unread self.old.unread) fed given ahead.Start
            → GivesFed fed given result self.new }
        ensures fewer { result ≡ Ok Lines
            → calls_left self.new < 65536 + length (all_unread self.old.unread) }
        ensures end { result ≡ Ok End → self.new.ahead ≡ ahead.End }
        ensures failed { OnErr result (self.new.ahead ≡ ahead.Failed) }
        ensures exceeded { OnOk result (self.new.exceeded ≡ self.old.exceeded) }
        ensures ended { self.new.has_ended ≡ self.old.has_ended }
        ensures settings { self.new.settings ≡ self.old.settings }
    {
        put_ahead(&mut self.ahead, Ahead::Failed);
        self.unread.widen_to_all()?;
        let start = begin_whole(
            self.alloc,
            self.unread.tried(),
            self.settings,
            &mut self.exceeded,
        )?;
        self.state = start.state;
        self.unread.put_back(start.left);
        put_ahead(&mut self.ahead, ahead_of(start.begun));
        Ok(Given::Lines)
    }

    /// Reads the next row of MCUs of a scan, if it is there; or, once the bytes have ended, to the
    /// end of the image.
    fn read_scan(&mut self, mut rows: RowScan) -> Result<Given>
        requires scan { HasScan self.old.settings self.old.found rows [] }
        ensures gives { (fed given : List ℕ) → AreFed self.old.settings self.old.has_ended
            self.old.found (all_unread self.old.unread) fed given (ahead.Scan rows)
            → GivesFed fed given result self.new }
        ensures fewer { result ≡ Ok Lines
            → calls_left self.new < rows_left rows + length self.old.unread.later }
        ensures end { result ≡ Ok End → self.new.ahead ≡ ahead.End }
        ensures failed { OnErr result (self.new.ahead ≡ ahead.Failed) }
        ensures exceeded { OnOk result (self.new.exceeded ≡ self.old.exceeded) }
        ensures ended { self.new.has_ended ≡ self.old.has_ended }
        ensures settings { self.new.settings ≡ self.old.settings }
    {
        put_ahead(&mut self.ahead, Ahead::Failed);
        if !has_more(&self.state, &rows) {
            return self.go_on(rows);
        }
        if !self.has_ended && self.unread.len() < self.wanted {
            return self.go_on(rows);
        }
        if self.try_row(&mut rows)? {
            put_ahead(&mut self.ahead, Ahead::Scan(rows));
            return Ok(Given::Lines);
        }
        self.wanted = more_than(self.unread.len());
        self.go_on(rows)
    }

    /// Tries to read the next row of MCUs, with as many bytes as the window has. If it isn't read, the
    /// next try is made with more. Returns whether it was read, or there are more. The only error is
    /// `OutOfMemory`.
    fn try_row(&mut self, rows: &mut RowScan) -> Result<bool>
        requires scan { HasScan self.old.settings self.old.found rows.old [] }
        requires more { IfSome self.old.found.said.frame (λ f. rows.old.giver.rows < f.mcus_high) }
        ensures scan { OnOk result (HasScan self.new.settings self.new.found rows.new []) }
        ensures gives { OnOk result ((fed given : List ℕ) → AreFed self.old.settings
            self.old.has_ended self.old.found (all_unread self.old.unread) fed given
            (ahead.Scan rows.old) → AreFed self.new.settings self.new.has_ended self.new.found
            (all_unread self.new.unread) fed (given ++ rows.new.giver.lines.items)
            (ahead.Scan rows.new)) }
        ensures none { result ≡ Ok false → rows.new.giver.lines.items ≡ [] }
        ensures fewer { result ≡ Ok true → rows_left rows.new + length self.new.unread.later
            < rows_left rows.old + length self.old.unread.later }
        ensures least { OnOk result (rows_left rows.new + length self.new.unread.later
            ≤ rows_left rows.old + length self.old.unread.later) }
        ensures err { IfErr result (λ e. e ≡ OutOfMemory) }
        ensures ahead { self.new.ahead ≡ self.old.ahead }
        ensures exceeded { self.new.exceeded ≡ self.old.exceeded }
        ensures ended { self.new.has_ended ≡ self.old.has_ended }
        ensures settings { self.new.settings ≡ self.old.settings }
    {
        self.unread.widen(self.window)?;
        let count = self.unread.tried().len();
        let Some(left) = try_lines(self.alloc, self.unread.tried(), &self.state, rows)? else {
            rows.giver.lines.clear();
            return self.unread.widen_more();
        };
        // The next row takes about as many bytes as this one.
        let used = count.saturating_sub(left.len());
        self.window = used.saturating_mul(2).max(LEAST_WINDOW);
        self.wanted = if self.may_end { 0 } else { used - used / 4 };
        self.unread.leave(left);
        Ok(true)
    }

    /// Waits for more bytes; or, once they have ended, reads the next row of MCUs, or after the last
    /// one to the end of the image.
    fn go_on(&mut self, mut rows: RowScan) -> Result<Given>
        requires scan { HasScan self.old.settings self.old.found rows [] }
        ensures gives { (fed given : List ℕ) → AreFed self.old.settings self.old.has_ended
            self.old.found (all_unread self.old.unread) fed given (ahead.Scan rows)
            → GivesFed fed given result self.new }
        ensures fewer { result ≡ Ok Lines
            → calls_left self.new < rows_left rows + length self.old.unread.later }
        ensures end { result ≡ Ok End → self.new.ahead ≡ ahead.End }
        ensures failed { OnErr result (self.new.ahead ≡ ahead.Failed) }
        ensures exceeded { OnOk result (self.new.exceeded ≡ self.old.exceeded) }
        ensures ended { self.new.has_ended ≡ self.old.has_ended }
        ensures settings { self.new.settings ≡ self.old.settings }
    {
        put_ahead(&mut self.ahead, Ahead::Failed);
        if !self.has_ended {
            rows.giver.lines.clear();
            put_ahead(&mut self.ahead, Ahead::Scan(rows));
            return Ok(Given::Waiting);
        }
        self.unread.widen_to_all()?;
        let read = match read_on(
            self.alloc,
            self.unread.tried(),
            &mut self.state,
            self.settings,
            &mut rows,
        ) {
            Ok(read) => read,
            Err(error) => {
                self.exceeded = rows.walk.budget.exceeded;
                return Err(error);
            }
        };
        let Some(left) = read else {
            put_ahead(&mut self.ahead, Ahead::End);
            return Ok(Given::End);
        };
        self.unread.leave(left);
        put_ahead(&mut self.ahead, Ahead::Scan(rows));
        Ok(Given::Lines)
    }

    /// Takes the next line of a picture that was decoded, if one is left.
    fn take_line(&mut self, mut shown: Shown) -> Given
        requires ready { AreReadyLines self.old.settings self.old.found shown }
        ensures gives { (fed given : List ℕ) → AreFed self.old.settings self.old.has_ended
            self.old.found (all_unread self.old.unread) fed given (ahead.Lines shown)
            → GivesFed fed given (Ok result) self.new }
        ensures fewer { result ≡ Lines → calls_left self.new < length shown.left }
        ensures end { result ≡ End → self.new.ahead ≡ ahead.End }
        ensures exceeded { self.new.exceeded ≡ self.old.exceeded }
        ensures ended { self.new.has_ended ≡ self.old.has_ended }
        ensures settings { self.new.settings ≡ self.old.settings }
    {
        put_ahead(&mut self.ahead, Ahead::Failed);
        if !shown.next() {
            put_ahead(&mut self.ahead, Ahead::End);
            return Given::End;
        }
        put_ahead(&mut self.ahead, Ahead::Lines(shown));
        Given::Lines
    }
}
