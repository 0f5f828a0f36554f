//! Where the lines of a picture are in the caller's memory.
ghost use Rattle.std.specs.Prelude.{◌≡◌, ◌+◌, ◌*◌, ◌<◌, ◌≤◌, ℕ, [], false, length, IfOk, IfErr};
ghost use Rattle.std.specs.Prelude.{map, slice_index_or, true};
ghost use Rattle.std.specs.List.{concat, range_with_len};
ghost use Rattle.jpeg_orientation.specs.Turns.{is_on_side, mirrored};
ghost use Rattle.jpeg_bits.specs.declared.error.Error.TheVariants.{OutOfMemory};
ghost use Rattle.zaxbriar_calls.specs.Boxed.{turned_size};
ghost use Rattle.zaxbriar_calls.specs.Faults.{IsArgument};
ghost use Rattle.zaxbriar_calls.specs.Layouts.{TakesStored, converted_bytes, laid_out, layout_line};
ghost use Rattle.zaxbriar_calls.specs.Layouts.{is_stored, size_of_lines};
ghost use Rattle.zaxbriar_calls.specs.Lines.{FitLines, HasLines, turn_of};
ghost use Rattle.zaxbriar_calls.specs.Upright.{AreLines, AreMeant, HasRoom, IsBand, IsRun};
ghost use Rattle.zaxbriar_calls.specs.Upright.{TakesLines, Writes, arranged_in, pixel_start};
ghost use Rattle.zaxbriar_calls.specs.Upright.{turned_byte};

use crate::answers::{Misuse, Refusal};
use crate::boxed::{GivenLines, fit_turn, turned_info};
use crate::crops::{StoredPart, part_of, part_turn};
use crate::layouts::{
    Conversion, bytes_a_sample, conversion_of, converted_bytes, is_stored, put_row, samples_a_pixel,
};
use crate::options::Options;
use jpeg_decoder::ImageInfo;
use jpeg_decoder::error::Result;
use jpeg_decoder::parser::Dimensions;
use jpeg_orientation::turns::{
    Turn, flips_x, flips_y, is_on_side, upright_height, upright_place, upright_width,
};
use std::alloc::Global;

/// The lines of a picture in the caller's memory.
#[derive(Clone, Copy)]
pub struct Lines {
    pub conversion: Conversion,
    /// The size of the picture in pixels, as it stands there.
    pub width: u16,
    pub height: u16,
    /// The part that is given of the stored picture, where it isn't all of it.
    pub part: Option<StoredPart>,
    /// What is said of that part, or of the picture, before it is made smaller.
    pub info: ImageInfo,
    /// How many bits a sample has.
    pub precision: u8,
    /// How it is turned, at the size that is given.
    pub turn: Turn,
    /// The bytes of a pixel as it is stored, and in this layout.
    pub stored: u8,
    pub pixel_bytes: u8,
    /// The bytes of a line without its gap.
    pub row_bytes: u64,
    /// The bytes from one line to the next.
    pub stride: u64,
    /// Whether the first row stands last.
    pub bottom_up: bool,
}

/// The greatest stride that is accepted.
const MOST_STRIDE: u64 = 1 << 32;

/// Returns how a picture of an orientation is turned.
fn turn_of(info: ImageInfo, orientation: u8, options: &Options) -> Turn
    ensures { result ≡ turn_of options.now info orientation }
{
    Turn {
        width: info.width,
        height: info.height,
        orientation: if options.upright == 1 { orientation } else { 1 },
    }
}

/// Returns the lines of a picture of an orientation as the options ask for them.
pub fn lines_of(
    info: ImageInfo,
    precision: u8,
    orientation: u8,
    options: &Options,
) -> std::result::Result<Lines, Refusal>
    ensures lines { IfOk result (HasLines options.now info precision orientation) }
    ensures named { IfErr result IsArgument }
    ensures misfit { IfErr result (λ _. FitLines options.now info precision orientation → ⊥) }
{
    let whole = turn_of(info, orientation, options);
    let part = part_of(options, whole)?;
    let whole_part = part_turn(part, whole);
    let turn = fit_turn(options, info, whole_part);
    let width = upright_width(turn);
    let stored = samples_a_pixel(info.pixel_format) * bytes_a_sample(precision);
    let Some(conversion) = conversion_of(options.layout, info.pixel_format, precision) else {
        return Err(Refusal::Argument(Misuse::Of("the layout doesn't exist")));
    };
    let pixel_bytes = converted_bytes(conversion, stored);
    let row_bytes = u64::from(width) * u64::from(pixel_bytes);
    let stride = if options.stride == 0 {
        row_bytes
    } else {
        options.stride
    };
    if stride > MOST_STRIDE || stride < row_bytes {
        return Err(Refusal::Argument(Misuse::Of(
            "the stride is shorter than a line, or above 2^32",
        )));
    }
    Ok(Lines {
        conversion,
        width,
        height: upright_height(turn),
        part,
        info: turned_info(info, whole_part),
        precision,
        turn,
        stored,
        pixel_bytes,
        row_bytes,
        stride,
        bottom_up: options.bottom_up == 1,
    })
}

/// Returns the size of what is given as it is stored.
pub fn given_size(lines: Lines) -> Dimensions
    ensures { result ≡ turned_size lines.turn }
{
    Dimensions {
        width: lines.turn.width,
        height: lines.turn.height,
    }
}

/// Returns the bytes from the first of a picture to its last.
pub fn size_of_lines(lines: Lines) -> u64
    requires row { lines.row_bytes ≤ lines.stride }
    requires stride { lines.stride ≤ 4294967296 }
    ensures { result ≡ size_of_lines lines.stride lines.row_bytes lines.height }
{
    if lines.height == 0 {
        0
    } else {
        lines.stride * (u64::from(lines.height) - 1) + lines.row_bytes
    }
}

/// Returns memory for a line as it is stored, or none where lines stay as they are stored.
pub fn stored_line(alloc: Global, lines: Lines) -> Result<Vec<u8>>
    ensures row { IfOk result (λ row. is_stored lines.conversion ≡ false
        → length row.items ≡ lines.turn.width * lines.stored) }
    ensures fails { IfErr result (λ e. e ≡ OutOfMemory) }
{
    if is_stored(lines.conversion) {
        return Ok(Vec::new(alloc));
    }
    let stored_bytes = usize::from(lines.turn.width) * usize::from(lines.stored);
    Ok(vec![in alloc; 0; stored_bytes]?)
}

/// The number of lines that are turned at a time. A column of so many pixels stands together in the
/// caller's memory, which would else be touched a line apart with each pixel.
const BAND: usize = 32;

/// Returns how many bytes a line of the stored picture has in its layout.
fn line_bytes(lines: Lines) -> usize
    ensures { result ≡ lines.turn.width * lines.pixel_bytes }
{
    usize::from(lines.turn.width) * usize::from(lines.pixel_bytes)
}

/// Returns memory for the lines that are turned at a time, or none where a picture isn't turned.
pub fn band_of(alloc: Global, lines: Lines) -> Result<Vec<u8>>
    ensures band { IfOk result (λ band. IsBand lines (length band.items)) }
    ensures fails { IfErr result (λ e. e ≡ OutOfMemory) }
{
    if lines.turn.orientation == 1 {
        return Ok(Vec::new(alloc));
    }
    let band_bytes = BAND.min(usize::from(lines.turn.height)) * line_bytes(lines);
    Ok(vec![in alloc; 0; band_bytes]?)
}

/// Returns at which place among the lines in memory row `y` stands.
fn place_of(lines: Lines, y: usize) -> usize
    requires y { y < lines.height }
    ensures down { lines.bottom_up ≡ false → result ≡ y }
    ensures up { lines.bottom_up ≡ true → result + y + 1 ≡ lines.height }
    ensures inside { result < lines.height }
{
    if lines.bottom_up {
        usize::from(lines.height) - 1 - y
    } else {
        y
    }
}

/// Writes line `y` of a decoded picture in its layout, through `row` unless it stays as it is
/// stored.
fn put_line(picture: &mut GivenLines, lines: Lines, y: usize, row: &mut [u8], line: &mut [u8])
    requires y { y < length picture.old }
    requires stored { length (slice_index_or picture.old y []) ≡ lines.turn.width * lines.stored }
    requires row { is_stored lines.conversion ≡ false
        → length row.old ≡ lines.turn.width * lines.stored }
    requires line { length line.old
        ≡ lines.turn.width * converted_bytes lines.conversion lines.stored }
    requires fits { TakesStored lines.conversion lines.stored }
    ensures line { line.new ≡ layout_line lines.conversion lines.stored lines.turn.width
        (slice_index_or picture.old y []) }
    ensures same { picture.new ≡ picture.old }
{
    if is_stored(lines.conversion) {
        picture.write_line(y, line);
        return;
    }
    picture.write_line(y, row);
    put_row(
        row,
        lines.conversion,
        usize::from(lines.stored),
        usize::from(lines.turn.width),
        line,
    );
}

/// Writes the lines of a decoded picture as it is stored, and leaves the gaps between them. `row`
/// has room for a line as it is stored, unless lines stay as they are.
fn put_stored_lines(picture: &mut GivenLines, lines: Lines, row: &mut [u8], pixels: &mut [u8])
    requires stored { TakesLines lines picture.old (length row.old) }
    requires room { HasRoom lines (length pixels.old) }
    requires width { lines.width ≡ lines.turn.width }
    requires height { lines.height ≡ lines.turn.height }
    ensures { pixels.new ≡ laid_out (layout_line lines.conversion lines.stored lines.width)
        (lines.width * lines.stored) lines.stride lines.bottom_up lines.height
        (concat picture.old) pixels.old }
{
    let row_bytes = lines.row_bytes as usize;
    let stride = lines.stride as usize;
    for y in 0..usize::from(lines.height) {
        let place = place_of(lines, y);
        let start = place * stride;
        put_line(
            picture,
            lines,
            y,
            row,
            &mut pixels[start..start + row_bytes],
        );
    }
}

/// Returns which pixel of a run of `count` comes at a place of it, from its other end where it is
/// flipped.
#[inline(always)]
fn pixel_at(is_flipped: bool, count: usize, place: usize) -> usize
    requires { place < count }
    ensures is { result ≡ mirrored is_flipped count place }
    ensures inside { result < count }
{
    if is_flipped { count - 1 - place } else { place }
}

/// Writes a run of `count` pixels that begin `step` bytes apart, in the other direction where it is
/// flipped.
#[inline(always)]
fn put_sized_run(
    source: &[u8],
    step: usize,
    count: usize,
    is_flipped: bool,
    pixel_bytes: usize,
    run: &mut [u8],
)
    requires source { (place : ℕ) → place < count
        → place * step + pixel_bytes ≤ length source.now }
    requires run { length run.old ≡ count * pixel_bytes }
    ensures { IsRun source.now step count is_flipped pixel_bytes run.new }
{
    for place in 0..count {
        let from = pixel_at(is_flipped, count, place) * step;
        let to = place * pixel_bytes;
        run[to..to + pixel_bytes].copy_from_slice(&source[from..from + pixel_bytes]);
    }
}

/// Writes a run of pixels like `put_sized_run`, which is made anew for the usual sizes, so that
/// they are copied without a call.
fn put_run(
    source: &[u8],
    step: usize,
    count: usize,
    is_flipped: bool,
    pixel_bytes: usize,
    run: &mut [u8],
)
    requires source { (place : ℕ) → place < count
        → place * step + pixel_bytes ≤ length source.now }
    requires run { length run.old ≡ count * pixel_bytes }
    ensures { IsRun source.now step count is_flipped pixel_bytes run.new }
{
    match pixel_bytes {
        1 => put_sized_run(source, step, count, is_flipped, 1, run),
        3 => put_sized_run(source, step, count, is_flipped, 3, run),
        4 => put_sized_run(source, step, count, is_flipped, 4, run),
        _ => put_sized_run(source, step, count, is_flipped, pixel_bytes, run),
    }
}

/// Returns where the bytes of a pixel of the stored picture begin in the caller's memory.
fn pixel_start(lines: Lines, x: usize, y: usize) -> usize
    requires x { x < lines.turn.width }
    requires y { y < lines.turn.height }
    requires room { HasRoom lines 18446744073709551615 }
    ensures { result ≡ pixel_start lines x y }
{
    let (across, down) = upright_place(lines.turn, x, y);
    let line = place_of(lines, down) * lines.stride as usize;
    line + across * usize::from(lines.pixel_bytes)
}

/// Writes the pixels of a column of a band of lines, from line `first` on, where they stand in the
/// upright picture, in which the column is a part of a line.
fn put_column(band: &[u8], lines: Lines, first: usize, count: usize, x: usize, pixels: &mut [u8])
    requires x { x < lines.turn.width }
    requires some { 0 < count }
    requires count { first + count ≤ lines.turn.height }
    requires band { count * (lines.turn.width * lines.pixel_bytes) ≤ length band.now }
    requires room { HasRoom lines (length pixels.old) }
    requires side { is_on_side lines.turn.orientation ≡ true }
    ensures { (meant : ℕ → ℕ) → AreMeant lines meant first count band.now
        → Writes lines meant (λ column line. (column ≡ x) × (first ≤ line)
        × (line < first + count)) pixels.old pixels.new }
{
    let pixel_bytes = usize::from(lines.pixel_bytes);
    let is_flipped = flips_y(lines.turn.orientation);
    let start = pixel_start(lines, x, first + pixel_at(is_flipped, count, 0));
    put_run(
        &band[x * pixel_bytes..],
        line_bytes(lines),
        count,
        is_flipped,
        pixel_bytes,
        &mut pixels[start..start + count * pixel_bytes],
    );
}

/// Writes a line of the stored picture, in its layout, where its pixels stand in the upright one,
/// in which they are a line, too.
fn put_upright_line(line: &[u8], lines: Lines, y: usize, pixels: &mut [u8])
    requires y { y < lines.turn.height }
    requires line { length line.now ≡ lines.turn.width * lines.pixel_bytes }
    requires room { HasRoom lines (length pixels.old) }
    requires side { is_on_side lines.turn.orientation ≡ false }
    ensures { (meant : ℕ → ℕ) → ((x byte : ℕ) → x < lines.turn.width → byte < lines.pixel_bytes
        → meant (pixel_start lines x y + byte)
        ≡ slice_index_or line.now (x * lines.pixel_bytes + byte) 0)
        → Writes lines meant (λ column line. (column < lines.turn.width) × (line ≡ y))
        pixels.old pixels.new }
{
    let width = usize::from(lines.turn.width);
    if width == 0 {
        return;
    }
    let pixel_bytes = usize::from(lines.pixel_bytes);
    let is_flipped = flips_x(lines.turn.orientation);
    let start = pixel_start(lines, pixel_at(is_flipped, width, 0), y);
    put_run(
        line,
        pixel_bytes,
        width,
        is_flipped,
        pixel_bytes,
        &mut pixels[start..start + line.len()],
    );
}

/// Writes a band of lines, from line `first` on, where their pixels stand in the upright picture.
fn put_band(band: &[u8], lines: Lines, first: usize, count: usize, pixels: &mut [u8])
    requires some { 0 < count }
    requires count { first + count ≤ lines.turn.height }
    requires band { count * (lines.turn.width * lines.pixel_bytes) ≤ length band.now }
    requires room { HasRoom lines (length pixels.old) }
    ensures { (meant : ℕ → ℕ) → AreMeant lines meant first count band.now
        → Writes lines meant (λ column line. (column < lines.turn.width) × (first ≤ line)
        × (line < first + count)) pixels.old pixels.new }
{
    if is_on_side(lines.turn.orientation) {
        for x in 0..usize::from(lines.turn.width) {
            put_column(band, lines, first, count, x, pixels);
        }
    } else {
        let bytes = line_bytes(lines);
        for index in 0..count {
            let start = index * bytes;
            put_upright_line(&band[start..start + bytes], lines, first + index, pixels);
        }
    }
}

/// Reads a band of lines in their layout, from line `first` on.
fn read_band(
    picture: &mut GivenLines,
    lines: Lines,
    first: usize,
    count: usize,
    row: &mut [u8],
    band: &mut [u8],
)
    requires count { first + count ≤ lines.turn.height }
    requires stored { TakesLines lines picture.old (length row.old) }
    requires band { count * (lines.turn.width * lines.pixel_bytes) ≤ length band.old }
    ensures lines { AreLines lines picture.old first count band.new }
    ensures same { picture.new ≡ picture.old }
{
    let bytes = line_bytes(lines);
    for index in 0..count {
        let start = index * bytes;
        put_line(
            picture,
            lines,
            first + index,
            row,
            &mut band[start..start + bytes],
        );
    }
}

/// Writes the lines of a decoded picture, turned upright, and leaves the gaps between them. `band`
/// has room for the lines that are turned at a time.
fn put_turned_lines(
    picture: &mut GivenLines,
    lines: Lines,
    row: &mut [u8],
    band: &mut [u8],
    pixels: &mut [u8],
)
    requires stored { TakesLines lines picture.old (length row.old) }
    requires turned { lines.turn.orientation ≡ 1 → ⊥ }
    requires band { IsBand lines (length band.old) }
    requires room { HasRoom lines (length pixels.old) }
    ensures { pixels.new ≡ map (turned_byte lines (concat picture.old) pixels.old)
        (range_with_len 0 (length pixels.old)) }
{
    let height = usize::from(lines.turn.height);
    for index in 0..height.div_ceil(BAND) {
        let first = index * BAND;
        let count = BAND.min(height - first);
        read_band(picture, lines, first, count, row, band);
        put_band(band, lines, first, count, pixels);
    }
}

/// Writes the lines of a decoded picture, turned as the options ask for it, and leaves the gaps
/// between them. `row` has room for a line as it is stored, unless lines stay as they are, and
/// `band` for those that are turned at a time.
pub fn put_lines(
    picture: &mut GivenLines,
    lines: Lines,
    row: &mut [u8],
    band: &mut [u8],
    pixels: &mut [u8],
)
    requires stored { TakesLines lines picture.old (length row.old) }
    requires band { IsBand lines (length band.old) }
    requires room { HasRoom lines (length pixels.old) }
    ensures { pixels.new ≡ arranged_in lines (concat picture.old) pixels.old }
{
    if lines.turn.orientation == 1 {
        put_stored_lines(picture, lines, row, pixels);
    } else {
        put_turned_lines(picture, lines, row, band, pixels);
    }
}
