//! How the samples of pixels become the bytes of a layout.
ghost use Rattle.std.specs.Prelude.{◌≡◌, ◌+◌, ◌*◌, ◌≤◌, ◌<◌, length, IfSome};
ghost use Rattle.jpeg_decoder.specs.Bytes.{bytes_a_sample, samples_a_pixel};
ghost use Rattle.zaxbriar_calls.specs.Layouts.{TakesStored, bytes_of, colour_of, conversion_to};
ghost use Rattle.zaxbriar_calls.specs.Layouts.{converted_bytes, greatest, is_stored, layout_bytes};
ghost use Rattle.zaxbriar_calls.specs.Layouts.{layout_line, layout_numbered, level, light, luma};
ghost use Rattle.zaxbriar_calls.specs.Layouts.{full_of, packed, pixel_bytes, sample_at, word};
ghost use Rattle.jpeg_meaning.specs.declared.images.PixelFormat.TheVariants.{L8, RGB24, CMYK32};
ghost use Rattle.zaxbriar_calls.specs.declared.layouts.Conversion.TheVariants.{InColour};
ghost use Rattle.zaxbriar_calls.specs.declared.layouts.Layout.TheVariants.{Rgb565, Grey16, Rgb16};

use jpeg_decoder::PixelFormat;
use std::simd::prelude::*;

/// How a colour becomes the bytes of a pixel.
#[derive(Clone, Copy)]
pub enum Layout {
    /// Its luma.
    Grey,
    /// Red, green and blue.
    Rgb,
    /// Red, green and blue, and 255.
    Rgba,
    /// Blue, green and red, and 255.
    Bgra,
    /// Blue, green and red.
    Bgr,
    /// 255, and then red, green and blue.
    Xrgb,
    /// 255, and then blue, green and red.
    Abgr,
    /// The upper 5 bits of red, 6 of green and 5 of blue in a number of 16 bits, red uppermost; its
    /// lower byte is first.
    Rgb565,
    /// Its luma in 16 bits, the lower byte first.
    Grey16,
    /// Red, green and blue of 16 bits each, the lower byte of each first.
    Rgb16,
}

/// How the samples of a pixel become its bytes.
#[derive(Clone, Copy)]
pub enum Conversion {
    /// They are its bytes.
    Stored,
    /// A pixel of a format and a precision becomes a colour, and this the bytes of a layout.
    InColour(PixelFormat, u8, Layout),
}

/// A colour, each part of which is at most the greatest of a scale, 255 or 65,535. In grey they are
/// alike.
#[derive(Clone, Copy)]
pub struct Colour {
    red: u16,
    green: u16,
    blue: u16,
}

/// Returns the layout of a number, 1 to 10.
fn layout_numbered(number: u8) -> Option<Layout>
    ensures { result ≡ layout_numbered number }
{
    match number {
        1 => Some(Layout::Grey),
        2 => Some(Layout::Rgb),
        3 => Some(Layout::Rgba),
        4 => Some(Layout::Bgra),
        5 => Some(Layout::Bgr),
        6 => Some(Layout::Xrgb),
        7 => Some(Layout::Abgr),
        8 => Some(Layout::Rgb565),
        9 => Some(Layout::Grey16),
        10 => Some(Layout::Rgb16),
        _ => None,
    }
}

/// Returns the conversion to a layout, if it exists.
pub fn conversion_of(layout: u8, format: PixelFormat, precision: u8) -> Option<Conversion>
    ensures conversion { result ≡ conversion_to layout format precision }
    ensures fits { IfSome result (λ conversion. TakesStored conversion
        (pixel_bytes format precision)) }
{
    if layout == 0 {
        return Some(Conversion::Stored);
    }
    match layout_numbered(layout) {
        Some(layout) => Some(Conversion::InColour(format, precision, layout)),
        None => None,
    }
}

/// Returns how many samples a pixel has.
pub fn samples_a_pixel(format: PixelFormat) -> u8
    ensures { result ≡ samples_a_pixel format }
{
    match format {
        PixelFormat::L8 | PixelFormat::L16 => 1,
        PixelFormat::RGB24 => 3,
        PixelFormat::CMYK32 => 4,
    }
}

/// Returns how many bytes a sample of this many bits takes.
pub fn bytes_a_sample(precision: u8) -> u8
    ensures { result ≡ bytes_a_sample precision }
{
    if precision <= 8 { 1 } else { 2 }
}

/// Returns the bytes of a pixel in a layout.
fn layout_bytes(layout: Layout) -> u8
    ensures { result ≡ layout_bytes layout }
{
    match layout {
        Layout::Grey => 1,
        Layout::Rgb565 | Layout::Grey16 => 2,
        Layout::Rgb | Layout::Bgr => 3,
        Layout::Rgba | Layout::Bgra | Layout::Xrgb | Layout::Abgr => 4,
        Layout::Rgb16 => 6,
    }
}

/// Returns the greatest part of a layout's colours.
fn full_of(layout: Layout) -> u16
    ensures full { result ≡ full_of layout }
    ensures some { 1 ≤ result }
{
    match layout {
        Layout::Grey | Layout::Rgb | Layout::Bgr | Layout::Rgb565 => 255,
        Layout::Rgba | Layout::Bgra | Layout::Xrgb | Layout::Abgr => 255,
        Layout::Grey16 | Layout::Rgb16 => 65535,
    }
}

/// Returns the bytes that a pixel becomes.
pub fn converted_bytes(conversion: Conversion, stored: u8) -> u8
    ensures { result ≡ converted_bytes conversion stored }
{
    match conversion {
        Conversion::Stored => stored,
        Conversion::InColour(_, _, layout) => layout_bytes(layout),
    }
}

/// Returns whether pixels stay as they are stored.
pub fn is_stored(conversion: Conversion) -> bool
    ensures { result ≡ is_stored conversion }
{
    match conversion {
        Conversion::Stored => true,
        Conversion::InColour(PixelFormat::L8, precision, Layout::Grey) => precision == 8,
        Conversion::InColour(PixelFormat::RGB24, precision, Layout::Rgb) => precision == 8,
        Conversion::InColour(PixelFormat::L16, precision, Layout::Grey16) => precision == 16,
        Conversion::InColour(PixelFormat::RGB24, precision, Layout::Rgb16) => precision == 16,
        _ => false,
    }
}

/// Returns a sample of a pixel.
#[inline(always)]
fn sample_at(precision: u8, pixel: &[u8], place: usize) -> u16
    requires inside { (place + 1) * bytes_a_sample precision ≤ length pixel.now }
    requires few { place < 4 }
    ensures sample { result ≡ sample_at precision pixel.now place }
    ensures byte { precision ≤ 8 → result < 256 }
{
    if precision <= 8 {
        u16::from(pixel[place])
    } else {
        u16::from(pixel[2 * place]) + 256 * u16::from(pixel[2 * place + 1])
    }
}

/// Returns the greatest sample of a precision.
fn greatest(precision: u8) -> u32
    ensures greatest { result ≡ greatest precision }
    ensures some { 1 ≤ result }
    ensures most { result ≤ 65535 }
{
    (1u32 << precision.min(16).max(1)) - 1
}

/// Returns a sample of a pixel on the scale from 0 to `full`.
#[inline(always)]
fn level(full: u16, precision: u8, pixel: &[u8], place: usize) -> u16
    requires inside { (place + 1) * bytes_a_sample precision ≤ length pixel.now }
    requires few { place < 4 }
    requires some { 1 ≤ full }
    ensures level { result ≡ level full precision pixel.now place }
    ensures most { result ≤ full }
{
    let sample = sample_at(precision, pixel, place);
    let most = greatest(precision);
    let wide = u32::from(full);
    if most == wide {
        return sample.min(full);
    }
    let product = u32::from(sample) * wide;
    let rounded = product + most / 2;
    (rounded / most).min(wide) as u16
}

/// Returns red, green or blue of an ink and black, where `full` is full ink.
#[inline(always)]
fn light(full: u16, ink: u16, black: u16) -> u16
    requires some { 1 ≤ full }
    requires ink { ink ≤ full }
    requires black { black ≤ full }
    ensures light { result ≡ light full ink black }
    ensures most { result ≤ full }
{
    let wide = u32::from(full);
    let product = (wide - u32::from(ink)) * (wide - u32::from(black));
    let rounded = product + wide / 2;
    (rounded / wide) as u16
}

/// Returns the colour of a pixel, each part from 0 to `full`.
#[inline(always)]
fn colour_of(full: u16, format: PixelFormat, precision: u8, pixel: &[u8]) -> Colour
    requires some { 1 ≤ full }
    requires whole { length pixel.now ≡ pixel_bytes format precision }
    ensures colour { result ≡ colour_of full format precision pixel.now }
    ensures red { result.red ≤ full }
    ensures green { result.green ≤ full }
    ensures blue { result.blue ≤ full }
{
    match format {
        PixelFormat::L8 | PixelFormat::L16 => {
            let grey = level(full, precision, pixel, 0);
            Colour {
                red: grey,
                green: grey,
                blue: grey,
            }
        }
        PixelFormat::RGB24 => Colour {
            red: level(full, precision, pixel, 0),
            green: level(full, precision, pixel, 1),
            blue: level(full, precision, pixel, 2),
        },
        PixelFormat::CMYK32 => {
            let black = level(full, precision, pixel, 3);
            Colour {
                red: light(full, level(full, precision, pixel, 0), black),
                green: light(full, level(full, precision, pixel, 1), black),
                blue: light(full, level(full, precision, pixel, 2), black),
            }
        }
    }
}

/// Returns the luma of a colour, by the weights of ITU-R BT.601.
#[inline(always)]
fn luma(colour: Colour) -> u16
    ensures luma { result ≡ luma colour }
    ensures byte { colour.red ≤ 255 → colour.green ≤ 255 → colour.blue ≤ 255 → result ≤ 255 }
{
    let red = 19595 * u32::from(colour.red);
    let green = 38470 * u32::from(colour.green);
    let blue = 7471 * u32::from(colour.blue);
    ((red + green + blue + 32768) / 65536) as u16
}

/// Returns the upper 5 bits of red, 6 of green and 5 of blue, red uppermost.
#[inline]
fn packed(colour: Colour) -> u16
    requires red { colour.red ≤ 255 }
    requires green { colour.green ≤ 255 }
    requires blue { colour.blue ≤ 255 }
    ensures { result ≡ packed colour }
{
    colour.red / 8 * 2048 + colour.green / 4 * 32 + colour.blue / 8
}

/// Writes a number as two bytes, the lower first.
#[inline]
fn put_word(number: u16, bytes: &mut [u8])
    requires room { length bytes.old ≡ 2 }
    ensures { bytes.new ≡ word number }
{
    bytes.copy_from_slice(&[(number % 256) as u8, (number / 256) as u8]);
}

/// Writes red, green and blue as two bytes each, the lower first.
#[inline]
fn put_words(colour: Colour, pixel: &mut [u8])
    requires room { length pixel.old ≡ 6 }
    ensures { pixel.new ≡ bytes_of Rgb16 colour }
{
    let Colour { red, green, blue } = colour;
    pixel.copy_from_slice(&[
        (red % 256) as u8,
        (red / 256) as u8,
        (green % 256) as u8,
        (green / 256) as u8,
        (blue % 256) as u8,
        (blue / 256) as u8,
    ]);
}

/// Writes a colour as the bytes of a layout whose samples are bytes.
#[inline(always)]
fn put_bytes(colour: Colour, layout: Layout, pixel: &mut [u8])
    requires red { colour.red ≤ 255 }
    requires green { colour.green ≤ 255 }
    requires blue { colour.blue ≤ 255 }
    requires unpacked { layout ≡ Rgb565 → ⊥ }
    requires no_wide_grey { layout ≡ Grey16 → ⊥ }
    requires no_wide_rgb { layout ≡ Rgb16 → ⊥ }
    requires room { length pixel.old ≡ layout_bytes layout }
    ensures { pixel.new ≡ bytes_of layout colour }
{
    let red = colour.red as u8;
    let green = colour.green as u8;
    let blue = colour.blue as u8;
    match layout {
        Layout::Grey => pixel.copy_from_slice(&[luma(colour) as u8]),
        Layout::Rgb => pixel.copy_from_slice(&[red, green, blue]),
        Layout::Rgba => pixel.copy_from_slice(&[red, green, blue, 255]),
        Layout::Bgra => pixel.copy_from_slice(&[blue, green, red, 255]),
        Layout::Bgr => pixel.copy_from_slice(&[blue, green, red]),
        Layout::Xrgb => pixel.copy_from_slice(&[255, red, green, blue]),
        Layout::Abgr => pixel.copy_from_slice(&[255, blue, green, red]),
        Layout::Rgb565 | Layout::Grey16 | Layout::Rgb16 => {}
    }
}

/// Writes a colour as the bytes of a layout. (The compiler counts what it inlines by
/// `inline(always)`, and not what it inlines by `inline`.)
#[inline(always)]
fn put_colour(colour: Colour, layout: Layout, pixel: &mut [u8])
    requires red { colour.red ≤ full_of layout }
    requires green { colour.green ≤ full_of layout }
    requires blue { colour.blue ≤ full_of layout }
    requires room { length pixel.old ≡ layout_bytes layout }
    ensures { pixel.new ≡ bytes_of layout colour }
{
    match layout {
        Layout::Rgb565 => put_word(packed(colour), pixel),
        Layout::Grey16 => put_word(luma(colour), pixel),
        Layout::Rgb16 => put_words(colour, pixel),
        _ => put_bytes(colour, layout, pixel),
    }
}

/// Writes each pixel of a row as its colour in a layout.
#[inline(always)]
fn put_pixels(
    row: &[u8],
    format: PixelFormat,
    precision: u8,
    layout: Layout,
    width: usize,
    line: &mut [u8],
)
    requires whole { length row.now ≡ width * pixel_bytes format precision }
    requires room { length line.old ≡ width * layout_bytes layout }
    ensures { line.new ≡ layout_line (InColour format precision layout)
        (pixel_bytes format precision) width row.now }
{
    let stored = usize::from(samples_a_pixel(format) * bytes_a_sample(precision));
    let bytes = usize::from(layout_bytes(layout));
    let full = full_of(layout);
    for x in 0..width {
        let pixel = &row[x * stored..(x + 1) * stored];
        let colour = colour_of(full, format, precision, pixel);
        put_colour(colour, layout, &mut line[x * bytes..(x + 1) * bytes]);
    }
}

/// Writes each pixel of a row as its colour in a layout, by a loop for each layout. Formats of 8
/// bits have functions of their own: the compiler doesn't inline a function of so many loops,
/// whatever its hint says.
fn put_in_layout(
    row: &[u8],
    format: PixelFormat,
    precision: u8,
    layout: Layout,
    width: usize,
    line: &mut [u8],
)
    requires whole { length row.now ≡ width * pixel_bytes format precision }
    requires room { length line.old ≡ width * layout_bytes layout }
    ensures { line.new ≡ layout_line (InColour format precision layout)
        (pixel_bytes format precision) width row.now }
{
    match layout {
        Layout::Grey => put_pixels(row, format, precision, Layout::Grey, width, line),
        Layout::Rgb => put_pixels(row, format, precision, Layout::Rgb, width, line),
        Layout::Rgba => put_pixels(row, format, precision, Layout::Rgba, width, line),
        Layout::Bgra => put_pixels(row, format, precision, Layout::Bgra, width, line),
        Layout::Bgr => put_pixels(row, format, precision, Layout::Bgr, width, line),
        Layout::Xrgb => put_pixels(row, format, precision, Layout::Xrgb, width, line),
        Layout::Abgr => put_pixels(row, format, precision, Layout::Abgr, width, line),
        Layout::Rgb565 => put_pixels(row, format, precision, Layout::Rgb565, width, line),
        Layout::Grey16 => put_pixels(row, format, precision, Layout::Grey16, width, line),
        Layout::Rgb16 => put_pixels(row, format, precision, Layout::Rgb16, width, line),
    }
}

/// Returns the first four of some pixels of red, green and blue, of 8 bits a sample, in a layout of
/// four bytes. Of the sixteen samples that are read, the last four are of the pixels behind them.
#[inline(always)]
fn four_pixels(row: &[u8], layout: Layout) -> u8x16
    requires room { 16 ≤ length row.now }
    requires four { layout_bytes layout ≡ 4 }
    ensures { result ≡ layout_line (InColour RGB24 8 layout) (pixel_bytes RGB24 8) 4 row.now }
{
    let samples = u8x16::from_slice(row);
    let full = u8x16::splat(255);
    match layout {
        Layout::Xrgb => {
            samples.shuffle(full, [16, 0, 1, 2, 16, 3, 4, 5, 16, 6, 7, 8, 16, 9, 10, 11])
        }
        Layout::Abgr => {
            samples.shuffle(full, [16, 2, 1, 0, 16, 5, 4, 3, 16, 8, 7, 6, 16, 11, 10, 9])
        }
        Layout::Bgra => {
            samples.shuffle(full, [2, 1, 0, 16, 5, 4, 3, 16, 8, 7, 6, 16, 11, 10, 9, 16])
        }
        _ => samples.shuffle(full, [0, 1, 2, 16, 3, 4, 5, 16, 6, 7, 8, 16, 9, 10, 11, 16]),
    }
}

/// Writes pixels of red, green and blue, of 8 bits a sample, in a layout of four bytes: four at a
/// time, and one at a time where fewer than sixteen samples are left.
#[inline(always)]
fn put_fours(row: &[u8], layout: Layout, width: usize, line: &mut [u8])
    requires whole { length row.now ≡ width * pixel_bytes RGB24 8 }
    requires four { layout_bytes layout ≡ 4 }
    requires room { length line.old ≡ width * layout_bytes layout }
    ensures { line.new ≡ layout_line (InColour RGB24 8 layout) (pixel_bytes RGB24 8) width row.now }
{
    let fours = width.saturating_sub(2) / 4;
    for k in 0..fours {
        four_pixels(&row[12 * k..], layout).copy_to_slice(&mut line[16 * k..]);
    }
    let left = width - 4 * fours;
    let rest = &row[12 * fours..];
    put_pixels(
        rest,
        PixelFormat::RGB24,
        8,
        layout,
        left,
        &mut line[16 * fours..],
    );
}

/// Writes pixels of grey, of 8 bits a sample, in a layout, by a loop for each.
fn put_grey(row: &[u8], layout: Layout, width: usize, line: &mut [u8])
    requires whole { length row.now ≡ width * pixel_bytes L8 8 }
    requires room { length line.old ≡ width * layout_bytes layout }
    ensures { line.new ≡ layout_line (InColour L8 8 layout) (pixel_bytes L8 8) width row.now }
{
    match layout {
        Layout::Grey => put_pixels(row, PixelFormat::L8, 8, Layout::Grey, width, line),
        Layout::Rgb => put_pixels(row, PixelFormat::L8, 8, Layout::Rgb, width, line),
        Layout::Rgba => put_pixels(row, PixelFormat::L8, 8, Layout::Rgba, width, line),
        Layout::Bgra => put_pixels(row, PixelFormat::L8, 8, Layout::Bgra, width, line),
        Layout::Bgr => put_pixels(row, PixelFormat::L8, 8, Layout::Bgr, width, line),
        Layout::Xrgb => put_pixels(row, PixelFormat::L8, 8, Layout::Xrgb, width, line),
        Layout::Abgr => put_pixels(row, PixelFormat::L8, 8, Layout::Abgr, width, line),
        Layout::Rgb565 => put_pixels(row, PixelFormat::L8, 8, Layout::Rgb565, width, line),
        Layout::Grey16 => put_pixels(row, PixelFormat::L8, 8, Layout::Grey16, width, line),
        Layout::Rgb16 => put_pixels(row, PixelFormat::L8, 8, Layout::Rgb16, width, line),
    }
}

/// Writes pixels of red, green and blue, of 8 bits a sample, in a layout, by a loop for each.
fn put_rgb(row: &[u8], layout: Layout, width: usize, line: &mut [u8])
    requires whole { length row.now ≡ width * pixel_bytes RGB24 8 }
    requires room { length line.old ≡ width * layout_bytes layout }
    ensures { line.new ≡ layout_line (InColour RGB24 8 layout) (pixel_bytes RGB24 8) width row.now }
{
    match layout {
        Layout::Grey => put_pixels(row, PixelFormat::RGB24, 8, Layout::Grey, width, line),
        Layout::Rgb => put_pixels(row, PixelFormat::RGB24, 8, Layout::Rgb, width, line),
        Layout::Rgba => put_fours(row, Layout::Rgba, width, line),
        Layout::Bgra => put_fours(row, Layout::Bgra, width, line),
        Layout::Bgr => put_pixels(row, PixelFormat::RGB24, 8, Layout::Bgr, width, line),
        Layout::Xrgb => put_fours(row, Layout::Xrgb, width, line),
        Layout::Abgr => put_fours(row, Layout::Abgr, width, line),
        Layout::Rgb565 => put_pixels(row, PixelFormat::RGB24, 8, Layout::Rgb565, width, line),
        Layout::Grey16 => put_pixels(row, PixelFormat::RGB24, 8, Layout::Grey16, width, line),
        Layout::Rgb16 => put_pixels(row, PixelFormat::RGB24, 8, Layout::Rgb16, width, line),
    }
}

/// Writes pixels of ink, of 8 bits a sample, in a layout, by a loop for each.
fn put_cmyk(row: &[u8], layout: Layout, width: usize, line: &mut [u8])
    requires whole { length row.now ≡ width * pixel_bytes CMYK32 8 }
    requires room { length line.old ≡ width * layout_bytes layout }
    ensures { line.new ≡ layout_line (InColour CMYK32 8 layout) (pixel_bytes CMYK32 8) width
        row.now }
{
    match layout {
        Layout::Grey => put_pixels(row, PixelFormat::CMYK32, 8, Layout::Grey, width, line),
        Layout::Rgb => put_pixels(row, PixelFormat::CMYK32, 8, Layout::Rgb, width, line),
        Layout::Rgba => put_pixels(row, PixelFormat::CMYK32, 8, Layout::Rgba, width, line),
        Layout::Bgra => put_pixels(row, PixelFormat::CMYK32, 8, Layout::Bgra, width, line),
        Layout::Bgr => put_pixels(row, PixelFormat::CMYK32, 8, Layout::Bgr, width, line),
        Layout::Xrgb => put_pixels(row, PixelFormat::CMYK32, 8, Layout::Xrgb, width, line),
        Layout::Abgr => put_pixels(row, PixelFormat::CMYK32, 8, Layout::Abgr, width, line),
        Layout::Rgb565 => put_pixels(row, PixelFormat::CMYK32, 8, Layout::Rgb565, width, line),
        Layout::Grey16 => put_pixels(row, PixelFormat::CMYK32, 8, Layout::Grey16, width, line),
        Layout::Rgb16 => put_pixels(row, PixelFormat::CMYK32, 8, Layout::Rgb16, width, line),
    }
}

/// Writes pixels of 16 bits a sample in a layout, by a loop for each.
fn put_deep(row: &[u8], format: PixelFormat, layout: Layout, width: usize, line: &mut [u8])
    requires whole { length row.now ≡ width * pixel_bytes format 16 }
    requires room { length line.old ≡ width * layout_bytes layout }
    ensures { line.new ≡ layout_line (InColour format 16 layout) (pixel_bytes format 16) width
        row.now }
{
    match layout {
        Layout::Grey => put_pixels(row, format, 16, Layout::Grey, width, line),
        Layout::Rgb => put_pixels(row, format, 16, Layout::Rgb, width, line),
        Layout::Rgba => put_pixels(row, format, 16, Layout::Rgba, width, line),
        Layout::Bgra => put_pixels(row, format, 16, Layout::Bgra, width, line),
        Layout::Bgr => put_pixels(row, format, 16, Layout::Bgr, width, line),
        Layout::Xrgb => put_pixels(row, format, 16, Layout::Xrgb, width, line),
        Layout::Abgr => put_pixels(row, format, 16, Layout::Abgr, width, line),
        Layout::Rgb565 => put_pixels(row, format, 16, Layout::Rgb565, width, line),
        Layout::Grey16 => put_pixels(row, format, 16, Layout::Grey16, width, line),
        Layout::Rgb16 => put_pixels(row, format, 16, Layout::Rgb16, width, line),
    }
}

/// Writes each pixel of a row as its colour in a layout, by a loop for each format of 8 bits, and
/// one for samples of 16 bits.
fn put_in_colour(
    row: &[u8],
    format: PixelFormat,
    precision: u8,
    layout: Layout,
    width: usize,
    line: &mut [u8],
)
    requires whole { length row.now ≡ width * pixel_bytes format precision }
    requires room { length line.old ≡ width * layout_bytes layout }
    ensures { line.new ≡ layout_line (InColour format precision layout)
        (pixel_bytes format precision) width row.now }
{
    match (format, precision) {
        (PixelFormat::L8, 8) => put_grey(row, layout, width, line),
        (PixelFormat::RGB24, 8) => put_rgb(row, layout, width, line),
        (PixelFormat::CMYK32, 8) => put_cmyk(row, layout, width, line),
        (_, 16) => put_deep(row, format, layout, width, line),
        _ => put_in_layout(row, format, precision, layout, width, line),
    }
}

/// Writes a row of samples as a line of a layout. Each pixel has `stored` bytes in the row.
pub fn put_row(row: &[u8], conversion: Conversion, stored: usize, width: usize, line: &mut [u8])
    requires fits { TakesStored conversion stored }
    requires whole { length row.now ≡ width * stored }
    requires room { length line.old ≡ width * converted_bytes conversion stored }
    ensures { line.new ≡ layout_line conversion stored width row.now }
{
    match conversion {
        Conversion::Stored => line.copy_from_slice(row),
        Conversion::InColour(format, precision, layout) => {
            put_in_colour(row, format, precision, layout, width, line);
        }
    }
}
