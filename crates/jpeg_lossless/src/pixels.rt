//! The bytes of the pixels of a lossless picture.
ghost use Rattle.std.specs.Prelude.{◌≡◌, ◌≤◌, ◌<◌, ◌+◌, ◌*◌, ◌^◌, map, length, ◌∷◌, [], IfSome};
ghost use Rattle.jpeg_lossless.specs.Pictures.{sample_bytes, sample_size};
ghost use Rattle.jpeg_lossless.specs.Pictures.{AreLong, bytes_at, line_from};

/// Returns how many bytes a sample takes: one up to precision 8, else two.
#[inline(always)]
fn sample_size(precision: u8) -> usize
    ensures size { result ≡ sample_size precision }
    ensures most { result ≤ 2 }
{
    if precision <= 8 { 1 } else { 2 }
}

/// Writes the bytes of a sample: one up to precision 8, else two, the lower first.
#[inline(always)]
fn write_sample(sample: u16, precision: u8, bytes: &mut [u8])
    requires { length bytes.old ≡ sample_size precision }
    ensures { bytes.new ≡ sample_bytes precision sample }
{
    bytes[0] = (sample % 256) as u8;
    if precision > 8 {
        bytes[1] = (sample / 256) as u8;
    }
}

/// Writes the bytes of the pixel whose samples are at index `at`: those of each component in turn.
#[inline(always)]
#[tactic(auto, using(crate::proofs::FilledLines::pieces, crate::proofs::ImageLoops::pixel_steps))]
fn write_pixel(planes: &[Vec<u16>], at: usize, precision: u8, pixel: &mut [u8])
    requires long { AreLong (at + 1) (map (λ v. v.items) planes.now) }
    requires room { length pixel.old ≡ length planes.now * sample_size precision }
    ensures { pixel.new ≡ bytes_at precision (map (λ v. v.items) planes.now) at }
{
    let size = sample_size(precision);
    for i in 0..planes.len() {
        let plane = planes[i].as_slice();
        let start = i * size;
        write_sample(plane[at], precision, &mut pixel[start..start + size]);
    }
}

/// Writes the samples of one plane from `from` on, as a byte each.
#[tactic(auto, using(crate::proofs::ByteLines::one_steps))]
fn write_bytes(plane: &[u16], from: usize, precision: u8, line: &mut [u8])
    requires small { precision ≤ 8 }
    requires fits { from + length line.old < 2 ^ 64 }
    requires long { from + length line.old ≤ length plane.now }
    ensures { line.new ≡ line_from precision (plane.now ∷ []) from (length line.old) }
{
    let plane = &plane[from..from + line.len()];
    for x in 0..line.len() {
        line[x] = (plane[x] % 256) as u8;
    }
}

/// Writes the samples of three planes from `from` on, as a byte each, pixel by pixel.
#[tactic(auto, using(crate::proofs::ByteLines::three_steps))]
fn write_bytes_of_three(
    first: &[u16],
    second: &[u16],
    third: &[u16],
    from: usize,
    width: usize,
    precision: u8,
    line: &mut [u8],
)
    requires small { precision ≤ 8 }
    requires fits { from + width < 2 ^ 64 }
    requires first { from + width ≤ length first.now }
    requires second { from + width ≤ length second.now }
    requires third { from + width ≤ length third.now }
    requires room { length line.old ≡ width * 3 }
    ensures { line.new
        ≡ line_from precision (first.now ∷ second.now ∷ third.now ∷ []) from width }
{
    let first = &first[from..from + width];
    let second = &second[from..from + width];
    let third = &third[from..from + width];
    for x in 0..width {
        line[3 * x] = (first[x] % 256) as u8;
        line[3 * x + 1] = (second[x] % 256) as u8;
        line[3 * x + 2] = (third[x] % 256) as u8;
    }
}

/// Writes the bytes of a line of `width` pixels, the samples of which begin at `from`.
#[tactic(auto, using(crate::proofs::FilledLines::pieces, crate::proofs::ImageLoops::line_steps))]
pub(crate) fn write_pixels(
    planes: &[Vec<u16>],
    from: usize,
    width: usize,
    precision: u8,
    line: &mut [u8],
)
    requires fits { from + width < 2 ^ 64 }
    requires long { AreLong (from + width) (map (λ v. v.items) planes.now) }
    requires room { length line.old ≡ width * (length planes.now * sample_size precision) }
    ensures { line.new ≡ line_from precision (map (λ v. v.items) planes.now) from width }
{
    if precision <= 8 && planes.len() == 1 {
        write_bytes(&planes[0], from, precision, line);
        return;
    }
    if precision <= 8 && planes.len() == 3 {
        write_bytes_of_three(
            &planes[0], &planes[1], &planes[2], from, width, precision, line,
        );
        return;
    }
    let size = planes.len() * sample_size(precision);
    for x in 0..width {
        let start = x * size;
        write_pixel(planes, from + x, precision, &mut line[start..start + size]);
    }
}

/// Returns how many bytes a line of a picture of `count` components has, if a `usize` can hold it.
pub(crate) fn size_of_line(count: usize, width: u16, precision: u8) -> Option<usize>
    ensures { IfSome result (λ n. n ≡ width * (count * sample_size precision)) }
{
    let pixel = count.checked_mul(sample_size(precision))?;
    usize::from(width).checked_mul(pixel)
}
