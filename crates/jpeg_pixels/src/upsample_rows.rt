//! Rows of a component made as wide as the picture: the rules, and a function for each.
ghost use Rattle.std.specs.Prelude.{◌≡◌, ℕ, ◌+◌, ◌-◌, ◌*◌, ◌/◌, ◌<◌, ◌≤◌, length, slice_index};
ghost use Rattle.jpeg_pixels.specs.Upsampling.{blended, far_index};

/// How the samples of a component become those of the picture: by the factors across (H) and down
/// (V).
#[derive(Clone, Copy, Debug, PartialEq)]
pub enum UpsampleRule {
    /// The samples are those of the picture.
    H1V1,
    /// Twice as many samples across, blended 3 to 1 from the nearer and the farther one.
    H2V1,
    /// Twice as many samples down, blended 3 to 1.
    H1V2,
    /// Twice as many samples across and down, blended 9 to 3 to 3 to 1.
    H2V2,
    /// Each sample is repeated this often across and down.
    Generic(u8, u8),
}

impl UpsampleRule {
    ghost use Rattle.std.specs.Prelude.{◌≡◌, ℕ, ◌+◌, ◌-◌, ◌*◌, ◌<◌, ◌≤◌, length, slice_index};
    ghost use Rattle.jpeg_pixels.specs.Upsampling.{upsampled, across, down};

    /// Writes the first `output_width` samples of row `row` of the picture to the front of the
    /// output; its other bytes stay as they are.
    ///
    /// The component has `input_height` lines of `input_width` samples, and each line begins
    /// `row_stride` bytes after the beginning of the one above. The output is at most `across`
    /// times as wide as that.
    #[tactic(auto, using(crate::proofs::UpsampledRows::upsampled_rows))]
    pub fn upsample_row(
        &self,
        input: &[u8],
        input_width: usize,
        input_height: usize,
        row_stride: usize,
        row: usize,
        output_width: usize,
        output: &mut [u8],
    )
        requires some_across { 1 ≤ across self.now }
        requires some_down { 1 ≤ down self.now }
        requires some_width { 1 ≤ input_width }
        requires wide_enough { output_width ≤ across self.now * input_width }
        requires row { row < down self.now * input_height }
        requires input_room { (input_height - 1) * row_stride + input_width ≤ length input.now }
        requires output_room { output_width ≤ length output.old }
        ensures samples { (x : ℕ) → x < output_width → slice_index output.new x
            ≡ upsampled self.now (λ i j. slice_index input.now (j * row_stride + i)) input_width
            input_height x row }
        ensures others { (i : ℕ) → output_width ≤ i → slice_index output.new i
            ≡ slice_index output.old i }
    {
        if output_width == 0 {
            return;
        }
        let output = &mut output[..output_width];
        match *self {
            UpsampleRule::H1V1 => {
                let line = line_at(input, output_width, row_stride, row);
                output.copy_from_slice(line);
            }
            UpsampleRule::H2V1 => {
                let line = line_at(input, input_width, row_stride, row);
                upsample_row_h2v1(line, output);
            }
            UpsampleRule::H1V2 => {
                let near = line_at(input, output_width, row_stride, row / 2);
                let far = line_at(input, output_width, row_stride, far_line(input_height, row));
                upsample_row_h1v2(near, far, output);
            }
            UpsampleRule::H2V2 => {
                let near = line_at(input, input_width, row_stride, row / 2);
                let far = line_at(input, input_width, row_stride, far_line(input_height, row));
                upsample_row_h2v2(near, far, output);
            }
            UpsampleRule::Generic(across, down) => {
                let used = output_width.div_ceil(usize::from(across));
                let line = line_at(input, used, row_stride, row / usize::from(down));
                repeat_samples(line, usize::from(across), output);
            }
        }
    }
}

/// Returns the line of a plane whose lines are `row_stride` bytes apart.
fn line_at(input: &[u8], input_width: usize, row_stride: usize, line: usize) -> &[u8]
    requires { line * row_stride + input_width ≤ length input.now }
    ensures long { length result.now ≡ input_width }
    ensures samples { (i : ℕ) → i < input_width →
        slice_index result.now i ≡ slice_index input.now (line * row_stride + i) }
{
    let start = line * row_stride;
    &input[start..start + input_width]
}

/// Returns, of the two lines next to line `row / 2`, the one that `row` is nearer to: at the ends
/// the line itself.
fn far_line(input_height: usize, row: usize) -> usize
    requires some { 1 ≤ input_height }
    ensures { result ≡ far_index input_height row }
{
    if row.is_multiple_of(2) {
        (row / 2).saturating_sub(1)
    } else {
        (row / 2 + 1).min(input_height - 1)
    }
}

/// Returns three parts of one number and one of another.
fn line_sum(near: u8, far: u8) -> u16
    ensures value { result ≡ 3 * near + far }
    ensures range { result ≤ 1020 }
{
    3 * u16::from(near) + u16::from(far)
}

/// Returns three parts of one sample and one of another, rounded.
fn blend(near: u8, far: u8) -> u8
    ensures { result ≡ blended near far }
{
    ((line_sum(near, far) + 2) >> 2) as u8
}

/// Returns three parts of one sum of two lines and one of another, rounded.
fn blend_sums(near: u16, far: u16) -> u8
    requires near { near ≤ 1020 }
    requires far { far ≤ 1020 }
    ensures { result ≡ (3 * near + far + 8) / 16 }
{
    ((3 * near + far + 8) >> 4) as u8
}

/// Writes a line made twice as wide, as far as the output goes.
fn upsample_row_h2v1(line: &[u8], output: &mut [u8])
    requires some { 1 ≤ length output.old }
    requires wide { length output.old ≤ 2 * length line.now }
    ensures { (x : ℕ) → x < length output.old → slice_index output.new x ≡
        blended (slice_index line.now (x / 2))
        (slice_index line.now (far_index (length line.now) x)) }
{
    let used = output.len().div_ceil(2);
    output[0] = line[0];
    for i in 1..used {
        output[2 * i - 1] = blend(line[i - 1], line[i]);
        output[2 * i] = blend(line[i], line[i - 1]);
    }
    if output.len() == 2 * used {
        let next = used.min(line.len() - 1);
        output[2 * used - 1] = blend(line[used - 1], line[next]);
    }
}

/// Writes the line between two lines.
fn upsample_row_h1v2(near: &[u8], far: &[u8], output: &mut [u8])
    requires near_long { length near.now ≡ length output.old }
    requires far_long { length far.now ≡ length output.old }
    ensures { (x : ℕ) → x < length output.old →
        slice_index output.new x ≡ blended (slice_index near.now x) (slice_index far.now x) }
{
    for x in 0..output.len() {
        output[x] = blend(near[x], far[x]);
    }
}

/// Writes the line between two lines, made twice as wide, as far as the output goes.
fn upsample_row_h2v2(near: &[u8], far: &[u8], output: &mut [u8])
    requires some { 1 ≤ length output.old }
    requires far_long { length far.now ≡ length near.now }
    requires wide { length output.old ≤ 2 * length near.now }
    ensures { (x : ℕ) → x < length output.old → slice_index output.new x ≡
        (3 * (3 * slice_index near.now (x / 2) + slice_index far.now (x / 2))
        + (3 * slice_index near.now (far_index (length near.now) x)
        + slice_index far.now (far_index (length near.now) x)) + 8) / 16 }
{
    let used = output.len().div_ceil(2);
    output[0] = blend(near[0], far[0]);
    for i in 1..used {
        let before = line_sum(near[i - 1], far[i - 1]);
        let here = line_sum(near[i], far[i]);
        output[2 * i - 1] = blend_sums(before, here);
        output[2 * i] = blend_sums(here, before);
    }
    if output.len() == 2 * used {
        let next = used.min(near.len() - 1);
        let last = line_sum(near[used - 1], far[used - 1]);
        output[2 * used - 1] = blend_sums(last, line_sum(near[next], far[next]));
    }
}

/// Writes each sample of a line this many times; the last one fewer times, if the output ends.
#[inline(always)]
fn write_runs(line: &[u8], times: usize, output: &mut [u8])
    requires some { 1 ≤ times }
    requires wide { length output.old ≤ times * length line.now }
    ensures { (x : ℕ) → x < length output.old →
        slice_index output.new x ≡ slice_index line.now (x / times) }
{
    let whole = output.len() / times;
    for i in 0..whole {
        for k in 0..times {
            output[i * times + k] = line[i];
        }
    }
    for x in whole * times..output.len() {
        output[x] = line[whole];
    }
}

/// Like `write_runs`. Where the compiler knows how long the runs are, it writes many of them at
/// once.
fn repeat_samples(line: &[u8], times: usize, output: &mut [u8])
    requires some { 1 ≤ times }
    requires wide { length output.old ≤ times * length line.now }
    ensures { (x : ℕ) → x < length output.old →
        slice_index output.new x ≡ slice_index line.now (x / times) }
{
    match times {
        1 => write_runs(line, 1, output),
        2 => write_runs(line, 2, output),
        3 => write_runs(line, 3, output),
        4 => write_runs(line, 4, output),
        _ => write_runs(line, times, output),
    }
}
