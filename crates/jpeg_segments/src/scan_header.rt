//! Scan headers.
ghost use Rattle.std.specs.Prelude.{◌≡◌, ◌≤◌, ◌<◌, ◌==◌, ◌*◌, [], map, position, length, sum_by};
ghost use Rattle.std.specs.Prelude.{IsTrue, IfOk, IfSome, All, true, nat_le, ◌||◌};
ghost use Rattle.jpeg_bits.specs.Reading.{Answers, NamesFormat};
ghost use Rattle.jpeg_segments.specs.HuffmanTables.{greatest_destination};
ghost use Rattle.jpeg_segments.specs.ScanHeader.{IsBandOf, IsRising, IsScanOf, IsSelectorOf};
ghost use Rattle.jpeg_segments.specs.ScanHeader.{band_at, after_of, blocks_by, count_at, is_band};
ghost use Rattle.jpeg_segments.specs.ScanHeader.{is_mcu, is_progressive_band, index_of};
ghost use Rattle.jpeg_segments.specs.ScanHeader.{predictor_by, predictor_of, selector_at};
ghost use Rattle.jpeg_segments.specs.ScanHeader.{selectors_from, sos_at};
ghost use Rattle.jpeg_segments.specs.Parts.{HasBlocks, destinations_at};
ghost use Rattle.jpeg_segments.specs.FrameView.{component_in, frame_in, scan_in, selector_of};

use crate::frame::{CodingProcess, Component, FrameInfo};
use crate::huffman_tables::{expected_destinations, greatest_destination};
use jpeg_bits::error::{Error, Result, format_error, format_error_of};
use jpeg_bits::huffman::HuffmanTableClass;
use jpeg_bits::scan::{MAX_COMPONENTS, Predictor, ScanInfo};
use jpeg_bits::source::Source;
use jpeg_bits::source::reads::{read_length, read_u8};
use std::alloc::{AllocError, Global};
use std::io::Read;
use std::marker::Model;

/// A scan header: what `ScanInfo` has, with its lists stored inline, since a progressive stream has
/// many scans.
#[derive(Drop)]
pub struct ScanHeader {
    // the lists have `count` elements; the places after them are unused
    count: usize,
    components: [usize; MAX_COMPONENTS],
    dc_destinations: [usize; MAX_COMPONENTS],
    ac_destinations: [usize; MAX_COMPONENTS],
    /// The first coefficient that the scan codes, by its index in zigzag order.
    pub first: u8,
    /// The index after the last.
    pub after: u8,
    /// The predictor of a lossless scan.
    pub predictor: Predictor,
    /// The level at which the scan finds its coefficients, or 0 in a first scan.
    pub high: u8,
    /// The level at which the scan leaves its coefficients.
    pub low: u8,
    /// The point transform of a lossless scan.
    pub point_transform: u8,
}

impl Model for ScanHeader {
    ghost use Rattle.std.specs.Prelude.{◌≡◌, ◌≤◌, length, take};
    ghost use Rattle.jpeg_segments.specs.ScanHeader.{Scan};

    ghost Value = { Scan };

    ghost view = { λ h. record {
      components = take h.count h.components;
      dc_destinations = take h.count h.dc_destinations;
      ac_destinations = take h.count h.ac_destinations;
      first = h.first;
      after = h.after;
      predictor = h.predictor;
      high = h.high;
      low = h.low;
      point_transform = h.point_transform;
    } };

    ghost invariant = { λ h. (h.count ≤ 4) × (length h.components ≡ 4)
        × (length h.dc_destinations ≡ 4) × (length h.ac_destinations ≡ 4) };
}

impl ScanHeader {
    /// Returns the indices of the scan's components in the frame, in the order of the scan.
    pub fn components(&self) -> &[usize]
        ensures { result.now ≡ self.now.components }
    {
        &self.components[..self.count]
    }

    /// Returns the destinations of the components' DC tables.
    pub fn dc_destinations(&self) -> &[usize]
        ensures { result.now ≡ self.now.dc_destinations }
    {
        &self.dc_destinations[..self.count]
    }

    /// Returns the destinations of the components' AC tables.
    pub fn ac_destinations(&self) -> &[usize]
        ensures { result.now ≡ self.now.ac_destinations }
    {
        &self.ac_destinations[..self.count]
    }

    /// Converts the header into a `ScanInfo`. The only error is `AllocError`.
    pub fn to_info(&self, alloc: Global) -> std::result::Result<ScanInfo, AllocError>
        ensures { IfOk result (λ s. scan_in s ≡ self.now) }
    {
        Ok(ScanInfo {
            component_indices: self.components().to_vec(alloc)?,
            dc_table_indices: self.dc_destinations().to_vec(alloc)?,
            ac_table_indices: self.ac_destinations().to_vec(alloc)?,
            spectral_selection: self.first..self.after,
            predictor_selection: self.predictor,
            successive_approximation_high: self.high,
            successive_approximation_low: self.low,
            point_transform: self.point_transform,
        })
    }
}

/// A component's index in the frame, the destinations of its tables, and the blocks that it has in
/// an MCU.
#[derive(Clone, Copy, Default)]
struct Selector {
    component: usize,
    dc: usize,
    ac: usize,
    blocks: u16,
}

/// Reads the number of components of the scan, if the length is the one that they need.
#[tactic(auto, unfolding(crate::specs::ScanHeader::count_at))]
fn read_count<R: Read + Drop>(alloc: Global, source: &mut Source<R>) -> Result<u8>
    ensures answers { Answers (λ n. n) count_at source.old result source.new }
    ensures some { IfOk result (λ n. 1 ≤ n) }
    ensures most { IfOk result (λ n. n ≤ 4) }
{
    let left = read_length(alloc, source)?;
    if left == 0 {
        return Err(format_error(alloc, "scan header length 2, expected at least 8"));
    }
    let count = read_u8(alloc, source)?;
    if count == 0 || count > 4 {
        return Err(count_error(alloc, count));
    }
    if left != 4 + 2 * u16::from(count) {
        return Err(length_error(alloc, left, count));
    }
    Ok(count)
}

/// Returns the refusal of a scan's number of components.
#[cold]
#[inline(never)]
fn count_error(alloc: Global, count: u8) -> Error
    ensures { NamesFormat result }
{
    format_error_of(format!(in alloc; "number of components Ns={count} in a scan, expected 1 to 4"))
}

/// Returns the refusal of a scan header's length, which `left` bytes follow, for `count`
/// components.
#[cold]
#[inline(never)]
fn length_error(alloc: Global, left: u16, count: u8) -> Error
    ensures { NamesFormat result }
{
    format_error_of(format!(in alloc;
        "scan header length {}, expected {} for Ns={count}",
        u32::from(left) + 2,
        6 + 2 * u16::from(count)
    ))
}

fn position_of(components: &[Component], identifier: u8) -> Option<usize>
    ensures { result ≡ position (λ c. c.identifier == identifier) components.now }
{
    components
        .iter()
        .position(|component| component.identifier == identifier)
}

/// Returns the index of the component with this identifier.
#[tactic(auto, using(crate::proofs::ScanLemmas::position_rules))]
fn index_of(components: &[Component], identifier: u8) -> Option<usize>
    ensures index { result ≡ index_of (map component_in components.now) identifier }
    ensures within { IfSome result (λ i. i < length components.now) }
{
    position_of(components, identifier)
}

fn block_count(component: &Component) -> u16
    ensures { result ≡ component.now.horizontal_sampling_factor *
        component.now.vertical_sampling_factor }
{
    u16::from(component.horizontal_sampling_factor) * u16::from(component.vertical_sampling_factor)
}

/// Returns the number of blocks that the component at an index has in an MCU.
#[tactic(auto, using(crate::proofs::ScanLemmas::position_rules))]
fn blocks_by(components: &[Component], index: usize) -> u16
    requires { index < length components.now }
    ensures { result ≡ blocks_by (map component_in components.now) index }
{
    block_count(&components[index])
}

/// Returns the refusal of a table destination that a scan names for a component.
#[cold]
#[inline(never)]
fn destination_error(
    alloc: Global,
    class: HuffmanTableClass,
    destination: u8,
    identifier: u8,
    greatest: u8,
) -> Error
    ensures { NamesFormat result }
{
    let expected = expected_destinations(greatest);
    format_error_of(format!(in alloc;
        "{class:?} table destination {destination} of component {identifier}, expected {expected}"
    ))
}

/// Reads the tables of the component at an index of the frame.
#[tactic(auto, unfolding(crate::specs::Parts::destinations_at))]
fn read_tables<R: Read + Drop>(
    alloc: Global,
    source: &mut Source<R>,
    frame: &FrameInfo,
    index: usize,
) -> Result<Selector>
    requires { index < length frame.now.components.items }
    ensures answers { Answers selector_of (destinations_at (frame_in frame.now) index) source.old
        result
        source.new }
    ensures index { IfOk result (λ s. IsSelectorOf (frame_in frame.now) (selector_of s)) }
    ensures blocks { IfOk result (λ s. HasBlocks (frame_in frame.now) s) }
    ensures same { IfOk result (λ s. s.component ≡ index) }
{
    let indices = read_u8(alloc, source)?;
    let greatest = greatest_destination(Some(frame.is_baseline));
    let dc = indices / 16;
    let ac = indices % 16;
    if dc > greatest {
        let identifier = frame.components[index].identifier;
        return Err(destination_error(alloc, HuffmanTableClass::DC, dc, identifier, greatest));
    }
    if ac > greatest {
        let identifier = frame.components[index].identifier;
        return Err(destination_error(alloc, HuffmanTableClass::AC, ac, identifier, greatest));
    }
    Ok(Selector {
        component: index,
        dc: usize::from(dc),
        ac: usize::from(ac),
        blocks: blocks_by(&frame.components, index),
    })
}

/// Reads the next component, whose index in the frame is at least `least`: components stand in
/// the order of the frame.
#[tactic(auto, using(crate::proofs::PartsOfSegments::parts))]
fn read_selector<R: Read + Drop>(
    alloc: Global,
    source: &mut Source<R>,
    frame: &FrameInfo,
    least: usize,
) -> Result<Selector>
    ensures answers { Answers selector_of (selector_at (frame_in frame.now) least) source.old result
        source.new }
    ensures index { IfOk result (λ s. IsSelectorOf (frame_in frame.now) (selector_of s)) }
    ensures blocks { IfOk result (λ s. HasBlocks (frame_in frame.now) s) }
    ensures least { IfOk result (λ s. least ≤ s.component) }
{
    let identifier = read_u8(alloc, source)?;
    match index_of(&frame.components, identifier) {
        Some(index) if index >= least => read_tables(alloc, source, frame, index),
        found => Err(identifier_error(alloc, identifier, found.is_some())),
    }
}

/// Returns the refusal of a component identifier, which the frame has or not.
#[cold]
#[inline(never)]
fn identifier_error(alloc: Global, identifier: u8, is_known: bool) -> Error
    ensures { NamesFormat result }
{
    format_error_of(if is_known {
        format!(in alloc; "component identifier {identifier} is out of the frame's order")
    } else {
        format!(in alloc; "component identifier {identifier} is not in the frame")
    })
}

/// Reads as many components as the slice has elements.
fn read_selectors<R: Read + Drop>(
    alloc: Global,
    source: &mut Source<R>,
    frame: &FrameInfo,
    selectors: &mut [Selector],
) -> Result<()>
    ensures answers { Answers (λ _. map selector_of selectors.new)
        (selectors_from (frame_in frame.now) (length selectors.old) [] 0)
        source.old result source.new }
    ensures length { length selectors.new ≡ length selectors.old }
    ensures indices { IfOk result (λ _. All (IsSelectorOf (frame_in frame.now))
        (map selector_of selectors.new)) }
    ensures blocks { IfOk result (λ _. All (HasBlocks (frame_in frame.now)) selectors.new) }
    ensures rising { IfOk result (λ _.
        IsRising 0 (map (λ s. s.component) (map selector_of selectors.new))) }
{
    let mut least = 0;
    for i in 0..selectors.len() {
        let selector = read_selector(alloc, source, frame, least)?;
        least = selector.component + 1;
        selectors[i] = selector;
    }
    Ok(())
}

/// Returns the number of blocks of an MCU.
fn total(selectors: &[Selector]) -> u32
    requires { length selectors.now ≤ 4 }
    ensures { result ≡ sum_by (λ s. s.blocks) selectors.now }
{
    let mut total = 0u32;
    for selector in selectors {
        total += u32::from(selector.blocks);
    }
    total
}

/// Returns whether an MCU of several components has at most 10 blocks.
fn is_mcu(selectors: &[Selector]) -> bool
    requires { length selectors.now ≤ 4 }
    ensures { result ≡ (nat_le (length selectors.now) 1
        || nat_le (sum_by (λ s. s.blocks) selectors.now) 10) }
{
    selectors.len() <= 1 || total(selectors) <= 10
}

/// Returns whether a progressive scan may have this band and these levels (T.81, G.1.1.1): it codes
/// the DC coefficients or others, never both, and others of one component alone. A refinement
/// lowers the level by one.
fn is_progressive_band(count: usize, first: u8, last: u8, high: u8, low: u8) -> bool
    ensures { result ≡ is_progressive_band count first last high low }
{
    first <= last
        && (last <= 63
            && ((first != 0 || last == 0)
                && ((first == 0 || count == 1)
                    && (high <= 13 && (low <= 13 && (high == 0 || high == low + 1))))))
}

/// The coefficients and the levels that a scan header names.
#[derive(Clone, Copy)]
struct Band {
    first: u8,
    last: u8,
    high: u8,
    low: u8,
}

/// Returns whether a scan of `count` components may have this band.
fn is_band(process: CodingProcess, count: usize, band: Band) -> bool
    ensures value { result ≡ is_band process count band.first band.last band.high band.low }
    ensures small { IsTrue result → band.last ≤ 63 }
    ensures coded { IsTrue result → IsBandOf process band.first (after_of process band.last)
        band.high band.low }
{
    let Band {
        first,
        last,
        high,
        low,
    } = band;
    match process {
        CodingProcess::DctSequential => {
            first == 0 && ((last == 0 || last == 63) && (high == 0 && low == 0))
        }
        CodingProcess::DctProgressive => is_progressive_band(count, first, last, high, low),
        CodingProcess::Lossless => first <= 7 && (last == 0 && high == 0),
    }
}

/// Returns the refusal of a band that is not one of a scan of `count` components: the first
/// parameter that its process does not allow.
#[cold]
#[inline(never)]
fn band_error(alloc: Global, process: CodingProcess, count: usize, band: Band) -> Error
    ensures { NamesFormat result }
{
    format_error_of(match process {
        CodingProcess::DctSequential => sequential_band_text(alloc, band),
        CodingProcess::DctProgressive => progressive_band_text(alloc, count, band),
        CodingProcess::Lossless => lossless_band_text(alloc, band),
    })
}

/// Returns why a band is not one of a sequential scan (T.81, B.2.3).
fn sequential_band_text(alloc: Global, band: Band) -> std::result::Result<String, AllocError> {
    let Band {
        first,
        last,
        high,
        low,
    } = band;
    if first != 0 || (last != 0 && last != 63) {
        format!(in alloc;
            "spectral selection Ss={first}, Se={last} in a sequential scan, expected Ss=0, Se=63"
        )
    } else if high != 0 {
        format!(in alloc; "successive approximation Ah={high} in a sequential scan, expected 0")
    } else {
        format!(in alloc; "successive approximation Al={low} in a sequential scan, expected 0")
    }
}

/// Returns why a band is not one of a progressive scan of `count` components (T.81, G.1.1.1).
fn progressive_band_text(
    alloc: Global,
    count: usize,
    band: Band,
) -> std::result::Result<String, AllocError> {
    let Band {
        first,
        last,
        high,
        low,
    } = band;
    if first > last || last > 63 {
        format!(in alloc;
            "spectral selection Ss={first}, Se={last} in a progressive scan, expected Ss<=Se<=63"
        )
    } else if first == 0 && last != 0 {
        format!(in alloc; "spectral selection Ss=0, Se={last} in a progressive scan, expected Se=0")
    } else if first != 0 && count != 1 {
        format!(in alloc;
            "number of components Ns={count} in a progressive scan with Ss={first}, expected 1"
        )
    } else if high > 13 {
        format!(in alloc;
            "successive approximation Ah={high} in a progressive scan, expected 0 to 13"
        )
    } else if low > 13 {
        format!(in alloc;
            "successive approximation Al={low} in a progressive scan, expected 0 to 13"
        )
    } else {
        format!(in alloc;
            "successive approximation Ah={high}, Al={low} in a progressive scan, \
             expected Ah=0 or {}",
            u16::from(low) + 1
        )
    }
}

/// Returns why a band is not one of a lossless scan (T.81, H.1.2).
fn lossless_band_text(alloc: Global, band: Band) -> std::result::Result<String, AllocError> {
    let Band {
        first,
        last,
        high,
        ..
    } = band;
    if first > 7 {
        format!(in alloc; "predictor selection {first}, expected 0 to 7")
    } else if last != 0 {
        format!(in alloc; "spectral selection Se={last} in a lossless scan, expected 0")
    } else {
        format!(in alloc; "successive approximation Ah={high} in a lossless scan, expected 0")
    }
}

fn predictor_by(number: u8) -> Predictor
    ensures { result ≡ predictor_by number }
{
    match number {
        0 => Predictor::NoPrediction,
        1 => Predictor::Ra,
        2 => Predictor::Rb,
        3 => Predictor::Rc,
        4 => Predictor::RaRbRc1,
        5 => Predictor::RaRbRc2,
        6 => Predictor::RaRbRc3,
        _ => Predictor::RaRb,
    }
}

fn predictor_of(process: CodingProcess, first: u8) -> Predictor
    ensures { result ≡ predictor_of process first }
{
    match process {
        CodingProcess::Lossless => predictor_by(first),
        _ => Predictor::NoPrediction,
    }
}

/// Returns the index after the last coefficient.
fn after_of(process: CodingProcess, last: u8) -> u8
    requires { last ≤ 63 }
    ensures { result ≡ after_of process last }
{
    match process {
        CodingProcess::DctSequential => 64,
        _ => last + 1,
    }
}

/// Returns the header of a scan of these components, whose band is one of its process.
fn header_of(process: CodingProcess, selectors: &[Selector], band: Band) -> ScanHeader
    requires last { band.last ≤ 63 }
    requires most { length selectors.now ≤ 4 }
    ensures { result ≡ record {
      components = map (λ s. s.component) (map selector_of selectors.now);
      dc_destinations = map (λ s. s.dc) (map selector_of selectors.now);
      ac_destinations = map (λ s. s.ac) (map selector_of selectors.now);
      first = band.first;
      after = after_of process band.last;
      predictor = predictor_of process band.first;
      high = band.high;
      low = band.low;
      point_transform = band.low;
    } }
{
    let mut components = [0; MAX_COMPONENTS];
    let mut dc_destinations = [0; MAX_COMPONENTS];
    let mut ac_destinations = [0; MAX_COMPONENTS];
    for i in 0..selectors.len() {
        let selector = selectors[i];
        components[i] = selector.component;
        dc_destinations[i] = selector.dc;
        ac_destinations[i] = selector.ac;
    }
    ScanHeader {
        count: selectors.len(),
        components,
        dc_destinations,
        ac_destinations,
        first: band.first,
        after: after_of(process, band.last),
        predictor: predictor_of(process, band.first),
        high: band.high,
        low: band.low,
        point_transform: band.low,
    }
}

/// Reads the coefficients and the levels; a level is below the precision.
#[tactic(auto, unfolding(crate::specs::ScanHeader::band_at, crate::specs::ScanHeader::scan_of))]
fn read_band<R: Read + Drop>(
    alloc: Global,
    source: &mut Source<R>,
    frame: &FrameInfo,
    selectors: &[Selector],
) -> Result<ScanHeader>
    requires some { 1 ≤ length selectors.now }
    requires most { length selectors.now ≤ 4 }
    requires indices { All (IsSelectorOf (frame_in frame.now)) (map selector_of selectors.now) }
    requires rising { IsRising 0 (map (λ s. s.component) (map selector_of selectors.now)) }
    requires mcu { is_mcu (frame_in frame.now) (map selector_of selectors.now) ≡ true }
    ensures answers { Answers (λ h. h) (band_at (frame_in frame.now) (map selector_of
        selectors.now)) source.old result source.new }
    ensures scan { IfOk result (λ h. IsScanOf (frame_in frame.now) h) }
{
    let first = read_u8(alloc, source)?;
    let last = read_u8(alloc, source)?;
    let levels = read_u8(alloc, source)?;
    let band = Band {
        first,
        last,
        high: levels / 16,
        low: levels % 16,
    };
    if band.low >= frame.precision {
        return Err(level_error(alloc, band.low, frame.precision));
    }
    if !is_band(frame.coding_process, selectors.len(), band) {
        return Err(band_error(alloc, frame.coding_process, selectors.len(), band));
    }
    Ok(header_of(frame.coding_process, selectors, band))
}

/// Returns the refusal of a level that is no less than the precision.
#[cold]
#[inline(never)]
fn level_error(alloc: Global, low: u8, precision: u8) -> Error
    ensures { NamesFormat result }
{
    format_error_of(format!(in alloc;
        "point transform Al={low}, expected less than the sample precision {precision}"
    ))
}

/// Returns the refusal of an MCU of several components with too many blocks.
#[cold]
#[inline(never)]
fn blocks_error(alloc: Global, blocks: u32) -> Error
    ensures { NamesFormat result }
{
    format_error_of(format!(in alloc; "{blocks} blocks in an MCU, expected at most 10"))
}

/// Reads a scan header as `parse_sos` does, with the same errors, and returns it with its lists
/// stored inline.
#[tactic(auto, using(crate::proofs::Rules::mcus), unfolding(crate::specs::ScanHeader::sos_at))]
pub fn read_scan_header<R: Read + Drop>(
    alloc: Global,
    source: &mut Source<R>,
    frame: &FrameInfo,
) -> Result<ScanHeader>
    ensures answers { Answers (λ h. h) (sos_at (frame_in frame.now)) source.old result source.new }
    ensures scan { IfOk result (λ h. IsScanOf (frame_in frame.now) h) }
{
    let count = usize::from(read_count(alloc, source)?);
    let mut selectors = [Selector::default(); MAX_COMPONENTS];
    let selectors = &mut selectors[..count];
    read_selectors(alloc, source, frame, selectors)?;
    if !is_mcu(selectors) {
        return Err(blocks_error(alloc, total(selectors)));
    }
    read_band(alloc, source, frame, selectors)
}

/// Reads a scan header of a frame (T.81, B.2.3): the indices of its components in the frame and the
/// destinations of the components' tables, the coefficients that it codes by their indices in
/// zigzag order, the predictor, the levels and the point transform. In a sequential scan all 64
/// coefficients are coded, and a last coefficient of 0 is read as 63.
///
/// Errors: `Format` if the header breaks a rule, names a component that the frame does not have, or
/// names components out of the frame's order; `Io` if the bytes end or a read fails; `OutOfMemory`.
pub fn parse_sos<R: Read + Drop>(
    alloc: Global,
    reader: &mut Source<R>,
    frame: &FrameInfo,
) -> Result<ScanInfo>
    ensures answers { Answers scan_in (sos_at (frame_in frame.now)) reader.old result reader.new }
    ensures scan { IfOk result (λ s. IsScanOf (frame_in frame.now) (scan_in s)) }
{
    Ok(read_scan_header(alloc, reader, frame)?.to_info(alloc)?)
}
