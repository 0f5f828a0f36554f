//! Scans of lossless frames (T.81, B.2.3 and Annex H).
ghost use Rattle.std.specs.Prelude.{◌≡◌, ◌<◌, ◌==◌, All, IfErr, IfOk, List, OnErr, OnOk, Ok, Some};
ghost use Rattle.std.specs.Prelude.{length, map};
ghost use Rattle.jpeg_bits.specs.Reading.{Answers, Names};
ghost use Rattle.jpeg_segments.specs.Frame.{AllHaveSampling};
ghost use Rattle.jpeg_segments.specs.FrameView.{component_in, frame_in};
ghost use Rattle.jpeg_segments.specs.ScanHeader.{IsScanOf};
ghost use Rattle.jpeg_segments.specs.declared.frame.CodingProcess.TheVariants.{Lossless};
ghost use Rattle.jpeg_meaning.specs.LosslessScans.{LosslessCoding, tables_in};
ghost use Rattle.jpeg_meaning.specs.States.{OnTold};
ghost use Rattle.jpeg_bits.specs.declared.beyond.Beyond.TheVariants.{Nothing, Zeros};
ghost use Rattle.jpeg_decoder.specs.Seen.{found_of};
ghost use Rattle.jpeg_meaning.specs.ScanSegments.{once_scanned};
ghost use Rattle.jpeg_meaning.specs.Sound.{IsDecodedFrame, IsSound};
ghost use Rattle.jpeg_decoder.specs.Reaching.{IsSampleScan, UnlessRefused, sample_codings};
ghost use Rattle.jpeg_decoder.specs.Reaching.{samples_reached};
ghost use Rattle.jpeg_decoder.specs.Steps.{IsRefusal, Returns, samples_read};
ghost use Rattle.jpeg_decoder.specs.LosslessParts.{mcus_high, mcus_wide, part_by, parts_at};
ghost use Rattle.jpeg_decoder.specs.Walks.{AfterWalk};
ghost use Rattle.jpeg_lossless.specs.Codings.{part_in};

use crate::scan::decoded::Decoded;
use crate::scan::restarts::pass_after;
use crate::scan::samples::complete_all;
use crate::scan::whole_rows::rows_of_planes;
use crate::stream::state::Said;
use crate::stream::tables::{Missing, needed, table_at};
use jpeg_bits::beyond::Beyond;
use jpeg_bits::error::{Result, format_error_of};
use jpeg_bits::huffman::HuffmanTable;
use jpeg_bits::marker::Marker;
use jpeg_bits::source::Source;
use jpeg_lossless::scan::{Coding, LosslessScan, Part, RowCoding, rows_of_interval};
use jpeg_segments::parser::{Component, FrameInfo, ScanHeader};
use jpeg_segments::sizes::{ceiling, greatest_of};
use std::alloc::{AllocError, Global};
use std::io::Read;

/// Returns the identifier of the component in a slot of a scan, or 0 if there is none.
fn identifier_of(frame: &FrameInfo, header: &ScanHeader, slot: usize) -> u8 {
    let index = header.components().get(slot).copied();
    let component = index.and_then(|index| frame.components.get(index));
    component.map_or(0, |component| component.identifier)
}

/// Returns the tables in force for the differences of a scan's components. There are no default
/// ones.
fn tables_of<'a>(
    alloc: Global,
    said: &'a Said,
    frame: &FrameInfo,
    header: &ScanHeader,
) -> Result<Vec<&'a HuffmanTable>>
    ensures { let expected = tables_in said.now.huffman.dc header.now.dc_destinations in
        Returns expected (λ v. map (λ t. t.now) v.items) result }
{
    let destinations = header.dc_destinations();
    let mut tables = Vec::with_capacity(alloc, destinations.len())?;
    for slot in 0..destinations.len() {
        let destination = destinations[slot];
        let identifier = identifier_of(frame, header, slot);
        let missing = Missing::Table("DC", destination, identifier);
        let table = table_at(&said.dc_tables, destination);
        tables.push(needed(alloc, table, missing)?)?;
    }
    Ok(tables)
}

/// Returns what a scan has of a component: one sample per MCU if it is alone in the scan, otherwise
/// as many as its factors say (T.81, A.2).
fn part_of<'a>(component: &Component, is_alone: bool, table: &'a HuffmanTable) -> Part<'a>
    ensures { part_in result ≡ part_by is_alone (component_in component.now) table.now }
{
    Part {
        table,
        across: if is_alone {
            1
        } else {
            component.horizontal_sampling_factor
        },
        down: if is_alone {
            1
        } else {
            component.vertical_sampling_factor
        },
        width: component.size.width,
        height: component.size.height,
    }
}

/// Returns what a scan has of each of its components, which have these tables.
fn parts_of<'a>(
    alloc: Global,
    frame: &FrameInfo,
    indices: &[usize],
    tables: &[&'a HuffmanTable],
) -> std::result::Result<Vec<Part<'a>>, AllocError>
    requires within { All (λ index. index < length (frame_in frame.now).components) indices.now }
    requires count { length tables.now ≡ length indices.now }
    ensures { IfOk result (λ v. map part_in v.items ≡ parts_at (length indices.now == 1)
        (frame_in frame.now).components indices.now (map (λ t. t.now) tables.now)) }
{
    let is_alone = indices.len() == 1;
    let mut parts = Vec::with_capacity(alloc, indices.len())?;
    for slot in 0..indices.len() {
        let component = &frame.components[indices[slot]];
        parts.push(part_of(component, is_alone, tables[slot]))?;
    }
    Ok(parts)
}

/// Returns how many MCUs a row of a scan has, and how many rows there are: for a component alone,
/// its samples.
pub fn mcus_of(frame: &FrameInfo, indices: &[usize]) -> (u16, u16)
    requires some { 0 < length indices.now }
    requires within { All (λ index. index < length (frame_in frame.now).components) indices.now }
    requires sampling { AllHaveSampling (frame_in frame.now).components }
    ensures wide { result.0 ≡ mcus_wide (frame_in frame.now) indices.now }
    ensures high { result.1 ≡ mcus_high (frame_in frame.now) indices.now }
{
    if indices.len() == 1 {
        let size = frame.components[indices[0]].size;
        return (size.width, size.height);
    }
    let (horizontal, vertical) = greatest_of(&frame.components);
    let wide = ceiling(u32::from(frame.image_size.width), u32::from(horizontal));
    let high = ceiling(u32::from(frame.image_size.height), u32::from(vertical));
    (wide as u16, high as u16)
}

/// Returns how a scan of a frame is coded.
fn coding_of(frame: &FrameInfo, header: &ScanHeader, restart_interval: u16) -> Coding
    requires legal { IsScanOf (frame_in frame.now) header.now }
    requires sampling { AllHaveSampling (frame_in frame.now).components }
    ensures { result ≡ record {
      wide = mcus_wide (frame_in frame.now) header.now.components;
      high = mcus_high (frame_in frame.now) header.now.components;
      precision = frame.now.precision;
      predictor = header.now.predictor;
      point_transform = header.now.point_transform;
      restart_interval = restart_interval;
    } }
{
    let (wide, high) = mcus_of(frame, header.components());
    Coding {
        wide,
        high,
        precision: frame.precision,
        predictor: header.predictor,
        point_transform: header.point_transform,
        restart_interval,
    }
}

/// A lossless scan whose data are to be read.
#[derive(Drop)]
pub struct SampleScan<'a> {
    /// What was said before it.
    pub said: &'a Said,
    /// The frame.
    pub frame: &'a FrameInfo,
    /// The header of the scan.
    pub header: &'a ScanHeader,
    /// How the scan is coded.
    pub coding: Coding,
    /// What the scan has of its components.
    pub parts: Vec<Part<'a>>,
    /// How many rows of MCUs a restart interval has.
    pub rows: u16,
}

/// Returns the scan that this header begins. It is refused if a table isn't there, or if a restart
/// interval would end inside a row of MCUs.
pub fn sample_scan_of<'a>(
    alloc: Global,
    said: &'a Said,
    frame: &'a FrameInfo,
    header: &'a ScanHeader,
) -> Result<SampleScan<'a>>
    requires frame { IsDecodedFrame (frame_in frame.now) }
    requires process { (frame_in frame.now).process ≡ Lossless }
    requires legal { IsScanOf (frame_in frame.now) header.now }
    ensures given { IfOk result (λ s. (s.said.now ≡ said.now) × (s.frame.now ≡ frame.now)
        × (s.header.now ≡ header.now)) }
    ensures scan { IfOk result (IsSampleScan said.now (frame_in frame.now) header.now) }
    ensures refused { IfErr result (λ e. IsRefusal e × Names e
        (sample_codings said.now (frame_in frame.now) header.now)) }
{
    let tables = tables_of(alloc, said, frame, header)?;
    let parts = parts_of(alloc, frame, header.components(), &tables)?;
    let coding = coding_of(frame, header, said.restart_interval);
    let Some(rows) = rows_of_interval(coding) else {
        return Err(format_error_of(format!(in alloc;
            "restart interval {}, expected a multiple of the {} MCUs of a row",
            coding.restart_interval, coding.wide
        )));
    };
    Ok(SampleScan {
        said,
        frame,
        header,
        coding,
        parts,
        rows,
    })
}

/// Reads the data of a lossless scan, after whose marker `beyond` follows, and that of each restart
/// interval. Returns the marker after it and after the restart markers at its end, if one was
/// reached.
///
/// With `Zeros` the samples of the scan replace its components' earlier ones, and an error changes
/// nothing. With `Nothing` the rows of MCUs that were read replace the first samples of its
/// components, also after an error other than out of memory. What lacks is as before, or half of
/// the range of samples.
pub fn read_samples<R: Read + Drop>(
    alloc: Global,
    source: &mut Source<R>,
    scan: &SampleScan<'_>,
    decoded: &mut Decoded,
    beyond: Beyond,
) -> Result<Option<Marker>>
    requires sound { IsSound (found_of scan.now.said.now decoded.old) }
    requires frame { scan.now.said.now.frame ≡ Some (frame_in scan.now.frame.now) }
    requires process { (frame_in scan.now.frame.now).process ≡ Lossless }
    requires legal { IsScanOf (frame_in scan.now.frame.now) scan.now.header.now }
    requires scan { IsSampleScan scan.now.said.now (frame_in scan.now.frame.now)
        scan.now.header.now scan.now }
    ensures reads { beyond ≡ Zeros
        → Answers (λ m. (once_scanned (found_of scan.now.said.now decoded.new), m))
        (samples_read (found_of scan.now.said.now decoded.old) (frame_in scan.now.frame.now)
        scan.now.header.now) source.old result source.new }
    ensures stays { beyond ≡ Zeros → OnErr result (decoded.new ≡ decoded.old) }
    ensures found { beyond ≡ Nothing → (codings : List LosslessCoding)
        → sample_codings scan.now.said.now (frame_in scan.now.frame.now) scan.now.header.now
        ≡ Ok codings
        → OnTold source.old source.new result (once_scanned (found_of scan.now.said.now decoded.new)
        ≡ (samples_reached (found_of scan.now.said.now decoded.old) (frame_in scan.now.frame.now)
        scan.now.header.now codings source.old.bytes).found) }
    ensures rows { beyond ≡ Nothing → (codings : List LosslessCoding)
        → sample_codings scan.now.said.now (frame_in scan.now.frame.now) scan.now.header.now
        ≡ Ok codings
        → OnTold source.old source.new result (decoded.new.rows ≡ (samples_reached
        (found_of scan.now.said.now decoded.old) (frame_in scan.now.frame.now)
        scan.now.header.now codings source.old.bytes).rows) }
    ensures met { beyond ≡ Nothing → (codings : List LosslessCoding)
        → sample_codings scan.now.said.now (frame_in scan.now.frame.now) scan.now.header.now
        ≡ Ok codings
        → UnlessRefused result (Answers (λ m. m) (λ bytes. (samples_reached
        (found_of scan.now.said.now decoded.old) (frame_in scan.now.frame.now)
        scan.now.header.now codings bytes).met) source.old result source.new) }
    ensures sound { UnlessRefused result
        (IsSound (once_scanned (found_of scan.now.said.now decoded.new))) }
{
    let coding = RowCoding::new(alloc, scan.coding, &scan.parts)?;
    let mut rows = LosslessScan::new(alloc, &coding)?;
    let met = rows.read_intervals(source, &coding, scan.rows, beyond);
    let met = pass_after(alloc, source, met);
    if beyond == Beyond::Zeros && met.is_err() {
        return met;
    }
    let mut planes = rows.finish(&coding);
    let header = scan.header;
    let indices = header.components();
    let whole = rows_of_planes(scan.frame, indices, &planes);
    complete_all(scan.frame, indices, &decoded.samples, &mut planes)?;
    decoded.put_samples(alloc, indices, &mut planes);
    decoded.rows = whole;
    met
}
