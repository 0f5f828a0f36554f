//! What the segments of a stream have said so far, and the segments (T.81, B.2).
ghost use Rattle.std.specs.Prelude.{◌≡◌, IfOk, option_map};
ghost use Rattle.jpeg_bits.specs.Reading.{NamesFormat};
ghost use Rattle.jpeg_segments.specs.FrameView.{frame_in};

use crate::scan::decoded::Decoded;
use crate::stream::frames::check_frame;
use crate::stream::metadata::Metadata;
use crate::stream::tables::{copied_tables, update};
use jpeg_bits::error::{Error, Result, UnsupportedFeature, format_error, format_error_of};
use jpeg_bits::huffman::HuffmanTable;
use jpeg_bits::marker::Marker;
use jpeg_bits::source::Source;
use jpeg_bits::source::reads::{read_length, skip};
use jpeg_meaning::before::Before;
use jpeg_segments::parser::{
    FrameInfo, parse_app, parse_dqt, parse_dri, parse_sof, read_huffman_tables,
};
use std::alloc::{AllocError, Global};
use std::io::Read;
use std::marker::Model;

/// What the segments of a stream have said so far: the frame, the tables in force by their
/// destinations, and metadata.
#[derive(Drop)]
pub struct Said {
    /// The frame, once its header was accepted.
    pub frame: Option<FrameInfo>,
    /// The quantization tables in force, in zigzag order.
    pub quantization: [Option<[u16; 64]>; 4],
    /// The tables of DC coefficients in force.
    pub dc_tables: [Option<HuffmanTable>; 4],
    /// The tables of AC coefficients in force.
    pub ac_tables: [Option<HuffmanTable>; 4],
    /// The restart interval in MCUs; 0 for none.
    pub restart_interval: u16,
    /// Whether a scan was read.
    pub scanned: bool,
    /// What the segments of applications have said.
    pub metadata: Metadata,
}

impl Model for Said {
    ghost use Rattle.std.specs.Prelude.{◌≡◌, true};
    ghost use Rattle.jpeg_segments.specs.HuffmanTables.{all_ac};
    ghost use Rattle.jpeg_meaning.specs.Found.{Said};

    ghost Value = { Said };

    ghost use Rattle.jpeg_decoder.specs.Seen.{said_of};

    ghost view = { said_of };

    // Each AC table is of class AC.
    ghost invariant = { λ s. all_ac s.ac_tables ≡ true };
}

/// Copies a frame, if there is one. The only error is a refused allocation.
fn copied_frame(
    alloc: Global,
    frame: &Option<FrameInfo>,
) -> std::result::Result<Option<FrameInfo>, AllocError>
    ensures { IfOk result (λ copy. option_map frame_in copy ≡ option_map frame_in frame.now) }
{
    match frame {
        Some(frame) => Ok(Some(frame.copied(alloc)?)),
        None => Ok(None),
    }
}

impl Said {
    ghost use Rattle.std.specs.Prelude.{◌≡◌, IfOk};

    /// Copies all of it. The only error is a refused allocation.
    pub fn copied(&self, alloc: Global) -> std::result::Result<Said, AllocError>
        ensures { IfOk result (λ said. said ≡ self.now) }
    {
        Ok(Said {
            frame: copied_frame(alloc, &self.frame)?,
            quantization: self.quantization,
            dc_tables: copied_tables(alloc, &self.dc_tables)?,
            ac_tables: copied_tables(alloc, &self.ac_tables)?,
            restart_interval: self.restart_interval,
            scanned: self.scanned,
            metadata: self.metadata.copied(alloc)?,
        })
    }
}

/// What has been found in a stream so far.
#[derive(Drop)]
pub struct State {
    /// What its segments have said.
    pub said: Said,
    /// What its scans have decoded.
    pub decoded: Decoded,
}

impl Model for State {
    ghost use Rattle.jpeg_meaning.specs.Found.{Found};

    ghost Value = { Found };

    ghost use Rattle.jpeg_decoder.specs.Seen.{found_of};

    ghost view = { λ s. found_of s.said s.decoded };
}

/// What stands after a segment: what stands before the next marker, that marker, if it was reached
/// already, and whether the image has ended.
#[derive(Clone, Copy, Debug, PartialEq)]
pub struct Step {
    /// What stands before the next marker.
    pub before: Before,
    /// The next marker, if it was reached already.
    pub met: Option<Marker>,
    /// Whether the image has ended.
    pub ended: bool,
}

/// What stands after a segment that ends before the next marker.
pub const ONWARD: Step = Step {
    before: Before::Elsewhere,
    met: None,
    ended: false,
};

impl State {
    ghost use Rattle.std.specs.Prelude.{◌≡◌, IfErr, IfOk, false};
    ghost use Rattle.jpeg_bits.specs.Reading.{Answers};
    ghost use Rattle.jpeg_bits.specs.declared.error.Error.TheVariants.{OutOfMemory};
    ghost use Rattle.jpeg_bits.specs.declared.marker.Marker.TheVariants.{RST};
    ghost use Rattle.jpeg_meaning.specs.Segments.{quantization_segment, frame_segment};
    ghost use Rattle.jpeg_meaning.specs.Segments.{restart_segment, huffman_segment};
    ghost use Rattle.jpeg_meaning.specs.Segments.{skipped_segment, application_segment};
    ghost use Rattle.jpeg_meaning.specs.Found.{nothing_found};
    ghost use Rattle.jpeg_meaning.specs.ScanSegments.{once_scanned, scan_before};
    ghost use Rattle.jpeg_meaning.specs.Stream.{end_segment, segment_at};
    ghost use Rattle.jpeg_decoder.specs.ByRows.{AreSameScans};
    ghost use Rattle.jpeg_decoder.specs.Steps.{IsStep, turn_of};
    ghost use Rattle.jpeg_decoder.specs.Reaching.{OnFault, without_tables};

    /// Makes the state at the start of a stream.
    #[tactic(auto, unfolding(crate::proofs::Rules::nothing))]
    pub fn new(alloc: Global) -> State
        ensures { result ≡ nothing_found }
    {
        State {
            said: Said {
                frame: None,
                quantization: [None; 4],
                dc_tables: [None, None, None, None],
                ac_tables: [None, None, None, None],
                restart_interval: 0,
                scanned: false,
                metadata: Metadata::new(alloc),
            },
            decoded: Decoded::new(alloc),
        }
    }

    /// Copies all of it: as many blocks are stored. The only error is `OutOfMemory`.
    pub fn copied(&self, alloc: Global) -> Result<State>
        ensures same { IfOk result (λ state. state ≡ self.now) }
        ensures err { IfErr result (λ e. e ≡ OutOfMemory) }
    {
        Ok(State {
            said: self.said.copied(alloc)?,
            decoded: self.decoded.copied(alloc)?,
        })
    }

    /// Reads a frame header (T.81, B.2.2).
    #[inline(never)]
    #[tactic(auto, unfolding(jpeg_meaning::specs::Segments::frame_segment))]
    pub fn read_frame<R: Read + Drop>(
        &mut self,
        alloc: Global,
        source: &mut Source<R>,
        number: u8,
    ) -> Result<Step>
        ensures reads { Answers (turn_of self.new) (frame_segment number self.old)
            source.old result source.new }
        ensures steps { IsStep self.old result self.new }
        ensures kept { OnFault result (self.new ≡ self.old) }
        ensures decoded { AreSameScans self.old self.new }
    {
        let said = &mut self.said;
        if said.frame.is_some() {
            return Err(Error::Unsupported(UnsupportedFeature::Hierarchical));
        }
        let frame = parse_sof(alloc, source, Marker::SOF(number))?;
        check_frame(alloc, &frame)?;
        said.frame = Some(frame);
        Ok(ONWARD)
    }

    /// Reads quantization tables (T.81, B.2.4.1).
    #[inline(never)]
    #[tactic(auto, using(jpeg_meaning::proofs::Soundness::sound_kept))]
    pub fn read_quantization<R: Read + Drop>(
        &mut self,
        alloc: Global,
        source: &mut Source<R>,
    ) -> Result<Step>
        ensures reads { Answers (turn_of self.new) (quantization_segment self.old)
            source.old result source.new }
        ensures steps { IsStep self.old result self.new }
        ensures kept { OnFault result (self.new ≡ self.old) }
        ensures decoded { AreSameScans self.old self.new }
    {
        let mut tables = parse_dqt(alloc, source)?;
        update(&mut self.said.quantization, &mut tables);
        Ok(ONWARD)
    }

    /// Reads Huffman tables (T.81, B.2.4.2).
    #[inline(never)]
    #[tactic(auto, using(crate::proofs::Rules::replaced))]
    pub fn read_huffman<R: Read + Drop>(
        &mut self,
        alloc: Global,
        source: &mut Source<R>,
    ) -> Result<Step>
        ensures reads { Answers (turn_of self.new) (huffman_segment self.old) source.old
            result source.new }
        ensures steps { IsStep self.old result self.new }
        ensures kept { OnFault result (without_tables self.new ≡ without_tables self.old) }
        ensures decoded { AreSameScans self.old self.new }
    {
        let is_baseline = self.said.frame.as_ref().map(|frame| frame.is_baseline);
        let said = &mut self.said;
        read_huffman_tables(
            alloc,
            source,
            is_baseline,
            &mut said.dc_tables,
            &mut said.ac_tables,
        )?;
        Ok(ONWARD)
    }

    /// Reads a restart interval (T.81, B.2.4.4).
    #[inline(never)]
    #[tactic(auto, using(jpeg_meaning::proofs::Soundness::sound_kept))]
    pub fn read_restart_interval<R: Read + Drop>(
        &mut self,
        alloc: Global,
        source: &mut Source<R>,
    ) -> Result<Step>
        ensures reads { Answers (turn_of self.new) (restart_segment self.old) source.old
            result source.new }
        ensures steps { IsStep self.old result self.new }
        ensures kept { OnFault result (self.new ≡ self.old) }
        ensures decoded { AreSameScans self.old self.new }
    {
        self.said.restart_interval = parse_dri(alloc, source)?;
        Ok(ONWARD)
    }

    /// Reads data of an application (T.81, B.2.4.6). A segment that says nothing that is known, by
    /// its number alone, is skipped.
    pub fn read_application<R: Read + Drop>(
        &mut self,
        alloc: Global,
        source: &mut Source<R>,
        number: u8,
    ) -> Result<Step>
        ensures reads { Answers (turn_of self.new) (application_segment number self.old)
            source.old result source.new }
        ensures steps { IsStep self.old result self.new }
        ensures kept { OnFault result (self.new ≡ self.old) }
        ensures decoded { AreSameScans self.old self.new }
    {
        if number > 2 && number != 13 && number != 14 {
            return self.skip_segment(alloc, source);
        }
        self.add_application(alloc, source, number)
    }

    /// Reads data of an application, and adds what it says.
    #[inline(never)]
    #[tactic(auto, using(jpeg_meaning::proofs::Soundness::sound_kept))]
    fn add_application<R: Read + Drop>(
        &mut self,
        alloc: Global,
        source: &mut Source<R>,
        number: u8,
    ) -> Result<Step>
        ensures reads { Answers (turn_of self.new) (application_segment number self.old)
            source.old result source.new }
        ensures steps { IsStep self.old result self.new }
        ensures kept { OnFault result (self.new ≡ self.old) }
        ensures decoded { AreSameScans self.old self.new }
    {
        let said = parse_app(alloc, source, Marker::APP(number))?;
        self.said.metadata.add(said)?;
        Ok(ONWARD)
    }

    /// Skips a segment.
    #[inline(never)]
    pub fn skip_segment<R: Read + Drop>(
        &self,
        alloc: Global,
        source: &mut Source<R>,
    ) -> Result<Step>
        ensures reads { Answers (turn_of self.now) (skipped_segment self.now) source.old
            result source.new }
        ensures steps { IsStep self.now result self.now }
    {
        let length = read_length(alloc, source)?;
        skip(alloc, source, length)?;
        Ok(ONWARD)
    }

    /// Ends the image, which needs a frame.
    #[tactic(auto, unfolding(jpeg_meaning::specs::Stream::end_segment))]
    pub fn end<R: Read + Drop>(&self, alloc: Global, source: &mut Source<R>) -> Result<Step>
        ensures reads { Answers (turn_of self.now) (end_segment self.now) source.old
            result source.new }
        ensures steps { IsStep self.now result self.now }
    {
        if self.said.frame.is_none() {
            return Err(format_error(alloc, "found EOI, expected a frame header"));
        }
        Ok(Step {
            before: Before::Elsewhere,
            met: None,
            ended: true,
        })
    }

    /// Marks that a scan was read, and returns what stands after it: this marker, if one was
    /// reached.
    pub fn end_scan(&mut self, met: Option<Marker>) -> Step
        ensures { turn_of self.new result ≡ record {
          found = once_scanned self.old;
          before = scan_before self.old;
          met = met;
          ended = false;
        } }
    {
        let before = if self.said.scanned {
            Before::LaterScan
        } else {
            Before::FirstScan
        };
        self.said.scanned = true;
        Step {
            before,
            met,
            ended: false,
        }
    }

    /// Ignores a restart marker after a scan, once.
    #[tactic(auto, unfolding(jpeg_meaning::specs::Stream::segment_at))]
    pub fn stray_restart<R: Read + Drop>(
        &self,
        alloc: Global,
        source: &mut Source<R>,
        number: u8,
        before: Before,
    ) -> Result<Step>
        ensures reads { Answers (turn_of self.now)
            (segment_at (RST number) before self.now) source.old result source.new }
        ensures steps { IsStep self.now result self.now }
    {
        match before {
            Before::FirstScan | Before::LaterScan => Ok(ONWARD),
            Before::Elsewhere => Err(restart_error(alloc, number)),
        }
    }
}

/// Returns the refusal of a restart marker that stands outside a scan.
#[cold]
#[inline(never)]
fn restart_error(alloc: Global, number: u8) -> Error
    ensures { NamesFormat result }
{
    format_error_of(format!(in alloc;
        "found RST{number} outside a scan, expected the marker of a segment"
    ))
}
