//! What becomes of the lines of a picture as they come from the top: a file or bytes that a writer
//! takes, or a smaller picture.
//!
//! In memory are a line of a PNG file at most, and a smaller picture.
ghost use Rattle.std.specs.Prelude.{◌≡◌, ◌<◌, ◌++◌, ◌∷◌, [], ℕ, List, Option, None, IfErr};
ghost use Rattle.std.specs.Prelude.{IfOk, OnOk, Some, length, option_map, string_bytes, true};
ghost use Rattle.std.specs.List.{concat};
ghost use Rattle.jpeg_meaning.specs.Output.{header_line_of, name_of};
ghost use Rattle.zaxbriar_samples.specs.LineTakers.{CanBegin, CanEnd, CanFinish, HasTakenBytes};
ghost use Rattle.zaxbriar_samples.specs.LineTakers.{HaveBytes};
ghost use Rattle.zaxbriar_samples.specs.Refusals.{IsOfWriter};
ghost use Rattle.zaxbriar_samples.specs.LineTakers.{HasTakenLines, IsTaking, IsWithin};
ghost use Rattle.zaxbriar_samples.specs.LineTakers.{IsWrittenAs, planned, said_of, window_of};
ghost use Rattle.zaxbriar_samples.specs.declared.line_takers.Target.TheVariants.{Smaller, Writer};
ghost use Rattle.zaxbriar_samples.specs.DecodedPictures.{decoded};
ghost use Rattle.zaxbriar_samples.specs.Png.{line_bytes};

use crate::boxes::Boxing;
use crate::files::{PictureFormat, write_file};
use crate::netpbm::header;
use crate::png::{PngFile, line_bytes};
use crate::samples::{part_at, pixel_bytes};
use crate::turns::upright;
use jpeg_bits::error::{Error, Result};
use jpeg_meaning::images::{ImageInfo, PixelFormat};
use jpeg_orientation::areas::Area;
use jpeg_segments::parser::Dimensions;
use std::alloc::{AllocError, Global};
use std::io::Write;

/// What is said of a picture as it is stored, and the orientation by which it is to be turned.
#[derive(Clone, Copy)]
pub struct Stored {
    /// Its size and format.
    pub info: ImageInfo,
    /// How many bits a sample has.
    pub precision: u8,
    /// The orientation: 1 where it isn't turned.
    pub orientation: u8,
}

/// What is written of the lines of a picture.
#[derive(Clone, Copy)]
pub enum Form {
    /// A line with its size and format, and then its bytes.
    Raw,
    /// A file of a format: of a picture of eight bits, where it is a netpbm file.
    File(PictureFormat),
    /// A file of a format, of the picture that is made smaller to a size, and then turned upright.
    Smaller(Dimensions, PictureFormat),
}

/// What is written of a picture whose lines come one after the other.
#[derive(Clone, Copy)]
pub struct Plan {
    /// What is said of the picture.
    pub stored: Stored,
    /// The part of it that is wanted, if not all is.
    pub area: Option<Area>,
    /// What is written of that.
    pub form: Form,
}

/// A picture that is being made smaller, and what is written of it then.
#[derive(Drop)]
struct SmallFile {
    boxing: Boxing,
    /// The format of its file.
    format: PictureFormat,
    /// The orientation by which it is turned.
    orientation: u8,
}

/// Where lines go.
#[derive(Drop)]
enum Target {
    /// To the writer, as they are.
    Writer,
    /// Into a PNG file.
    Png(PngFile),
    /// Into a smaller picture.
    Smaller(SmallFile),
}

/// The lines and the bytes of each that a part of a picture has.
#[derive(Clone, Copy)]
struct Window {
    /// Its first line.
    top: u16,
    /// How many lines it has.
    height: u16,
    /// Where it begins in a line.
    from: usize,
    /// How many bytes of a line it has.
    bytes: usize,
}

/// Takes the lines of a picture one by one.
#[derive(Drop)]
pub struct LineTaker {
    target: Target,
    /// The part that goes there, if not all do.
    window: Option<Window>,
    /// How many bytes a line has.
    line_bytes: usize,
    /// How many lines there are.
    height: u16,
    /// How many were taken.
    taken: u16,
}

/// Takes the lines of a picture, some at a time, from the top.
#[derive(Drop)]
pub enum Taker {
    /// The writer takes them as they are.
    Bytes,
    /// Each is taken by itself.
    Lines(LineTaker),
}

/// Returns the name of a format in the header line.
fn format_name(format: PixelFormat) -> &'static str
    ensures { result.now ≡ name_of format }
{
    match format {
        PixelFormat::L8 => "L8",
        PixelFormat::L16 => "L16",
        PixelFormat::RGB24 => "RGB24",
        PixelFormat::CMYK32 => "CMYK32",
    }
}

/// Returns the header line: width, height and format, with spaces between, and a line feed.
pub fn header_line(alloc: Global, info: ImageInfo) -> std::result::Result<String, AllocError>
    ensures { IfOk result (λ line. string_bytes line ≡ header_line_of (Some info)) }
{
    let width = info.width;
    let height = info.height;
    let format = format_name(info.pixel_format);
    format!(in alloc; "{width} {height} {format}\n")
}

/// Returns what is said of a part of a picture.
fn said_of(stored: Stored, area: Option<Area>) -> Stored
    ensures { result ≡ said_of stored area }
{
    let Some(area) = area else {
        return stored;
    };
    Stored {
        info: ImageInfo {
            width: area.width,
            height: area.height,
            ..stored.info
        },
        ..stored
    }
}

/// Returns which lines and bytes an area of a picture has, if there is one.
fn window_of(stored: Stored, area: Option<Area>) -> Option<Window>
    ensures { result ≡ option_map (window_of stored) area }
{
    let area = area?;
    let pixel = usize::from(pixel_bytes(stored.info, stored.precision));
    Some(Window {
        top: area.top,
        height: area.height,
        from: usize::from(area.left) * pixel,
        bytes: usize::from(area.width) * pixel,
    })
}

/// Returns whether a writer takes all lines as they are.
fn is_plain(area: Option<Area>, target: &Target) -> bool
    ensures { result ≡ true → (area ≡ None) × (target.now ≡ Writer) }
{
    match target {
        Target::Writer => area.is_none(),
        Target::Png(_) | Target::Smaller(_) => false,
    }
}

/// Writes what stands before the lines, and returns where they go.
fn begin_target<W: Write>(alloc: Global, form: Form, said: Stored, writer: &mut W) -> Result<Target>
    requires possible { CanBegin form said }
    ensures begun { IfOk result (λ target. HasTakenLines form said [] target
        (W.contents writer.old) (W.contents writer.new)) }
    ensures refused { IfErr result IsOfWriter }
{
    match form {
        Form::Raw => {
            let line = header_line(alloc, said.info)?;
            writer.write_all(line.as_bytes())?;
            Ok(Target::Writer)
        }
        Form::File(PictureFormat::Netpbm) => {
            let text = header(alloc, said.info, 255)?;
            writer.write_all(text.as_bytes())?;
            Ok(Target::Writer)
        }
        Form::File(PictureFormat::Png) => {
            let file = PngFile::begin(alloc, said.info, said.precision, writer)?;
            Ok(Target::Png(file))
        }
        Form::Smaller(size, format) => {
            let boxing = Boxing::begin(alloc, said.info, said.precision, size)?;
            Ok(Target::Smaller(SmallFile {
                boxing,
                format,
                orientation: said.orientation,
            }))
        }
    }
}

impl SmallFile {
    /// Writes the file of the smaller picture, once all lines were taken.
    fn write<W: Write>(self, alloc: Global, writer: &mut W) -> Result<()>
        requires possible { CanEnd (Smaller self) }
        ensures written { (form : Form) (said : Stored) (lines : List (List ℕ))
            (before : Option (List ℕ)) → length lines ≡ said.info.height
            → HasTakenLines form said lines (Smaller self) before (W.contents writer.old)
            → OnOk result (IsWrittenAs form said.orientation
            (decoded said.info said.precision (concat lines)) before (W.contents writer.new)) }
        ensures refused { IfErr result IsOfWriter }
    {
        let picture = upright(alloc, self.boxing.into_picture(), self.orientation)?;
        write_file(alloc, picture, self.format, writer)
    }
}

impl Target {
    /// Takes the next line.
    fn take_line<W: Write>(&mut self, alloc: Global, line: &[u8], writer: &mut W) -> Result<()>
        ensures taken { (form : Form) (said : Stored) (lines : List (List ℕ))
            (before : Option (List ℕ)) → length lines < said.info.height
            → HaveBytes (line_bytes said.info said.precision) lines
            → length line.now ≡ line_bytes said.info said.precision
            → HasTakenLines form said lines self.old before (W.contents writer.old)
            → OnOk result (HasTakenLines form said (lines ++ (line.now ∷ [])) self.new before
            (W.contents writer.new)) }
        ensures refused { IfErr result IsOfWriter }
    {
        match self {
            Target::Writer => {
                writer.write_all(line)?;
                Ok(())
            }
            Target::Png(file) => file.write_line(alloc, line, writer),
            Target::Smaller(small) => small.boxing.take_line(line),
        }
    }

    /// Writes what stands after the lines, once all were taken.
    fn end<W: Write>(self, alloc: Global, writer: &mut W) -> Result<()>
        requires possible { CanEnd self }
        ensures written { (form : Form) (said : Stored) (lines : List (List ℕ))
            (before : Option (List ℕ)) → length lines ≡ said.info.height
            → HasTakenLines form said lines self before (W.contents writer.old)
            → OnOk result (IsWrittenAs form said.orientation
            (decoded said.info said.precision (concat lines)) before (W.contents writer.new)) }
        ensures refused { IfErr result IsOfWriter }
    {
        match self {
            Target::Writer => Ok(()),
            Target::Png(file) => file.end(alloc, writer),
            Target::Smaller(small) => small.write(alloc, writer),
        }
    }
}

impl LineTaker {
    /// Takes the next line.
    fn take_line<W: Write>(&mut self, alloc: Global, line: &[u8], writer: &mut W) -> Result<()>
        requires more { self.old.taken < self.old.height }
        ensures taken { (plan : Plan) (lines : List (List ℕ)) (before : Option (List ℕ))
            → length line.now ≡ self.old.line_bytes
            → IsTaking plan lines self.old before (W.contents writer.old)
            → OnOk result (IsTaking plan (lines ++ (line.now ∷ [])) self.new before
            (W.contents writer.new)) }
        ensures refused { IfErr result IsOfWriter }
    {
        let row = self.taken;
        self.taken = row + 1;
        let Some(window) = self.window else {
            return self.target.take_line(alloc, line, writer);
        };
        if row < window.top || row - window.top >= window.height {
            return Ok(());
        }
        let part = part_at(line, window.from, window.bytes);
        self.target.take_line(alloc, part, writer)
    }

    /// Takes some lines, one after the other.
    fn take_lines<W: Write>(&mut self, alloc: Global, bytes: &[u8], writer: &mut W) -> Result<()>
        ensures taken { (plan : Plan) (lines : List (List ℕ)) (before : Option (List ℕ))
            → IsTaking plan lines self.old before (W.contents writer.old)
            → OnOk result ((more : List (List ℕ)) × (concat more ≡ bytes.now)
            × IsTaking plan (lines ++ more) self.new before (W.contents writer.new)) }
        ensures refused { IfErr result IsOfWriter }
    {
        let mut rest = bytes;
        while !rest.is_empty() {
            if self.line_bytes == 0 || rest.len() < self.line_bytes || self.taken >= self.height {
                // It never is: lines are whole, of one length, and no more than the picture's.
                return Err(Error::OutOfMemory);
            }
            let (line, more) = rest.split_at(self.line_bytes);
            self.take_line(alloc, line, writer)?;
            rest = more;
        }
        Ok(())
    }

    /// Writes what stands after the lines, once all were taken.
    fn end<W: Write>(self, alloc: Global, writer: &mut W) -> Result<()>
        requires possible { self.taken ≡ self.height → CanEnd self.target }
        ensures written { (plan : Plan) (lines : List (List ℕ)) (before : Option (List ℕ))
            → IsTaking plan lines self before (W.contents writer.old)
            → OnOk result (IsWrittenAs plan.form plan.stored.orientation
            (planned plan (concat lines)) before (W.contents writer.new)) }
        ensures refused { IfErr result IsOfWriter }
    {
        if self.taken != self.height {
            // It never is: all lines come before the end.
            return Err(Error::OutOfMemory);
        }
        self.target.end(alloc, writer)
    }
}

impl Taker {
    /// Writes what stands before the lines.
    pub fn begin<W: Write>(alloc: Global, plan: Plan, writer: &mut W) -> Result<Taker>
        requires possible { CanBegin plan.form (said_of plan.stored plan.area) }
        requires within { IsWithin plan.area plan.stored }
        ensures begun { IfOk result (λ taker. HasTakenBytes plan [] taker
            (W.contents writer.old) (W.contents writer.new)) }
        ensures refused { IfErr result IsOfWriter }
    {
        let target = begin_target(alloc, plan.form, said_of(plan.stored, plan.area), writer)?;
        if is_plain(plan.area, &target) {
            return Ok(Taker::Bytes);
        }
        Ok(Taker::Lines(LineTaker {
            target,
            window: window_of(plan.stored, plan.area),
            line_bytes: line_bytes(plan.stored.info, plan.stored.precision),
            height: plan.stored.info.height,
            taken: 0,
        }))
    }

    /// Takes the bytes of some lines, one after the other.
    pub fn take<W: Write>(&mut self, alloc: Global, bytes: &[u8], writer: &mut W) -> Result<()>
        ensures taken { (plan : Plan) (all : List ℕ) (before : Option (List ℕ))
            → HasTakenBytes plan all self.old before (W.contents writer.old)
            → OnOk result (HasTakenBytes plan (all ++ bytes.now) self.new before
            (W.contents writer.new)) }
        ensures refused { IfErr result IsOfWriter }
    {
        match self {
            Taker::Bytes => {
                writer.write_all(bytes)?;
                Ok(())
            }
            Taker::Lines(taker) => taker.take_lines(alloc, bytes, writer),
        }
    }

    /// Writes what stands after the lines, once all were taken.
    pub fn end<W: Write>(self, alloc: Global, writer: &mut W) -> Result<()>
        requires possible { CanFinish self }
        ensures written { (plan : Plan) (all : List ℕ) (before : Option (List ℕ))
            → HasTakenBytes plan all self before (W.contents writer.old)
            → OnOk result (IsWrittenAs plan.form plan.stored.orientation (planned plan all)
            before (W.contents writer.new)) }
        ensures refused { IfErr result IsOfWriter }
    {
        match self {
            Taker::Bytes => Ok(()),
            Taker::Lines(taker) => taker.end(alloc, writer),
        }
    }
}
