//! Headers in words: lines `key: value`, and JSON.

use crate::header::{Density, Header, NamedColours, Unit};
use crate::images::{images, put_images};
use crate::lines::{JsonLine, Line};
use crate::metadata::Sizes;
use crate::names::shown;
use crate::output::Output;
use crate::refusal::Refusal;
use jpeg_segments::parser::{
    AdobeColorTransform, CodingProcess, Component, EntropyCoding, FrameInfo,
};
use json::Writer;
use std::alloc::{AllocError, Global};
use std::fmt::Write;
use std::io;

/// Returns the name of a frame's process (T.81, 4.11 and Table B.1).
fn process_name(frame: &FrameInfo) -> &'static str {
    if frame.is_baseline {
        return "baseline";
    }
    match (frame.is_differential, frame.coding_process) {
        (false, CodingProcess::DctSequential) => "extended",
        (false, CodingProcess::DctProgressive) => "progressive",
        (false, CodingProcess::Lossless) => "lossless",
        (true, CodingProcess::DctSequential) => "differential sequential",
        (true, CodingProcess::DctProgressive) => "differential progressive",
        (true, CodingProcess::Lossless) => "differential lossless",
    }
}

/// Returns the name of the coding of a frame's symbols.
fn coding_name(coding: EntropyCoding) -> &'static str {
    match coding {
        EntropyCoding::Huffman => "Huffman",
        EntropyCoding::Arithmetic => "arithmetic",
    }
}

/// Returns the name of the format in which a picture of this frame is decoded, like that of
/// `PixelFormat`.
fn format_name(frame: &FrameInfo) -> &'static str {
    match frame.components.len() {
        1 if frame.precision <= 8 => "L8",
        1 => "L16",
        3 => "RGB24",
        4 => "CMYK32",
        _ => "none",
    }
}

/// Returns the colours that the identifiers of three components stand for.
fn colours_by_identifiers(components: &[Component]) -> Option<&'static str> {
    let [first, second, third] = components else {
        return None;
    };
    match (first.identifier, second.identifier, third.identifier) {
        (1, 2, 3) => Some("YCbCr"),
        (1, 34, 35) => Some("bg-sYCC"),
        (82, 71, 66) => Some("RGB"),
        (114, 103, 98) => Some("bg-sRGB"),
        _ => None,
    }
}

/// Returns the name of the colours of this many components, as segments name them.
fn colours_by_segments(count: usize, named: NamedColours) -> &'static str {
    match (count, named.adobe) {
        (3, _) if named.is_jfif => "YCbCr",
        (3, None) => "YCbCr",
        (3, Some(AdobeColorTransform::Unknown)) => "RGB",
        (4, None | Some(AdobeColorTransform::Unknown)) => "CMYK",
        (3 | 4, Some(AdobeColorTransform::YCbCr)) => "YCbCr",
        (3 | 4, Some(AdobeColorTransform::YCCK)) => "YCCK",
        _ => "unknown",
    }
}

/// Returns the name of the colours of a frame's components, as the decoder takes them.
fn colours_name(frame: &FrameInfo, named: NamedColours) -> &'static str {
    let components = frame.components.as_slice();
    if components.len() == 1 {
        return "grey";
    }
    if matches!(frame.coding_process, CodingProcess::Lossless) {
        return "as stored";
    }
    match colours_by_identifiers(components) {
        Some(name) => name,
        None => colours_by_segments(components.len(), named),
    }
}

/// Returns the name of a density's unit.
fn unit_name(unit: Unit) -> &'static str {
    match unit {
        Unit::Ratio => "ratio",
        Unit::Inch => "inch",
        Unit::Centimetre => "cm",
    }
}

/// Appends a component: its number, and its sampling factors across and down.
fn put_component(text: &mut String, component: &Component) -> Result<(), AllocError> {
    let identifier = component.identifier;
    let across = component.horizontal_sampling_factor;
    let down = component.vertical_sampling_factor;
    write!(text, " {identifier}:{across}x{down}")
}

/// Appends the components.
fn put_components(text: &mut String, components: &[Component]) -> Result<(), AllocError> {
    text.push_str("components:")?;
    for component in components {
        put_component(text, component)?;
    }
    text.push('\n')
}

/// Appends the density.
fn put_density(text: &mut String, density: Option<Density>) -> Result<(), AllocError> {
    let Some(density) = density else {
        return writeln!(text, "density: none");
    };
    let words = match density.unit {
        Unit::Ratio => "ratio",
        Unit::Inch => "per inch",
        Unit::Centimetre => "per cm",
    };
    writeln!(text, "density: {}x{} {words}", density.across, density.down)
}

/// Appends the comment, whose bytes are taken as UTF-8.
fn put_comment(
    alloc: Global,
    text: &mut String,
    comment: Option<&Vec<u8>>,
) -> Result<(), AllocError> {
    let Some(comment) = comment else {
        return writeln!(text, "comment: none");
    };
    let comment = String::from_utf8_lossy(alloc, comment.as_slice())?;
    writeln!(text, "comment: {}", Line(comment.as_str()))
}

/// What is said under a key.
#[derive(Clone, Copy)]
pub enum Value<'a> {
    /// A number.
    Number(usize),
    /// A text.
    Text(&'a str),
    /// That there is none.
    Nothing,
}

/// Returns the value for a number that may not be there.
fn number_or_nothing(number: Option<usize>) -> Value<'static> {
    match number {
        Some(number) => Value::Number(number),
        None => Value::Nothing,
    }
}

/// A thing that a header says: its key in lines and in JSON, and its value.
#[derive(Clone, Copy)]
struct Fact {
    line: &'static str,
    member: &'static str,
    value: Value<'static>,
}

/// Returns a thing whose key is one word.
fn fact_of(key: &'static str, value: Value<'static>) -> Fact {
    Fact {
        line: key,
        member: key,
        value,
    }
}

/// Returns what a frame header says of the picture.
fn picture_facts(frame: &FrameInfo) -> [Fact; 6] {
    let size = frame.image_size;
    [
        fact_of("width", Value::Number(usize::from(size.width))),
        fact_of("height", Value::Number(usize::from(size.height))),
        fact_of("format", Value::Text(format_name(frame))),
        fact_of("process", Value::Text(process_name(frame))),
        fact_of("coding", Value::Text(coding_name(frame.entropy_coding))),
        fact_of("precision", Value::Number(usize::from(frame.precision))),
    ]
}

/// Returns what a header says of the colours.
fn colours_fact(header: &Header) -> Fact {
    fact_of(
        "colours",
        Value::Text(colours_name(&header.frame, header.colours)),
    )
}

/// Returns how many bytes there are of a kind of data, under keys that have these words.
fn size_fact(line: &'static str, member: &'static str, bytes: Option<usize>) -> Fact {
    Fact {
        line,
        member,
        value: number_or_nothing(bytes),
    }
}

/// Returns what a header says of restarts and of the data beside the picture.
fn data_facts(restart_interval: u16, data: Sizes) -> [Fact; 8] {
    [
        Fact {
            line: "restart-interval",
            member: "restart_interval",
            value: Value::Number(usize::from(restart_interval)),
        },
        size_fact("icc-bytes", "icc_bytes", data.icc),
        size_fact("exif-bytes", "exif_bytes", data.exif),
        fact_of(
            "orientation",
            number_or_nothing(data.orientation.map(usize::from)),
        ),
        size_fact("thumbnail-bytes", "thumbnail_bytes", data.thumbnail),
        size_fact("xmp-bytes", "xmp_bytes", data.xmp),
        size_fact(
            "extended-xmp-bytes",
            "extended_xmp_bytes",
            data.extended_xmp,
        ),
        size_fact("iptc-bytes", "iptc_bytes", data.iptc),
    ]
}

/// Appends a line `key: value`.
fn put_fact(text: &mut String, fact: Fact) -> Result<(), AllocError> {
    let key = fact.line;
    match fact.value {
        Value::Number(number) => writeln!(text, "{key}: {number}"),
        Value::Text(word) => writeln!(text, "{key}: {word}"),
        Value::Nothing => writeln!(text, "{key}: none"),
    }
}

/// Appends a line for each of some things.
fn put_facts(text: &mut String, facts: &[Fact]) -> Result<(), AllocError> {
    for fact in facts {
        put_fact(text, *fact)?;
    }
    Ok(())
}

/// Appends a line `key: value` for each thing that a header says.
fn put_header(alloc: Global, text: &mut String, header: &Header) -> Result<(), AllocError> {
    put_facts(text, &picture_facts(&header.frame))?;
    put_components(text, header.frame.components.as_slice())?;
    put_fact(text, colours_fact(header))?;
    put_density(text, header.density)?;
    put_facts(text, &data_facts(header.restart_interval, header.data))?;
    put_images(text, header.images.as_ref())?;
    put_comment(alloc, text, header.comment.as_ref())
}

/// Writes a member.
pub fn member(writer: &mut Writer, key: &str, value: Value<'_>) -> Result<(), AllocError> {
    writer.key(key)?;
    match value {
        Value::Number(number) => writer.u64(number as u64),
        Value::Text(text) => writer.string(text),
        Value::Nothing => writer.null(),
    }
}

/// Writes a member for each of some things.
fn members_of(writer: &mut Writer, facts: &[Fact]) -> Result<(), AllocError> {
    for fact in facts {
        member(writer, fact.member, fact.value)?;
    }
    Ok(())
}

/// Writes an object with a member for each of some things.
fn object_with(writer: &mut Writer, facts: &[Fact]) -> Result<(), AllocError> {
    writer.begin_object()?;
    members_of(writer, facts)?;
    writer.end_object()
}

/// Writes a component as an object.
fn component(writer: &mut Writer, component: &Component) -> Result<(), AllocError> {
    let across = usize::from(component.horizontal_sampling_factor);
    let down = usize::from(component.vertical_sampling_factor);
    let facts = [
        fact_of(
            "identifier",
            Value::Number(usize::from(component.identifier)),
        ),
        fact_of("horizontal", Value::Number(across)),
        fact_of("vertical", Value::Number(down)),
    ];
    object_with(writer, &facts)
}

/// Writes the member of the components.
fn components(writer: &mut Writer, components: &[Component]) -> Result<(), AllocError> {
    writer.key("components")?;
    writer.begin_array()?;
    for each in components {
        component(writer, each)?;
    }
    writer.end_array()
}

/// Writes the member of the density.
fn density(writer: &mut Writer, density: Option<Density>) -> Result<(), AllocError> {
    let Some(density) = density else {
        return member(writer, "density", Value::Nothing);
    };
    let facts = [
        fact_of("unit", Value::Text(unit_name(density.unit))),
        fact_of("across", Value::Number(usize::from(density.across))),
        fact_of("down", Value::Number(usize::from(density.down))),
    ];
    writer.key("density")?;
    object_with(writer, &facts)
}

/// Writes the member of the comment, whose bytes are taken as UTF-8.
fn comment(
    alloc: Global,
    writer: &mut Writer,
    comment: Option<&Vec<u8>>,
) -> Result<(), AllocError> {
    match comment {
        Some(comment) => {
            let comment = String::from_utf8_lossy(alloc, comment.as_slice())?;
            member(writer, "comment", Value::Text(comment.as_str()))
        }
        None => member(writer, "comment", Value::Nothing),
    }
}

/// Writes the members of a header.
fn members(alloc: Global, writer: &mut Writer, header: &Header) -> Result<(), AllocError> {
    let colours = colours_fact(header);
    members_of(writer, &picture_facts(&header.frame))?;
    components(writer, header.frame.components.as_slice())?;
    member(writer, colours.member, colours.value)?;
    density(writer, header.density)?;
    members_of(writer, &data_facts(header.restart_interval, header.data))?;
    images(alloc, writer, header.images.as_ref())?;
    comment(alloc, writer, header.comment.as_ref())
}

/// Writes the members of a refusal.
fn refused(alloc: Global, writer: &mut Writer, refusal: &Refusal) -> Result<(), AllocError> {
    match format!(in alloc; "{refusal}") {
        Ok(reason) => member(writer, "error", Value::Text(reason.as_str())),
        Err(error) => Err(error),
    }
}

/// Writes what is said about a file whose header was read, or of its refusal.
fn described(
    alloc: Global,
    writer: &mut Writer,
    header: &Result<Header, Refusal>,
) -> Result<(), AllocError> {
    match header {
        Ok(header) => members(alloc, writer, header),
        Err(refusal) => refused(alloc, writer, refusal),
    }
}

/// Begins the object of a file of this name, or of standard input if there is none.
pub fn begin_object(writer: &mut Writer, name: Option<&str>) -> Result<(), AllocError> {
    let file = match name {
        Some(name) => Value::Text(shown(name)),
        None => Value::Nothing,
    };
    writer.begin_object()?;
    member(writer, "file", file)
}

/// Writes the object of a file of this name, or of its refusal.
fn object(
    alloc: Global,
    writer: &mut Writer,
    name: Option<&str>,
    header: &Result<Header, Refusal>,
) -> Result<(), AllocError> {
    begin_object(writer, name)?;
    described(alloc, writer, header)?;
    writer.end_object()
}

/// Returns an object in one line, which ends the line of the object before it.
pub fn line_of(alloc: Global, subject: Subject<'_>, object: Vec<u8>) -> Result<String, AllocError> {
    let before = if 0 < subject.index { ",\n" } else { "" };
    match String::from_utf8_lossy(alloc, object.as_slice()) {
        Ok(object) => format!(in alloc; "{before}{}", JsonLine(object.as_str())),
        Err(error) => Err(error),
    }
}

/// Writes a text that was made.
pub fn write_text(
    text: Result<String, AllocError>,
    output: &mut Output<'_>,
) -> Result<(), Refusal> {
    match text {
        Ok(text) => io::Write::write_all(output, text.as_bytes()).map_err(Refusal::from),
        Err(error) => Err(Refusal::from(error)),
    }
}

/// A file that is described: its place among those that are named, and its name, or none for
/// standard input.
#[derive(Clone, Copy)]
pub struct Subject<'a> {
    /// Its place, from 0.
    pub index: usize,
    /// Its name.
    pub name: Option<&'a str>,
}

/// How files are described.
#[derive(Clone, Copy)]
pub struct Form {
    is_json: bool,
    is_several: bool,
}

impl Form {
    /// Returns the form of JSON or of lines, of one file or of several.
    pub fn new(is_json: bool, is_several: bool) -> Form {
        Form {
            is_json,
            is_several,
        }
    }

    /// Appends the lines of a file. Those of several begin with its name.
    fn put_lines(
        self,
        alloc: Global,
        subject: Subject<'_>,
        header: &Header,
        lines: &mut String,
    ) -> Result<(), AllocError> {
        if self.is_several {
            writeln!(lines, "file: {}", Line(subject.name.unwrap_or("-")))?;
        }
        put_header(alloc, lines, header)
    }

    /// Returns the lines of a file.
    fn lines_of(
        self,
        alloc: Global,
        subject: Subject<'_>,
        header: &Header,
    ) -> Result<String, AllocError> {
        let mut lines = String::new(alloc);
        match self.put_lines(alloc, subject, header, &mut lines) {
            Ok(()) => Ok(lines),
            Err(error) => Err(error),
        }
    }

    /// Returns the object of a file, or of its refusal, after that of the file before it.
    fn object_of(
        self,
        alloc: Global,
        subject: Subject<'_>,
        header: &Result<Header, Refusal>,
    ) -> Result<String, AllocError> {
        let mut writer = Writer::new(Vec::new(alloc));
        match object(alloc, &mut writer, subject.name, header) {
            Ok(()) => line_of(alloc, subject, writer.into_inner()),
            Err(error) => Err(error),
        }
    }

    /// Writes what stands before the first file.
    pub fn begin(self, output: &mut Output<'_>) -> io::Result<()> {
        if self.is_json {
            io::Write::write_all(output, b"[")?;
        }
        Ok(())
    }

    /// Writes what is said about a file. Lines say nothing about one that was refused.
    pub fn write(
        self,
        alloc: Global,
        subject: Subject<'_>,
        header: &Result<Header, Refusal>,
        output: &mut Output<'_>,
    ) -> Result<(), Refusal> {
        match header {
            _ if self.is_json => write_text(self.object_of(alloc, subject, header), output),
            Ok(header) => write_text(self.lines_of(alloc, subject, header), output),
            Err(_) => Ok(()),
        }
    }

    /// Writes what stands after the last file.
    pub fn end(self, output: &mut Output<'_>) -> io::Result<()> {
        if self.is_json {
            io::Write::write_all(output, b"]\n")?;
        }
        Ok(())
    }
}
