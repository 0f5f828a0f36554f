//! The images of a file in words: a line, and a member of a JSON object.

use crate::multi_picture::{Image, Index};
use json::Writer;
use std::alloc::{AllocError, Global};
use std::fmt::Write;

/// Appends an image: what it is, where it begins and how many bytes it has, and whether it
/// represents the others.
fn put_image(text: &mut String, image: Image) -> Result<(), AllocError> {
    let Image {
        kind,
        start,
        size,
        is_representative,
    } = image;
    let mark = if is_representative { "*" } else { "" };
    write!(text, " {kind:06x}{mark}:{start}+{size}")
}

/// Appends the line of the images that an index describes.
pub fn put_images(text: &mut String, index: Option<&Index>) -> Result<(), AllocError> {
    let images = match index {
        Some(Index::Images(images)) => images,
        Some(Index::Broken) => return writeln!(text, "images: broken index"),
        None => return writeln!(text, "images: none"),
    };
    text.push_str("images:")?;
    for image in images {
        put_image(text, *image)?;
    }
    text.push('\n')
}

/// Writes an image as an object.
fn object_of(alloc: Global, writer: &mut Writer, image: Image) -> Result<(), AllocError> {
    let kind = format!(in alloc; "{:06x}", image.kind)?;
    writer.begin_object()?;
    writer.key("type")?;
    writer.string(kind.as_str())?;
    writer.key("representative")?;
    writer.boolean(image.is_representative)?;
    writer.key("start")?;
    writer.u64(image.start)?;
    writer.key("size")?;
    writer.u64(u64::from(image.size))?;
    writer.end_object()
}

/// Writes the array of some images.
fn array_of(alloc: Global, writer: &mut Writer, images: &[Image]) -> Result<(), AllocError> {
    writer.begin_array()?;
    for image in images {
        object_of(alloc, writer, *image)?;
    }
    writer.end_array()
}

/// Writes the member of the images that an index describes.
pub fn images(alloc: Global, writer: &mut Writer, index: Option<&Index>) -> Result<(), AllocError> {
    writer.key("images")?;
    match index {
        Some(Index::Images(images)) => array_of(alloc, writer, images.as_slice()),
        Some(Index::Broken) => writer.string("broken index"),
        None => writer.null(),
    }
}
