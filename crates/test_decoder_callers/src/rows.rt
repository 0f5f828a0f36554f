//! A caller of `Rows`, which puts the lines of a picture together as they are read.
ghost use Rattle.std.specs.Prelude.{◌≡◌, [], IfOk, Ok, OnOk};
ghost use Rattle.jpeg_decoder.specs.DecodesRows.{DecodesRows};
ghost use Rattle.jpeg_decoder.specs.declared.rows.Ahead.TheVariants.{Start};
ghost use Rattle.jpeg_meaning.specs.States.{Decoding};

use jpeg_decoder::error::Result;
use jpeg_decoder::{Decoder, Rows};
use std::alloc::Global;
use std::io::Read;

/// Calls `Rows::read` up to the end of the image, and appends the lines of each call.
fn gather<R: Read + Drop>(rows: &mut Rows<R>, picture: &mut Vec<u8>) -> Result<()>
    requires start { rows.old.ahead ≡ Start }
    requires empty { picture.old.items ≡ [] }
    ensures all { OnOk result (DecodesRows rows.old.decoder (Ok tt) rows.new.decoder
        picture.new.items) }
{
    while rows.read()? {
        picture.extend_from_slice(rows.lines())?;
    }
    Ok(())
}

/// Decodes the image that a decoder has left by its lines: together they are its picture.
pub fn decode_rows<R: Read + Drop>(alloc: Global, decoder: Decoder<R>) -> Result<Vec<u8>>
    ensures { IfOk result (λ v. (new : Decoding) × DecodesRows decoder (Ok tt) new v.items) }
{
    let mut rows = Rows::new(decoder);
    let mut picture = Vec::new(alloc);
    gather(&mut rows, &mut picture)?;
    Ok(picture)
}
