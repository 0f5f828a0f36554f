//! A part of a picture.
ghost use Rattle.std.specs.Prelude.{◌≡◌, IfErr, IfOk, OnOk};
ghost use Rattle.std.specs.List.{concat};
ghost use Rattle.jpeg_bits.specs.declared.error.Error.TheVariants.{OutOfMemory};
ghost use Rattle.zaxbriar_calls.specs.Crops.{AreOfPart, HasPart, IsInPicture, part_of, part_rows};
ghost use Rattle.zaxbriar_calls.specs.Crops.{part_samples, part_turn};
ghost use Rattle.zaxbriar_calls.specs.Faults.{IsArgument};

use crate::answers::{Misuse, Refusal};
use crate::options::{Options, is_cropped};
use jpeg_decoder::Lines as Decoded;
use jpeg_decoder::error::Result;
use jpeg_orientation::areas::{Area, is_inside, stored_area};
use jpeg_orientation::turns::{Turn, upright_height, upright_width};
use std::alloc::Global;

/// A part of a stored picture.
#[derive(Clone, Copy)]
pub struct StoredPart {
    /// The width of the picture, in pixels.
    pub width: u16,
    /// Where the part is.
    pub area: Area,
}

/// Returns the part of a stored picture that is asked for of the picture as it is shown, or none
/// where that is all of it.
pub fn part_of(options: &Options, turn: Turn) -> std::result::Result<Option<StoredPart>, Refusal>
    ensures part { IfOk result (λ p. p ≡ part_of options.now turn) }
    ensures inside { OnOk result (IsInPicture options.now turn) }
    ensures named { IfErr result IsArgument }
    ensures outside { IfErr result (λ _. IsInPicture options.now turn → ⊥) }
{
    if !is_cropped(options) {
        return Ok(None);
    }
    let (width, height) = (upright_width(turn), upright_height(turn));
    if !is_inside(options.crop, width, height) {
        return Err(Refusal::Argument(Misuse::Crop(options.crop, width, height)));
    }
    Ok(Some(StoredPart {
        width: turn.width,
        area: stored_area(turn, options.crop),
    }))
}

/// Returns how a part of a picture is turned.
pub fn part_turn(part: Option<StoredPart>, turn: Turn) -> Turn
    ensures { result ≡ part_turn part turn }
{
    match part {
        Some(part) => Turn {
            width: part.area.width,
            height: part.area.height,
            orientation: turn.orientation,
        },
        None => turn,
    }
}

/// Returns how many lines of a part, from its first, are among so many of the picture.
pub fn part_rows(part: Option<StoredPart>, rows: u16) -> u16
    ensures { result ≡ part_rows part rows }
{
    match part {
        Some(part) => part.area.height.min(rows.saturating_sub(part.area.top)),
        None => rows,
    }
}

/// Returns the lines of a part of a decoded picture, whose pixels have this many bytes as they are
/// stored.
#[tactic(auto, using(crate::proofs::Rules::crops))]
pub fn part_lines(
    alloc: Global,
    picture: Decoded,
    part: Option<StoredPart>,
    stored: u8,
) -> Result<Decoded>
    requires { HasPart part stored picture }
    ensures samples { IfOk result
        (λ lines. concat lines ≡ part_samples part stored (concat picture)) }
    ensures lines { IfOk result (λ lines. AreOfPart part stored picture lines) }
    ensures memory { IfErr result (λ e. e ≡ OutOfMemory) }
{
    let Some(part) = part else {
        return Ok(picture);
    };
    let area = part.area;
    let pixel = usize::from(stored);
    picture.crop(
        alloc,
        usize::from(area.top),
        usize::from(area.height),
        usize::from(area.left) * pixel,
        usize::from(area.width) * pixel,
    )
}
