//! What is requested of a stream's picture: a scale, or a size that it is to fit within.
ghost use Rattle.std.specs.Prelude.{◌≡◌, ◌≤◌};
ghost use Rattle.std.specs.Option.{option_copied};
ghost use Rattle.zaxbriar_samples.specs.Sizes.{covers, is_full, least_scale, luma_for};
ghost use Rattle.zaxbriar_samples.specs.Sizes.{orientation_by};
ghost use Rattle.zaxbriar_samples.specs.Sizes.{orientation_for, scale_of_request, side_at};
ghost use Rattle.zaxbriar_samples.specs.Sizes.{size_for};
ghost use Rattle.zaxbriar_samples.specs.declared.requests.Request.TheVariants.{At};

use crate::sizes::{as_stored, fitted};
use jpeg_meaning::images::ImageInfo;
use jpeg_orientation::areas::Area;
use jpeg_orientation::orientation_of;
use jpeg_segments::parser::Dimensions;
use jpeg_segments::scale::Scale;

/// A request for a stream's picture.
#[derive(Clone, Copy)]
pub enum Request {
    /// The picture at a scale.
    At(AtScale),
    /// The greatest picture that fits within a size, as it is shown or as it is stored, and isn't
    /// greater than the whole picture.
    Within(Dimensions, Upright),
}

/// A scale, whether the picture is then turned, which part of it is wanted, and whether it is the
/// luma alone.
#[derive(Clone, Copy)]
pub struct AtScale {
    /// The scale.
    pub scale: Scale,
    /// Whether the picture is turned.
    pub upright: Upright,
    /// Whether a picture in colour is made of its luma alone.
    pub luma: bool,
    /// The part of that picture: none where all of it is wanted.
    pub crop: Option<Area>,
}

/// Whether a picture is turned by the orientation in its Exif data.
#[derive(Clone, Copy)]
pub enum Upright {
    /// It is.
    Turned,
    /// It stays as it is stored.
    AsStored,
}

/// Returns what a side is at a scale, rounded up.
fn side_at(scale: Scale, side: u16) -> u16
    ensures { result ≡ side_at scale side }
{
    match scale {
        Scale::Eighth => side.div_ceil(8),
        Scale::Quarter => side.div_ceil(4),
        Scale::Half => side.div_ceil(2),
        Scale::Full => side,
    }
}

/// Returns whether a picture at a scale isn't smaller than a size.
fn covers(scale: Scale, full: ImageInfo, size: Dimensions) -> bool
    ensures { result ≡ covers scale full size }
{
    size.width <= side_at(scale, full.width) && size.height <= side_at(scale, full.height)
}

/// Returns whether a size is that of the whole picture.
fn is_full(full: ImageInfo, size: Dimensions) -> bool
    ensures { result ≡ is_full full size }
{
    size.width == full.width && size.height == full.height
}

/// Returns the least scale at which a picture isn't smaller than a size: all of it, where that is
/// its size.
fn least_scale(full: ImageInfo, size: Dimensions) -> Scale
    ensures { result ≡ least_scale full size }
{
    if is_full(full, size) {
        Scale::Full
    } else if covers(Scale::Eighth, full, size) {
        Scale::Eighth
    } else if covers(Scale::Quarter, full, size) {
        Scale::Quarter
    } else if covers(Scale::Half, full, size) {
        Scale::Half
    } else {
        Scale::Full
    }
}

impl Upright {
    /// Returns the orientation by which a picture is to be turned, 1 to 8, by the stream's Exif data
    /// (Exif 2.3, 4.6.4): 1 where they say none, or where it is to stay as it is stored.
    #[tactic(auto, unfolding(crate::specs::Sizes::orientation_by))]
    pub fn orientation_in(self, exif: Option<&[u8]>) -> u8
        ensures said { result ≡ orientation_by self (option_copied exif.entry) }
        ensures range { (1 ≤ result) × (result ≤ 8) }
    {
        match self {
            Upright::AsStored => 1,
            Upright::Turned => match exif {
                Some(exif) => orientation_of(exif).unwrap_or(1),
                None => 1,
            },
        }
    }
}

impl Request {
    /// Returns the requested size of a picture whose header was read.
    #[tactic(auto, unfolding(crate::specs::Sizes::size_for))]
    pub fn size(self, full: ImageInfo, orientation: u8) -> Dimensions
        ensures { result ≡ size_for self full orientation }
    {
        match self {
            Request::At(at) => Dimensions {
                width: side_at(at.scale, full.width),
                height: side_at(at.scale, full.height),
            },
            Request::Within(most, _) => fitted(full, as_stored(most, orientation)),
        }
    }

    /// Returns the scale that such a picture is decoded at.
    #[tactic(auto, unfolding(crate::specs::Sizes::scale_of_request))]
    pub fn scale(self, full: ImageInfo, orientation: u8) -> Scale
        ensures chosen { result ≡ scale_of_request self full orientation }
        ensures asked { (at : _) → self ≡ At at → result ≡ at.scale }
    {
        match self {
            Request::At(at) => at.scale,
            Request::Within(most, _) => {
                least_scale(full, fitted(full, as_stored(most, orientation)))
            }
        }
    }

    /// Returns whether a picture in colour is to be made of its luma alone.
    pub fn wants_luma(self) -> bool
        ensures { result ≡ luma_for self }
    {
        match self {
            Request::At(at) => at.luma,
            Request::Within(_, _) => false,
        }
    }

    /// Returns the orientation by which a picture is to be turned, by the stream's Exif data.
    #[tactic(auto, unfolding(crate::specs::Sizes::orientation_for))]
    pub fn orientation_in(self, exif: Option<&[u8]>) -> u8
        ensures said { result ≡ orientation_for self (option_copied exif.entry) }
        ensures range { (1 ≤ result) × (result ≤ 8) }
    {
        match self {
            Request::At(at) => at.upright.orientation_in(exif),
            Request::Within(_, upright) => upright.orientation_in(exif),
        }
    }
}
