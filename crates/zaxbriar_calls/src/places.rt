//! Where the metadata of a whole image are in its bytes.
ghost use Rattle.std.specs.Prelude.{◌≡◌, ◌≤◌, length};
ghost use Rattle.zaxbriar_calls.specs.Places.{place_before, places_of, with_part, with_said};
ghost use Rattle.zaxbriar_calls.specs.Places.{with_segment};
ghost use Rattle.jpeg_segments.specs.Application.{application_by};

use crate::segments::{ends_image, next_segment};
use jpeg_bits::marker::Marker;

/// A range of bytes of a stream: `zaxbriar_place` of the header. All zeros if there is none.
#[repr(C)]
#[derive(Clone, Copy)]
pub struct Place {
    pub offset: u64,
    pub size: u64,
}

/// The number of parts of a profile whose ranges are recorded.
const PART_PLACES: usize = 255;

/// Where the metadata of an image are: `zaxbriar_places` of the header.
#[repr(C)]
#[derive(Clone, Copy)]
pub struct Places {
    /// The Exif data of the last segment that has some, from the TIFF header on.
    pub exif: Place,
    /// The XMP data of the last segment that has some.
    pub xmp: Place,
    /// The number of bytes up to the end of the last segment that was found.
    pub stream_bytes: u64,
    /// The number of parts of the ICC profile.
    pub icc_parts: u32,
    /// 1 if the image ends, and 0 if the bytes end before it does.
    pub ended: u32,
    /// Zero.
    pub reserved: [u64; 4],
    /// The first parts of an ICC profile, in the order of the stream.
    pub icc: [Place; PART_PLACES],
}

const NO_PLACE: Place = Place { offset: 0, size: 0 };

/// No metadata.
pub const NO_PLACES: Places = Places {
    exif: NO_PLACE,
    xmp: NO_PLACE,
    stream_bytes: 0,
    icc_parts: 0,
    ended: 0,
    reserved: [0; 4],
    icc: [NO_PLACE; PART_PLACES],
};

/// Returns the range of the last bytes of a segment that ends after so many bytes.
fn place_before(end: usize, size: usize) -> Place
    ensures { result ≡ place_before end size }
{
    Place {
        offset: end.saturating_sub(size) as u64,
        size: size as u64,
    }
}

/// Records the range of one more part of a profile.
fn put_part(places: &mut Places, place: Place)
    ensures { places.new ≡ with_part place places.old }
{
    let count = places.icc_parts;
    if count < 255 {
        places.icc[count as usize] = place;
    }
    places.icc_parts = count.saturating_add(1);
}

/// Records the range of Exif or XMP data in the payload of APP1.
#[tactic(auto, unfolding(jpeg_segments::specs::Application::application_by))]
fn put_application_1(places: &mut Places, payload: &[u8], end: usize)
    ensures { places.new ≡ with_said end (application_by 1 payload.now) places.old }
{
    if payload.starts_with(b"Exif\0\0") {
        places.exif = place_before(end, payload.len() - 6);
    } else if payload.starts_with(b"http://ns.adobe.com/xap/1.0/\0") {
        places.xmp = place_before(end, payload.len() - 29);
    }
}

/// Records the range of a part of an ICC profile, of at least one byte, in the payload of APP2.
#[tactic(auto, unfolding(jpeg_segments::specs::Application::application_by))]
fn put_application_2(places: &mut Places, payload: &[u8], end: usize)
    ensures { places.new ≡ with_said end (application_by 2 payload.now) places.old }
{
    if payload.len() > 14 && payload.starts_with(b"ICC_PROFILE\0") {
        put_part(places, place_before(end, payload.len() - 14));
    }
}

/// Records the range of the metadata in an application's segment, which ends after so many bytes.
#[tactic(auto, using(crate::proofs::Rules::others))]
fn put_application(places: &mut Places, number: u8, payload: &[u8], end: usize)
    ensures { places.new ≡ with_said end (application_by number payload.now) places.old }
{
    match number {
        1 => put_application_1(places, payload, end),
        2 => put_application_2(places, payload, end),
        _ => {}
    }
}

/// Records the range of the metadata in a segment, which ends after so many bytes.
fn put_segment(places: &mut Places, marker: Marker, payload: &[u8], end: usize)
    ensures { places.new ≡ with_segment end marker payload.now places.old }
{
    places.stream_bytes = end as u64;
    places.ended = u32::from(ends_image(marker));
    if let Marker::APP(number) = marker {
        put_application(places, number, payload, end);
    }
}

/// Finds the metadata in the segments of a stream, up to the end of the image or of whole segments.
#[tactic(auto, using(crate::proofs::Rules::places))]
pub fn find_places(stream: &[u8], places: &mut Places)
    ensures { places.new ≡ places_of stream.now }
{
    *places = NO_PLACES;
    let mut rest = stream;
    for _ in 0..stream.len() {
        let Some((marker, payload, others)) = next_segment(rest) else {
            return;
        };
        let end = stream.len().saturating_sub(others.len());
        put_segment(places, marker, payload, end);
        if ends_image(marker) {
            return;
        }
        rest = others;
    }
}
