//! Kinds of data that a stream may have beside its picture.

/// A kind of data beside the picture.
#[derive(Clone, Copy)]
pub enum Kind {
    /// Exif data, from their TIFF header on.
    Exif,
    /// The thumbnail in the Exif data.
    Thumbnail,
    /// XMP data, as text.
    Xmp,
    /// Extended XMP data, as text, joined from their parts.
    ExtendedXmp,
    /// IPTC data.
    Iptc,
    /// An ICC profile, joined from its parts.
    Icc,
}

/// The kinds, in the order in which they are written.
pub const KINDS: [Kind; 6] = [
    Kind::Exif,
    Kind::Thumbnail,
    Kind::Xmp,
    Kind::ExtendedXmp,
    Kind::Iptc,
    Kind::Icc,
];

impl Kind {
    /// Returns the name of the option that requests it.
    pub fn option(self) -> &'static str {
        match self {
            Kind::Exif => "exif",
            Kind::Thumbnail => "thumbnail",
            Kind::Xmp => "xmp",
            Kind::ExtendedXmp => "extended-xmp",
            Kind::Iptc => "iptc",
            Kind::Icc => "icc",
        }
    }

    /// Returns what is said about a file that has none.
    pub fn absence(self) -> &'static str {
        match self {
            Kind::Exif => "no Exif data",
            Kind::Thumbnail => "no thumbnail in Exif data",
            Kind::Xmp => "no XMP data",
            Kind::ExtendedXmp => "no extended XMP data",
            Kind::Iptc => "no IPTC data",
            Kind::Icc => "no ICC profile",
        }
    }
}
