//! Files of other formats, by their first bytes.

/// A format of files that isn't JPEG.
#[derive(Clone, Copy)]
pub enum FileFormat {
    /// Portable network graphics.
    Png,
    /// Graphics interchange format.
    Gif,
    /// WebP, in a RIFF file.
    WebP,
    /// Tagged image file format.
    Tiff,
    /// A bitmap of Windows.
    Bmp,
    /// Portable document format.
    Pdf,
    /// A ZIP archive, or a document that is one.
    Zip,
}

/// The formats, none of which begins like another.
const FORMATS: [FileFormat; 7] = [
    FileFormat::Png,
    FileFormat::Gif,
    FileFormat::WebP,
    FileFormat::Tiff,
    FileFormat::Bmp,
    FileFormat::Pdf,
    FileFormat::Zip,
];

impl FileFormat {
    /// Returns the format's name.
    pub fn name(self) -> &'static str {
        match self {
            FileFormat::Png => "PNG",
            FileFormat::Gif => "GIF",
            FileFormat::WebP => "WebP",
            FileFormat::Tiff => "TIFF",
            FileFormat::Bmp => "BMP",
            FileFormat::Pdf => "PDF",
            FileFormat::Zip => "ZIP",
        }
    }

    /// Returns whether a file with these first bytes has the format.
    fn begins(self, start: &[u8]) -> bool {
        match self {
            FileFormat::Png => start.starts_with(b"\x89PNG"),
            FileFormat::Gif => start.starts_with(b"GIF8"),
            FileFormat::WebP => {
                start.starts_with(b"RIFF") && start.iter().skip(8).take(4).eq(b"WEBP")
            }
            FileFormat::Tiff => start.starts_with(b"II*\0") || start.starts_with(b"MM\0*"),
            FileFormat::Bmp => start.starts_with(b"BM"),
            FileFormat::Pdf => start.starts_with(b"%PDF"),
            FileFormat::Zip => start.starts_with(b"PK\x03\x04"),
        }
    }

    /// Returns the format that a file with these first bytes has, where it is one of these.
    pub fn of(start: &[u8]) -> Option<FileFormat> {
        for format in FORMATS {
            if format.begins(start) {
                return Some(format);
            }
        }
        None
    }
}
