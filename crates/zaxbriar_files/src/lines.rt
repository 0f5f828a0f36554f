//! Texts that others have chosen, as names and comments, for a terminal and for lines.
ghost use Rattle.std.specs.Prelude.{◌≡◌};
ghost use Rattle.zaxbriar_files.specs.Lines.{is_acting};

use std::fmt;

/// Returns whether a character ends the line, or acts on a terminal or on the text around it in
/// place of being shown.
pub fn acts(character: char) -> bool
    ensures { result ≡ is_acting character }
{
    matches!(
        character,
        '\0'..='\x1f'
            | '\x7f'..='\u{9f}'
            | '\u{61c}'
            | '\u{200e}'..='\u{200f}'
            | '\u{2028}'..='\u{202e}'
            | '\u{2066}'..='\u{2069}'
    )
}

/// Writes the number of a character, for JSON or not.
fn write_number<W: fmt::Write>(
    f: &mut fmt::Formatter<W>,
    number: u32,
    is_json: bool,
) -> fmt::Result {
    if number <= 0xff && !is_json {
        write!(f, "\\x{number:02x}")
    } else {
        write!(f, "\\u{number:04x}")
    }
}

/// Writes a character of a line, of JSON or not.
fn write_character<W: fmt::Write>(
    f: &mut fmt::Formatter<W>,
    character: char,
    is_json: bool,
) -> fmt::Result {
    if acts(character) {
        write_number(f, u32::from(character), is_json)
    } else {
        f.write_char(character)
    }
}

/// Writes the characters of a line, of JSON or not.
fn write_line<W: fmt::Write>(f: &mut fmt::Formatter<W>, text: &str, is_json: bool) -> fmt::Result {
    for character in text.chars() {
        write_character(f, character, is_json)?;
    }
    Ok(())
}

/// A text as one line that acts on nothing: characters that would are written as `\xNN`, or as
/// `\uNNNN` above U+00FF.
#[derive(Clone, Copy)]
pub struct Line<'a>(pub &'a str);

impl fmt::Display for Line<'_> {
    fn fmt<W: fmt::Write>(&self, f: &mut fmt::Formatter<W>) -> fmt::Result {
        write_line(f, self.0, false)
    }
}

/// A JSON text of one line, which acts on nothing either: characters that would, which stand in its
/// strings, are written as JSON's `\uNNNN`.
#[derive(Clone, Copy)]
pub struct JsonLine<'a>(pub &'a str);

impl fmt::Display for JsonLine<'_> {
    fn fmt<W: fmt::Write>(&self, f: &mut fmt::Formatter<W>) -> fmt::Result {
        write_line(f, self.0, true)
    }
}
