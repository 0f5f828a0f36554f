//! Names: words of the command line as text, and those of outputs, with the number of a frame or
//! with the name of the file that was read.
ghost use Rattle.std.specs.Prelude.{◌≡◌, IfOk, string_bytes};
ghost use Rattle.std.specs.Str.{IsUtf8};

use std::alloc::{AllocError, Global};
use std::fmt::Write;
use std::path::Path;
use std::str;

/// What ends a word that is not UTF-8 text: no word of a command line has this character.
const MARK: char = '\0';

/// The most digits that a name may request.
const MOST_DIGITS: usize = 20;

/// A file name with a place for a number, such as `frame-%04d.ppm`.
#[derive(Clone, Copy)]
pub struct Numbered<'a> {
    before: &'a str,
    digits: usize,
    after: &'a str,
}

impl<'a> Numbered<'a> {
    /// Returns the name that a text is: the one place of the number is `%d`, or `%04d` for at least
    /// four digits.
    pub fn new(text: &'a str) -> Option<Numbered<'a>> {
        let (before, rest) = text.split_once('%')?;
        let (digits, after) = rest.split_once('d')?;
        let digits = if digits.is_empty() {
            0
        } else {
            digits.parse::<usize>().ok()?
        };
        if digits > MOST_DIGITS || after.contains('%') {
            return None;
        }
        Some(Numbered {
            before,
            digits,
            after,
        })
    }

    /// Appends the name with a number in it, which is given in digits.
    fn put_name(&self, name: &mut String, number: &str) -> Result<(), AllocError> {
        name.push_str(self.before)?;
        for _ in number.len()..self.digits {
            name.push('0')?;
        }
        name.push_str(number)?;
        name.push_str(self.after)
    }

    /// Returns the name with a number in it.
    pub fn with_number(&self, alloc: Global, number: u64) -> Result<String, AllocError> {
        let number = format!(in alloc; "{number}")?;
        let mut name = String::new(alloc);
        match self.put_name(&mut name, number.as_str()) {
            Ok(()) => Ok(name),
            Err(error) => Err(error),
        }
    }
}

/// Appends bytes, each as `\xNN`.
fn push_bytes(text: &mut String, bytes: &[u8]) -> Result<(), AllocError> {
    for byte in bytes {
        write!(text, "\\x{byte:02x}")?;
    }
    Ok(())
}

/// Appends a word that is not UTF-8 text: its bytes that aren't as `\xNN`, and the mark of such a
/// word.
fn push_marked(text: &mut String, bytes: &[u8]) -> Result<(), AllocError> {
    for chunk in bytes.utf8_chunks() {
        text.push_str(chunk.valid())?;
        push_bytes(text, chunk.invalid())?;
    }
    text.push(MARK)
}

/// Returns a word of a command line, as it is if it is UTF-8 text. Otherwise, as the name of a file
/// may be, it is a text that shows its bytes, and that `is_text` tells from any word.
pub fn word_of(alloc: Global, bytes: &[u8]) -> Result<String, AllocError>
    ensures { IsUtf8 bytes.now → IfOk result (λ word. string_bytes word ≡ bytes.now) }
{
    if let Ok(text) = str::from_utf8(bytes) {
        return String::from_str(alloc, text);
    }
    let mut word = String::new(alloc);
    push_marked(&mut word, bytes)?;
    Ok(word)
}

/// Returns whether a word of a command line is UTF-8 text, as the name of a file that is opened has
/// to be.
pub fn is_text(word: &str) -> bool {
    !word.ends_with(MARK)
}

/// Returns a word of a command line as it is shown.
pub fn shown(word: &str) -> &str {
    word.strip_suffix(MARK).unwrap_or(word)
}

/// Returns whether a name has a place for that of the file that was read.
pub fn has_place(name: &str) -> bool {
    name.contains("%s")
}

/// Returns what stands for a file in the names of outputs: its own name without folder and
/// extension.
fn stem_of(input: Option<&str>) -> &str {
    match input {
        Some(name) => Path::new(name).file_stem().unwrap_or("file"),
        None => "stdin",
    }
}

/// Returns the name of the output of a file: that of the file takes the place of each `%s`.
pub fn name_for(alloc: Global, name: &str, input: Option<&str>) -> Result<String, AllocError> {
    name.replace(alloc, "%s", stem_of(input))
}
