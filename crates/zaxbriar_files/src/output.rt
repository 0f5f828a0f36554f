//! The files that the program writes.
//!
//! A file is written under another name in its folder, and takes its own when it is complete: a
//! failure leaves the file that was there as it was, and an input may be an output too, since it
//! was read before. What is not a regular file, such as a pipe or `/dev/stdout`, is written
//! directly.

use crate::names::is_text;
use crate::refusal::NOT_TEXT;
use std::alloc::{AllocError, Global};
use std::fs::{File, Metadata, OpenOptions};
use std::io::{ErrorKind, Write};
use std::path::Path;
use std::{fs, io};

/// How many names are tried for a file that is being written.
const MOST_TRIES: u32 = 10_000;

/// A file that is being written under another name.
#[derive(Drop)]
struct Temporary {
    /// The name that it has.
    name: String,
    /// The name that it is to take.
    target: String,
}

/// An open file.
#[derive(Drop)]
struct Opened {
    file: File,
    temporary: Option<Temporary>,
}

/// A file or standard output to be written. The file is opened by `open`, or by the first write.
#[derive(Drop)]
pub struct Output<'a> {
    rt: HostRuntime,
    name: Option<&'a str>,
    opened: Option<Opened>,
    has_failed: bool,
}

/// Returns the name of another file in the folder of a target.
fn name_beside(alloc: Global, target: &str, name: &str) -> Result<String, AllocError> {
    match Path::new(target).with_file_name(alloc, name) {
        Ok(path) => Ok(path.into_string()),
        Err(error) => Err(error),
    }
}

/// Returns the name that a file is written under, the first of these numbers that is free.
fn temporary_name(alloc: Global, target: &str, number: u32) -> Result<String, AllocError> {
    let name = format!(in alloc; ".zaxbriar-{number}.tmp")?;
    name_beside(alloc, target, name.as_str())
}

/// Opens a new file beside a target.
fn open_beside(rt: &HostRuntime, target: String) -> io::Result<Opened> {
    for number in 0..MOST_TRIES {
        let name = temporary_name(rt.alloc(), target.as_str(), number)?;
        match File::create_new(rt, name.as_str()) {
            Ok(file) => {
                let temporary = Some(Temporary { name, target });
                return Ok(Opened { file, temporary });
            }
            Err(error) if error.kind() == ErrorKind::AlreadyExists => {}
            Err(error) => return Err(error),
        }
    }
    Err(io::Error::from(ErrorKind::AlreadyExists))
}

/// Opens a new file that is to take the place of one that is there, with its permissions. A link
/// stays a link.
fn open_replacing(rt: &HostRuntime, name: &str, metadata: &Metadata) -> io::Result<Opened> {
    let target = fs::canonicalize(rt, name)?.into_string();
    let opened = open_beside(rt, target)?;
    if let Err(error) = opened.file.set_permissions(metadata.permissions()) {
        remove(rt, &opened);
        return Err(error);
    }
    Ok(opened)
}

/// Returns whether a name is that of a pipe or of a device, which is written directly.
pub fn is_direct(rt: &HostRuntime, name: &str) -> bool {
    match fs::metadata(rt, name) {
        Ok(metadata) => !metadata.is_file() && !metadata.is_dir(),
        Err(_) => false,
    }
}

/// Opens what is written to a name.
fn open(rt: &HostRuntime, name: &str) -> io::Result<Opened> {
    if !is_text(name) {
        return Err(io::Error::new(ErrorKind::InvalidFilename, NOT_TEXT));
    }
    match fs::metadata(rt, name) {
        Ok(metadata) if metadata.is_file() => open_replacing(rt, name, &metadata),
        Ok(_) => {
            let file = OpenOptions::new().write(true).open(rt, name)?;
            Ok(Opened {
                file,
                temporary: None,
            })
        }
        Err(error) if error.kind() == ErrorKind::NotFound => {
            open_beside(rt, String::from_str(rt.alloc(), name)?)
        }
        Err(error) => Err(error),
    }
}

/// Removes a file that was written under another name.
fn remove(rt: &HostRuntime, opened: &Opened) {
    if let Some(temporary) = &opened.temporary {
        let _ = fs::remove_file(rt, temporary.name.as_str());
    }
}

/// Gives a file that was written under another name its own.
fn rename(rt: &HostRuntime, opened: &Opened) -> io::Result<()> {
    match &opened.temporary {
        Some(temporary) => fs::rename(rt, temporary.name.as_str(), temporary.target.as_str()),
        None => Ok(()),
    }
}

impl<'a> Output<'a> {
    ghost use Rattle.std.specs.Io.{WritesAtMost};

    /// Returns the file of this name, or standard output if there is none.
    pub fn new(rt: HostRuntime, name: Option<&'a str>) -> Output<'a> {
        Output {
            rt,
            name,
            opened: None,
            has_failed: false,
        }
    }

    /// Returns the file's name, or none for standard output.
    pub fn name(&self) -> Option<&'a str> {
        self.name
    }

    /// Returns whether the file couldn't be written.
    pub fn has_failed(&self) -> bool {
        self.has_failed
    }

    /// Opens the file if it isn't.
    fn open_file(&mut self) -> io::Result<()> {
        let Some(name) = self.name else {
            return Ok(());
        };
        if self.opened.is_none() {
            self.opened = Some(open(&self.rt, name)?);
        }
        Ok(())
    }

    /// Opens the file, so that one that can't be written is known before a picture is decoded.
    pub fn open(&mut self) -> io::Result<()> {
        let outcome = self.open_file();
        self.has_failed = outcome.is_err();
        outcome
    }

    /// Refuses a file that can't be written, and leaves it as it was. A pipe or a device isn't
    /// opened for this: a reader of the pipe would take it for ended.
    pub fn check(&mut self) -> io::Result<()> {
        match self.name {
            Some(name) if !is_direct(&self.rt, name) => self.open()?,
            _ => return Ok(()),
        }
        self.discard();
        Ok(())
    }

    /// Writes some of the bytes, into the file, which is opened if it wasn't.
    fn write_some(&mut self, buf: &[u8]) -> io::Result<usize>
        ensures { WritesAtMost result buf.now }
    {
        if self.name.is_none() {
            return self.rt.stdout().write(buf);
        }
        self.open_file()?;
        match &mut self.opened {
            Some(opened) => opened.file.write(buf),
            None => Ok(0),
        }
    }

    /// Gives the file its name, and makes it if nothing was written.
    fn place(&mut self) -> io::Result<()> {
        self.open_file()?;
        match &self.opened {
            Some(opened) => rename(&self.rt, opened),
            None => Ok(()),
        }
    }

    /// Puts what was written in its place. If nothing was written, the file is empty. After an
    /// error, what was written is there until `discard` removes it.
    pub fn keep(&mut self) -> io::Result<()> {
        let placed = self.place();
        self.has_failed = placed.is_err();
        placed
    }

    /// Removes what was written, so that a file that was there stays as it was.
    pub fn discard(&mut self) {
        if let Some(opened) = self.opened.take() {
            remove(&self.rt, &opened);
        }
    }
}

impl<'a> Write for Output<'a> {
    fn write(&mut self, buf: &[u8]) -> io::Result<usize> {
        let outcome = self.write_some(buf);
        self.has_failed = outcome.is_err();
        outcome
    }

    fn flush(&mut self) -> io::Result<()> {
        Ok(())
    }
}
