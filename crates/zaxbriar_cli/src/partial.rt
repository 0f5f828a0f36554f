//! What the program says of a file that has a fault, of which it has written the part before it.

use jpeg_decoder::error::Error;
use jpeg_decoder::{CodingProcess, ImageInfo};
use std::fmt;
use zaxbriar_files::ending::{Failure, Outcome};
use zaxbriar_files::files::{finish, report};
use zaxbriar_files::output::Output;
use zaxbriar_files::refusal::{Reason, Refusal};
use zaxbriar_pictures::extents::Completeness;

/// Whose rows are counted that are complete.
#[derive(Clone, Copy)]
pub enum Rows {
    /// Those of the file that was written.
    OfOutput,
    /// Those of the picture at its scale as it is stored, before it is turned, or a part is taken.
    OfStored,
    /// Those of the file that was read, as it stores them: the picture may have been made smaller
    /// or turned.
    OfFile,
}

/// The fault of a file, and how much of its picture is complete.
#[derive(Clone, Copy)]
struct Part<'a> {
    fault: &'a Error,
    info: ImageInfo,
    whole_rows: u16,
    rows: Rows,
}

/// Returns the words after the number of complete rows: a progressive picture may lack whole scans.
pub fn scans_so_far(info: ImageInfo) -> &'static str {
    match info.coding_process {
        CodingProcess::DctProgressive => " in the scans so far",
        _ => "",
    }
}

impl fmt::Display for Part<'_> {
    fn fmt<W: fmt::Write>(&self, f: &mut fmt::Formatter<W>) -> fmt::Result {
        let rows = self.whole_rows;
        let height = self.info.height;
        let so_far = scans_so_far(self.info);
        write!(f, "{}; ", Reason(self.fault))?;
        if rows == 0 {
            return write!(f, "no row is complete");
        }
        if rows >= height {
            return write!(f, "all rows are complete{so_far}");
        }
        let whose = match self.rows {
            Rows::OfOutput => "",
            Rows::OfStored => "the stored picture's ",
            Rows::OfFile => "the file's ",
        };
        if rows == 1 {
            return write!(f, "the first of {whose}{height} rows is complete{so_far}");
        }
        write!(
            f,
            "the first {rows} of {whose}{height} rows are complete{so_far}"
        )
    }
}

/// Reports the fault of a file, if it has one, and how much of its picture is complete.
fn report_fault(
    rt: &HostRuntime,
    input: Option<&str>,
    told: &Completeness,
    rows: Rows,
) -> Outcome<()> {
    let Some(fault) = &told.fault else {
        return Ok(());
    };
    let part = Part {
        fault,
        info: told.info,
        whole_rows: told.whole_rows,
        rows,
    };
    report(rt, input, &part);
    Err(Failure::Faulty)
}

/// Ends an output like `finish`, and reports the fault of a file of which the part before it was
/// written, and how much of the picture is complete.
pub fn finish_with_fault(
    rt: &HostRuntime,
    input: Option<&str>,
    output: Output<'_>,
    written: Result<Completeness, Refusal>,
    rows: Rows,
) -> Outcome<()> {
    match written {
        Ok(told) => {
            finish(rt, input, output, Ok(()))?;
            report_fault(rt, input, &told, rows)
        }
        Err(refusal) => finish(rt, input, output, Err(refusal)),
    }
}
