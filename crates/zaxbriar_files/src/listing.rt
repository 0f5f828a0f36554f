//! Describes files, one after the other.

use crate::description::{Form, Subject};
use crate::files::{named, open, report};
use crate::header::{Header, read_header};
use crate::limits::Limits;
use crate::output::Output;
use crate::refusal::Refusal;

/// Reads the header of a file.
fn header_of(rt: &HostRuntime, name: Option<&str>, limits: Limits) -> Result<Header, Refusal> {
    let reader = open(rt, name)?;
    let header = read_header(rt.alloc(), reader)?;
    let size = header.frame.image_size;
    limits.check(size.width, size.height, 0)?;
    Ok(header)
}

/// Describes a file, and returns whether it could be described. A refusal is reported.
fn describe_file(
    rt: &HostRuntime,
    subject: Subject<'_>,
    form: Form,
    limits: Limits,
    output: &mut Output<'_>,
) -> Result<bool, Refusal> {
    let header = header_of(rt, subject.name, limits);
    if let Err(refusal) = &header {
        report(rt, subject.name, refusal);
    }
    let is_described = header.is_ok();
    form.write(rt.alloc(), subject, &header, output)
        .and(Ok(is_described))
}

/// Describes the files, and returns whether each could be described. A refusal is reported.
pub fn describe(
    rt: HostRuntime,
    names: &[&str],
    form: Form,
    limits: Limits,
    output: &mut Output<'_>,
) -> Result<bool, Refusal> {
    let mut are_all = true;
    form.begin(output)?;
    for index in 0..names.len() {
        let name = named(names[index]);
        let subject = Subject { index, name };
        are_all &= describe_file(&rt, subject, form, limits, output)?;
    }
    form.end(output)?;
    Ok(are_all)
}
