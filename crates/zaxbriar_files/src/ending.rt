//! How the program ends.
ghost use Rattle.std.specs.Prelude.{◌≡◌, if◌then◌else◌};
ghost use Rattle.std.specs.Process.{exit_status};
ghost use Rattle.zaxbriar_files.specs.Endings.{status_of, worse_status};

use std::process::ExitCode;

/// Why the program ends with a status other than 0.
#[derive(Clone, Copy)]
pub enum Failure {
    /// A file was refused, or can't be read or written.
    Refused,
    /// The arguments are wrong, or a part that isn't inside a picture was asked for.
    WrongUse,
    /// A file has a fault, and the part of its picture before it was written.
    Faulty,
}

/// What was done, or how the program ends if it wasn't, which was reported.
pub type Outcome<T> = Result<T, Failure>;

/// Returns how the program ends after two files: a refusal is worse than a fault.
pub fn worse_of(first: Outcome<()>, second: Outcome<()>) -> Outcome<()>
    ensures { status_of result ≡ worse_status (status_of first) (status_of second) }
{
    match (first, second) {
        (Ok(()), other) => other,
        (Err(Failure::Faulty), Err(failure)) => Err(failure),
        _ => first,
    }
}

/// Returns how the program ends after files of which all are as they are to be, or not.
pub fn outcome_of(are_all: bool) -> Outcome<()>
    ensures { status_of result ≡ (if are_all then 0 else 1) }
{
    if are_all {
        Ok(())
    } else {
        Err(Failure::Refused)
    }
}

/// Returns the status that the program ends with: 0 for Ok, 1 after a refusal, 2 for wrong
/// arguments, and 3 if the part of a file before its fault was written.
pub fn exit_code(outcome: Outcome<()>) -> ExitCode
    ensures { exit_status result ≡ status_of outcome }
{
    match outcome {
        Ok(()) => ExitCode::SUCCESS,
        Err(Failure::Refused) => ExitCode::FAILURE,
        Err(Failure::WrongUse) => ExitCode::from(2),
        Err(Failure::Faulty) => ExitCode::from(3),
    }
}
