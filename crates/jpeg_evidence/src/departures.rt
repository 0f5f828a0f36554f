//! Writers here may emit what T.81 doesn't allow.
ghost use Rattle.jpeg_meaning.specs.WorkedImages.{IsWhollyWritten};
ghost use Rattle.jpeg_evidence.specs.Departures.{code_of_ones, no_coefficients};

/// A stream may be written for coefficients and not be exactly T.81: here a table has a code of
/// ones alone, which C.2 excludes. So the converse of what is proved of exact streams, that those
/// are written, doesn't hold.
pub fn written_streams_may_depart()
    ensures { IsWhollyWritten no_coefficients code_of_ones }
{}
