//! The rules of T.81 that are checked, and why reading stops.

use crate::verdict::Refusal;
use std::alloc::AllocError;

/// A rule that a stream breaks.
#[derive(Clone, Copy)]
pub(crate) enum Rule {
    NoImage,
    Truncated,
    Stray,
    Length,
    Misplaced,
    Restart,
    SecondFrame,
    NoFrame,
    NoScan,
    ComponentWithoutScan,
    AfterEnd,
    SecondImage,
    Interval,
    Lines,
    NoQuantization,
    Quantization,
    ZeroStep,
    WideStep,
    NoCodes,
    Codes,
    CodeCount,
    Overfull,
    EmptyTable,
    BaselineTable,
    LosslessTable,
    NoPicture,
    FrameLength,
    Precision,
    Factor,
    Selector,
    Identifier,
    FrameComponents,
    ScanHeader,
    UnknownComponent,
    ComponentOrder,
    UnitSize,
    EntropySelector,
    LosslessSelector,
    SecondScan,
    PredictorOrTransform,
    NoPrediction,
    SequentialBand,
    Band,
    SharedBand,
    Approximation,
    BandBeforeDc,
    BandOrder,
    UnsentBits,
    NoStepTable,
    ChangedStepTable,
    NoCodeTable,
    OnesAlone,
    DcCategories,
    LosslessCategories,
    PartialRows,
    DataEnd,
    NoCode,
    DcCategory,
    AcCategory,
    PastBand,
    RunInSequential,
    ZerosBeforeEnd,
    ZerosAtEnd,
    RefinedValue,
    RefinedZerosBeforeEnd,
    RefinedZerosAtEnd,
    PastRefinedBand,
    RunBeyond,
    Category,
    SampleBeyond,
    Range,
    Surplus,
    Padding,
    OtherRestart,
}

/// For each rule, in the same order, the clause that has it and what a stream that breaks it has. (A
/// table takes a quarter of the time to prove that a `match` does.)
const WORDS: [(&str, &str); 74] = [
    ("B.2.1", "no SOI at the start"),
    ("B.2.1", "the stream ends before EOI"),
    ("B.1.1.4", "bytes that belong to no segment"),
    (
        "B.1.1.4",
        "a length of less than the two bytes that give it",
    ),
    ("B.1.1.3", "a marker that has no place here"),
    ("B.2.1", "a restart marker outside the data of a scan"),
    ("B.2.1", "a second frame without a DHP segment"),
    ("B.2.1", "no frame header"),
    ("B.2.1", "segments before EOI that no scan follows"),
    ("B.2.1", "a component without a scan"),
    ("B.2.1", "bytes after EOI"),
    ("B.2.1", "another SOI after EOI"),
    ("B.2.4.4", "a DRI segment of another length than 4"),
    ("B.2.5", "a DNL segment without a place or a number"),
    ("B.2.4.1", "a DQT segment without a table"),
    ("B.2.4.1", "no such quantization table"),
    ("B.2.4.1", "a quantization table with a 0"),
    ("B.2.4.1", "a table of 16 bits for samples of 8"),
    ("B.2.4.2", "a DHT segment without a table"),
    ("B.2.4.2", "no such Huffman table"),
    ("B.2.4.2", "a Huffman table with too few or too many values"),
    ("C.2", "more codes than their lengths have room for"),
    ("B.2.4.2", "a Huffman table without a code"),
    ("B.2.4.2", "a Huffman table 2 or 3 in a baseline frame"),
    ("B.2.4.2", "a table of AC codes in a lossless frame"),
    ("B.2.2", "a frame without a column or a component"),
    ("B.2.2", "a frame header of the wrong length"),
    ("B.2.2", "a precision that the process doesn't have"),
    ("B.2.2", "a sampling factor that is not 1 to 4"),
    (
        "B.2.2",
        "a quantization table that the process doesn't have",
    ),
    ("B.2.2", "two components with one identifier"),
    ("B.2.2", "over four components in a progressive frame"),
    ("B.2.3", "a scan header of the wrong length"),
    ("B.2.3", "a component that the frame has not"),
    ("B.2.3", "components out of the order of the frame"),
    ("B.2.3", "an MCU of more than ten blocks"),
    ("B.2.3", "a Huffman table that the process doesn't have"),
    ("B.2.3", "an AC table in a lossless scan"),
    ("A.2", "a component in two scans"),
    ("B.2.3", "no such predictor or point transform"),
    ("H.1.2.1", "selection 0, which is for differential frames"),
    ("B.2.3", "a band or an approximation in a sequential scan"),
    ("G.1.1.1.1", "a band that is none, or DC and AC in one scan"),
    ("G.1.1.1.1", "AC of several components in one scan"),
    ("G.1.1.1", "an approximation that doesn't follow another"),
    ("G.1.1.1.1", "AC coefficients before DC"),
    ("G.1.1.1", "a band sent again, or refined before it is sent"),
    ("G.1.1.1", "bits of coefficients that no scan has sent"),
    ("B.2.2", "a quantization table that isn't installed"),
    ("B.2.2", "a quantization table changed between two scans"),
    ("B.2.3", "a Huffman table that isn't installed"),
    ("C.2", "a code of ones alone"),
    ("F.1.2.1", "a table with a category beyond those of DC"),
    ("H.1.2.2", "a table with a category above 16"),
    ("H.1.1", "a restart interval that isn't of whole rows"),
    ("F.2.2.5", "the data end before the last block or sample"),
    ("F.2.2.3", "bits that are no code of their table"),
    ("F.1.2.1", "a DC category beyond those of the process"),
    ("F.1.2.2", "an AC category beyond those of the process"),
    ("F.2.2.2", "a run of zeros past the end of the band"),
    ("F.1.2.2", "an end-of-band run in a sequential scan"),
    ("F.1.2.2", "sixteen zeros before an end of block"),
    ("F.1.2.2", "sixteen zeros at the end of a block"),
    ("G.1.2.3", "a refinement by more than one bit"),
    ("G.1.2.3", "sixteen zeros before an end of band"),
    ("G.1.2.3", "sixteen zeros at the end of a band"),
    ("G.1.2.3", "a run of zeros past the end of the band"),
    ("G.1.2.2", "an end-of-band run beyond its interval"),
    ("H.1.2.2", "a category above 16"),
    ("H.1.2.1", "a sample beyond its precision"),
    ("A.3.3", "coefficients beyond those of any samples"),
    ("E.2.4", "bytes of data after the last block of an interval"),
    ("F.1.2.3", "padding that isn't of ones"),
    ("E.2.4", "another marker than the next restart marker"),
];

impl Rule {
    /// Returns the clause that has the rule, and what a stream that breaks it has.
    pub(crate) fn words(self) -> (&'static str, &'static str) {
        WORDS[self as usize]
    }

    /// Returns the stop of a stream that breaks the rule at an offset.
    pub(crate) fn at(self, offset: usize) -> Stop {
        Stop::Departs(self, offset)
    }
}

/// Why reading stops before the end of a strict stream.
#[derive(Clone, Copy)]
pub(crate) enum Stop {
    /// The stream breaks a rule at an offset.
    Departs(Rule, usize),
    /// It has this feature of T.81, which isn't read.
    Unread(&'static str),
    Refused(Refusal),
}

impl From<AllocError> for Stop {
    fn from(_: AllocError) -> Stop {
        Stop::Refused(Refusal::OutOfMemory)
    }
}
