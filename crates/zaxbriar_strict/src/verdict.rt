//! What is said of a stream.

/// Where a stream departs from T.81.
#[derive(Clone, Copy, Debug, PartialEq)]
pub struct Departure {
    /// The clause, as `B.2.3`.
    pub section: &'static str,
    /// What the stream has that the clause doesn't allow, as `components out of the order of the
    /// frame`.
    pub rule: &'static str,
    /// The offset of the byte at which it does, or the length of the stream where it ends too soon.
    pub offset: u64,
}

/// What a stream is by T.81.
#[derive(Clone, Copy, Debug, PartialEq)]
pub enum Verdict {
    /// It is exactly what the standard defines, from SOI to EOI, and nothing of it is lacking.
    Strict,
    /// It breaks a rule: the first one in the order of the stream. What is known only at the end,
    /// as that a component has no scan, counts as broken there.
    Departs(Departure),
    /// It breaks no rule up to a feature of the standard that isn't read, which is named:
    /// arithmetic coding, hierarchical coding, or a number of lines that DNL gives.
    Unread(&'static str),
}

/// Why a stream isn't judged.
#[derive(Clone, Copy, Debug, PartialEq)]
pub enum Refusal {
    /// There is no memory.
    OutOfMemory,
    /// More than the limit would be needed beside the stream: this many bytes.
    Memory(u64),
}
