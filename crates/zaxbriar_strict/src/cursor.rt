//! Bytes of a stream, markers and segments (T.81, B.1.1).
ghost use Rattle.std.specs.Prelude.{◌≡◌, ◌∷◌, ◌++◌, IfOk, IfSome};
ghost use Rattle.jpeg_segments.specs.WrittenSegments.{u16_bytes, with_length};
ghost use Rattle.zaxbriar_strict.specs.Markers.{BeginsMarker};

use crate::rule::{Rule, Stop};

/// The marker EOI.
pub(crate) const EOI: u8 = 0xd9;

/// Bytes that are still to be read, of a stream or of a segment.
#[derive(Clone, Copy)]
pub(crate) struct Cursor<'a> {
    pub(crate) rest: &'a [u8],
    /// The offset of the first byte after them.
    end: usize,
}

impl<'a> Cursor<'a> {
    pub(crate) fn new(stream: &'a [u8]) -> Cursor<'a>
        ensures { result.rest.now ≡ stream.now }
    {
        Cursor {
            rest: stream,
            end: stream.len(),
        }
    }

    /// Returns the offset of the next byte.
    pub(crate) fn offset(&self) -> usize {
        self.end.saturating_sub(self.rest.len())
    }

    /// Returns the stop of a stream that breaks a rule at the next byte.
    pub(crate) fn breaks(&self, rule: Rule) -> Stop {
        rule.at(self.offset())
    }

    /// Takes the next byte, if there is one.
    pub(crate) fn byte(&mut self) -> Option<u8>
        ensures { IfSome result (λ b. self.old.rest.now ≡ b ∷ self.new.rest.now) }
    {
        let [byte, rest @ ..] = self.rest else {
            return None;
        };
        self.rest = rest;
        Some(*byte)
    }

    /// Takes the next two bytes as a number, the higher byte first, if they are there.
    pub(crate) fn number(&mut self) -> Option<u16>
        ensures { IfSome result (λ n. self.old.rest.now ≡ u16_bytes n ++ self.new.rest.now) }
    {
        let [high, low, rest @ ..] = self.rest else {
            return None;
        };
        self.rest = rest;
        Some(256 * u16::from(*high) + u16::from(*low))
    }

    /// Takes the next marker, before which fill bytes may stand (B.1.1.2), and returns its code.
    pub(crate) fn marker(&mut self) -> Result<u8, Stop>
        ensures { IfOk result (λ code. BeginsMarker code self.old.rest.now self.new.rest.now) }
    {
        for _ in 0..self.rest.len() {
            let mut next = *self;
            let Some(0xff) = next.byte() else {
                return Err(self.breaks(Rule::Stray));
            };
            let after = next;
            match next.byte() {
                None => return Err(self.breaks(Rule::Truncated)),
                Some(0) => return Err(self.breaks(Rule::Stray)),
                Some(0xff) => *self = after,
                Some(code) => {
                    *self = next;
                    return Ok(code);
                }
            }
        }
        Err(self.breaks(Rule::Truncated))
    }

    /// Takes a segment from its length on (B.1.1.4), and returns what follows its length.
    pub(crate) fn segment(&mut self) -> Result<Cursor<'a>, Stop>
        ensures { IfOk result
            (λ part. self.old.rest.now ≡ with_length part.rest.now ++ self.new.rest.now) }
    {
        let start = self.offset();
        let Some(length) = self.number() else {
            return Err(Rule::Truncated.at(self.end));
        };
        let Some(length) = usize::from(length).checked_sub(2) else {
            return Err(Rule::Length.at(start));
        };
        let offset = self.offset();
        let Some((data, rest)) = self.rest.split_at_checked(length) else {
            return Err(Rule::Truncated.at(self.end));
        };
        self.rest = rest;
        Ok(Cursor {
            rest: data,
            end: offset.saturating_add(length),
        })
    }
}
