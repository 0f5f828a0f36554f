//! The lines of a picture that was decoded, one after the other.
ghost use Rattle.jpeg_bits.specs.declared.error.Error.TheVariants.{OutOfMemory};

use crate::picture::lines::Lines;
use jpeg_bits::error::Result;
use std::alloc::Global;
use std::marker::Model;

/// Lines of a picture that are left, and the last one that was taken.
#[derive(Drop)]
pub struct Shown {
    lines: Lines,
    taken: usize,
    line: Vec<u8>,
}

impl Model for Shown {
    ghost use Rattle.std.specs.Prelude.{drop, length};
    ghost use Rattle.jpeg_decoder.specs.Bytes.{HaveBytes};
    ghost use Rattle.jpeg_decoder.specs.RowsView.{LinesLeft, line_taken};

    ghost Value = { LinesLeft };

    ghost view = { λ s. record {
      left = drop s.taken s.lines;
      line = line_taken s.taken s.line.items;
    } };

    // There is room for a line.
    ghost invariant = { λ s. HaveBytes (length s.line.items) s.lines };
}

impl Shown {
    ghost use Rattle.std.specs.Prelude.{◌≡◌, ◌∷◌, [], IfErr, IfOk, false, true};

    /// Takes the lines of a picture, all of which are left. The only error is `OutOfMemory`.
    pub fn new(alloc: Global, lines: Lines) -> Result<Shown>
        ensures ok { IfOk result (λ s. s ≡ record { left = lines; line = [] }) }
        ensures err { IfErr result (λ e. e ≡ OutOfMemory) }
    {
        let line = vec![in alloc; 0; lines.line_bytes()]?;
        Ok(Shown {
            lines,
            taken: 0,
            line,
        })
    }

    /// Takes the next line, and returns whether there was one.
    pub fn next(&mut self) -> bool
        ensures some { result ≡ true → self.old.left ≡ self.new.line ∷ self.new.left }
        ensures none { result ≡ false → (self.old.left ≡ []) × (self.new ≡ self.old) }
    {
        if self.taken >= self.lines.height() {
            return false;
        }
        self.lines.write_line(self.taken, &mut self.line);
        self.taken += 1;
        true
    }

    /// Returns the line that was taken last, or none before the first.
    pub fn line(&self) -> &[u8]
        ensures { result.now ≡ self.now.line }
    {
        if self.taken == 0 {
            return &[];
        }
        &self.line
    }
}
