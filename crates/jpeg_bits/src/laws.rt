//! What the definitions of entropy-coded data mean in plain words, each a theorem on a function
//! without a body.
ghost use Rattle.std.specs.Prelude.{◌≡◌, ℕ, ◌<◌, ◌≤◌, ◌^◌, List, Bool, true, drop, length};
ghost use Rattle.std.specs.Prelude.{slice_index, Some, Ok, Err};
ghost use Rattle.jpeg_bits.specs.Entropy.{bits_from, text_at, upcoming, fresh, advance};
ghost use Rattle.jpeg_bits.specs.Entropy.{marker_from, Text};
ghost use Rattle.jpeg_bits.specs.Codes.{Table, IsTable, HasCodes, codes_exist, code_lengths};
ghost use Rattle.jpeg_bits.specs.Codes.{code_in, begins, symbol_from};
ghost use Rattle.jpeg_bits.specs.Written.{low_bits, code_bits};
ghost use Rattle.jpeg_bits.specs.Readers.{ReadsJust};
ghost use Rattle.jpeg_bits.specs.Intervals.{end_after};
ghost use Rattle.jpeg_bits.specs.Reading.{Fault, End};
ghost use Rattle.jpeg_bits.specs.Marker.{next_marker};
ghost use Rattle.jpeg_bits.specs.NextMarker.{IsNextMarker, HasNoMarker};
ghost use Rattle.jpeg_bits.specs.declared.marker.Marker.{Marker};
ghost use Rattle.jpeg_bits.specs.declared.huffman.codes.HuffmanTableClass.TheVariants.{AC};
ghost use Rattle.jpeg_bits.specs.Bands.{token_from};
ghost use Rattle.jpeg_bits.specs.Lookups.{looked_up};

/// A number is read from its bits, and from nothing else.
#[tactic(auto, using(crate::proofs::Rules::laws))]
pub fn numbers_are_read()
    ensures { (n v : ℕ) → v < 2 ^ n → ReadsJust (bits_from n) (low_bits n v) v }
{}

/// Each symbol of a table that exists is read from the bits of its code, and from nothing else.
#[tactic(auto, using(crate::proofs::Rules::codes))]
pub fn codes_are_read()
    ensures { (table : Table) (i : ℕ) → IsTable table → i < length (code_lengths table.counts) →
        ReadsJust (symbol_from table) (code_bits table i) (slice_index table.symbols i) }
{}

/// No two codes begin the same bits, and the one that does is found.
pub fn codes_are_unique()
    ensures only { (counts : List ℕ) (bits : List Bool) (i j : ℕ) → length counts ≡ 16
        → 16 ≤ length bits →
        i < length (code_lengths counts) → j < length (code_lengths counts) →
        begins (code_lengths counts) bits i ≡ true → begins (code_lengths counts) bits j ≡ true
        → i ≡ j }
    ensures found { (counts : List ℕ) (bits : List Bool) (i : ℕ) → length counts ≡ 16
        → 16 ≤ length bits →
        i < length (code_lengths counts) → begins (code_lengths counts) bits i ≡ true →
        code_in (code_lengths counts) bits ≡ Some (i, slice_index (code_lengths counts) i) }
{}

/// An interval in which k bits were taken ends as `end_after` says.
#[tactic(auto, using(crate::proofs::Rules::laws))]
pub fn intervals_end()
    ensures { (k : ℕ) (bytes : List ℕ) → marker_from (advance k (upcoming fresh bytes))
        ≡ end_after k bytes (drop k (text_at bytes).bits) (text_at bytes).ending }
{}

/// Whether the codes of a table exist can be computed.
#[tactic(auto, using(crate::proofs::Rules::codes))]
pub fn codes_exist_or_not()
    ensures exist { (lengths : List ℕ) → HasCodes lengths → codes_exist lengths ≡ true }
    ensures tested { (lengths : List ℕ) → codes_exist lengths ≡ true → HasCodes lengths }
{}

/// The next marker is at the least index where a byte 255 and the byte after it make a marker
/// (T.81, B.1.1.2), and what is read on is all after both. Where they make one at no index, the
/// bytes end first.
#[tactic(auto, using(crate::proofs::Rules::markers))]
pub fn next_markers_are_first()
    ensures found { (bytes : List ℕ) (i : ℕ) (m : Marker) (rest : List ℕ)
        → IsNextMarker bytes i m rest →
        next_marker bytes ≡ Ok (m, rest) }
    ensures only { (bytes : List ℕ) (m : Marker) (rest : List ℕ) → next_marker bytes ≡ Ok (m, rest)
        →
        (i : ℕ) × IsNextMarker bytes i m rest }
    ensures none { (bytes : List ℕ) → HasNoMarker bytes → next_marker bytes ≡ Err End }
    ensures refused { (bytes : List ℕ) (f : Fault) → next_marker bytes ≡ Err f → HasNoMarker bytes }
{}

/// A token that is looked up, in a table for AC, is the token that is defined: a code and the bits
/// after it.
#[tactic(auto, using(crate::proofs::Rules::laws))]
pub fn tokens_are_looked_up()
    ensures { (table : Table) (room : ℕ) (t : Text) → table.class ≡ AC →
        token_from table room t ≡ looked_up table room t }
{}
