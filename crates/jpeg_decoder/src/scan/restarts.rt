//! The restart markers of a scan (T.81, E.2.4).
ghost use Rattle.std.specs.Prelude.{◌≡◌, Err, IfErr, IfOk, OnErr, OnOk, false, true};
ghost use Rattle.jpeg_bits.specs.declared.beyond.Beyond.TheVariants.{Nothing, Zeros};
ghost use Rattle.jpeg_decoder.specs.Reaching.{is_out_of_memory};
ghost use Rattle.jpeg_bits.specs.Reading.{Answers};
ghost use Rattle.jpeg_bits.specs.Entropy.{Takes};
ghost use Rattle.jpeg_bits.specs.Intervals as intervals;
ghost use Rattle.jpeg_meaning.specs.InTurn.{restart_from};
ghost use Rattle.jpeg_decoder.specs.Steps.{is_restart_marker, after_all};

use jpeg_bits::beyond::Beyond;
use jpeg_bits::error::{Error, Result, format_error};
use jpeg_bits::huffman::HuffmanDecoder;
use jpeg_bits::marker::{Marker, read_marker, restart_error};
use jpeg_bits::source::Source;
use std::alloc::Global;
use std::io::Read;

/// Returns whether a marker is the restart marker of a number, which counts modulo 8.
pub fn is_numbered(marker: Option<Marker>, number: u8) -> bool
    ensures { result ≡ intervals.is_restart number marker }
{
    match marker {
        Some(Marker::RST(n)) => n == number % 8,
        _ => false,
    }
}

/// Reads the restart marker of a number after an interval. The next interval begins, and `beyond`
/// follows the marker that ends it.
#[tactic(auto, unfolding(jpeg_meaning::specs::InTurn::restart_from))]
pub fn read_restart<R: Read + Drop>(
    alloc: Global,
    decoder: &mut HuffmanDecoder,
    source: &mut Source<R>,
    number: u8,
    beyond: Beyond,
) -> Result<()>
    ensures { Takes (λ _. tt) (restart_from beyond number)
        decoder.old source.old result decoder.new source.new }
{
    let marker = decoder.take_marker(source)?;
    decoder.reset();
    if beyond == Beyond::Nothing {
        *decoder = HuffmanDecoder::with_beyond(alloc, beyond);
    }
    if !is_numbered(marker, number) {
        return Err(restart_error(alloc, marker, number));
    }
    Ok(())
}

/// Returns whether a restart marker was reached.
fn is_restart(met: Option<Marker>) -> bool
    ensures { result ≡ is_restart_marker met }
{
    matches!(met, Some(Marker::RST(_)))
}

/// Returns whether nothing counts of a scan whose data ended so: they were refused where zeros
/// follow the markers that end them, or memory ran out.
pub fn is_lost(beyond: Beyond, met: &Result<Option<Marker>>) -> bool
    ensures lost { result ≡ true → OnOk met.now ⊥ }
    ensures memory { result ≡ true → beyond ≡ Nothing → is_out_of_memory met.now ≡ true }
    ensures counts { result ≡ false → beyond ≡ Zeros → OnErr met.now ⊥ }
    ensures there { result ≡ false → is_out_of_memory met.now ≡ false }
{
    match met {
        Ok(_) => false,
        Err(Error::OutOfMemory) => true,
        Err(_) => beyond == Beyond::Zeros,
    }
}

/// Passes over the restart markers after the data of a scan, which were read without a fault, and
/// returns the marker after them, if one was reached.
pub fn pass_after<R: Read + Drop>(
    alloc: Global,
    source: &mut Source<R>,
    read: Result<Option<Marker>>,
) -> Result<Option<Marker>>
    ensures passed { IfOk read (λ met. Answers (λ m. m) (after_all met) source.old result
        source.new) }
    ensures refused { IfErr read (λ e. (result ≡ Err e) × (source.new ≡ source.old)) }
{
    match read {
        Ok(met) => pass_restarts(alloc, source, met),
        Err(e) => Err(e),
    }
}

/// Skips restart markers after a scan, and returns the marker after them, if it was reached.
pub fn pass_restarts<R: Read + Drop>(
    alloc: Global,
    source: &mut Source<R>,
    met: Option<Marker>,
) -> Result<Option<Marker>>
    ensures { Answers (λ m. m) (after_all met) source.old result source.new }
{
    let mut met = met;
    for _ in 0..=u64::MAX {
        if !is_restart(met) {
            return Ok(met);
        }
        met = Some(read_marker(alloc, source)?);
    }
    Err(format_error(alloc, "found 2^64 restart markers, expected another marker"))
}
