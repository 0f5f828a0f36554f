//! The check of a zlib stream: Adler-32.
ghost use Rattle.std.specs.Prelude.{◌≡◌, ◌≤◌, ◌%◌, fold, length};
ghost use Rattle.zaxbriar_samples.specs.Png.{adler_byte, adler_of, sums};

/// The sums of Adler-32.
#[derive(Clone, Copy)]
pub(crate) struct Sums {
    /// The sum of the bytes, which begins at 1.
    bytes: u16,
    /// The sum of that sum after each byte.
    totals: u16,
}

/// Returns the sums before the first byte.
pub(crate) fn first_sums() -> Sums
    ensures { result ≡ sums 1 0 }
{
    Sums {
        bytes: 1,
        totals: 0,
    }
}

/// Returns sums as Adler-32 has them, modulo 65521.
fn reduced(bytes: u64, totals: u64) -> Sums
    ensures { result ≡ sums (bytes % 65521) (totals % 65521) }
{
    Sums {
        bytes: (bytes % 65521) as u16,
        totals: (totals % 65521) as u16,
    }
}

/// Returns the sums after some bytes: so few that 64 bits have their sums, which are reduced once.
pub(crate) fn adler_bytes(before: Sums, bytes: &[u8]) -> Sums
    requires { length bytes.now ≤ 1048576 }
    ensures { result ≡ fold adler_byte before bytes.now }
{
    if bytes.is_empty() {
        return before;
    }
    let mut sum = u64::from(before.bytes);
    let mut total = u64::from(before.totals);
    for &byte in bytes {
        sum += u64::from(byte);
        total += sum;
    }
    reduced(sum, total)
}

/// Returns the check of a zlib stream.
pub(crate) fn adler_of(sums: Sums) -> u32
    ensures { result ≡ adler_of sums }
{
    u32::from(sums.totals) * 65536 + u32::from(sums.bytes)
}
