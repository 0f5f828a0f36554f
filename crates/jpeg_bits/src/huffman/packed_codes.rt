//! A code of at most 8 bits in the two bytes of an entry of its look-up table.
ghost use Rattle.std.specs.Prelude.{◌≡◌, ◌≤◌, IfSome};
ghost use Rattle.jpeg_bits.specs.ShortCodes.{unpacked_code};

/// Packs a code into two bytes: 256 times its length, and its symbol. No code is packed into 0.
#[inline(always)]
#[tactic(auto, unfolding(crate::specs::ShortCodes::unpacked_code))]
pub(crate) fn packed_code(code: Option<(u8, u8)>) -> u16
    requires { IfSome code (λ c. 1 ≤ c.1) }
    ensures { unpacked_code result ≡ code }
{
    match code {
        Some((symbol, length)) => (u16::from(length) << 8) | u16::from(symbol),
        None => 0,
    }
}

/// Returns the code that `packed_code` packed.
#[inline(always)]
#[tactic(auto, unfolding(crate::specs::ShortCodes::unpacked_code))]
pub(crate) fn unpacked_code(code: u16) -> Option<(u8, u8)>
    ensures { result ≡ unpacked_code code }
{
    if code == 0 {
        return None;
    }
    Some(((code % 256) as u8, (code >> 8) as u8))
}
