//! Copies of data in the caller's memory.
ghost use Rattle.std.specs.Prelude.{◌≡◌, ◌<◌, ◌≤◌, length, None};
ghost use Rattle.std.specs.Option.{option_copied};
ghost use Rattle.zaxbriar_calls.specs.Metadata.{IsCopied, IsLonger};

use crate::answers::{NO_DATA, NO_ROOM, OK};

/// Copies data if there are any and they fit, and writes how many bytes they have.
pub fn copy_data(found: Option<&[u8]>, buffer: &mut [u8], count: &mut u64) -> u32
    ensures copied { result ≡ 0
        → IsCopied (option_copied found.entry) buffer.old buffer.new count.new }
    ensures none { result ≡ 7 → option_copied found.entry ≡ None }
    ensures own { result < 4 → result ≡ 0 }
    ensures most { result ≤ 7 }
    ensures known { result ≡ 6 → ⊥ }
    ensures room { result ≡ 5
        → IsLonger (option_copied found.entry) (length buffer.old) count.new }
    ensures uncounted { (result ≡ 0 → ⊥) → (result ≡ 5 → ⊥) → count.new ≡ count.old }
    ensures kept { (result ≡ 0 → ⊥) → buffer.new ≡ buffer.old }
{
    match found {
        Some(bytes) => {
            *count = bytes.len() as u64;
            if bytes.len() <= buffer.len() {
                buffer[..bytes.len()].copy_from_slice(bytes);
                OK
            } else {
                NO_ROOM
            }
        }
        None => NO_DATA,
    }
}
