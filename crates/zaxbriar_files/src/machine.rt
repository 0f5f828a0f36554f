//! How much memory the machine has.
ghost use Rattle.std.specs.Prelude.{◌≡◌, ◌∷◌, [], None, Some};
ghost use Rattle.zaxbriar_files.specs.Machine.{number_from, share_of};

use std::fs::File;
use std::io;
use std::io::Read;

/// The file whose first line is `MemTotal: N kB`.
const MEMORY: &str = "/proc/meminfo";

/// What that line begins with.
const TOTAL: &[u8] = b"MemTotal:";

/// The file that has the limit of the control group in bytes, or `max`.
const GROUP: &str = "/sys/fs/cgroup/memory.max";

/// Returns the number whose digits the first line of a text has, as far as 64 bits hold it, and 0
/// if it has none.
fn number_in(text: &[u8]) -> u64
    ensures { result ≡ number_from 0 text.now }
{
    let mut number = 0u64;
    for &byte in text {
        if byte == b'\n' {
            break;
        }
        if byte.is_ascii_digit() {
            number = number
                .saturating_mul(10)
                .saturating_add(u64::from(byte - b'0'));
        }
    }
    number
}

/// Returns half of the bytes of a machine, which has so many kilobytes, or of its control group,
/// which has so many bytes, if those are fewer. A number of 0 isn't known; there is none where
/// neither is.
fn share_of(kilobytes: u64, group: u64) -> Option<u64>
    ensures { result ≡ share_of kilobytes group }
{
    let bytes = kilobytes.saturating_mul(1024);
    match (bytes, group) {
        (0, 0) => None,
        (0, most) | (most, 0) => Some(most / 2),
        (bytes, group) => Some(bytes.min(group) / 2),
    }
}

/// Reads the beginning of a file of the system, which one read gives.
fn read_start(rt: &HostRuntime, name: &str, start: &mut [u8]) -> io::Result<usize> {
    let mut file = File::open(rt, name)?;
    file.read(start)
}

/// Returns the number in the first line of a file of the system that begins with these bytes, and 0
/// if it has none, or can't be read.
fn number_of_file(rt: &HostRuntime, name: &str, beginning: &[u8]) -> u64 {
    let mut start = [0u8; 64];
    let length = read_start(rt, name, &mut start).unwrap_or(0);
    let text = &start[..length.min(64)];
    if text.starts_with(beginning) {
        number_in(text)
    } else {
        0
    }
}

/// Returns how many bytes a picture may take by default: half of the memory of the machine, or of
/// the control group of the program, if that is less. There is no such limit where neither can be
/// read.
pub fn share(rt: &HostRuntime) -> Option<u64> {
    share_of(
        number_of_file(rt, MEMORY, TOTAL),
        number_of_file(rt, GROUP, b""),
    )
}

/// Gives the numbers of worked lines, and the shares of worked machines.
#[tactic(auto, unfolding(crate::specs::Machine::number_from))]
pub fn known_shares()
    // `a: 16 kB`, a line feed and `7`; `max`; nothing.
    ensures digits { number_from 0 (97 ∷ 58 ∷ 32 ∷ 49 ∷ 54 ∷ 32 ∷ 107 ∷ 66 ∷ 10 ∷ 55 ∷ []) ≡ 16 }
    ensures letters { number_from 0 (109 ∷ 97 ∷ 120 ∷ 10 ∷ []) ≡ 0 }
    ensures empty { number_from 0 [] ≡ 0 }
    // A machine of 4 kilobytes, alone, with a group of 1000 bytes or of 5000; a group alone;
    // neither.
    ensures machine { share_of 4 0 ≡ Some 2048 }
    ensures group { share_of 4 1000 ≡ Some 500 }
    ensures above { share_of 4 5000 ≡ Some 2048 }
    ensures alone { share_of 0 1000 ≡ Some 500 }
    ensures neither { share_of 0 0 ≡ None }
{}
