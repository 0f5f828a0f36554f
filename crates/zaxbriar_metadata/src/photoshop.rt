//! IPTC data among the image resources of Photoshop (Photoshop File Formats Specification, Image
//! Resource Blocks).
ghost use Rattle.std.specs.Prelude.{◌≡◌, ◌<◌, ◌^◌, MatchOption, None, Some, drop, length};
ghost use Rattle.std.specs.Option.{option_copied};
ghost use Rattle.zaxbriar_metadata.specs.Photoshop.{even, first_resource, iptc_in, resource_of};

use jpeg_orientation::tiff::{long_at, short_at};

/// The number of the resource that IPTC data are.
const IPTC: u16 = 0x0404;

/// The least number of bytes of a resource.
const LEAST: usize = 12;

/// Returns the next even number.
fn even(size: usize) -> usize
    requires { size < 2 ^ 32 }
    ensures { result ≡ even size }
{
    size + size % 2
}

/// Returns the bytes after so many, or none if there are fewer.
#[tactic(auto, using(crate::proofs::Rules::ends))]
fn after(bytes: &[u8], count: usize) -> &[u8]
    ensures { result.now ≡ drop count bytes.now }
{
    match bytes.split_at_checked(count) {
        Some((_, rest)) => rest,
        None => &[],
    }
}

/// Returns the number and the data of the resource that some bytes begin with, and the bytes after
/// it.
#[tactic(auto, using(crate::proofs::Rules::resources))]
fn first_resource(bytes: &[u8]) -> Option<(u16, &[u8], &[u8])>
    ensures { MatchOption result (first_resource bytes.now ≡ None)
        (λ r. first_resource bytes.now ≡ Some (record {
          number = r.0;
          bytes = r.1.now;
          rest = r.2.now;
        })) }
{
    if bytes.len() < LEAST || !bytes.starts_with(b"8BIM") {
        return None;
    }
    let number = short_at(bytes, 4, false)?;
    let size_at = 6 + even(1 + usize::from(bytes[6]));
    let size = long_at(bytes, size_at, false)? as usize;
    let (_, body) = bytes.split_at_checked(size_at + 4)?;
    let (resource, _) = body.split_at_checked(size)?;
    Some((number, resource, after(body, even(size))))
}

/// Returns the data of the first resource of a number.
#[tactic(auto, using(crate::proofs::Rules::numbered))]
fn resource_of(resources: &[u8], number: u16) -> Option<&[u8]>
    ensures { option_copied result ≡ resource_of number (length resources.now) resources.now }
{
    let mut rest = resources;
    for _ in 0..resources.len() {
        let (found, bytes, others) = first_resource(rest)?;
        if found == number {
            return Some(bytes);
        }
        rest = others;
    }
    None
}

/// Returns the IPTC data among image resources: the first resource of the number 0x0404. Resources
/// of several segments are joined before, since they go on from segment to segment.
#[tactic(auto, unfolding(crate::specs::Photoshop::iptc_in))]
pub fn iptc_of(resources: &[u8]) -> Option<&[u8]>
    ensures { option_copied result ≡ iptc_in resources.now }
{
    resource_of(resources, IPTC)
}
