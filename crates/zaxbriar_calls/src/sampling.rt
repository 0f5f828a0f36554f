//! The sampling factors of the components of a frame.
ghost use Rattle.std.specs.Prelude.{◌≡◌, map};
ghost use Rattle.jpeg_segments.specs.FrameView.{component_in};
ghost use Rattle.zaxbriar_calls.specs.Sampling.{factors_byte, sampling_of};

use jpeg_decoder::parser::Component;

/// Returns the sampling factors of a component, each in four bits, the horizontal one in the
/// higher.
fn factors_byte(component: &Component) -> u8
    ensures { result ≡ factors_byte (component_in component.now) }
{
    16 * (component.horizontal_sampling_factor % 16) + component.vertical_sampling_factor % 16
}

/// Returns those of the components of a picture, and 0 for those that it doesn't have.
pub fn sampling_of(components: &[Component]) -> [u8; 4]
    ensures { result ≡ sampling_of (map component_in components.now) }
{
    match components {
        [a] => [factors_byte(a), 0, 0, 0],
        [a, b, c] => [factors_byte(a), factors_byte(b), factors_byte(c), 0],
        [a, b, c, d] => [
            factors_byte(a),
            factors_byte(b),
            factors_byte(c),
            factors_byte(d),
        ],
        _ => [0; 4],
    }
}
