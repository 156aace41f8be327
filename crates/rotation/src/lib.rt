// log2 of a pitch, and Y's part of an XY address.
#![tactic(auto)]

ghost use Rattle.std.specs.Prelude.{◌≡◌, ◌+◌, ◌*◌, ◌^◌};
ghost use Rattle.rotation.specs.Rotation.{log2, rotated_left};

// The high half of an XY address, the low half cleared, rotated left by 16 plus log2 of the pitch
// in 32 bits.
pub fn rotated_half(half: u16, pitch: u32) -> u32
    ensures { result ≡ rotated_left (16 + log2 pitch) (half * 2 ^ 16) }
{
    (u32::from(half) << 16).rotate_left(16 + log2(pitch))
}

// log2 of a power of two; of other numbers the place of the highest bit, of 0 it is 0.
fn log2(pitch: u32) -> u32
    ensures { result ≡ log2 pitch }
{
    31u32.saturating_sub(pitch.leading_zeros())
}
