// Coordinates, addresses and pitches.
#![tactic(auto)]

ghost use Rattle.std.specs.Prelude.{◌≡◌, ◌-◌};
ghost use Rattle.address.specs.Address.{xy_address, bad_xy_pitch, bad_linear_pitch, misaligned};
ghost use Rattle.address.specs.Coordinate.{x_of, y_of, negative, outside_xy};
ghost use Rattle.address.specs.Coordinate.{half_of, register_of};

use walk::Walk;

// 2^16: the low half of a register is what is left of it, the high half how often it has it.
pub const HALF: u32 = 65536;

// 2^15: the coordinate 0, as it is held.
const ZERO: u32 = 32768;

// ---- coordinates: each is held as itself plus 2^15

// X of a register.
pub fn x_of(xy: u32) -> u16
    ensures { result ≡ x_of xy }
{
    ((xy % HALF + ZERO) % HALF) as u16
}

// Y of a register.
pub fn y_of(xy: u32) -> u16
    ensures { result ≡ y_of xy }
{
    ((xy / HALF + ZERO) % HALF) as u16
}

// Is a coordinate below 0?
pub fn negative(c: u32) -> bool
    ensures { result ≡ negative c }
{
    c < ZERO
}

// 16 of an XY start: is its X or Y negative?
pub fn outside_xy(x: u32, y: u32) -> bool
    ensures { result ≡ outside_xy x y }
{
    negative(x) | negative(y)
}

// The register of two coordinates.
pub fn register_of(x: u16, y: u16) -> u32
    ensures { result ≡ register_of x y }
{
    half_of(y) * HALF + half_of(x)
}

// The half of a coordinate.
fn half_of(c: u16) -> u32
    ensures { result ≡ half_of c }
{
    (u32::from(c) + ZERO) % HALF
}

// ---- addresses and pitches

// The linear address of an XY start.
#[tactic(auto, unfolding(crate::specs::Address::xy_address))]
pub fn xy_address(offset: u32, pitch: u32, psize: u16, x: u32, y: u32) -> u32
    ensures { result ≡ xy_address offset pitch psize x y }
{
    let origin = Walk {
        start: offset,
        pitch,
        step: u32::from(psize),
    };
    walk::address_at(origin, y.saturating_sub(ZERO), x.saturating_sub(ZERO))
}

// Refusal 13 for an XY array or a lone XY pixel.
#[tactic(auto, using(crate::proofs::AddressLaws::bad_xy_pitch_by_bits))]
pub fn bad_xy_pitch(pitch: u32) -> bool
    ensures { result ≡ bad_xy_pitch pitch }
{
    (pitch < 16) | !pitch.is_power_of_two()
}

// Refusal 13 for a linear pixel array.
pub fn bad_linear_pitch(pitch: u32) -> bool
    ensures { result ≡ bad_linear_pitch pitch }
{
    !pitch.is_multiple_of(16)
}

// Refusal 16: is a linear address no multiple of the pixel size?
pub fn misaligned(psize: u16, address: u32) -> bool
    ensures { result ≡ misaligned psize address }
{
    !address.is_multiple_of(u32::from(psize))
}
