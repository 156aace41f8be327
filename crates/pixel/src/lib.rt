// The pixel size, and the pixel of a word. A pixel of P bits is given by top, the greatest of them,
// and its place in a word by its bit address. No public function asks anything of its arguments.
#![tactic(auto)]

ghost use Rattle.std.specs.Prelude.{◌≡◌};
ghost use Rattle.pixel.specs.Pixel.{bad_pixel_size, top_of, pixel_of};

// Refusal 11: is this no pixel size?
pub fn bad_pixel_size(psize: u16) -> bool
    ensures { result ≡ bad_pixel_size psize }
{
    !matches!(psize, 1 | 2 | 4 | 8 | 16)
}

// The greatest pixel of psize bits.
pub fn top_of(psize: u16) -> u16
    ensures { result ≡ top_of psize }
{
    if psize < 16 {
        (1u16 << psize) - 1
    } else {
        u16::MAX
    }
}

// The pixel of a word at an address.
#[tactic(auto, unfolding(crate::specs::Pixel::pixel_of))]
pub fn pixel_of(top: u16, word: u16, address: u32) -> u16
    ensures { result ≡ pixel_of top word address }
{
    (word >> (address % 16)) & top
}
