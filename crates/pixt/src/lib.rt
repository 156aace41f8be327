// PIXT between a register and memory, linear and XY.
#![tactic(auto)]

ghost use Rattle.std.specs.Prelude.{◌≡◌, false, ◌*◌, ◌%◌, ◌^◌, length, Some, IfSome};
ghost use Rattle.pixel.specs.Pixel.{bad_pixel_size, top_of, pixel_of};
ghost use Rattle.address.specs.Address.{misaligned};
ghost use Rattle.lone.specs.Lone.{linear_pixel, xy_source, xy_destination};
ghost use Rattle.pixt.specs.Pixt.{refused_pixel, done_pixel, pixel_drawn, lone_drawn};
ghost use Rattle.pixt.specs.Pixt.{low_bits, pixt_to, register_value, pixel_value, pixt_from};

use answers::Refused;
use lone::Lone;
use plot::{Drawing, Source};
use settings::Settings;
use walk::Walk;

// What a call on one pixel hands back: pixels visited, 0 or 1; V and the request; the register,
// which is the value that PIXT reads (0 where it writes) or DRAV's point; the settings as given.
#[derive(Clone, Copy)]
pub struct PixelResult {
    pub visited: u32,
    pub v: bool,
    pub request: bool,
    pub register: u32,
    pub settings: Settings,
}

impl PixelResult {
    // What a refused call leaves.
    pub fn refused(s: Settings, v: bool, register: u32) -> PixelResult
        ensures { result ≡ refused_pixel s v register }
    {
        PixelResult {
            visited: 0,
            v,
            request: false,
            register,
            settings: s,
        }
    }

    // What a call hands back that is not refused.
    pub fn done(s: Settings, l: Lone, register: u32) -> PixelResult
        ensures { result ≡ done_pixel s l register }
    {
        PixelResult {
            visited: u32::from(l.pixel.is_some()),
            v: l.v,
            request: l.request,
            register,
            settings: s,
        }
    }
}

// PIXT register to memory at a linear address.
pub fn pixt_to_linear(
    memory: &mut [u16],
    s: Settings,
    value: u32,
    address: u32,
    v: bool,
) -> Result<PixelResult, Refused>
    ensures { let m = memory.old in let at = linear_pixel (length m) s address v in
        (result ≡ pixt_to s at) × (memory.new ≡ lone_drawn s at (low_bits s value) m) }
{
    let l = lone::linear_pixel(memory.len(), s, address, v)?;
    draw_register(memory, s, l.pixel, value);
    Ok(PixelResult::done(s, l, 0))
}

// PIXT register to memory at an XY address.
pub fn pixt_to_xy(
    memory: &mut [u16],
    s: Settings,
    value: u32,
    xy: u32,
    v: bool,
) -> Result<PixelResult, Refused>
    ensures { let m = memory.old in let at = xy_destination (length m) s xy v in
        (result ≡ pixt_to s at) × (memory.new ≡ lone_drawn s at (low_bits s value) m) }
{
    let l = lone::xy_destination(memory.len(), s, xy, v)?;
    draw_register(memory, s, l.pixel, value);
    Ok(PixelResult::done(s, l, 0))
}

// PIXT memory at a linear address to register. The memory stays as lent.
pub fn pixt_from_linear(
    memory: &mut [u16],
    s: Settings,
    address: u32,
    v: bool,
) -> Result<PixelResult, Refused>
    ensures { let m = memory.old in let at = linear_pixel (length m) s address v in
        (result ≡ pixt_from s at m) × (memory.new ≡ m) }
{
    let l = lone::linear_pixel(memory.len(), s, address, v)?;
    let value = pixel_value(memory, s, l.pixel);
    Ok(PixelResult::done(s, l, value))
}

// PIXT memory at an XY address to register. The memory stays as lent.
pub fn pixt_from_xy(
    memory: &mut [u16],
    s: Settings,
    xy: u32,
    v: bool,
) -> Result<PixelResult, Refused>
    ensures { let m = memory.old in let at = xy_source (length m) s xy v in
        (result ≡ pixt_from s at m) × (memory.new ≡ m) }
{
    let l = lone::xy_source(memory.len(), s, xy, v)?;
    let value = pixel_value(memory, s, l.pixel);
    Ok(PixelResult::done(s, l, value))
}

// Draws a pixel in a colour. A drawing of one pixel: the engine takes the colour at the pixel's
// place in its word.
pub fn draw(memory: &mut [u16], s: Settings, address: u32, color: u16)
    ensures { let source = pixel_of (top_of s.psize) color address in
        memory.new ≡ pixel_drawn s (Some address) source memory.old }
{
    let pp = control::processing(s.control);
    let t = control::transparency(s.control);
    let d = Drawing {
        cols: 1,
        rows: 1,
        dest: Walk {
            start: address,
            pitch: 0,
            step: 0,
        },
        source: Source::Color,
        src: Walk {
            start: 0,
            pitch: 0,
            step: 0,
        },
        psize: s.psize,
        pp,
        t,
        pmask: s.pmask,
        color0: 0,
        color1: color,
    };
    engine::run(memory, d, 0, 1);
}

// Draws the pixel, if there is one, in a register's low bits. Such a pixel has a size and is
// aligned.
fn draw_register(memory: &mut [u16], s: Settings, pixel: Option<u32>, value: u32)
    requires { IfSome pixel
        (λ a. (bad_pixel_size s.psize ≡ false) × (misaligned s.psize a ≡ false)) }
    ensures { memory.new ≡ pixel_drawn s pixel (low_bits s value) memory.old }
{
    if let Some(address) = pixel {
        draw(memory, s, address, at_place(value, address));
    }
}

// A register's bits, shifted to an address's place in its word.
fn at_place(value: u32, address: u32) -> u16
    ensures { result ≡ value * 2 ^ (address % 16) % 2 ^ 16 }
{
    ((value << (address % 16)) % address::HALF) as u16
}

// What is read of the pixel, if there is one.
fn pixel_value(memory: &[u16], s: Settings, pixel: Option<u32>) -> u32
    ensures { result ≡ pixel_value s pixel memory.now }
{
    match pixel {
        Some(address) => register_value(memory, s, address),
        None => 0,
    }
}

// The pixel with masked bits 0.
fn register_value(memory: &[u16], s: Settings, address: u32) -> u32
    ensures { result ≡ register_value s address memory.now }
{
    let top = pixel::top_of(s.psize);
    let mask = pixel::pixel_of(top, s.pmask, address);
    let word = memory::word_at(memory, u64::from(address / 16));
    let found = pixel::pixel_of(top, word, address);
    u32::from(found & (mask ^ top))
}
