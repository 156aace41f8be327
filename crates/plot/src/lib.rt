// A drawing, and a pixel of it drawn into its word.
#![tactic(auto)]

ghost use Rattle.std.specs.Prelude.{◌≡◌, suc, ◌+◌, ◌-◌, ◌*◌, ◌/◌, ◌%◌, ◌^◌, ◌≤◌, ◌<◌, min, max};
ghost use Rattle.std.specs.Int.Bits.{bit_and};
ghost use Rattle.pixel.specs.PixelOp.{complement, processed};
ghost use Rattle.pixel.specs.Pixel.{top_of, pixel_of, word_after};
ghost use Rattle.plot.specs.Drawing.{pixels};
ghost use Rattle.plot.specs.Word.{replaced};

use walk::Walk;

// 2^16: words are less.
const WORDS: u32 = 65536;

// All 32 bits.
const ONES: u32 = 4294967295;

// What a destination pixel is drawn from: COLOR1, a source pixel, or one bit that chooses COLOR1 or
// COLOR0.
#[derive(Clone, Copy)]
pub enum Source {
    Color,
    Pixels,
    Bits,
}

// A drawing, after the window: columns and rows, destination and source walks, and what is done to
// each pixel.
#[derive(Clone, Copy)]
pub struct Drawing {
    pub cols: u16,
    pub rows: u16,
    pub dest: Walk,
    pub source: Source,
    pub src: Walk,
    pub psize: u16,
    pub pp: u16,
    pub t: bool,
    pub pmask: u16,
    pub color0: u16,
    pub color1: u16,
}

// The pixels of a drawing.
pub fn pixels(d: Drawing) -> u64
    ensures { result ≡ pixels d }
{
    (d.cols as u64) * (d.rows as u64)
}

// A word at an address's place in it.
pub fn shifted(word: u32, address: u32) -> u32
    ensures { result ≡ word / 2 ^ (address % 16) }
{
    word >> (address % 16)
}

pub fn wide(word: u16) -> u32
    ensures { result ≡ word }
{
    word as u32
}

// The word after its pixel at an address is drawn from s, of which the pixel's bits count.
pub fn word_after(d: Drawing, address: u32, s: u32, word: u16) -> u16
    ensures { let top = top_of d.psize in
        result ≡ word_after d.pp d.t top d.pmask address (bit_and s top) word }
{
    let top = wide(pixel::top_of(d.psize));
    blend(d, top, address, s, word)
}

// The same, with the greatest pixel at hand. T: where the result is 0 nothing is written. T is
// tested first: the result is not to be guessed.
fn blend(d: Drawing, top: u32, address: u32, s: u32, word: u16) -> u16
    requires { top ≡ top_of d.psize }
    ensures { result ≡ word_after d.pp d.t top d.pmask address (bit_and s top) word }
{
    let planes = planes_at(d, top, address);
    let old = shifted(wide(word), address) & planes;
    let result = process(d, top, s & planes, old) & planes;
    if d.t {
        if result == 0 {
            return word;
        }
        return replace(word, address, planes, result);
    }
    replace(word, address, planes, result)
}

// The bits of the pixel at an address that the plane mask lets through.
fn planes_at(d: Drawing, top: u32, address: u32) -> u32
    requires { top ≡ top_of d.psize }
    ensures { result ≡ complement top (pixel_of top d.pmask address) }
{
    shifted(wide(d.pmask) ^ ONES, address) & top
}

// The word with a result in the place of the enabled bits of its pixel at an address.
fn replace(word: u16, address: u32, planes: u32, res: u32) -> u16
    requires { (planes < 2 ^ 16) × (res < 2 ^ 16) }
    ensures { result ≡ replaced word address planes res }
{
    let shift = address % 16;
    let old = (word as u32) & (planes << shift);
    let kept = (word as u32) - old;
    ((kept + (res << shift)) % WORDS) as u16
}

// The operation PP, in the scope's order.
fn process(w: Drawing, top: u32, s: u32, d: u32) -> u32
    requires { (top ≡ top_of w.psize) × (s ≤ top) × (d ≤ top) }
    ensures { result ≡ processed w.pp top s d }
{
    let pp = w.pp;
    match pp {
        0 => s,
        1 => s & d,
        2 => s & (d ^ top),
        3 => 0,
        4 => s | (d ^ top),
        5 => (s ^ d) ^ top,
        6 => d ^ top,
        7 => (s | d) ^ top,
        8 => s | d,
        9 => d,
        10 => s ^ d,
        11 => (s ^ top) & d,
        12 => top,
        13 => (s ^ top) | d,
        14 => (s & d) ^ top,
        15 => s ^ top,
        16 => add(w, top, s, d),
        17 => add_saturated(top, s, d),
        18 => subtract(w, top, s, d),
        19 => subtract_saturated(s, d),
        20 => greater(s, d),
        21 => lesser(s, d),
        _ => 0,
    }
}

// PP 16: S + D mod 2^P.
fn add(w: Drawing, top: u32, s: u32, d: u32) -> u32
    requires { (top ≡ top_of w.psize) × (s ≤ top) × (d ≤ top) }
    ensures { result ≡ (s + d) % suc top }
{
    (s + d) & top
}

// PP 17: the lesser of S + D and top.
fn add_saturated(top: u32, s: u32, d: u32) -> u32
    requires { (s ≤ top) × (d ≤ top) × (top < 2 ^ 16) }
    ensures { result ≡ min (s + d) top }
{
    s + lesser(d, top - s)
}

// PP 18: D - S mod 2^P.
fn subtract(w: Drawing, top: u32, s: u32, d: u32) -> u32
    requires { (top ≡ top_of w.psize) × (s ≤ top) × (d ≤ top) }
    ensures { result ≡ (d + suc top - s) % suc top }
{
    (d + (top - s) + 1) & top
}

// PP 19: D - S, or 0 if negative.
fn subtract_saturated(s: u32, d: u32) -> u32
    ensures { result ≡ d - s }
{
    if s <= d { d - s } else { 0 }
}

// PP 20: the greater.
fn greater(s: u32, d: u32) -> u32
    ensures { result ≡ max s d }
{
    if s < d { d } else { s }
}

// PP 21: the lesser.
fn lesser(s: u32, d: u32) -> u32
    ensures { result ≡ min s d }
{
    if s < d { s } else { d }
}
