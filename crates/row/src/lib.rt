// The pixels of one row of a drawing, drawn one after the other.
#![tactic(auto)]

ghost use Rattle.std.specs.Prelude.{◌≡◌, bit_and, slice_index};
ghost use Rattle.memory.specs.Bits.{bit_at};
ghost use Rattle.pixel.specs.Pixel.{top_of};
ghost use Rattle.row.specs.Row.{source_at, drawn_at, row_drawn};
ghost use Rattle.row.specs.Colors.{colors_of};

use plot::{Drawing, Source};

// n pixels of a row are drawn; src and dest are where the first is.
pub fn draw_row(memory: &mut [u16], d: Drawing, src: u32, dest: u32, n: u64)
    ensures { memory.new ≡ row_drawn d src dest n memory.old }
{
    let colors = colors_of(d);
    let mut from = src;
    let mut to = dest;
    let mut i: u64 = 0;
    while i < n {
        draw_at(memory, d, colors, from, to);
        from = std::num::wrapping_add_u32(from, d.src.step);
        to = std::num::wrapping_add_u32(to, d.dest.step);
        i += 1;
    }
}

// The pixel at `to` is drawn from the source at `from`.
fn draw_at(memory: &mut [u16], d: Drawing, colors: [u32; 2], from: u32, to: u32)
    requires { colors ≡ colors_of d }
    ensures { memory.new ≡ drawn_at d from to memory.old }
{
    let at = (to / 16) as usize;
    if at < memory.len() {
        let s = source_at(memory, d, colors, from, to);
        memory[at] = plot::word_after(d, to, s, memory[at]);
    }
}

// The source at `from`, for a destination at `to`; bits above the pixel may be set.
fn source_at(memory: &[u16], d: Drawing, colors: [u32; 2], from: u32, to: u32) -> u32
    requires { colors ≡ colors_of d }
    ensures { bit_and result (top_of d.psize) ≡ source_at d from to memory.now }
{
    let source = d.source;
    match source {
        Source::Color => plot::shifted(plot::wide(d.color1), to),
        Source::Pixels => {
            let word = memory::word_at(memory, (from / 16) as u64);
            plot::shifted(plot::wide(word), from)
        }
        Source::Bits => plot::shifted(color_at(memory, colors, from), to),
    }
}

// The colour that a bit of a B source chooses. An array, as a test would be a branch that is often
// guessed wrong.
fn color_at(memory: &[u16], colors: [u32; 2], from: u32) -> u32
    ensures { result ≡ slice_index colors (bit_at memory.now from) }
{
    let bit = memory::bit_at(memory, from as u64);
    colors[bit as usize]
}

// COLOR0 and COLOR1.
fn colors_of(d: Drawing) -> [u32; 2]
    ensures { result ≡ colors_of d }
{
    let zero = plot::wide(d.color0);
    let one = plot::wide(d.color1);
    [zero, one]
}
