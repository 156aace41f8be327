// The refusals of a FILL or PIXBLT call.
#![tactic(auto)]

ghost use Rattle.std.specs.Prelude.{◌≡◌};
ghost use Rattle.array_refusal.specs.Refusal.{bad_pitch, bad_pitches, negative_start, bad_dest};
ghost use Rattle.array_refusal.specs.Refusal.{bad_source, bad_start, leaves, refusal_of};

use answers::Refused;
use operation::Operation;
use plot::Drawing;
use refusal::Tests;
use settings::Settings;
use windows::Clipped;

// The refusal, if there is one.
#[tactic(auto, unfolding(crate::specs::Refusal::refusal_of))]
pub fn refusal_of(
    op: Operation,
    s: Settings,
    c: Clipped,
    d: Drawing,
    place: u64,
    words: usize,
) -> Result<(), Refused>
    ensures { result ≡ refusal_of op s c d place words }
{
    let pitch = bad_pitches(op, s);
    let window = refusal::bad_window_of(operation::to_xy(op), s);
    let n = plot::pixels(d);
    let start = bad_start(op, s, c, d);
    let end = leaves(words, op, d);
    let tests = Tests {
        pitch,
        window,
        place: n < place,
        start,
        end,
    };
    refusal::lowest(words, s, tests)
}

fn bad_pitch(xy: bool, pitch: u32) -> bool
    ensures { result ≡ bad_pitch xy pitch }
{
    if xy {
        address::bad_xy_pitch(pitch)
    } else {
        address::bad_linear_pitch(pitch)
    }
}

fn bad_pitches(op: Operation, s: Settings) -> bool
    ensures { result ≡ bad_pitches op s }
{
    let to = bad_pitch(operation::to_xy(op), s.dptch);
    let from = bad_pitch(operation::from_xy(op), s.sptch);
    let pixels = operation::copies_pixels(operation::source_of(op));
    to | (pixels & from)
}

// Does an XY start after clipping have a negative X or Y?
fn negative_start(xy: u32, c: Clipped) -> bool
    ensures { result ≡ negative_start xy c }
{
    let x = arrays::start_x(xy, c);
    let y = arrays::start_y(xy, c);
    address::outside_xy(x, y)
}

fn bad_dest(op: Operation, s: Settings, c: Clipped, d: Drawing) -> bool
    ensures { result ≡ bad_dest op s c d }
{
    let below = negative_start(s.daddr, c);
    let uneven = address::misaligned(s.psize, d.dest.start);
    (operation::to_xy(op) & below) | uneven
}

fn bad_source(op: Operation, s: Settings, c: Clipped, d: Drawing) -> bool
    ensures { result ≡ bad_source op s c d }
{
    if !operation::copies_pixels(operation::source_of(op)) {
        return false;
    }
    let below = negative_start(s.saddr, c);
    let uneven = address::misaligned(s.psize, d.src.start);
    (operation::from_xy(op) & below) | uneven
}

// Does some pixel or source bit lie past the memory's end?
fn leaves(words: usize, op: Operation, d: Drawing) -> bool
    ensures { result ≡ leaves words op d }
{
    let dest = extent::leaves_memory(words, d.dest, d.cols, d.rows);
    if !operation::copies(operation::source_of(op)) {
        return dest;
    }
    let src = extent::leaves_memory(words, d.src, d.cols, d.rows);
    dest | src
}

// Are there pixels to draw, and is a start bad?
fn bad_start(op: Operation, s: Settings, c: Clipped, d: Drawing) -> bool
    ensures { result ≡ bad_start op s c d }
{
    let dest = bad_dest(op, s, c, d);
    let source = bad_source(op, s, c, d);
    (plot::pixels(d) != 0) & (dest | source)
}
