// The arrays of a drawing after the window: what is drawn, and both walks.
#![tactic(auto)]

ghost use Rattle.std.specs.Prelude.{◌≡◌};
ghost use Rattle.address.specs.Address.{xy_address};
ghost use Rattle.arrays.specs.Array.{rectangle_of, clipped_array, v_after, start_x, start_y};
ghost use Rattle.arrays.specs.Array.{dest_start, step_of, linear_source, src_start};
ghost use Rattle.arrays.specs.Array.{chosen_walk, dest_walk, src_walk, drawing_of};

use address::HALF;
use operation::Operation;
use plot::{Drawing, Source};
use settings::Settings;
use walk::Walk;
use windows::{Clipped, Rectangle};

// The destination rectangle.
pub fn rectangle_of(s: Settings) -> Rectangle
    ensures { result ≡ rectangle_of s }
{
    Rectangle {
        x: address::x_of(s.daddr),
        y: address::y_of(s.daddr),
        cols: (s.dydx % HALF) as u16,
        rows: (s.dydx / HALF) as u16,
    }
}

// What is drawn, with the request.
#[tactic(auto, unfolding(crate::specs::Array::clipped_array))]
pub fn clipped_array(op: Operation, s: Settings) -> Clipped
    ensures { result ≡ clipped_array op s }
{
    let r = rectangle_of(s);
    if operation::to_xy(op) {
        let window = windows::window_of(s.wstart, s.wend);
        return windows::clip(control::windowing(s.control), r, window);
    }
    Clipped {
        left: 0,
        above: 0,
        cols: r.cols,
        rows: r.rows,
        request: false,
    }
}

// V after the call.
#[tactic(auto, unfolding(crate::specs::Array::v_after))]
pub fn v_after(op: Operation, s: Settings, v: bool) -> bool
    ensures { result ≡ v_after op s v }
{
    if operation::to_xy(op) {
        let r = rectangle_of(s);
        let window = windows::window_of(s.wstart, s.wend);
        return windows::v_under(control::windowing(s.control), r, window, v);
    }
    v
}

// X of an XY start after clipping.
pub fn start_x(xy: u32, c: Clipped) -> u32
    ensures { result ≡ start_x xy c }
{
    u32::from(address::x_of(xy)) + u32::from(c.left)
}

// Y of an XY start after clipping.
pub fn start_y(xy: u32, c: Clipped) -> u32
    ensures { result ≡ start_y xy c }
{
    u32::from(address::y_of(xy)) + u32::from(c.above)
}

// The linear address of an XY start after clipping.
fn xy_start(s: Settings, xy: u32, pitch: u32, c: Clipped) -> u32
    ensures { result ≡ xy_address s.offset pitch s.psize (start_x xy c) (start_y xy c) }
{
    address::xy_address(s.offset, pitch, s.psize, start_x(xy, c), start_y(xy, c))
}

// Where what is drawn of the destination starts.
#[tactic(auto, unfolding(crate::specs::Array::dest_start))]
fn dest_start(op: Operation, s: Settings, c: Clipped) -> u32
    ensures { result ≡ dest_start op s c }
{
    if operation::to_xy(op) {
        return xy_start(s, s.daddr, s.dptch, c);
    }
    s.daddr
}

// Where its source starts.
#[tactic(auto, unfolding(crate::specs::Array::src_start))]
fn src_start(op: Operation, s: Settings, c: Clipped) -> u32
    ensures { result ≡ src_start op s c }
{
    if operation::from_xy(op) {
        return xy_start(s, s.saddr, s.sptch, c);
    }
    walk::address_at(linear_source(op, s), u32::from(c.above), u32::from(c.left))
}

// The walk of a linear source, before clipping.
fn linear_source(op: Operation, s: Settings) -> Walk
    ensures { result ≡ linear_source op s }
{
    let step = step_of(operation::source_of(op), s.psize);
    Walk {
        start: s.saddr,
        pitch: s.sptch,
        step,
    }
}

// From one source pixel to the next: PSIZE bits, or one bit of a B source.
fn step_of(source: Source, psize: u16) -> u32
    ensures { result ≡ step_of source psize }
{
    match source {
        Source::Color => 0,
        Source::Pixels => u32::from(psize),
        Source::Bits => 1,
    }
}

// An array's walk in the chosen order. Most walks are not turned: they cost a test.
fn chosen_walk(op: Operation, s: Settings, c: Clipped, w: Walk) -> Walk
    ensures { result ≡ chosen_walk op s c w }
{
    let right = control::right_to_left(s.control);
    let bottom = control::bottom_to_top(s.control);
    if right | bottom {
        return turned_walk(op, s, c, w);
    }
    w
}

// The same from any corner: PBH and PBV count for PIXBLTs of pixels.
#[tactic(auto, unfolding(crate::specs::Array::chosen_walk))]
fn turned_walk(op: Operation, s: Settings, c: Clipped, w: Walk) -> Walk
    ensures { result ≡ chosen_walk op s c w }
{
    let pixels = operation::copies_pixels(operation::source_of(op));
    let right = control::right_to_left(s.control);
    let bottom = control::bottom_to_top(s.control);
    if operation::walks_to_corner(op) {
        return corner::from_corner(pixels & right, pixels & bottom, c.cols, c.rows, w);
    }
    corner::turned(pixels & right, pixels & bottom, w)
}

// The destination's walk, as the drawing has it.
#[tactic(auto, unfolding(crate::specs::Array::drawing_of))]
pub fn dest_of(op: Operation, s: Settings, c: Clipped) -> Walk
    ensures { result ≡ (drawing_of op s c).dest }
{
    chosen_walk(op, s, c, dest_walk(op, s, c))
}

// The same before an order is chosen.
fn dest_walk(op: Operation, s: Settings, c: Clipped) -> Walk
    ensures { result ≡ dest_walk op s c }
{
    let start = dest_start(op, s, c);
    Walk {
        start,
        pitch: s.dptch,
        step: u32::from(s.psize),
    }
}

// The source's walk before an order is chosen.
fn src_walk(op: Operation, s: Settings, c: Clipped) -> Walk
    ensures { result ≡ src_walk op s c }
{
    let start = src_start(op, s, c);
    let linear = linear_source(op, s);
    Walk {
        start,
        pitch: linear.pitch,
        step: linear.step,
    }
}

// The drawing.
#[tactic(auto, unfolding(crate::specs::Array::drawing_of))]
pub fn drawing_of(op: Operation, s: Settings, c: Clipped) -> Drawing
    ensures { result ≡ drawing_of op s c }
{
    let source = operation::source_of(op);
    let dest = dest_of(op, s, c);
    let src = chosen_walk(op, s, c, src_walk(op, s, c));
    let pp = control::processing(s.control);
    let t = control::transparency(s.control);
    Drawing {
        cols: c.cols,
        rows: c.rows,
        dest,
        source,
        src,
        psize: s.psize,
        pp,
        t,
        pmask: s.pmask,
        color0: (s.color0 % HALF) as u16,
        color1: (s.color1 % HALF) as u16,
    }
}
