// Windows: what is drawn of a rectangle.
#![tactic(auto)]

ghost use Rattle.std.specs.Prelude.{◌≡◌, ◌-◌, max, min};
ghost use Rattle.windows.specs.Window.{window_of, bad_window, bad_windowing, shared, all_in};
ghost use Rattle.windows.specs.Window.{empty, inside, common, meet};
ghost use Rattle.windows.specs.Window.{nothing, unclipped, common_part, clipped, v_under};

use address::negative;

// A rectangle of pixels: its upper left coordinates, each held as itself plus 2^15, its columns and
// its rows.
#[derive(Clone, Copy)]
pub struct Rectangle {
    pub x: u16,
    pub y: u16,
    pub cols: u16,
    pub rows: u16,
}

// A window, which includes its ends; coordinates held as in a rectangle.
#[derive(Clone, Copy)]
pub struct Window {
    pub left: u16,
    pub top: u16,
    pub right: u16,
    pub bottom: u16,
}

// What is drawn of a rectangle: columns skipped at its left, rows skipped above, columns and rows
// kept; the request.
#[derive(Clone, Copy)]
pub struct Clipped {
    pub left: u16,
    pub above: u16,
    pub cols: u16,
    pub rows: u16,
    pub request: bool,
}

// The window of WSTART and WEND.
pub fn window_of(wstart: u32, wend: u32) -> Window
    ensures { result ≡ window_of wstart wend }
{
    Window {
        left: address::x_of(wstart),
        top: address::y_of(wstart),
        right: address::x_of(wend),
        bottom: address::y_of(wend),
    }
}

// Refusal 14.
pub fn bad_window(w: Window) -> bool
    ensures { result ≡ bad_window w }
{
    let beyond = (w.right < w.left) | (w.bottom < w.top);
    let end = negative(w.right.into()) | (negative(w.bottom.into()) | beyond);
    negative(w.left.into()) | (negative(w.top.into()) | end)
}

// Is the window used, and bad?
pub fn bad_windowing(w: u16, window: Window) -> bool
    ensures { result ≡ bad_windowing w window }
{
    let bad = bad_window(window);
    (w != 0) & bad
}

// The common rectangle.
#[tactic(auto, unfolding(crate::specs::Window::common))]
pub fn common_of(r: Rectangle, w: Window) -> Rectangle
    ensures { result ≡ common r w }
{
    Rectangle {
        x: r.x.max(w.left),
        y: r.y.max(w.top),
        cols: shared_by(r.x, r.cols, w.left, w.right),
        rows: shared_by(r.y, r.rows, w.top, w.bottom),
    }
}

// What is drawn of a rectangle under W, a number, as `clipped` and the theorems on windows say it.
#[tactic(auto, unfolding(crate::specs::Window::clipped))]
pub fn clip(w: u16, r: Rectangle, window: Window) -> Clipped
    ensures { result ≡ clipped w r window }
{
    if w == 0 {
        return whole_of(r);
    }
    if is_empty(r) {
        return nothing_of(false);
    }
    if w == 1 {
        return nothing_of(meets(r, window));
    }
    if w == 2 {
        if is_inside(r, window) {
            return whole_of(r);
        }
        return nothing_of(true);
    }
    common_part(r, window)
}

// V after a call with an XY destination, by V as given.
#[tactic(auto, unfolding(crate::specs::Window::v_under))]
pub fn v_under(w: u16, r: Rectangle, window: Window, v: bool) -> bool
    ensures { result ≡ v_under w r window v }
{
    if w == 0 {
        return v;
    }
    if is_empty(r) {
        return false;
    }
    if w == 1 {
        return meets(r, window);
    }
    !is_inside(r, window)
}

// How many of n coordinates from c on are in a window from lo to hi.
fn shared_by(c: u16, n: u16, lo: u16, hi: u16) -> u16
    ensures { result ≡ shared c n lo hi }
{
    let from = u32::from(c.max(lo));
    let end = (u32::from(c) + u32::from(n)).min(u32::from(hi) + 1);
    end.saturating_sub(from) as u16
}

// Are all of n coordinates from c on in a window from lo to hi?
fn all_in(c: u16, n: u16, lo: u16, hi: u16) -> bool
    ensures { result ≡ all_in c n lo hi }
{
    (lo <= c) & (u32::from(c) + u32::from(n) <= u32::from(hi) + 1)
}

// Is DX or DY 0?
fn is_empty(r: Rectangle) -> bool
    ensures { result ≡ empty r }
{
    (r.cols == 0) | (r.rows == 0)
}

// Does the rectangle lie wholly inside the window?
fn is_inside(r: Rectangle, w: Window) -> bool
    ensures { result ≡ inside r w }
{
    all_in(r.x, r.cols, w.left, w.right) & all_in(r.y, r.rows, w.top, w.bottom)
}

// Do the rectangles meet?
fn meets(r: Rectangle, w: Window) -> bool
    ensures { result ≡ meet r w }
{
    !is_empty(common_of(r, w))
}

// Nothing is drawn.
fn nothing_of(request: bool) -> Clipped
    ensures { result ≡ nothing request }
{
    Clipped {
        left: 0,
        above: 0,
        cols: 0,
        rows: 0,
        request,
    }
}

// The whole rectangle is drawn.
fn whole_of(r: Rectangle) -> Clipped
    ensures { result ≡ unclipped r }
{
    Clipped {
        left: 0,
        above: 0,
        cols: r.cols,
        rows: r.rows,
        request: false,
    }
}

// The common part is drawn.
fn common_part(r: Rectangle, w: Window) -> Clipped
    ensures { result ≡ common_part r w }
{
    let kept = common_of(r, w);
    Clipped {
        left: w.left.saturating_sub(r.x),
        above: w.top.saturating_sub(r.y),
        cols: kept.cols,
        rows: kept.rows,
        request: false,
    }
}
