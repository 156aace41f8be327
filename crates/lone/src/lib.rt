// A lone pixel: its refusal, whether it is shown, and where it is.
#![tactic(auto)]

ghost use Rattle.std.specs.Prelude.{◌≡◌};
ghost use Rattle.lone.specs.Lone.{past_end, bad_lone_start, pixel_address, rectangle_at};
ghost use Rattle.lone.specs.Lone.{lone_clip, lone_v, linear_pixel, xy_source, xy_destination};

use answers::Refused;
use refusal::Tests;
use settings::Settings;
use windows::{Clipped, Rectangle};

// A lone pixel: the address at which it is drawn or read, unless the window hides it; V and the
// request.
#[derive(Clone, Copy)]
pub struct Lone {
    pub pixel: Option<u32>,
    pub v: bool,
    pub request: bool,
}

#[tactic(auto, unfolding(crate::specs::Lone::linear_pixel))]
pub fn linear_pixel(words: usize, s: Settings, address: u32, v: bool) -> Result<Lone, Refused>
    ensures { result ≡ linear_pixel words s address v }
{
    let start = address::misaligned(s.psize, address);
    let end = past_end(words, address);
    let tests = Tests {
        pitch: false,
        window: false,
        place: false,
        start,
        end,
    };
    refusal::lowest(words, s, tests)?;
    Ok(Lone {
        pixel: Some(address),
        v,
        request: false,
    })
}

#[tactic(auto, unfolding(crate::specs::Lone::xy_source))]
pub fn xy_source(words: usize, s: Settings, xy: u32, v: bool) -> Result<Lone, Refused>
    ensures { result ≡ xy_source words s xy v }
{
    let address = pixel_address(s, xy);
    let pitch = address::bad_xy_pitch(s.dptch);
    let start = bad_start(s, xy, address);
    let end = past_end(words, address);
    let tests = Tests {
        pitch,
        window: false,
        place: false,
        start,
        end,
    };
    refusal::lowest(words, s, tests)?;
    Ok(Lone {
        pixel: Some(address),
        v,
        request: false,
    })
}

#[tactic(auto, unfolding(crate::specs::Lone::xy_destination))]
pub fn xy_destination(words: usize, s: Settings, xy: u32, v: bool) -> Result<Lone, Refused>
    ensures { result ≡ xy_destination words s xy v }
{
    let address = pixel_address(s, xy);
    let pitch = address::bad_xy_pitch(s.dptch);
    let window = refusal::bad_window_of(true, s);
    let c = windowed(s, xy);
    let shown = !((c.cols == 0) | (c.rows == 0));
    let start = bad_start(s, xy, address);
    let end = past_end(words, address);
    let tests = Tests {
        pitch,
        window,
        place: false,
        start: shown & start,
        end: shown & end,
    };
    refusal::lowest(words, s, tests)?;
    let after = v_after(s, xy, v);
    Ok(Lone {
        pixel: shown.then_some(address),
        v: after,
        request: c.request,
    })
}

// Does an address lie past the memory's end?
fn past_end(words: usize, address: u32) -> bool
    ensures { result ≡ past_end words address }
{
    words as u64 <= u64::from(address / 16)
}

// The linear address of an XY pixel.
fn pixel_address(s: Settings, xy: u32) -> u32
    ensures { result ≡ pixel_address s xy }
{
    address::xy_address(
        s.offset,
        s.dptch,
        s.psize,
        u32::from(address::x_of(xy)),
        u32::from(address::y_of(xy)),
    )
}

// Is X or Y negative, or the linear address no multiple of the pixel size?
fn bad_start(s: Settings, xy: u32, address: u32) -> bool
    requires { address ≡ pixel_address s xy }
    ensures { result ≡ bad_lone_start s xy }
{
    let outside = address::outside_xy(u32::from(address::x_of(xy)), u32::from(address::y_of(xy)));
    outside | address::misaligned(s.psize, address)
}

// The 1 by 1 rectangle that one pixel is for the window.
fn rectangle_at(xy: u32) -> Rectangle
    ensures { result ≡ rectangle_at xy }
{
    Rectangle {
        x: address::x_of(xy),
        y: address::y_of(xy),
        cols: 1,
        rows: 1,
    }
}

// What the window lets be drawn of it.
fn windowed(s: Settings, xy: u32) -> Clipped
    ensures { result ≡ lone_clip s xy }
{
    windows::clip(
        control::windowing(s.control),
        rectangle_at(xy),
        windows::window_of(s.wstart, s.wend),
    )
}

// V after the call.
fn v_after(s: Settings, xy: u32, v: bool) -> bool
    ensures { result ≡ lone_v s xy v }
{
    windows::v_under(
        control::windowing(s.control),
        rectangle_at(xy),
        windows::window_of(s.wstart, s.wend),
        v,
    )
}
