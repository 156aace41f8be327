// What PIXT and DRAV for C share: bad arguments, and the four results in an array.
#![tactic(auto)]

ghost use Rattle.std.specs.Prelude.{◌≡◌, true, false, ◌||◌, ltb};
ghost use Rattle.std.proofs.lemmas.List.Edits.{sets};
ghost use Rattle.settings.specs.Settings.{settings_of};
ghost use Rattle.pixt.specs.Pixt.{pixel_left};
ghost use Rattle.c_arrays.specs.Out.{is_set};
ghost use Rattle.c_arrays.specs.Settings.{bad_settings};
ghost use Rattle.c_lone.specs.Pixel.{pixel_result_count, bad_pixel, pixel_numbers, Unchanged, Called};

use answers::Refused;
use c_arrays::{BAD_CALL, flag_number};
use pixt::PixelResult;
use settings::Settings;

// How many results there are (`pixel_result_count` of the specs).
pub const PIXEL_RESULTS: usize = 4;

// A call on one pixel: unless its arguments are bad, the call is made with the settings and V, its
// results are handed out, and it answers. `register` is the last result of a refused call.
pub fn pixel_call<F: FnOnce(&mut [u16], Settings, bool) -> Result<PixelResult, Refused>>(
    memory: &mut [u16],
    settings: &[u32],
    v: u32,
    register: u32,
    out: &mut [u32],
    call: F,
) -> u32
    requires { F.IsAlwaysCallable call }
    ensures bad { bad_pixel settings.now out.old ≡ true
        → Unchanged memory.old memory.new out.old out.new result }
    ensures called { bad_pixel settings.now out.old ≡ false
        → Called (F.post call) memory.old settings.now v register out.old
        result memory.new out.new }
{
    if bad_pixel(settings, out.len()) {
        return BAD_CALL;
    }
    let s = c_arrays::settings_in(settings);
    let done = call(memory, s, v != 0);
    hand_out(
        out,
        done.unwrap_or(PixelResult::refused(s, v != 0, register)),
    );
    answers::answer(&done)
}

// Are the settings bad, or is there no room for the results?
pub fn bad_pixel(settings: &[u32], room: usize) -> bool
    ensures { result ≡ ltb room pixel_result_count || bad_settings settings.now }
{
    (room < PIXEL_RESULTS) | c_arrays::bad_settings(settings)
}

// Stores the results of a lone pixel at the array's start.
pub fn hand_out(out: &mut [u32], r: PixelResult)
    ensures { out.new ≡ sets out.old 0 (pixel_numbers r) }
{
    let results = [
        r.visited,
        flag_number(r.v),
        flag_number(r.request),
        r.register,
    ];
    c_arrays::store_numbers(out, &results);
}
