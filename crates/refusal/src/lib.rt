// The refusals 10 to 17 of the calls that take settings.
#![tactic(auto)]

ghost use Rattle.std.specs.Prelude.{◌≡◌};
ghost use Rattle.refusal.specs.Refusal.{refusal_table, lowest, bad_window_of};

use answers::Refused;
use settings::Settings;

// What a call tests besides memory, PSIZE and CONTROL: each test is true where its number is given.
// 13, a pitch that is used is bad; 14, the window is; 15, the place is too great; 16, a start is
// bad; 17, some pixel or source bit lies past the memory's end.
#[derive(Clone, Copy)]
pub struct Tests {
    pub pitch: bool,
    pub window: bool,
    pub place: bool,
    pub start: bool,
    pub end: bool,
}

// The refusal of the lowest number that applies, where one does.
pub fn lowest(words: usize, s: Settings, t: Tests) -> Result<(), Refused>
    ensures { result ≡ lowest words s t }
{
    let memory = memory::no_memory(words);
    let size = pixel::bad_pixel_size(s.psize);
    let control = control::bad_control(s.control);
    refusal_table(memory, size, control, t)
}

// The refusal of the lowest number whose test is true, where one is.
fn refusal_table(memory: bool, size: bool, control: bool, t: Tests) -> Result<(), Refused>
    ensures { result ≡ refusal_table memory size control t }
{
    if memory {
        return Err(Refused::Memory);
    }
    if size {
        return Err(Refused::PixelSize);
    }
    if control {
        return Err(Refused::Control);
    }
    if t.pitch {
        return Err(Refused::Pitch);
    }
    if t.window {
        return Err(Refused::Window);
    }
    if t.place {
        return Err(Refused::Place);
    }
    if t.start {
        return Err(Refused::Start);
    }
    if t.end {
        return Err(Refused::End);
    }
    Ok(())
}

// Refusal 14, of a destination that is XY or not.
pub fn bad_window_of(xy: bool, s: Settings) -> bool
    ensures { result ≡ bad_window_of xy s }
{
    let w = control::windowing(s.control);
    let bad = windows::bad_windowing(w, windows::window_of(s.wstart, s.wend));
    xy & bad
}
